//! Worked rows of the cursor over the words of a text, as tests, so that `text_tokens` is not proved with them each time.
#![tactic(auto)]

#[cfg(test)]
mod tests;
