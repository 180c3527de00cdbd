//! Laws of refused C texts, as the contracts of functions that do nothing.

ghost use Rattle.c_first_fault.specs.First.{FaultsAreFirst, TextsAreShaped};

/// The words before the place at which the reader of texts refuses a text are the beginning of a text by the grammar of C where neither
/// kinds nor levels nor numbers of 32 bits count; and the words of each C text are such words.
pub fn faults_are_first(text: &[u8])
    ensures first { FaultsAreFirst text.now }
    ensures shaped { TextsAreShaped text.now }
{
    let _ = text.len();
}
