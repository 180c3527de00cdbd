// The words of the command line.
ghost use Rattle.std.specs.Prelude.{◌≡◌, Some};
ghost use Rattle.atl_driver.specs.Form.{is_file_word, form_of, form_with, command_seen, all_file_words, run_form, takes, trial_form};
ghost use Rattle.atl_driver.specs.Form.{trial_number as number_of, verb_named};

/// What a command does with its files.
#[derive(Clone, Copy, Debug, PartialEq, Eq)]
pub enum Verb {
    /// Writes the C text of a source, under a script where one is named.
    Compile,
    /// Writes the versions of a source under a script.
    Stages,
    /// Writes what a script has to show of a source, and the facts that may show it.
    Facts,
    /// Writes what a run of a source on a given text under a script leaves.
    Run,
    /// Writes what a source that is accepted under a script denotes of a given text, by the plain evaluator.
    Plain,
    /// Writes what a run of a C text on a given text leaves.
    Exec,
    /// Writes the line of the trial of so many steps.
    Trial(u64),
}

/// A command, and the words that name its files in order.
#[derive(Clone, Copy)]
pub struct Command<'a> {
    pub verb: Verb,
    pub files: &'a [String],
}

fn is_file_word(word: &str) -> bool
    ensures { result ≡ is_file_word word.now }
{
    match word.as_bytes() {
        [] => false,
        [first, ..] => *first != b'-',
    }
}

fn all_file_words(words: &[String]) -> bool
    ensures { result ≡ all_file_words words.now }
{
    words.iter().all(|word| is_file_word(word.as_str()))
}

fn verb_named(name: &str) -> Option<Verb>
    ensures { result ≡ verb_named name.now }
{
    match name {
        "compile" => Some(Verb::Compile),
        "stages" => Some(Verb::Stages),
        "facts" => Some(Verb::Facts),
        "exec" => Some(Verb::Exec),
        _ => None,
    }
}

/// The number of a trial.
fn trial_number(word: &[u8]) -> Option<u64>
    ensures { result ≡ number_of word.now }
{
    match word {
        [digit] if 49 <= *digit && *digit <= 57 => Some(*digit as u64 - 48),
        [ten, digit] if *ten == 49 && 48 <= *digit && *digit <= 54 => Some(*digit as u64 - 38),
        _ => None,
    }
}

/// Whether a command takes so many files.
fn takes(verb: Verb, files: usize) -> bool
    ensures { result ≡ takes verb files }
{
    match verb {
        Verb::Compile => files == 1 || files == 2,
        Verb::Stages => files == 2,
        Verb::Facts => files == 2,
        Verb::Run => files == 3,
        Verb::Plain => files == 3,
        Verb::Exec => files == 2,
        Verb::Trial(_) => files == 0,
    }
}

/// The command with the words behind it.
fn command_with(verb: Verb, files: &[String]) -> Option<Command<'_>>
    ensures { command_seen result ≡ form_with (Some verb) files.now }
{
    if all_file_words(files) && takes(verb, files.len()) {
        Some(Command { verb, files })
    } else {
        None
    }
}

/// The run with the words behind it.
fn run_command(words: &[String]) -> Option<Command<'_>>
    ensures { command_seen result ≡ run_form words.now }
{
    let (option, files) = words.split_first()?;
    if option.as_str() == "--plain" {
        return command_with(Verb::Plain, files);
    }
    command_with(Verb::Run, words)
}

/// The trial with the words behind it.
fn trial_command(words: &[String]) -> Option<Command<'_>>
    ensures { command_seen result ≡ trial_form words.now }
{
    let (number, files) = words.split_first()?;
    let steps = trial_number(number.as_bytes())?;
    command_with(Verb::Trial(steps), files)
}

/// The command, if the words are of a form.
pub fn read_command(words: &[String]) -> Option<Command<'_>>
    ensures { command_seen result ≡ form_of words.now }
{
    let (name, words) = words.split_first()?;
    if name.as_str() == "run" {
        return run_command(words);
    }
    if name.as_str() == "trial" {
        return trial_command(words);
    }
    let verb = verb_named(name.as_str())?;
    command_with(verb, words)
}
