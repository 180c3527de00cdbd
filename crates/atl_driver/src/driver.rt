// The top call.
ghost use Rattle.std.specs.Prelude.{◌≡◌, ◌≤◌, ◌⊎◌, ℕ, List, length, Some, None};
ghost use Rattle.atl_edges.specs.Causes.{Rose};
ghost use Rattle.atl_edges.specs.Pieces.{Appended};
ghost use Rattle.atl_driver.specs.Compile.{decided};
ghost use Rattle.atl_driver.specs.Form.{Form, form_of};
ghost use Rattle.atl_driver.specs.Line.{line_of};
ghost use Rattle.atl_driver.specs.Outcome.{IsText, IsCause, status_after, status_of};
ghost use Rattle.atl_driver.specs.Reading.{EachIs, NoneRose, GoesOn};
ghost use Rattle.atl_driver.specs.Told.{IsWhole, IsCut};
ghost use Rattle.atl_driver.specs.declared.refusal.Refusal.{Refusal as Reason};

use crate::Status;
use crate::decide::decide;
use crate::report::report;
use atl_edges::{Files, Sink};
use std::alloc::Global;

/// Does what the words after the program's name ask for: the top call.
pub fn atl<F: Files, O: Sink, E: Sink>(
    alloc: Global,
    words: &[String],
    files: &mut F,
    out: &mut O,
    err: &mut E,
) -> Status
    // After Done the whole text stands on `out`, and nothing came to `err`.
    ensures done { result ≡ Status.Done → (text : List ℕ)
        × IsText F.held F.faults F.taken files.old files.new (form_of words.now) text
        × Appended (O.written out.old) (O.written out.new) text
        × (err.new ≡ err.old) }

    // A refusal has its cause. Its line stands on `err`, and nothing came to `out`.
    ensures refused { (refusal : Reason) → result ≡ status_of refusal →
        IsCause F.held F.faults F.taken files.old files.new (form_of words.now) refusal
        × Appended (E.written err.old) (E.written err.new) (line_of refusal)
        × (out.new ≡ out.old) }

    // After WriteFault a put of the text that was due has failed, or one of the line that was due.
    ensures write_fault { result ≡ Status.WriteFault →
        ((text : List ℕ)
        × IsText F.held F.faults F.taken files.old files.new (form_of words.now) text
        × IsCut O.written O.faults out.old out.new text result
        × (err.new ≡ err.old))
        ⊎ ((refusal : Reason)
        × IsCause F.held F.faults F.taken files.old files.new (form_of words.now) refusal
        × IsCut E.written E.faults err.old err.new (line_of refusal) result
        × (out.new ≡ out.old)) }

    // Where the contents are told and within the limit, and nothing failed, they alone decide.
    ensures complete { (command : Form) (contents : List (List ℕ)) → form_of words.now ≡ Some command
        → EachIs (F.held files.old) command.files contents
        → NoneRose F.faults files.old files.new command.files
        → (Rose (O.faults out.old) (O.faults out.new) → ⊥)
        → (Rose (E.faults err.old) (E.faults err.new) → ⊥)
        → (result ≡ status_after (decided command.verb contents)) ⊎ (result ≡ Status.Memory) }

    // Words of no form are told as such.
    ensures usage { form_of words.now ≡ None
        → (Rose (E.faults err.old) (E.faults err.new) → ⊥)
        → (result ≡ Status.Usage) ⊎ (result ≡ Status.Memory) }

    // Reading ends one byte past the limit of a file.
    ensures taken { (taken : ℕ) → result ≡ Status.TooLong taken → taken ≡ 1048577 }

    // No content changes, and no count falls.
    ensures on { GoesOn F.held F.faults files.old files.new }
    ensures later { (O.faults out.old ≤ O.faults out.new) × (E.faults err.old ≤ E.faults err.new) }
{
    match decide(alloc, words, files) {
        Ok(text) => match out.put(&text) {
            Ok(()) => Status::Done,
            Err(_) => Status::WriteFault,
        },
        Err(refusal) => report(alloc, refusal, err),
    }
}
