//! Whole scripts.

ghost use Rattle.std.specs.Prelude.{◌≡◌, ◌++◌, IfOk, MatchResult, OnOk, flat_map};
ghost use Rattle.text_tokens.specs.Kinds.{Text};
ghost use Rattle.schedule_script.specs.Script.{ScriptText};
ghost use Rattle.script_printer.specs.Printable.{IsPrintable, ReadsBack};
ghost use Rattle.script_printer.specs.Script.{step_text, final_text, further_path, parallel_text, body_text, script_text};
ghost use Rattle.script_printer.specs.declared.fault.PrintFault.TheVariants.{Memory};

use crate::fault::PrintFault;
use crate::writer::Writer;
use linear_cert::FinalLine;
use schedule_script::{Script, Step};
use std::alloc::Global;
use term_tree::Path;

impl Writer {
    fn put_steps(&mut self, all: &[Step]) -> Result<(), PrintFault>
        ensures { OnOk result (self.new ≡ self.old ++ flat_map step_text all.now) }
    {
        for step in all {
            self.put_step(step)?;
        }
        Ok(())
    }

    fn put_finals(&mut self, all: &[FinalLine]) -> Result<(), PrintFault>
        ensures { OnOk result (self.new ≡ self.old ++ flat_map final_text all.now) }
    {
        for line in all {
            self.put_final(line)?;
        }
        Ok(())
    }

    fn put_further_paths(&mut self, all: &[Path]) -> Result<(), PrintFault>
        ensures { OnOk result (self.new ≡ self.old ++ flat_map further_path all.now) }
    {
        for path in all {
            self.put(b", ")?;
            self.put_path(path)?;
        }
        Ok(())
    }

    fn put_parallel(&mut self, all: &[Path]) -> Result<(), PrintFault>
        ensures { OnOk result (self.new ≡ self.old ++ parallel_text all.now) }
    {
        match all {
            [] => Ok(()),
            [first, further @ ..] => {
                self.put(b"parallel ")?;
                self.put_path(first)?;
                self.put_further_paths(further)?;
                self.put(b";\n")
            }
        }
    }

    /// What follows the first line.
    fn put_body(&mut self, script: &Script) -> Result<(), PrintFault>
        ensures { OnOk result (self.new ≡ self.old ++ body_text script.now) }
    {
        self.put_steps(script.steps.as_slice())?;
        self.put_finals(script.finals.as_slice())?;
        self.put_parallel(script.parallel.as_slice())
    }

    fn put_script(&mut self, script: &Script) -> Result<(), PrintFault>
        ensures { OnOk result (self.new ≡ self.old ++ script_text script.now) }
    {
        self.put(b"schedule 1;\n")?;
        self.put_body(script)
    }
}

/// The canonical text of a script: one step, final line or section a line, parentheses only where they are needed. Time
/// is linear in the text.
pub fn print_script(alloc: Global, script: &Script) -> Result<Vec<u8>, PrintFault>
    ensures text { MatchResult result (λ text. text.items ≡ script_text script.now) (λ fault. fault ≡ Memory) }
    ensures reads_back { IsPrintable script.now → IfOk result (λ text. ReadsBack text.items script.now) }
    // A script that was read from some text is printable.
    ensures of_text { (z : Text) → ScriptText z script.now → IfOk result (λ text. ReadsBack text.items script.now) }
{
    let mut writer = Writer::new(alloc);
    match writer.put_script(script) {
        Ok(()) => Ok(writer.into_bytes()),
        Err(fault) => Err(fault),
    }
}
