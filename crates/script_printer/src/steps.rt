//! Paths, certificates, steps and final lines.

ghost use Rattle.std.specs.Prelude.{◌≡◌, ◌++◌, OnOk, flat_map};
ghost use Rattle.script_printer.specs.Script.{line_text, further_line, lines_text, certificate_text, position_text, path_text, step_text, final_text};

use crate::fault::PrintFault;
use crate::writer::Writer;
use linear_cert::{FinalLine, Line, Lines};
use schedule_script::Step;
use term_tree::Path;

impl Writer {
    fn put_line(&mut self, line: &Line) -> Result<(), PrintFault>
        ensures { OnOk result (self.new ≡ self.old ++ line_text line.now) }
    {
        self.put_number(u64::from(line.fact))?;
        self.put(b": ")?;
        self.put_signed(line.multiplier)
    }

    fn put_further_lines(&mut self, all: &[Line]) -> Result<(), PrintFault>
        ensures { OnOk result (self.new ≡ self.old ++ flat_map further_line all.now) }
    {
        for line in all {
            self.put(b", ")?;
            self.put_line(line)?;
        }
        Ok(())
    }

    fn put_lines(&mut self, all: &[Line]) -> Result<(), PrintFault>
        ensures { OnOk result (self.new ≡ self.old ++ lines_text all.now) }
    {
        match all {
            [] => Ok(()),
            [first, further @ ..] => {
                self.put_line(first)?;
                self.put_further_lines(further)
            }
        }
    }

    fn put_given(&mut self, all: &[Line]) -> Result<(), PrintFault>
        ensures { OnOk result (self.new ≡ self.old ++ certificate_text (Lines.Given all.now)) }
    {
        self.put(b" by {")?;
        self.put_lines(all)?;
        self.put(b"}")
    }

    fn put_certificate(&mut self, lines: &Lines) -> Result<(), PrintFault>
        ensures { OnOk result (self.new ≡ self.old ++ certificate_text lines.now) }
    {
        match lines {
            Lines::Default => self.put(b" by default"),
            Lines::Given(all) => self.put_given(all.as_slice()),
        }
    }

    fn put_certificates(&mut self, all: &[Lines]) -> Result<(), PrintFault>
        ensures { OnOk result (self.new ≡ self.old ++ flat_map certificate_text all.now) }
    {
        for lines in all {
            self.put_certificate(lines)?;
        }
        Ok(())
    }

    fn put_positions(&mut self, all: &[u32]) -> Result<(), PrintFault>
        ensures { OnOk result (self.new ≡ self.old ++ flat_map position_text all.now) }
    {
        for position in all {
            self.put(b".")?;
            self.put_number(u64::from(*position))?;
        }
        Ok(())
    }

    pub fn put_path(&mut self, path: &Path) -> Result<(), PrintFault>
        ensures { OnOk result (self.new ≡ self.old ++ path_text path.now) }
    {
        self.put_number(u64::from(path.output))?;
        self.put_positions(path.steps.as_slice())
    }

    pub fn put_step(&mut self, step: &Step) -> Result<(), PrintFault>
        ensures { OnOk result (self.new ≡ self.old ++ step_text step.now) }
    {
        self.put(b"at ")?;
        self.put_path(&step.path)?;
        self.put(b" do ")?;
        self.put(step.rule.as_str().as_bytes())?;
        self.put_arguments(step.args.as_slice())?;
        self.put_certificates(step.lines.as_slice())?;
        self.put(b";\n")
    }

    pub fn put_final(&mut self, line: &FinalLine) -> Result<(), PrintFault>
        ensures { OnOk result (self.new ≡ self.old ++ final_text line.now) }
    {
        self.put(b"goal ")?;
        self.put_number(u64::from(line.goal))?;
        self.put_certificate(&line.lines)?;
        self.put(b";\n")
    }
}
