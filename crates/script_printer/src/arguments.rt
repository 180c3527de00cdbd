//! Arguments of rules.

ghost use Rattle.std.specs.Prelude.{◌≡◌, ◌++◌, OnOk, flat_map};
ghost use Rattle.script_printer.specs.Script.{relation_text, comparison_text, and_comparison, condition_text, argument_text, further_argument, arguments_text};

use crate::fault::PrintFault;
use crate::level::Level;
use crate::writer::Writer;
use affine_index::Rel;
use schedule_script::{ArgTree, Comparison};

fn relation(rel: Rel) -> &'static [u8]
    ensures { result.now ≡ relation_text rel }
{
    match rel {
        Rel::Lt => b" < ",
        Rel::Le => b" <= ",
        Rel::Gt => b" > ",
        Rel::Ge => b" >= ",
        Rel::Eq => b" == ",
    }
}

impl Writer {
    fn put_comparison(&mut self, comparison: &Comparison) -> Result<(), PrintFault>
        ensures { OnOk result (self.new ≡ self.old ++ comparison_text comparison.now) }
    {
        self.put_index(comparison.left.get(), Level::Sum)?;
        self.put(relation(comparison.rel))?;
        self.put_index(comparison.right.get(), Level::Sum)
    }

    fn put_further_comparisons(&mut self, all: &[Comparison]) -> Result<(), PrintFault>
        ensures { OnOk result (self.new ≡ self.old ++ flat_map and_comparison all.now) }
    {
        for comparison in all {
            self.put(b" and ")?;
            self.put_comparison(comparison)?;
        }
        Ok(())
    }

    fn put_condition(&mut self, all: &[Comparison]) -> Result<(), PrintFault>
        ensures { OnOk result (self.new ≡ self.old ++ condition_text all.now) }
    {
        match all {
            [] => Ok(()),
            [first, further @ ..] => {
                self.put_comparison(first)?;
                self.put_further_comparisons(further)
            }
        }
    }

    fn put_argument(&mut self, argument: &ArgTree) -> Result<(), PrintFault>
        ensures { OnOk result (self.new ≡ self.old ++ argument_text argument.now) }
    {
        match argument {
            ArgTree::Ix(index) => self.put_index(index.get(), Level::Sum),
            ArgTree::Cond(all) => self.put_condition(all.as_slice()),
        }
    }

    fn put_further_arguments(&mut self, all: &[ArgTree]) -> Result<(), PrintFault>
        ensures { OnOk result (self.new ≡ self.old ++ flat_map further_argument all.now) }
    {
        for argument in all {
            self.put(b", ")?;
            self.put_argument(argument)?;
        }
        Ok(())
    }

    pub fn put_arguments(&mut self, all: &[ArgTree]) -> Result<(), PrintFault>
        ensures { OnOk result (self.new ≡ self.old ++ arguments_text all.now) }
    {
        match all {
            [] => Ok(()),
            [first, further @ ..] => {
                self.put(b"(")?;
                self.put_argument(first)?;
                self.put_further_arguments(further)?;
                self.put(b")")
            }
        }
    }
}
