// Reading the files of a command.
ghost use Rattle.std.specs.Prelude.{IfOk, IfErr, map};
ghost use Rattle.atl_driver.specs.Form.{texts};
ghost use Rattle.atl_driver.specs.Reading.{MayBe, EachMayBe, IsReadCause, StopsFor, GoesOn};

use crate::refusal::Refusal;
use atl_edges::{Files, ReadRefusal};
use std::alloc::Global;

fn read_one<F: Files>(alloc: Global, name: &str, files: &mut F) -> Result<Vec<u8>, Refusal>
    ensures content { IfOk result (λ content. MayBe (F.held files.old name.now) content.items) }
    ensures cause { IfErr result (λ refusal. IsReadCause F.held F.faults F.taken files.old files.new refusal name.now) }
    ensures on { GoesOn F.held F.faults files.old files.new }
{
    match files.read(alloc, name) {
        Ok(content) => Ok(content),
        Err(ReadRefusal::Failed) => Err(Refusal::ReadFault),
        Err(ReadRefusal::TooLong) => Err(Refusal::TooLong),
        Err(ReadRefusal::Memory) => Err(Refusal::Memory),
    }
}

/// The contents of the files in order, up to the first that cannot be read.
pub fn read_all<F: Files>(
    alloc: Global,
    names: &[String],
    files: &mut F,
) -> Result<Vec<Vec<u8>>, Refusal>
    ensures contents { IfOk result (λ contents. EachMayBe (F.held files.old) (texts names.now) (map (λ content. content.items) contents.items)) }
    ensures cause { IfErr result (λ refusal. StopsFor F.held F.faults F.taken files.old files.new refusal (texts names.now)) }
    ensures on { GoesOn F.held F.faults files.old files.new }
{
    let mut contents = Vec::new(alloc);
    for name in names {
        match read_one(alloc, name.as_str(), files) {
            Ok(content) => contents.push(content)?,
            Err(refusal) => return Err(refusal),
        }
    }
    Ok(contents)
}
