//! Pieces of a text.

ghost use Rattle.std.specs.Prelude.{◌≡◌, ◌++◌, OnOk, decimal};

use given_text::PrintFault;
use itoa::Buffer;

pub fn put(text: &mut Vec<u8>, more: &[u8]) -> Result<(), PrintFault>
    ensures { OnOk result (text.new.items ≡ text.old.items ++ more.now) }
{
    text.extend_from_slice(more)?;
    Ok(())
}

pub fn put_number(text: &mut Vec<u8>, number: u64) -> Result<(), PrintFault>
    ensures { OnOk result (text.new.items ≡ text.old.items ++ decimal number) }
{
    put(text, Buffer::new().format(number).as_bytes())
}
