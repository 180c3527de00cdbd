//! The text that is written, to which each function appends.

ghost use Rattle.std.specs.Prelude.{◌≡◌, ◌++◌, OnOk, decimal, []};
ghost use Rattle.std.specs.Fmt.{signed_decimal};

use crate::fault::PrintFault;
use itoa::Buffer;
use std::alloc::Global;
use std::marker::Model;

/// A text of blocks, to which more may be appended.
#[derive(Drop)]
pub struct Writer {
    bytes: Vec<u8>,
}

impl Model for Writer {
    ghost use Rattle.std.specs.Prelude.{List, ℕ};

    ghost Value = { List ℕ };

    ghost view = { λ writer. writer.bytes.items };
}

impl Writer {
    /// A text without blocks.
    pub fn new(alloc: Global) -> Writer
        ensures { result ≡ [] }
    {
        Writer {
            bytes: Vec::new(alloc),
        }
    }

    /// The text.
    pub fn into_bytes(self) -> Vec<u8>
        ensures { result.items ≡ self }
    {
        let Writer { bytes } = self;
        bytes
    }
}

impl Writer {
    pub(crate) fn put(&mut self, text: &[u8]) -> Result<(), PrintFault>
        ensures { OnOk result (self.new ≡ self.old ++ text.now) }
    {
        self.bytes.extend_from_slice(text)?;
        Ok(())
    }

    pub(crate) fn put_number(&mut self, n: u64) -> Result<(), PrintFault>
        ensures { OnOk result (self.new ≡ self.old ++ decimal n) }
    {
        self.put(Buffer::new().format(n).as_bytes())
    }

    pub(crate) fn put_signed(&mut self, n: i64) -> Result<(), PrintFault>
        ensures { OnOk result (self.new ≡ self.old ++ signed_decimal n) }
    {
        self.put(Buffer::new().format(n).as_bytes())
    }
}
