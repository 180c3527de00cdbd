//! The law of all modules that are read, the contract of a function that does nothing.

ghost use Rattle.atl_printer.specs.ReadPrintable.{WhatIsReadIsPrintable};

/// A module of which some text is a source is printable, so that `print_module` may be called on whatever was read.
pub fn what_is_read_is_printable()
    ensures { WhatIsReadIsPrintable }
{}
