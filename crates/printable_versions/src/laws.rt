//! The law of all versions, the contract of a function that does nothing.

ghost use Rattle.printable_versions.specs.Versions.{VersionsArePrintable};

/// The versions that the steps of a script make of a printable module are printable.
pub fn versions_are_printable()
    ensures { VersionsArePrintable }
{}
