//! Laws of faults, each the contract of a function that does nothing.

ghost use Rattle.first_fault.specs.First.{AssumeFaultsAreFirst, ConditionFaultsAreFirst};
ghost use Rattle.first_fault.specs.First.{ExtentFaultsAreFirst, IndexFaultsAreFirst, TermFaultsAreFirst};
ghost use Rattle.first_fault.specs.Sources.{SourceFaultsAreFirst, ThousandLevelsAreTheSources};

/// The words before the word of an index's fault are the beginning of an index.
pub fn index_faults_are_first()
    ensures { IndexFaultsAreFirst }
{}

/// The words before the word of an extent's fault are the beginning of an extent.
pub fn extent_faults_are_first()
    ensures { ExtentFaultsAreFirst }
{}

/// The words before the word of a guard's fault are the beginning of a condition.
pub fn condition_faults_are_first()
    ensures { ConditionFaultsAreFirst }
{}

/// The words before the word of an assume's fault are the beginning of a condition over sizes.
pub fn assume_faults_are_first()
    ensures { AssumeFaultsAreFirst }
{}

/// The words before the word of a term's fault are the beginning of a term with one level more.
pub fn term_faults_are_first()
    ensures { TermFaultsAreFirst }
{}

/// The words before the word of a source's fault are the beginning of a source whose terms may have one level more.
pub fn source_faults_are_first()
    ensures { SourceFaultsAreFirst }
{}

/// With 1,000 levels, sources of so many levels are the sources.
pub fn thousand_levels_are_the_sources()
    ensures { ThousandLevelsAreTheSources }
{}
