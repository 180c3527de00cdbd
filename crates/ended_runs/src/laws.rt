//! The law of all runs, the contract of a function that does nothing.

ghost use Rattle.ended_runs.specs.Ended.{RunsEnd};

/// Where a run of a module's loops is refused by the loops, it has too many steps.
pub fn runs_end()
    ensures { RunsEnd }
{}
