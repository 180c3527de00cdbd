//! Why a C text is not executed.

use run_text::RunFault;

/// The first fault of a C text that is executed.
#[derive(Clone, Copy, Debug, PartialEq, Eq)]
pub enum ExecFault {
    /// The C text is none of the subset; the first place that breaks a rule.
    BadC { at: u64 },
    /// What is given, or the run.
    Run(RunFault),
}
