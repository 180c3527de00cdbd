/// What a run is given, and what it tells.
#[derive(Drop, Clone, Copy)]
pub enum Task<'a> {
    /// This given text: the run tells what it leaves.
    OnText(&'a [u8]),
    /// The given text of the trial of so many steps: the run tells the line of the trial.
    OfTrial(u64),
}
