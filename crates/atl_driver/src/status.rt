use crate::Fault;

/// How a call of the program ends.
#[derive(Drop)]
pub enum Status {
    Done,
    Refused(Fault),
    Usage,
    ReadFault,
    WriteFault,
    Memory,
    /// A file is longer than the limit: how many bytes were taken of it.
    TooLong { taken: u64 },
}
