// The two edges, by what a proof may know of them.
ghost use Rattle.std.specs.Prelude.{◌≡◌, ◌≤◌, ℕ, List, [], length, IfOk, OnOk, OnErr, IfSome, IsErrOf, IsOk};
ghost use Rattle.std.specs.declared.option.Option.{Option};
ghost use Rattle.atl_edges.specs.Causes.{Rose};
ghost use Rattle.atl_edges.specs.Pieces.{Appended, AppendedPrefix};

use crate::{ReadRefusal, SinkFailed};
use std::alloc::Global;

/// The most bytes that a file may have.
pub const FILE_LIMIT: usize = 1_048_576;

/// Files that are read by name, each as a whole.
pub trait Files {
    /// The content of a name, where it is told. No call changes it.
    ghost held: { Self → List ℕ → Option (List ℕ) };

    /// How often reading this name has failed. No call lets it fall.
    ghost faults: { Self → List ℕ → ℕ };

    /// Directly after a call on this name, the number of bytes that it took. Reading ends one byte past the
    /// limit, where it shows that the content is too long.
    ghost taken: { Self → List ℕ → ℕ };

    /// The whole content of a file, of at most 1,048,576 bytes.
    fn read(&mut self, alloc: Global, name: &str) -> Result<Vec<u8>, ReadRefusal>
        ensures within { IfOk result (λ bytes. length bytes.items ≤ 1048576) }
        ensures content { IfOk result (λ bytes. IfSome (held self.old name.now) (λ content. bytes.items ≡ content)) }
        ensures same { (other : List ℕ) → held self.new other ≡ held self.old other }
        ensures took { IfSome (held self.old name.now) (λ content. taken self.new name.now ≤ length content) }
        ensures took_all { IfOk result (λ bytes. taken self.new name.now ≡ length bytes.items) }
        ensures later { (other : List ℕ) → faults self.old other ≤ faults self.new other }
        ensures failed { IsErrOf result ReadRefusal.Failed → Rose (faults self.old name.now) (faults self.new name.now) }
        ensures too_long { IsErrOf result ReadRefusal.TooLong → taken self.new name.now ≡ 1048577 };
}

/// What pieces of text are put to, one after another.
pub trait Sink {
    /// All that was appended, where it is told.
    ghost written: { Self → Option (List ℕ) };

    /// How often a put has failed. No call lets it fall.
    ghost faults: { Self → ℕ };

    /// Appends the piece, or a prefix of it where it fails. It takes no memory. A sink that takes nothing of a
    /// piece that is not empty has failed.
    fn put(&mut self, piece: &[u8]) -> Result<(), SinkFailed>
        ensures whole { OnOk result (Appended (written self.old) (written self.new) piece.now) }
        ensures prefix { OnErr result (AppendedPrefix (written self.old) (written self.new) piece.now) }
        ensures later { faults self.old ≤ faults self.new }
        ensures failed { OnErr result (Rose (faults self.old) (faults self.new)) }
        ensures empty { piece.now ≡ [] → IsOk result × (self.new ≡ self.old) };
}
