// The adapter over the real files.
ghost use Rattle.std.specs.Prelude.{◌≡◌, ◌≤◌, ℕ, List, length, IfOk, IfSome, IsErrOf, None};
ghost use Rattle.atl_edges.specs.Answers.{is_failed};
ghost use Rattle.atl_edges.specs.Causes.{Rose, faults_after};

use crate::traits::FILE_LIMIT;
use crate::{Files, ReadRefusal};
use std::alloc::Global;
use std::fs::File;
use std::io::Read;
use std::marker::Model;
use std::rt;

const BUFFER: usize = 8_192;

/// The files of the system. It tells no content, and counts each error of the system as a fault.
#[derive(Drop)]
pub struct StdFiles<R: rt::Files + Drop> {
    runtime: R,
    faults: u64,
    taken: usize,
}

impl<R: rt::Files + Drop> Model for StdFiles<R> {
    ghost use Rattle.atl_edges.specs.Adapters.{ReaderState};

    ghost Value = { ReaderState };

    ghost view = { λ files. record { faults = files.faults; taken = files.taken } };
}

impl<R: rt::Files + Drop> StdFiles<R> {
    pub fn new(runtime: R) -> StdFiles<R>
        ensures { result ≡ record { faults = 0; taken = 0 } }
    {
        StdFiles {
            runtime,
            faults: 0,
            taken: 0,
        }
    }
}

// Reads to the end, and at most one byte past the limit.
fn read_whole<S: Read>(
    alloc: Global,
    source: &mut S,
    taken: &mut usize,
) -> Result<Vec<u8>, ReadRefusal>
    ensures within { IfOk result (λ bytes. length bytes.items ≤ 1048576) }
    ensures content { IfOk result (λ bytes. IfSome (S.remaining source.old) (λ content. bytes.items ≡ content)) }
    ensures too_long { IsErrOf result ReadRefusal.TooLong → taken.new ≡ 1048577 }
    ensures took_all { IfOk result (λ bytes. taken.new ≡ length bytes.items) }
    ensures ends { taken.new ≤ 1048577 }
{
    let mut bytes = Vec::new(alloc);
    let mut buffer = [0u8; BUFFER];
    while bytes.len() <= FILE_LIMIT {
        let room = BUFFER.min(FILE_LIMIT + 1 - bytes.len());
        match source.read(&mut buffer[..room]) {
            Ok(count) => {
                if count == 0 {
                    *taken = bytes.len();
                    return Ok(bytes);
                }
                if bytes.extend_from_slice(&buffer[..count]).is_err() {
                    *taken = bytes.len() + count;
                    return Err(ReadRefusal::Memory);
                }
            }
            Err(_) => {
                *taken = bytes.len();
                return Err(ReadRefusal::Failed);
            }
        }
    }
    *taken = bytes.len();
    Err(ReadRefusal::TooLong)
}

impl<R: rt::Files + Drop> Files for StdFiles<R> {
    ghost held = { λ _ _. None };

    ghost faults = { λ files _. files.faults };

    ghost taken = { λ files _. files.taken };

    fn read(&mut self, alloc: Global, name: &str) -> Result<Vec<u8>, ReadRefusal>
        ensures within { IfOk result (λ bytes. length bytes.items ≤ 1048576) }
        ensures took_all { IfOk result (λ bytes. self.new.taken ≡ length bytes.items) }
        ensures later { (other : List ℕ) → self.old.faults ≤ self.new.faults }
        ensures too_long { IsErrOf result ReadRefusal.TooLong → self.new.taken ≡ 1048577 }
        ensures failed { IsErrOf result ReadRefusal.Failed → Rose self.old.faults self.new.faults }
        // A read ends one byte past the limit, and each error of the system counts one fault, and nothing else.
        ensures ends { self.new.taken ≤ 1048577 }
        ensures counts { self.new.faults ≡ faults_after (is_failed result) self.old.faults }
    {
        self.taken = 0;
        match File::open(&self.runtime, name) {
            Ok(mut file) => {
                let answer = read_whole(alloc, &mut file, &mut self.taken);
                if let Err(ReadRefusal::Failed) = answer {
                    self.faults = self.faults.saturating_add(1);
                }
                answer
            }
            Err(_) => {
                self.faults = self.faults.saturating_add(1);
                Err(ReadRefusal::Failed)
            }
        }
    }
}
