// Files in memory.
ghost use Rattle.std.specs.Prelude.{◌≡◌, ◌≤◌, ℕ, List, [], length, Some, option_copied, find, bytes_eq, string_bytes};
ghost use Rattle.atl_edges.specs.Answers.{Answers, within_limit, taken_of};
ghost use Rattle.atl_edges.specs.Causes.{Rose};
ghost use Rattle.atl_edges.specs.Holdings.{content_of, entries_of};
ghost use Rattle.atl_edges.specs.InMemory.{read_answer, after_read, content_or_none};

use crate::listed::is_listed;
use crate::traits::FILE_LIMIT;
use crate::{Files, ReadRefusal};
use std::alloc::Global;
use std::marker::Model;

/// Files that fail at the calls of a list, numbered from 1 over all names, and at a name that is not there.
#[derive(Drop)]
pub struct MemFiles {
    held: Vec<(String, Vec<u8>)>,
    failing: Vec<u64>,
    calls: u64,
    faults: u64,
    taken: usize,
}

impl Model for MemFiles {
    ghost use Rattle.atl_edges.specs.Holdings.{entries_of};
    ghost use Rattle.atl_edges.specs.InMemory.{FilesState};

    ghost Value = { FilesState };

    ghost view = { λ files. record {
      held = entries_of files.held.items;
      failing = files.failing.items;
      calls = files.calls;
      faults = files.faults;
      taken = files.taken;
    } };
}

impl MemFiles {
    /// Of two entries with one name the first counts.
    pub fn new(held: Vec<(String, Vec<u8>)>, failing: Vec<u64>) -> MemFiles
        ensures { result ≡ record { held = entries_of held.items; failing = failing.items; calls = 0; faults = 0; taken = 0 } }
    {
        MemFiles {
            held,
            failing,
            calls: 0,
            faults: 0,
            taken: 0,
        }
    }
}

/// Files of which each can be read. A name that is not there holds no bytes.
#[derive(Drop)]
pub struct SureFiles {
    held: Vec<(String, Vec<u8>)>,
    taken: usize,
}

impl Model for SureFiles {
    ghost use Rattle.atl_edges.specs.Holdings.{entries_of};
    ghost use Rattle.atl_edges.specs.InMemory.{SureState};

    ghost Value = { SureState };

    ghost view = { λ files. record { held = entries_of files.held.items; taken = files.taken } };
}

impl SureFiles {
    /// Of two entries with one name the first counts.
    pub fn new(held: Vec<(String, Vec<u8>)>) -> SureFiles
        ensures { result ≡ record { held = entries_of held.items; taken = 0 } }
    {
        SureFiles { held, taken: 0 }
    }
}

// The first pair of this name.
fn find_pair<'a>(held: &'a [(String, Vec<u8>)], name: &str) -> Option<&'a (String, Vec<u8>)>
    ensures { option_copied result ≡ find (λ pair. bytes_eq (string_bytes pair.0) name.now) held.now }
{
    held.iter().find(|pair| pair.0.as_str() == name)
}

// The content of the first pair of this name.
fn find_content<'a>(held: &'a [(String, Vec<u8>)], name: &str) -> Option<&'a [u8]>
    ensures { option_copied result ≡ content_of (entries_of held.now) name.now }
{
    match find_pair(held, name) {
        Some(pair) => Some(pair.1.as_slice()),
        None => None,
    }
}

// A copy of a content within the limit. It takes no more of a longer one than shows that it is longer.
fn copy_within(alloc: Global, content: &[u8], taken: &mut usize) -> Result<Vec<u8>, ReadRefusal>
    ensures answers { Answers (within_limit content.now) result }
    ensures took { taken.new ≡ taken_of content.now }
{
    if content.len() > FILE_LIMIT {
        *taken = FILE_LIMIT + 1;
        return Err(ReadRefusal::TooLong);
    }
    *taken = content.len();
    match content.to_vec(alloc) {
        Ok(bytes) => Ok(bytes),
        Err(_) => Err(ReadRefusal::Memory),
    }
}

impl Files for MemFiles {
    ghost held = { λ files name. content_of files.held name };

    ghost faults = { λ files _. files.faults };

    ghost taken = { λ files _. files.taken };

    fn read(&mut self, alloc: Global, name: &str) -> Result<Vec<u8>, ReadRefusal>
        ensures answers { Answers (read_answer self.old name.now) result }
        ensures after { self.new ≡ after_read self.old name.now }
        ensures later { (other : List ℕ) → self.old.faults ≤ self.new.faults }
    {
        let listed = is_listed(&self.failing, self.calls);
        self.calls = self.calls.saturating_add(1);
        self.taken = 0;
        if listed {
            self.faults = self.faults.saturating_add(1);
            return Err(ReadRefusal::Failed);
        }
        match find_content(&self.held, name) {
            Some(content) => copy_within(alloc, content, &mut self.taken),
            None => {
                self.faults = self.faults.saturating_add(1);
                Err(ReadRefusal::Failed)
            }
        }
    }
}

impl Files for SureFiles {
    ghost held = { λ files name. Some (content_or_none files.held name) };

    ghost faults = { λ _ _. 0 };

    ghost taken = { λ files _. files.taken };

    fn read(&mut self, alloc: Global, name: &str) -> Result<Vec<u8>, ReadRefusal>
        ensures answers { Answers (within_limit (content_or_none self.old.held name.now)) result }
        ensures after { self.new ≡ record { held = self.old.held; taken = taken_of (content_or_none self.old.held name.now) } }
    {
        let content = find_content(&self.held, name).unwrap_or(&[]);
        copy_within(alloc, content, &mut self.taken)
    }
}
