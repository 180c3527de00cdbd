//! Given texts, where what reading asks for is found to hold.

use given_text::{GivenFault, read_given};
use loop_run::Given;
use sqlite_items::Items;
use std::alloc::{AllocError, Global};

fn strings(alloc: Global, names: &[&str]) -> Result<Vec<String>, AllocError> {
    let mut strings = Vec::new(alloc);
    for name in names {
        strings.push(String::from_str(alloc, *name)?)?;
    }
    Ok(strings)
}

/// What a text gives to these names, of which so many first ones are those of sizes.
pub fn given(
    alloc: Global,
    names: &[&str],
    sizes: usize,
    text: &[u8],
) -> Result<Given, GivenFault> {
    let Ok(names) = strings(alloc, names) else {
        return Err(GivenFault::Memory);
    };
    if sizes > names.len() || text.len() > 2_147_483_647 {
        return Err(GivenFault::Memory);
    }
    read_given(alloc, &names, sizes, text)
}

/// Whether words are these.
pub fn are(found: &Items<u64>, words: &[u64]) -> bool {
    if found.len() != words.len() {
        return false;
    }
    for at in 0..words.len() {
        if found.as_slice()[at] != words[at] {
            return false;
        }
    }
    true
}
