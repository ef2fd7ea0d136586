//! Which act is meant by a word that names none.

use std::alloc::{AllocError, Global};
use strsim::levenshtein;
use task_core::acts::{Act, NAMES};

// A name that is more edits away is not meant.
const EDITS: usize = 3;

// A character has at most this many bytes.
const CHARACTER: usize = 4;

/// The act whose name is the fewest edits away, the first one in the order of the table where there are several. `None` where each is more than three
/// away. A word that is too long to be near a name is not compared with it.
pub fn nearest(alloc: Global, word: &str) -> Result<Option<Act>, AllocError> {
    let mut nearest = None;
    let mut fewest = EDITS + 1;
    for &(act, name) in &NAMES {
        if word.len() > name.len().saturating_add(EDITS * CHARACTER) {
            continue;
        }
        let edits = levenshtein(alloc, word, name)?;
        if edits < fewest {
            nearest = Some(act);
            fewest = edits;
        }
    }
    Ok(nearest)
}
