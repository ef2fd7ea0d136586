//! The memory of this program, as the system tells it.

use std::alloc::Global;
use std::fs::{File, Files};
use std::io;

/// How many bytes of memory the program has now. `None` where the system does not tell.
pub fn resident<R: Files>(rt: &R, alloc: Global) -> Option<u64> {
    let file = File::open(rt, "/proc/self/status").ok()?;
    let text = io::read_to_string(alloc, file).ok()?;
    resident_of(text.as_str())
}

// The bytes that such a text names, in a line as `VmRSS: 1024 kB`.
fn resident_of(text: &str) -> Option<u64> {
    for line in text.lines() {
        if let Some(rest) = line.strip_prefix("VmRSS:") {
            let number = rest.split_whitespace().next()?;
            return number.parse::<u64>().ok()?.checked_mul(1024);
        }
    }
    None
}
