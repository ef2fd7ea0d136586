//! A script that has to go as it says.

use rows_fixtures::script::play_alone;
use std::alloc::Global;
use std::process::Abort;
use std::sync::Wait;
use std::thread::Threads;

// Plays a script in surroundings of its own. Stops where a step is not as it says, or something is missing.
pub(crate) fn check_script<R>(rt: R, alloc: Global, text: &str)
where
    R: Wait + Threads + Abort + Drop + Copy + Send + Sync,
{
    match play_alone(rt, alloc, text) {
        Ok(played) => {
            let failed = played.failed;
            assert!(rt; failed.is_none(), "step {failed:?} of {text}");
        }
        Err(missing) => panic!(rt; "{missing}"),
    }
}
