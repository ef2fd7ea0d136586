//! Groups of a line, the handles that abort their members, and what comes out of them.
use super::line::{Line, LineGroup};
use async_task::TaskClosed;
use executor_parts::{AbortHandle, AwaiterRefused, TaskGroup};
use std::process::Abort;
use std::sync::Wait;

/// The number and the answer of a member that came out.
pub type CameOut = Option<(usize, Result<u64, TaskClosed>)>;

/// An empty group with that room. Stops where there is no memory.
pub fn group_of<R: Wait + Abort + Drop + Copy>(line: &Line<R>, room: usize) -> LineGroup<'_, R> {
    TaskGroup::new(line.rt, line.alloc, room).expect(&line.rt, "refused")
}

/// The handle that aborts the member of this number. Stops where there is none.
pub fn abort_handle_of<R: Wait + Abort + Drop + Copy>(
    line: &Line<R>,
    group: &LineGroup<'_, R>,
    number: usize,
) -> AbortHandle<R> {
    group.abort_handle(number).expect(&line.rt, "refused")
}

/// Waits for the next member: `None` where there is none.
pub fn next_of<R: Wait + Drop + Copy>(group: &mut LineGroup<'_, R>) -> CameOut {
    match group.next() {
        Ok(Some(ended)) => Some((ended.number, ended.answer)),
        _ => None,
    }
}

/// Looks for a member that has ended.
pub fn look<R: Wait + Drop + Copy>(
    group: &mut LineGroup<'_, R>,
) -> Result<CameOut, AwaiterRefused> {
    match group.try_next() {
        Ok(Some(ended)) => Ok(Some((ended.number, ended.answer))),
        Ok(None) => Ok(None),
        Err(refused) => Err(refused),
    }
}
