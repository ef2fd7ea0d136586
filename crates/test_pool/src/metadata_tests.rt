//! Tests of the metadata of tasks of a pool: what the handles show.
ghost use Rattle.std.specs.Prelude.{⊤};

use async_task::{Builder, Future, Poll, TaskPoll, Yields};
use executor::{Pool, PoolTask, Turns};
use executor_parts::Nobody;
use std::alloc::Global;
use std::process::Abort;
use std::sync::Wait;

/// A future that answers its number at its first poll, whatever it is lent.
#[derive(Drop)]
struct Numbered {
    number: u64,
}

impl Yields for Numbered {
    type Output = u64;
}

impl<W> Future<W> for Numbered {
    ghost polled = { λ _ _ _ _. ⊤ };

    fn poll(&mut self, _waker: &W) -> Poll<u64> {
        Poll::Ready(self.number)
    }
}

// A pool whose tasks have numbers as metadata.
type NumberedPool<R> = Pool<R, Numbered, Nobody, Global, u64>;

type NumberedTask<'x, R> = PoolTask<'x, R, Numbered, Nobody, Global, u64>;

type NumberedTurns<'x, R> = Turns<'x, R, Numbered, Nobody, Global, u64>;

// Runs the next task: the metadata that its Runnable shows.
fn run_next<'x, R: Wait + Drop + Copy>(turns: &mut NumberedTurns<'x, R>) -> Option<u64> {
    let runnable = turns.next()?;
    let number = *runnable.metadata();
    runnable.run();
    Some(number)
}

// The metadata of a task that has run, and its output.
fn number_and_output<'x, R: Wait + Drop + Copy>(mut task: NumberedTask<'x, R>) -> (u64, u64) {
    let number = *task.metadata();
    let output = match task.poll(&Nobody) {
        TaskPoll::Ready(Ok(output)) => output,
        _ => 0,
    };
    drop(task);
    (number, output)
}

// What the Runnables of two tasks with the metadata 7 and 9 show, in the order in which they run, and what their Tasks show and answer. A future answers ten
// times its metadata.
fn run_two<R: Wait + Abort + Drop + Copy>(
    rt: R,
    alloc: Global,
) -> ([Option<u64>; 3], [(u64, u64); 2]) {
    let pool = NumberedPool::new(rt, alloc, 1).expect(&rt, "refused");
    let first = pool
        .spawn_with(
            Builder::new().metadata(7),
            |number: &u64| Numbered {
                number: number.saturating_mul(10),
            },
        )
        .expect(&rt, "refused");
    let second = pool
        .spawn_on_with(
            1,
            Builder::new().metadata(9),
            |number: &u64| Numbered {
                number: number.saturating_mul(10),
            },
        )
        .expect(&rt, "refused");
    let mut turns = pool.turns(0).expect(&rt, "refused");
    let ran = [
        run_next(&mut turns),
        run_next(&mut turns),
        run_next(&mut turns),
    ];
    drop(turns);
    (ran, [number_and_output(first), number_and_output(second)])
}

#[test]
fn handles_of_a_pool_show_the_metadata(rt: HostRuntime) {
    let (ran, seen) = run_two(rt, rt.alloc());
    assert!(rt; ran == [Some(7), Some(9), None]);
    assert!(rt; seen == [(7, 70), (9, 90)]);
}
