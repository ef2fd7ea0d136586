//! A pool of two workers: two tasks add numbers side by side, and this thread is a worker until it has both sums, which are proved to be these.
#![tactic(auto)]

ghost use Rattle.std.specs.Prelude.{◌≡◌, ◌+◌, ⊤, IfOk};
ghost use Rattle.task_core.specs.Poll.{IfReady};

use async_task::{Future, Poll, Wake, Yields};
use executor::{BellAwaiter, Pool, Turns};
use std::sync::Wait;
use std::{io, thread};

/// A future that adds two numbers at its second poll.
#[derive(Drop)]
struct Sum {
    left: u32,
    right: u32,
    begun: bool,
}

impl Yields for Sum {
    type Output = u64;

    // A poll leaves the numbers as they are, and answers no number but their sum.
    ghost moves = { λ before answer after. (after.left ≡ before.left) × (after.right ≡ before.right) × IfReady answer (λ sum. sum ≡ before.left + before.right) };
}

impl<W: Wake> Future<W> for Sum {
    ghost polled = { λ _ _ _ _. ⊤ };

    fn poll(&mut self, waker: &W) -> Poll<u64> {
        if self.begun {
            return Poll::Ready(u64::from(self.left) + u64::from(self.right));
        }
        self.begun = true;
        waker.wake_by_ref();
        Poll::Pending
    }
}

fn sum_of(left: u32, right: u32) -> Sum
    ensures { (result.left ≡ left) × (result.right ≡ right) }
{
    Sum {
        left,
        right,
        begun: false,
    }
}

/// Spawns two tasks that add the numbers of a pair each, and is a worker until it has both sums.
fn add_both<'x, R: Wait + Drop + Copy>(
    pool: &'x Pool<R, Sum, BellAwaiter<R>>,
    turns: &mut Turns<'x, R, Sum, BellAwaiter<R>>,
    first: (u32, u32),
    second: (u32, u32),
) -> io::Result<(u64, u64)>
    ensures sums { IfOk result (λ sums. (sums.0 ≡ first.0 + first.1) × (sums.1 ≡ second.0 + second.1)) }
{
    let mut one = pool.spawn(sum_of(first.0, first.1))?;
    let mut other = pool.spawn(sum_of(second.0, second.1))?;
    let sum = turns.block_on(&mut one)?;
    Ok((sum, turns.block_on(&mut other)?))
}

fn main(rt: HostRuntime) -> io::Result<()> {
    let pool: Pool<_, Sum, BellAwaiter<_>> = Pool::new(rt, rt.alloc(), 2)?;
    let mut turns = pool.turns(0)?;
    let (_, sums) = thread::join(
        &rt,
        || pool.run(1).is_ok(),
        || {
            let sums = add_both(&pool, &mut turns, (20, 22), (1000, 24));
            pool.shutdown();
            sums
        },
    );
    println!(rt; "{sums:?}")
}
