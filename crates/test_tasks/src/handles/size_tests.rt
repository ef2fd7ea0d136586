//! How many bytes a task takes: one allocation, of the larger of future and output, the awaiter, and a head.
//! Of what is only tested (docs/PROOFS.md): Memory and limits.
ghost use Rattle.std.specs.Prelude.{⊤};

use async_task::{Future, Poll, Task, Wake, Yields, spawn};
use rows_fixtures::counting::Counting;
use rows_fixtures::surroundings::Nowhere;
use std::alloc::Global;
use std::marker::PhantomData;
use std::process::Abort;
use std::sync::Wait;

// The most that a task takes beside its future or output and its awaiter: two words, the limit, the reference to the allocator that counts, and what
// tells what is in the two places.
const HEAD: u64 = 48;

// Values of 64, 2,000 and 4,096 bytes.
type Small = [u64; 8];

type Wide = [u64; 250];

type Page = [u64; 512];

// A future of the size of `P`, with an output of that of `T`, which it never answers.
#[derive(Drop)]
struct Waits<P: Drop, T: Drop> {
    _payload: P,
    output: PhantomData<T>,
}

impl<P: Drop, T: Drop> Yields for Waits<P, T> {
    type Output = T;
}

impl<W, P: Drop, T: Drop> Future<W> for Waits<P, T> {
    ghost polled = { λ _ _ _ _. ⊤ };

    fn poll(&mut self, _waker: &W) -> Poll<T> {
        Poll::Pending
    }
}

// An awaiter of the size of `P`, which wakes nobody.
#[derive(Drop)]
struct Deaf<P: Drop> {
    _payload: P,
}

impl<P: Drop> Wake for Deaf<P> {
    type Record = ();

    ghost woken = { λ _ _. ⊤ };

    ghost woken_by_ref = { λ _ _. ⊤ };

    ghost cloned = { λ _ _. ⊤ };

    ghost compared = { λ _ _ _. ⊤ };

    fn wake(self) {}

    fn wake_by_ref(&self) {}

    fn try_clone(&self) -> Result<Deaf<P>, ()> {
        Err(())
    }

    fn will_wake(&self, _other: &Deaf<P>) -> bool {
        false
    }
}

// How many allocations a spawn makes, and of how many bytes, with values of these types. Stops where there is no memory.
fn taken<R: Wait + Abort + Drop + Copy, P: Drop, T: Drop, A: Drop>(
    rt: R,
    alloc: Global,
    payload: P,
    output: PhantomData<T>,
    _awaiter: PhantomData<A>,
) -> (u64, u64) {
    let counting = Counting::new(alloc);
    let future = Waits {
        _payload: payload,
        output,
    };
    let spawned = spawn(rt, &counting, future, Nowhere, ()).expect(&rt, "refused");
    let (runnable, task): (_, Task<_, _, _, _, Deaf<A>, (), _>) = spawned;
    let asked = (counting.allocations(), counting.bytes());
    drop(task);
    drop(runnable);
    asked
}

// Whether a task is one allocation, of at most these bytes and a head.
fn fits((allocations, bytes): (u64, u64), values: u64) -> bool {
    allocations == 1 && bytes.saturating_sub(values) <= HEAD
}

// The values that are summed: the larger of future and output, and the awaiter.
#[test]
fn a_task_takes_the_larger_of_future_and_output_and_its_awaiter(rt: HostRuntime) {
    let alloc = rt.alloc();
    let nothing: PhantomData<()> = PhantomData;
    let word: PhantomData<u64> = PhantomData;
    let small: PhantomData<Small> = PhantomData;
    let wide: PhantomData<Wide> = PhantomData;
    let page: PhantomData<Page> = PhantomData;
    let empty = taken(rt, alloc, (), nothing, nothing);
    let words = taken(rt, alloc, 0u64, word, word);
    let small_future = taken(rt, alloc, [0u64; 8], word, word);
    let small_output = taken(rt, alloc, 0u64, small, word);
    let small_awaiter = taken(rt, alloc, 0u64, word, small);
    let wide_future = taken(rt, alloc, [0u64; 250], nothing, word);
    let wide_both = taken(rt, alloc, [0u64; 250], wide, word);
    let page_both = taken(rt, alloc, [0u64; 512], page, word);
    let wide_awaiter = taken(rt, alloc, (), nothing, wide);
    assert!(rt; fits(empty, 0) && fits(words, 8 + 8));
    assert!(rt;
        fits(small_future, 64 + 8) && fits(small_output, 64 + 8) && fits(small_awaiter, 8 + 64)
    );
    assert!(rt;
        fits(wide_future, 2_000 + 8) && fits(wide_both, 2_000 + 8) && fits(page_both, 4_096 + 8)
    );
    assert!(rt; fits(wide_awaiter, 2_000));
}
