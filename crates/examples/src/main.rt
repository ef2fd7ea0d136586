//! What users of the library look for, each in a file of its own: the program runs them in turn, and prints what they answer.
#![tactic(auto)]

mod borrowed;
mod boxed;
mod boxed_steps;
mod channel_worker;
mod claim;
mod cleanup;
mod fan;
mod graceful_end;
mod kit_futures;
mod kit_thread;
mod last;
mod line;
mod new_thread;
mod parallel_sum;
mod pooled;
mod priorities;
mod sharing;
mod two_kinds;
mod web;

use boxed::Step;
use boxed_steps::{Brings, Doubles, Place};
use pooled::JobPool;
use std::alloc::{AllocGlobal, Global};
use std::fmt::Debug;
use std::io::{self, Print};
use std::random::RandomSource;
use std::rc::Rc;
use std::sync::Wait;
use std::thread::Threads;
use std::time::Clock;
use two_kinds::Kind;

// Prints the line of an example: its name, and what it answers.
fn print<R: Print + Drop, A: Debug + Drop>(rt: R, name: &str, answer: A) -> io::Result<()> {
    println!(rt; "{name}: {answer:?}")
}

// The tasks that are run by hand, by threads of their own, or one by one.
fn print_first<R: Print + Wait + Threads + Drop + Copy + Send + Sync>(
    rt: R,
    alloc: Global,
) -> io::Result<()> {
    print(rt, "borrowed", borrowed::sum_of(rt, alloc, &[3, 5, 8]))?;
    print(rt, "claim", claim::rest_of(rt, alloc, 142))?;
    print(rt, "cleanup", cleanup::free_permits(rt, alloc))?;
    print(rt, "new_thread", new_thread::primes_below(rt, alloc, 30))?;
    print(
        rt,
        "channel_worker",
        channel_worker::square_of(rt, alloc, 12),
    )?;
    print(rt, "priorities", priorities::order_of(rt, alloc, [2, 9, 5]))?;
    print(
        rt,
        "parallel_sum",
        parallel_sum::sum_in_two(rt, alloc, &[1, 2, 3, 4, 5]),
    )?;
    print(
        rt,
        "two_kinds",
        two_kinds::answer_of(rt, alloc, Kind::Sum(20, 22)),
    )?;
    print(
        rt,
        "two_kinds",
        two_kinds::answer_of(rt, alloc, Kind::Bytes("seven bytes")),
    )
}

// The futures in boxes: only here is it said that they are.
fn print_boxed<R: Print + Wait + Drop + Copy>(rt: R, alloc: Global) -> io::Result<()> {
    let place = Rc::new(alloc, Place::default())?;
    let doubles: Box<dyn Step> = Box::new(alloc, Doubles(place.clone()?))?;
    let brings: Box<dyn Step> = Box::new(alloc, Brings(21, place))?;
    print(rt, "boxed", boxed::answers_of(rt, alloc, [doubles, brings]))
}

// The tasks that are futures of the kit, or wait for one.
fn print_of_kit<R>(rt: R, alloc: Global) -> io::Result<()>
where
    R: Print + RandomSource + AllocGlobal + Wait + Threads + Drop + Copy + Send + Sync,
{
    print(
        rt,
        "kit_futures",
        kit_futures::joined(rt, alloc, [&[1, 2, 3], &[4, 5]]),
    )?;
    print(
        rt,
        "kit_futures",
        kit_futures::selected(rt, alloc, [&[1, 2, 3], &[4, 5]]),
    )?;
    print(rt, "kit_thread", kit_thread::double_of(rt, alloc, 21))
}

// The tasks of pools that know their futures by a type of their own.
fn print_of_pools<R>(rt: R, alloc: Global) -> io::Result<()>
where
    R: Print + Wait + Clock + Threads + Drop + Copy + Send + Sync,
{
    print(rt, "sharing", sharing::sum_of_numbers(rt, alloc))?;
    print(rt, "fan", fan::sum_in_parts(rt, alloc, None))?;
    print(rt, "fan", fan::sum_in_parts(rt, alloc, Some(3)))?;
    print(rt, "web", web::served_and_late(rt, alloc))?;
    print(
        rt,
        "graceful_end",
        graceful_end::left_and_cancelled(rt, alloc),
    )
}

fn main(rt: HostRuntime) -> io::Result<()> {
    let alloc = rt.alloc();
    print_first(rt, alloc)?;
    print_boxed(rt, alloc)?;
    print_of_kit(rt, alloc)?;
    // A pool of two workers: this thread is one, and waits for two tasks.
    let pool = JobPool::new(rt, alloc, 2)?;
    let (mut sum, mut average) = pooled::spawn_both(&pool, 100, 9)?;
    let answers = pool.team()?.start(
        &rt,
        |turns| (turns.block_on(&mut sum), turns.block_on(&mut average)),
    );
    print(rt, "pooled", answers)?;
    print_of_pools(rt, alloc)
}
