//! How a pool and what it gives are shown, and what its errors say.
use crate::calls::{drop_pool, drop_turns, new_guests, new_pool, turns_of};
use crate::guest::{Errand, Guest};
use executor::{
    BellAwaiter, NextMemberError, PoolSpawnError, SpawnRefusal, Store, TurnsError, place_for_waker,
};
use std::alloc::Global;
use std::error::Error;
use std::fmt::Debug;
use std::io;
use std::process::Abort;
use std::sync::Wait;

fn shown<R: Abort, T: Debug>(rt: &R, alloc: Global, value: &T) -> String {
    format!(in alloc; "{value:?}").expect(rt, "refused")
}

// The text of an error, and that of its `io::Error`.
fn told<R: Abort, E: Error>(rt: &R, alloc: Global, error: E) -> [String; 2]
where
    io::Error: From<E>,
{
    let text = format!(in alloc; "{error}").expect(rt, "refused");
    [
        text,
        format!(in alloc; "{}", io::Error::from(error)).expect(rt, "refused"),
    ]
}

// A pool of two workers, and the turns of the first.
fn show_pool<R: Wait + Abort + Drop + Copy>(rt: R, alloc: Global) -> [String; 2] {
    let pool = new_pool(rt, alloc, 2);
    let turns = turns_of(&pool, 0);
    let texts = [shown(&rt, alloc, &pool), shown(&rt, alloc, &turns)];
    drop_turns(turns);
    drop_pool(pool);
    texts
}

#[test]
fn a_pool_and_its_turns_are_shown(rt: HostRuntime) {
    let [pool, turns] = show_pool(rt, rt.alloc());
    assert!(rt; pool.as_str() == "Pool { workers: 2, is_shut_down: false, .. }");
    assert!(rt; turns.as_str() == "Turns { worker: 0, .. }");
}

// An awaiter, the bell of a worker, a key, and a store.
fn show_handles<R: Wait + Abort + Drop + Copy>(rt: R, alloc: Global) -> [String; 4] {
    let pool = new_pool(rt, alloc, 2);
    let awaiter: BellAwaiter<R> = BellAwaiter::new(&pool, 1).expect(&rt, "refused");
    let turns = turns_of(&pool, 0);
    let bell = turns.bell().expect(&rt, "refused");
    drop_turns(turns);
    let key = place_for_waker((&pool, 1)).expect(&rt, "refused");
    let store: Store<u64> = Store::new(alloc).expect(&rt, "refused");
    [
        shown(&rt, alloc, &awaiter),
        shown(&rt, alloc, &bell),
        shown(&rt, alloc, &key),
        shown(&rt, alloc, &store),
    ]
}

#[test]
fn handles_of_a_pool_are_shown(rt: HostRuntime) {
    let [awaiter, bell, key, store] = show_handles(rt, rt.alloc());
    assert!(rt; awaiter.as_str() == "BellAwaiter { wakes: Worker(1) }");
    assert!(rt; bell.as_str() == "PoolListener { tells: Worker(0) }");
    assert!(rt; key.as_str() == "Key { number: 1, .. }" && store.as_str() == "Store { .. }");
}

// The refusal of a spawn: how it is shown, what it says, and what it says of itself as an `io::Error`.
fn refused_spawn<R: Wait + Abort + Drop + Copy>(
    rt: R,
    alloc: Global,
    reason: SpawnRefusal,
) -> (String, [String; 2]) {
    let guests = new_guests(&rt, alloc, 1);
    let error = PoolSpawnError {
        given: Guest::new(Errand::Stay, &guests).expect(&rt, "refused"),
        reason,
    };
    (shown(&rt, alloc, &error), told(&rt, alloc, error))
}

#[test]
fn errors_of_a_pool_say_why(rt: HostRuntime) {
    let (shown, memory) = refused_spawn(rt, rt.alloc(), SpawnRefusal::NoMemory);
    let (_, stopped) = refused_spawn(rt, rt.alloc(), SpawnRefusal::Stopped);
    let [turns, of_turns] = told(&rt, rt.alloc(), TurnsError::NoSuchWorker);
    let [member, of_member] = told(&rt, rt.alloc(), NextMemberError::ShutDown);
    assert!(rt; shown.as_str() == "PoolSpawnError { reason: NoMemory, .. }");
    assert!(rt;
        memory[0].as_str() == "no memory for the task" && memory[1].as_str() == "out of memory"
    );
    assert!(rt; stopped[0].as_str() == "the pool takes no more tasks" && stopped[1] == stopped[0]);
    assert!(rt; turns.as_str() == "the pool has no worker of this number" && of_turns == turns);
    assert!(rt; member.as_str() == "the pool was shut down" && of_member == member);
}
