//! What a store gives back.
use executor::{Key, Store, Walk};
use std::alloc::Global;
use std::process::Abort;
use std::sync::{Arc, Wait};

// A place of a store for worker 0. Stops where there is no memory.
fn reserved<R: Wait + Abort + Drop + Copy, H: Drop>(rt: R, store: &Store<H>) -> Key<R> {
    store.reserve(rt, 0).expect(&rt, "refused")
}

// A place with a share of a number. Stops where there is no memory, or a handle was there.
fn put_share<R: Wait + Abort + Drop + Copy>(
    rt: R,
    store: &Store<Arc<u8>>,
    key: &Key<R>,
    shared: &Arc<u8>,
) -> Option<Arc<u8>> {
    let share = Arc::try_clone(shared).expect(&rt, "refused");
    store.put(&rt, key, share).expect(&rt, "refused")
}

#[test]
fn a_dropped_key_gives_its_place_back(rt: HostRuntime) {
    let shared = Arc::new(rt.alloc(), 7u8).expect(&rt, "refused");
    let store = Store::new(rt.alloc()).expect(&rt, "refused");
    let first = reserved(rt, &store);
    let second = reserved(rt, &store);
    assert!(rt; first.number() != second.number() && store.len(&rt) == 2);
    let was_empty = put_share(rt, &store, &first, &shared).is_none();
    assert!(rt; was_empty && Arc::strong_count(&shared) == 2);
    drop(first);
    let collected = store.collect(&rt);
    assert!(rt; collected.is_some() && store.len(&rt) == 1);
    drop(collected);
    assert!(rt; Arc::strong_count(&shared) == 1);
    let none_left = store.collect(&rt).is_none();
    assert!(rt; none_left && store.take(&rt, second.number()).is_none());
}

// A place that was empty is free after the same call.
#[test]
fn a_collect_goes_on_to_a_place_with_a_handle(rt: HostRuntime) {
    let store = Store::new(rt.alloc()).expect(&rt, "refused");
    let empty = reserved(rt, &store);
    let full = reserved(rt, &store);
    let before = store.put(&rt, &full, 7u8);
    drop(empty);
    drop(full);
    let collected = (store.collect(&rt), store.collect(&rt));
    assert!(rt; (before, collected, store.len(&rt)) == (Ok(None), (Some(7), None), 0));
}

#[test]
fn a_key_of_another_store_is_refused(rt: HostRuntime) {
    let store = Store::new(rt.alloc()).expect(&rt, "refused");
    let other = Store::<u8>::new(rt.alloc()).expect(&rt, "refused");
    let own = reserved(rt, &store);
    let foreign = reserved(rt, &other);
    let kept = store.put(&rt, &own, 1u8);
    let refused = store.put(&rt, &foreign, 2);
    let taken = store.take_of(&rt, &foreign);
    let there = store.take_of(&rt, &own);
    let of_other = other.put(&rt, &foreign, 3);
    let numbers = (own.number(), foreign.number());
    assert!(rt; numbers == (0, 0));
    assert!(rt; (kept, refused, taken) == (Ok(None), Err(2), None));
    assert!(rt; (there, of_other) == (Some(1), Ok(None)));
}

// The handle that was there has its owner still: it was not dropped.
#[test]
fn a_put_over_a_full_place_answers_what_was_there(rt: HostRuntime) {
    let first = Arc::new(rt.alloc(), 1u8).expect(&rt, "refused");
    let second = Arc::new(rt.alloc(), 2u8).expect(&rt, "refused");
    let store = Store::new(rt.alloc()).expect(&rt, "refused");
    let key = reserved(rt, &store);
    let was_empty = put_share(rt, &store, &key, &first).is_none();
    let before = put_share(rt, &store, &key, &second);
    let answers = was_empty && before.is_some();
    let owners = Arc::strong_count(&first);
    let there = store.take_of(&rt, &key).map(|there| *there);
    drop(before);
    assert!(rt; answers && owners == 2 && there == Some(2) && Arc::strong_count(&first) == 1);
}

// A place for each of so many workers, with the worker's number in it.
fn fill_places<R: Wait + Abort + Drop + Copy>(
    rt: R,
    alloc: Global,
    store: &Store<usize>,
    workers: usize,
) -> Vec<Key<R>> {
    let mut keys = Vec::new(alloc);
    for worker in 0..workers {
        let key = store.reserve(rt, worker).expect(&rt, "refused");
        store.put(&rt, &key, worker).expect(&rt, "refused");
        keys.push(key).expect(&rt, "refused");
    }
    keys
}

// How many keys have the number of their worker at their place, which is empty after it.
fn count_own<R: Wait + Drop + Copy>(rt: R, store: &Store<usize>, keys: &[Key<R>]) -> usize {
    let mut own = 0usize;
    for (worker, key) in keys.iter().enumerate() {
        if store.take(&rt, key.number()) == Some(worker) {
            own = own.saturating_add(1);
        }
    }
    own
}

// What a walk takes out of all places: how many numbers, and their sum.
fn walk_places<R: Wait + Drop + Copy>(rt: R, store: &Store<usize>) -> (usize, usize) {
    let mut walk = Walk::default();
    let mut taken = (0usize, 0usize);
    for _ in rt.forever() {
        match store.take_next(&rt, &mut walk) {
            Some(worker) => {
                taken = (taken.0.saturating_add(1), taken.1.saturating_add(worker));
            }
            None => return taken,
        }
    }
    unreachable!()
}

// A store has eight parts, so two of ten workers share a part with another one.
#[test]
fn each_worker_has_a_place_of_its_own(rt: HostRuntime) {
    let store = Store::new(rt.alloc()).expect(&rt, "refused");
    let keys = fill_places(rt, rt.alloc(), &store, 10);
    let own = count_own(rt, &store, keys.as_slice());
    let again = count_own(rt, &store, keys.as_slice());
    assert!(rt; (own, again, store.len(&rt)) == (10, 0, 10));
}

// The numbers of ten workers sum up to 45. The places stay those of their keys.
#[test]
fn a_walk_takes_each_handle_once(rt: HostRuntime) {
    let store = Store::new(rt.alloc()).expect(&rt, "refused");
    let keys = fill_places(rt, rt.alloc(), &store, 10);
    let first = walk_places(rt, &store);
    let second = walk_places(rt, &store);
    assert!(rt; (first, second, store.len(&rt)) == ((10, 45), (0, 0), 10));
    drop(keys);
}
