//! A registry of futures by name: when each was polled last, for a console or a watchdog.
ghost use Rattle.std.specs.Prelude.{◌≡◌, IfErr, IfOk, IfSome, IsNone, IsSome, IsSomeAnd, MatchOption};
ghost use Rattle.std.specs.Arc.{arc_value};
ghost use Rattle.future_time.specs.Leaving.{StaysIfPending};

use std::alloc::{AllocError, Global};
use std::sync::{Arc, Mutex, Wait};
use std::time::{Clock, Instant};
use table::{Polling, WatchKey, WatchTable, WatchedTask};
use task_core::{Future, Poll, Yields};

pub(crate) mod table;

/// A registry of futures that are watched. All clones share it, under one lock.
///
/// A name is a `Copy` value, such as a `&'static str` or a number. Each poll of a future that is watched takes the lock and reads the clock twice. Threads that poll many short ones do so with less waiting in several registries.
#[derive(Drop)]
pub struct TaskRegistry<R: Wait + Clock + Drop + Copy, N: Drop + Copy> {
    rt: R,
    alloc: Global,
    table: Arc<Mutex<WatchTable<N>>>,
}

impl<R: Wait + Clock + Drop + Copy, N: Drop + Copy> TaskRegistry<R, N> {
    /// A registry of no futures yet. `rt` is what its calls take the lock by and its clock, `alloc` where its memory comes from. An error says that memory was refused. It has no clause, since no contract sees through the lock: `WatchTable::new` has.
    pub fn new(rt: R, alloc: Global) -> Result<TaskRegistry<R, N>, AllocError> {
        let table = Arc::new(alloc, Mutex::new(WatchTable::new(alloc)))?;
        Ok(TaskRegistry { rt, alloc, table })
    }

    /// A second handle to the same registry. It asks for no memory. `None` says that there are as many as can be counted.
    pub fn try_clone(&self) -> Option<TaskRegistry<R, N>>
        ensures { IfSome result (λ other. arc_value other.table ≡ arc_value self.now.table) }
    {
        let table = Arc::try_clone(&self.table).ok()?;
        Some(TaskRegistry {
            rt: self.rt,
            alloc: self.alloc,
            table,
        })
    }

    // A place in the registry, from this call on.
    fn add(&self, name: N) -> Option<Watch<R, N>>
        ensures one { IfSome result (λ watch. arc_value watch.registry.table ≡ arc_value self.now.table) }
        ensures key { IfSome result (λ watch. IsSome watch.key) }
    {
        let registry = self.try_clone()?;
        let now = Instant::now(&self.rt).ok()?;
        let key = self.table.lock(&self.rt).add(name, now).ok()?;
        Some(Watch {
            registry,
            key: Some(key),
        })
    }

    /// The future, which is watched under this name until it is ready or dropped. Names need not differ.
    ///
    /// Its memory is asked for here, and its polls need none. An error hands the future back: memory was refused, the clock could not be read, or the registry has as many owners as can be counted.
    pub fn watch<F: Yields>(&self, name: N, future: F) -> Result<Watched<R, F, N>, F>
        ensures future { IfOk result (λ watched. watched.future ≡ future) }
        ensures one { IfOk result (λ watched. arc_value watched.watch.registry.table ≡ arc_value self.now.table) }
        ensures watched { IfOk result (λ watched. IsSome watched.watch.key) }
        ensures refused { IfErr result (λ back. back ≡ future) }
    {
        match self.add(name) {
            Some(watch) => Ok(Watched { future, watch }),
            None => Err(future),
        }
    }

    /// The futures of which no poll has begun or returned since an instant of the registry's clock, and which are watched since before it. A watchdog gives the instant some seconds ago; what a console shows of all is the list for one that lies ahead. An error says that memory was refused for the list. It has no clause, as `new`: `WatchTable::not_polled_since` has.
    pub fn not_polled_since(&self, since: Instant) -> Result<Vec<WatchedTask<N>>, AllocError> {
        self.table
            .lock(&self.rt)
            .not_polled_since(self.alloc, since)
    }

    /// How many futures are watched. It has no clause, as `new`: `WatchTable::len` has.
    pub fn len(&self) -> usize {
        self.table.lock(&self.rt).len()
    }
}

// The place of a future in a registry, until it leaves.
struct Watch<R: Wait + Clock + Drop + Copy, N: Drop + Copy> {
    registry: TaskRegistry<R, N>,
    key: Option<WatchKey>,
}

impl<R: Wait + Clock + Drop + Copy, N: Drop + Copy> Drop for Watch<R, N> {
    fn drop(self) {
        let Watch { registry, key } = self;
        if let Some(key) = key {
            registry.table.lock(&registry.rt).remove(key);
        }
    }
}

impl<R: Wait + Clock + Drop + Copy, N: Drop + Copy> Watch<R, N> {
    // The time on the clock, if it can be read.
    fn now(&self) -> Option<Instant> {
        Instant::now(&self.registry.rt).ok()
    }

    // Notes that a poll begins. `None` where the future has left the registry.
    fn begin(&self) -> Option<Polling>
        ensures { MatchOption self.now.key (IsNone result) (λ key. IsSomeAnd result (λ polling. polling.key ≡ key.key)) }
    {
        let key = self.key.as_ref()?;
        let now = self.now();
        let begun = self.registry.table.lock(&self.registry.rt).begin(key, now);
        Some(begun)
    }

    // Notes that a poll has returned. It has no clause, as `TaskRegistry::new`: `WatchTable::end` has.
    fn end(&self, polling: Option<Polling>) {
        if let Some(polling) = polling {
            let now = self.now();
            self.registry
                .table
                .lock(&self.registry.rt)
                .end(polling, now);
        }
    }

    // Leaves the registry.
    fn leave(&mut self)
        ensures left { IsNone self.new.key }
        ensures one { self.new.registry ≡ self.old.registry }
    {
        if let Some(key) = self.key.take() {
            self.registry.table.lock(&self.registry.rt).remove(key);
        }
    }
}

/// A future that a registry watches until it is ready or dropped.
#[derive(Drop)]
pub struct Watched<R: Wait + Clock + Drop + Copy, F: Yields, N: Drop + Copy> {
    future: F,
    watch: Watch<R, N>,
}

impl<R: Wait + Clock + Drop + Copy, F: Yields, N: Drop + Copy> Yields for Watched<R, F, N> {
    type Output = F::Output;

    ghost meets = { F.Yields.meets };

    ghost moves = { λ old answer new. F.Yields.moves old.future answer new.future };
}

impl<R: Wait + Clock + Drop + Copy, F: Future<W>, N: Drop + Copy, W> Future<W>
    for Watched<R, F, N> {
    // The future was polled by this waker, once, and has left the registry exactly if it is ready.
    ghost polled = { λ old waker answer new. F.polled old.future waker answer new.future × StaysIfPending answer old.watch.key new.watch.key };

    fn poll(&mut self, waker: &W) -> Poll<F::Output> {
        let polling = self.watch.begin();
        let answer = self.future.poll(waker);
        self.watch.end(polling);
        if let Poll::Ready(_) = answer {
            self.watch.leave();
        }
        answer
    }
}
