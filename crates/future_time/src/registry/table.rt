//! What a registry keeps under its lock: the name and the last poll of each future that is watched.
ghost use Rattle.std.specs.Prelude.{◌≡◌, None, Some, IfOk, OnErr};
ghost use Rattle.std.specs.List.{filter_map};
ghost use Rattle.slab.specs.Slab.{get, entries, slab_len, SameValues, Updates};
ghost use Rattle.future_time.specs.declared.registry.table.LastPoll.TheVariants.{NotYet, Running, Ended};
ghost use Rattle.future_time.specs.Watching.{date_of, polled_at, shown_since};

use slab::Slab;
use std::alloc::{AllocError, Global};
use std::time::Instant;

/// How a future stands that is watched.
#[derive(Clone, Copy, Debug, PartialEq, Eq)]
pub enum LastPoll {
    /// It was not polled yet, and is watched since this instant.
    NotYet(Instant),
    /// A poll of it has begun at this instant, and has not returned: if that is long ago, the future blocks its thread.
    Running(Instant),
    /// Its last poll has returned at this instant.
    Ended(Instant),
}

impl LastPoll {
    /// The instant since which it stands so.
    pub fn since(&self) -> Instant
        ensures { result ≡ date_of self.now }
    {
        match *self {
            LastPoll::NotYet(at) | LastPoll::Running(at) | LastPoll::Ended(at) => at,
        }
    }
}

/// A future that is watched, as a registry shows it.
#[derive(Clone, Copy, Debug, PartialEq, Eq)]
pub struct WatchedTask<N> {
    /// The name that it was given.
    pub name: N,
    /// How it stands.
    pub last_poll: LastPoll,
}

/// The place of a future in a registry. It has no `Drop`: it ends in `WatchTable::remove`, so no future is shown that is gone.
pub struct WatchKey {
    key: usize,
}

/// A poll that has begun. It has no `Drop`: it ends in `WatchTable::end`, so a poll whose end is not noted does not compile.
#[must_use]
pub struct Polling {
    key: usize,
}

/// The futures that are watched, under keys.
#[derive(Drop)]
pub struct WatchTable<N: Drop> {
    entries: Slab<WatchedTask<N>>,
}

impl<N: Drop + Copy> WatchTable<N> {
    /// A table without a future. `alloc` is where its memory comes from.
    pub fn new(alloc: Global) -> WatchTable<N>
        ensures { (key : _) → get result.entries key ≡ None }
    {
        WatchTable {
            entries: Slab::new(alloc),
        }
    }

    /// Watches a future of this name, which was not polled yet, from this instant on. Where memory is refused nothing has changed.
    pub fn add(&mut self, name: N, now: Instant) -> Result<WatchKey, AllocError>
        ensures entry { IfOk result (λ key. Updates self.old.entries self.new.entries key.key (Some (record { name = name; last_poll = NotYet now }))) }
        ensures was_free { IfOk result (λ key. get self.old.entries key.key ≡ None) }
        ensures refused { OnErr result (SameValues self.old.entries self.new.entries) }
    {
        self.entries.reserve(1)?;
        let key = self.entries.insert_reserved(WatchedTask {
            name,
            last_poll: LastPoll::NotYet(now),
        });
        Ok(WatchKey { key })
    }

    /// Notes that a poll begins. `now` is the instant, or none where the clock could not be read: then the earlier one stays.
    pub fn begin(&mut self, key: &WatchKey, now: Option<Instant>) -> Polling
        ensures noted { Updates self.old.entries self.new.entries key.now.key (polled_at Running now (get self.old.entries key.now.key)) }
        ensures key { result.key ≡ key.now.key }
    {
        if let Some(task) = self.entries.get_mut(key.key) {
            task.last_poll = LastPoll::Running(now.unwrap_or(task.last_poll.since()));
        }
        Polling { key: key.key }
    }

    /// Notes that a poll has returned. `now` is as at `begin`.
    pub fn end(&mut self, polling: Polling, now: Option<Instant>)
        ensures { Updates self.old.entries self.new.entries polling.key (polled_at Ended now (get self.old.entries polling.key)) }
    {
        let Polling { key } = polling;
        if let Some(task) = self.entries.get_mut(key) {
            task.last_poll = LastPoll::Ended(now.unwrap_or(task.last_poll.since()));
        }
    }

    /// Watches a future no more.
    pub fn remove(&mut self, key: WatchKey)
        ensures gone { Updates self.old.entries self.new.entries key.key None }
    {
        let WatchKey { key } = key;
        drop(self.entries.try_remove(key));
    }

    /// The futures of which no poll has begun or returned since an instant, and which are watched since before it. An error says that memory was refused for the list.
    pub fn not_polled_since(
        &self,
        alloc: Global,
        since: Instant,
    ) -> Result<Vec<WatchedTask<N>>, AllocError>
        ensures { IfOk result (λ shown. shown.items ≡ filter_map (shown_since since) (entries self.now.entries)) }
    {
        let mut shown = Vec::new(alloc);
        for (_, task) in self.entries.iter() {
            if !since.duration_since(task.last_poll.since()).is_zero() {
                shown.push(*task)?;
            }
        }
        Ok(shown)
    }

    /// How many futures are watched.
    pub fn len(&self) -> usize
        ensures { result ≡ slab_len self.now.entries }
    {
        self.entries.len()
    }
}
