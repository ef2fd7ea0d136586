//! The awaiter that wakes a task of the kit.
ghost use Rattle.std.specs.Prelude.{⊤, ◌≡◌, false, IfSome};
ghost use Rattle.std.specs.Arc.{arc_value};
ghost use Rattle.futures.specs.Task.{Hears, IsArmed, Keeps};
ghost use Rattle.executor_parts.specs.KitAnswers.{SharesSlot};

use crate::kit::slot::Slot;
use async_task::Wake;
use futures::spin;
use futures::task::{Context, Poll};
use std::alloc::{AllocError, Allocator, Global};
use std::sync::Arc;

/// An awaiter that a poll has only as it leaves the kit's waker there, so that no wake of its comes before that.
#[derive(Drop)]
pub(crate) struct Unregistered<B: Allocator> {
    awaiter: KitAwaiter<B>,
}

impl<B: Allocator> Unregistered<B> {
    // An awaiter of its own, as `KitAwaiter::new` makes it.
    pub(crate) fn new(alloc: B) -> Result<Unregistered<B>, AllocError> {
        let awaiter = KitAwaiter::new(alloc)?;
        Ok(Unregistered { awaiter })
    }

    // Leaves the waker of the task that polls, and gives the awaiter. `None` where the lock was not had, which no run sees.
    pub(crate) fn register<T: Drop>(
        &self,
        cx: &mut Context<'_>,
    ) -> Option<(Poll<T>, &KitAwaiter<B>)>
        ensures pending { IfSome result (λ registered. registered.0 ≡ Poll.Pending) }
        ensures awaiter { IfSome result (λ registered. registered.1.now ≡ self.now.awaiter) }
        ensures armed { IfSome result (λ _. IsArmed cx.new) }
        ensures heard { IfSome result (λ _. Hears cx.new (arc_value self.now.awaiter.slot).source.id) }
        ensures kept { Keeps cx.old cx.new }
    {
        match self.awaiter.register(cx) {
            Some(pending) => Some((pending, &self.awaiter)),
            None => None,
        }
    }
}

/// An awaiter whose wake takes the kit's waker that was registered last, and wakes it.
#[derive(Drop)]
pub struct KitAwaiter<B: Allocator = Global> {
    slot: Arc<Slot, B>,
}

impl<B: Allocator> KitAwaiter<B> {
    /// An awaiter with no waker yet. Its memory comes from `alloc`. An `Err` says that it was refused; nothing stays allocated then.
    /// No clause says that no waker is there, since its place is under a lock.
    pub fn new(alloc: B) -> Result<KitAwaiter<B>, AllocError> {
        let slot = Arc::new(alloc, Slot::new())?;
        Ok(KitAwaiter { slot })
    }

    // Leaves the waker of the task that polls. `None` where the lock was not had, which no run sees.
    fn register<T: Drop>(&self, cx: &mut Context<'_>) -> Option<Poll<T>>
        ensures pending { IfSome result (λ poll. poll ≡ Poll.Pending) }
        ensures armed { IfSome result (λ _. IsArmed cx.new) }
        ensures heard { IfSome result (λ _. Hears cx.new (arc_value self.now.slot).source.id) }
        ensures kept { Keeps cx.old cx.new }
    {
        let mut waker = spin::lock(&self.slot.waker)?;
        Some(cx.register(&self.slot.source, &mut *waker))
    }
}

impl<B: Allocator> Wake for KitAwaiter<B> {
    type Record = ();

    ghost woken = { λ _ _. ⊤ };

    ghost woken_by_ref = { λ _ _. ⊤ };

    ghost cloned = { SharesSlot };

    ghost compared = { λ _ _ answer. answer ≡ false };

    fn wake(self) {
        self.wake_by_ref();
    }

    // The waker is woken after the lock is given back.
    fn wake_by_ref(&self) {
        self.slot.take().wake();
    }

    fn try_clone(&self) -> Result<KitAwaiter<B>, ()> {
        let Ok(slot) = Arc::try_clone(&self.slot) else {
            return Err(());
        };
        Ok(KitAwaiter { slot })
    }

    // Two shares of a slot cannot be told to be of one: a wake too many polls the kit's task once more.
    fn will_wake(&self, _other: &KitAwaiter<B>) -> bool {
        false
    }
}
