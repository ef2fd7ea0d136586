//! By what the waker of a task is shared.
ghost use Rattle.std.specs.Prelude.{◌≡◌, true, IsNone, IsSome, IfSome};

use async_task::Wake;

/// The waker of a task of an executor that keeps wakers, and gives out shared wakers of type `S` for them. That of the pool has it, and that of an executor with a desk.
pub trait Share<S: Wake>: Wake {
    // Whether a shared waker was made to reach the executor of this waker.
    ghost made: { Self → S → Type 0 };

    /// Has the executor keep a clone of this waker, so that the next wake of `shared` wakes its task. Where `shared` is `None` it is made; else it stays, so that a task has one for all its polls.
    ///
    /// False says that memory or a clone was refused: nobody may be woken by it before a later call.
    fn share(&self, shared: &mut Option<S>) -> bool
        ensures made { IsNone shared.old → IfSome shared.new (made self.now) }
        ensures stays { IsSome shared.old → shared.new ≡ shared.old }
        ensures there { result ≡ true → IsSome shared.new };
}
