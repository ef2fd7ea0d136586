//! The handle by which any thread aborts a member of a group.
ghost use Rattle.std.specs.Prelude.{◌≡◌, IfSome};
ghost use Rattle.std.specs.Arc.{arc_value};

use crate::id::MemberId;
use crate::listener::Listener;
use crate::nobody::Nobody;
use crate::requests::AbortAsked;
use crate::shared::Shared;
use std::sync::{Arc, Wait};

/// Aborts a member of a group, from any thread, without the group and without its Task. `L` is the listener of the group's awaiters.
///
/// It keeps no member and no group: it may outlive both, and keeps only the memory of what the group shares.
#[derive(Drop)]
pub struct AbortHandle<R: Wait + Drop + Copy, L: Listener = Nobody> {
    shared: Arc<Shared<R, L>>,
    id: MemberId,
}

impl<R: Wait + Drop + Copy, L: Listener> AbortHandle<R, L> {
    // `None` says that what the group shares has as many owners as can be counted.
    pub(crate) fn new(shared: &Arc<Shared<R, L>>, id: MemberId) -> Option<AbortHandle<R, L>>
        ensures shared { IfSome result (λ handle. arc_value handle.shared ≡ arc_value shared.now) }
        ensures id { IfSome result (λ handle. handle.id ≡ id) }
    {
        let shared = Arc::try_clone(shared).ok()?;
        Some(AbortHandle { shared, id })
    }

    /// The member.
    pub fn id(&self) -> MemberId
        ensures { result ≡ self.now.id }
    {
        self.id
    }

    /// Asks the group to cancel the member. It wakes who waits for the next member, needs no memory, and does not wait until the member is cancelled.
    ///
    /// The owner of the group cancels it, as `cancel` does, in `next`, `next_until` or `try_next`: at once if it sleeps in one, else in a later call. The
    /// member comes out once its future is gone: closed, or with the output of a task that was completed before. Further requests are nothing, and so is one
    /// for a member that has come out, or that was let go by `abort_all`, `detach_all` or the drop of the group: it never reaches a later member of the number.
    ///
    /// The answer says that the member was asked for, before its number was posted. No clause says what the group does: it looks later, under a lock.
    pub fn abort(&self) -> AbortAsked
        ensures { result.id ≡ self.now.id }
    {
        self.shared.ask(self.id)
    }

    /// One more handle of the member. It asks for no memory. `None` says that there are as many handles as can be counted.
    pub fn try_clone(&self) -> Option<AbortHandle<R, L>>
        ensures shared { IfSome result (λ handle. arc_value handle.shared ≡ arc_value self.now.shared) }
        ensures id { IfSome result (λ handle. handle.id ≡ self.now.id) }
    {
        AbortHandle::new(&self.shared, self.id)
    }
}
