//! What awaiters of a mailbox have in common, so that code which makes them may be generic in their type.
ghost use Rattle.std.specs.Prelude.{ℕ, IfSome};
ghost use Rattle.std.specs.Arc.{arc_value};
ghost use Rattle.executor_parts.specs.declared.mailbox.Mailbox.{Mailbox};

use crate::listener::Listener;
use crate::mailbox::Mailbox;
use async_task::Wake;
use std::sync::{Arc, Wait};

/// An awaiter that can be made to post a number to a mailbox by each of its wakes. A type may have awaiters beside these that wake in other ways.
pub trait Posts<R: Wait + Drop + Copy>: Wake {
    /// Who may be told of a post to such a mailbox.
    type Listener: Listener;

    // Whether this awaiter posts that number to that mailbox.
    ghost posts: { Self → Mailbox R Self.Listener → ℕ → Type 0 };

    /// An awaiter that posts `number` to `mailbox`, for a number below the room of the mailbox: a post of another number does nothing.
    ///
    /// It asks for no memory. `None` says that the mailbox has as many owners as can be counted.
    fn of_mailbox(mailbox: &Arc<Mailbox<R, Self::Listener>>, number: usize) -> Option<Self>
        ensures { IfSome result (λ awaiter. posts awaiter (arc_value mailbox.now) number) };
}
