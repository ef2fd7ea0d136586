//! The awaiter that wakes nobody.
ghost use Rattle.std.specs.Prelude.{⊤};

use async_task::Wake;

/// An awaiter that wakes nobody, for a Task that is polled by code which looks again by itself.
#[derive(Clone, Copy, Debug, PartialEq, Eq)]
pub struct Nobody;

impl Wake for Nobody {
    type Record = ();

    ghost woken = { λ _ _. ⊤ };

    ghost woken_by_ref = { λ _ _. ⊤ };

    ghost cloned = { λ _ _. ⊤ };

    ghost compared = { λ _ _ _. ⊤ };

    fn wake(self) {}

    fn wake_by_ref(&self) {}

    fn try_clone(&self) -> Result<Nobody, ()> {
        Ok(Nobody)
    }

    fn will_wake(&self, _other: &Nobody) -> bool {
        true
    }
}
