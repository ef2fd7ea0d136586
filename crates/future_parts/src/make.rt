//! The functions whose names differ from those of the futures that they make in a capital alone: no module may have both.
ghost use Rattle.std.specs.Prelude.{◌≡◌, Some};
ghost use Rattle.future_parts.specs.declared.joining.half.Half.TheVariants.{Awaited};

use crate::instant::{Pending, Ready};
use crate::joining::Join;
use crate::joining::half::Half;
use crate::racing::Race;
use std::marker::PhantomData;
use task_core::Yields;

/// A future whose first poll answers `value`. It is pending after that, and wakes nobody.
pub fn ready<T: Drop>(value: T) -> Ready<T>
    ensures { result.value ≡ Some value }
{
    Ready { value: Some(value) }
}

/// A future that is never ready, and wakes nobody. A task that awaits it alone ends by a cancel. Its type has one value, so it has no clause.
pub fn pending<T: Drop>() -> Pending<T> {
    Pending {
        output: PhantomData,
    }
}

/// A future that awaits both, and answers both outputs, in this order. Each poll polls those that are not ready yet, the first one before the second. One that is ready is dropped at once, and its output kept.
pub fn join<A: Yields, B: Yields>(first: A, second: B) -> Join<A, B>
    ensures { (result.first ≡ Awaited first) × (result.second ≡ Awaited second) }
{
    Join {
        first: Half::Awaited(first),
        second: Half::Awaited(second),
    }
}

/// A future that answers the output of the one which is ready first. Each poll polls the first one, and, where that is pending, the second one: so the first one has the precedence. Both are dropped with the race.
pub fn race<A: Yields, B: Yields>(first: A, second: B) -> Race<A, B>
    ensures { (result.first ≡ first) × (result.second ≡ second) }
{
    Race { first, second }
}
