//! Which timer of a wheel is due first.
ghost use Rattle.std.specs.Prelude.{◌≡◌, ◌≤◌, ◌<◌, max, None, IfSome, IfNone};
ghost use Rattle.futures.specs.LinkedLists.Wheel.{key_limit, EachDeadline, SameDeadlines, Sets};
ghost use Rattle.future_time.specs.Orders.{IsNext};

use futures::util::wheel::Wheel;

// Disarms and answers the key whose deadline is the earliest, where that is no later than `until`. The wheel is polled at the time that it asks for: so
// a key that has come due stays before those that come due later.
pub(crate) fn next_key(wheel: &mut Wheel, until: u64) -> Option<usize>
    requires { EachDeadline wheel.old (λ when. wheel.old.elapsed ≤ when) }
    ensures first { IfSome result (IsNext wheel.old until) }
    ensures disarmed { IfSome result (λ key. Sets wheel.old wheel.new key None) }
    ensures none { IfNone result (EachDeadline wheel.new (λ when. until < when)) }
    ensures kept { IfNone result (SameDeadlines wheel.old wheel.new) }
    ensures ahead { EachDeadline wheel.new (λ when. wheel.new.elapsed ≤ when) }
    ensures elapsed { wheel.new.elapsed ≤ max wheel.old.elapsed until }
    ensures limit { key_limit wheel.new ≡ key_limit wheel.old }
{
    while let Some(at) = wheel.poll_at() {
        if at > until {
            return None;
        }
        if let Some(key) = wheel.poll(at) {
            return Some(key);
        }
    }
    None
}
