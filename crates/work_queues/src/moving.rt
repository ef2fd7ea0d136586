//! Items move from one queue to another.
ghost use Rattle.std.specs.Prelude.{◌≡◌, ◌+◌, ◌-◌, ◌++◌, min};
ghost use Rattle.std.specs.VecDeque.{deque_len, deque_capacity};

use std::alloc::Allocator;
use std::collections::VecDeque;

/// Moves items from the front of `from` to the back of `to`, in their order: at most `most`, and no more than `to` has room for. It asks for no memory.
pub fn shift<T, A: Allocator>(from: &mut VecDeque<T, A>, to: &mut VecDeque<T, A>, most: usize)
    ensures order { to.new.items ++ from.new.items ≡ to.old.items ++ from.old.items }
    ensures count { deque_len to.new ≡ deque_len to.old + min (min most (deque_len from.old)) (deque_capacity to.old - deque_len to.old) }
    ensures capacity { deque_capacity to.new ≡ deque_capacity to.old }
    ensures left { deque_len from.new + deque_len to.new ≡ deque_len from.old + deque_len to.old }
{
    let room = to.capacity() - to.len();
    let count = most.min(from.len()).min(room);
    for _ in 0..count {
        if let Some(item) = from.pop_front() {
            to.push_back_reserved(item);
        }
    }
}
