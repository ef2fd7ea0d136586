//! The mailbox: order, numbers that wait already, the room, and two threads that sleep at it.
use async_task::Wake;
use executor_parts::{Awaiter, Mailbox, left_until};
use std::alloc::{AllocError, Global};
use std::io;
use std::process::Abort;
use std::sync::atomic::{AtomicU64, Ordering};
use std::sync::{Arc, Wait};
use std::thread::{self, Threads};
use std::time::{Clock, Duration, Instant};

// How often two threads wait at a mailbox. In some of these rounds both of them sleep as the numbers come.
const ROUNDS: usize = 20;

// How many milliseconds the third thread sleeps before it posts: nobody sees who sleeps at a mailbox.
const SLEEP: u64 = 1;

// Posts 2, 0, 2 and 3 to a mailbox with room for three numbers, one by an awaiter, and takes out what is there: whether each post
// but the last was answered yes, and 2 and 0 came out, and no more before the awaiter posted again.
fn post_and_take<R: Wait + Abort + Drop + Copy>(rt: R, alloc: Global) -> bool {
    let mailbox = Mailbox::new(rt, alloc, 3).expect(&rt, "refused");
    let awaiter = Awaiter::new(&mailbox, 0).expect(&rt, "refused");
    let first = mailbox.post(2);
    awaiter.wake_by_ref();
    let again = mailbox.post(2);
    let outside = mailbox.post(3);
    let taken = [mailbox.take(), mailbox.take(), mailbox.take()];
    awaiter.wake();
    let last = mailbox.wait();
    first && again && !outside && taken == [Some(2), Some(0), None] && last == 0
}

#[test]
fn a_mailbox_keeps_the_order_and_each_number_once(rt: HostRuntime) {
    assert!(rt; post_and_take(rt, rt.alloc()));
}

#[test]
fn a_mailbox_that_no_memory_can_hold_is_refused(rt: HostRuntime) {
    let mailbox: Result<Arc<Mailbox<HostRuntime>>, AllocError> = Mailbox::new(
        rt,
        rt.alloc(),
        usize::MAX,
    );
    assert!(rt; mailbox.is_err());
}

// Says that it is about to wait, and waits for a number.
fn say_and_wait<R: Wait + Drop + Copy>(mailbox: &Mailbox<R>, said: &AtomicU64) -> usize {
    said.fetch_add(1, Ordering::SeqCst);
    mailbox.wait()
}

// Posts two numbers, the second right after the first, once two threads had time to fall asleep.
fn post_both<R: Wait + Clock + Drop + Copy>(rt: R, mailbox: &Mailbox<R>, said: &AtomicU64) -> bool {
    for _ in rt.forever() {
        if said.load(Ordering::SeqCst) == 2 {
            break;
        }
        thread::yield_now();
    }
    thread::sleep(&rt, Duration::from_millis(SLEEP));
    mailbox.post(0) && mailbox.post(1)
}

// What two threads get that wait while a third one posts 0 and 1.
fn wait_in_two<R: Wait + Clock + Abort + Threads + Drop + Copy + Send + Sync>(
    rt: R,
    alloc: Global,
) -> (usize, usize) {
    let mailbox: Arc<Mailbox<R>> = Mailbox::new(rt, alloc, 2).expect(&rt, "refused");
    let said = AtomicU64::new(0);
    let (_, numbers) = thread::join(
        &rt,
        || post_both(rt, &mailbox, &said),
        || thread::join(
            &rt,
            || say_and_wait(&mailbox, &said),
            || say_and_wait(&mailbox, &said),
        ),
    );
    numbers
}

// The second post wakes the second sleeper, also where the first has not taken its number yet.
#[test]
fn two_threads_that_sleep_at_a_mailbox_are_both_woken(rt: HostRuntime) {
    let mut have_both = true;
    for _ in 0..ROUNDS {
        let numbers = wait_in_two(rt, rt.alloc());
        have_both = have_both && matches!(numbers, (0, 1) | (1, 0));
    }
    assert!(rt; have_both);
}

// A clock that has no answer.
struct NoClock;

impl Clock for NoClock {
    fn monotonic(&self) -> io::Result<Duration> {
        Err(io::Error::other("no clock"))
    }

    fn since_1970(&self) -> io::Result<Duration> {
        Err(io::Error::other("no clock"))
    }

    fn sleep(&self, _duration: Duration) {}
}

// Whether no time is left until an hour from now, by a clock that has no answer.
fn none_is_left<R: Clock + Abort>(rt: &R) -> bool {
    let now = Instant::now(rt).expect(rt, "refused");
    let deadline = now.checked_add(Duration::from_secs(3600));
    left_until(&NoClock, deadline.expect(rt, "refused")).is_zero()
}

// So a wait by such a clock does not sleep.
#[test]
fn a_clock_without_an_answer_leaves_no_time(rt: HostRuntime) {
    assert!(rt; none_is_left(&rt));
}
