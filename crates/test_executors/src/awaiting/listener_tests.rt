//! Who listens at a mailbox: when a listener is told of a post, and what becomes of one that is replaced.
use executor_parts::{Listener, Mailbox};
use rows_fixtures::rendezvous::Rendezvous;
use std::alloc::{AllocError, Global};
use std::process::Abort;
use std::sync::atomic::{AtomicU64, Ordering};
use std::sync::{Arc, Wait};
use std::thread::{self, Threads};

// How many listeners were told, and how many were dropped untold.
#[derive(Drop)]
struct Counts {
    told: AtomicU64,
    untold: AtomicU64,
}

// A listener that counts what becomes of it.
struct Counted {
    counts: Arc<Counts>,
}

impl Drop for Counted {
    fn drop(self) {
        let Counted { counts } = self;
        counts.untold.fetch_add(1, Ordering::SeqCst);
    }
}

impl Listener for Counted {
    fn tell(self) {
        let Counted { counts } = self;
        counts.told.fetch_add(1, Ordering::SeqCst);
    }
}

// Has one more listener, which counts there.
fn listen<R: Wait + Drop + Copy>(
    mailbox: &Mailbox<R, Counted>,
    counts: &Arc<Counts>,
) -> Result<(), AllocError> {
    let counts = Arc::try_clone(counts)?;
    mailbox.listen(Counted { counts });
    Ok(())
}

// Posts a number: whether there was room for it, and how many listeners were told and dropped untold until then.
fn post<R: Wait + Drop + Copy>(
    mailbox: &Mailbox<R, Counted>,
    counts: &Counts,
    number: usize,
) -> (bool, u64, u64) {
    let posted = mailbox.post(number);
    let told = counts.told.load(Ordering::SeqCst);
    (posted, told, counts.untold.load(Ordering::SeqCst))
}

// Posts 0, 1, 0, 2 and 1 to a mailbox with room for two numbers: what is seen after each post. One listener comes before the
// first post, one before the third, and two before the fourth, of which the second replaces the first.
fn listen_and_post<R: Wait + Abort + Drop + Copy>(rt: R, alloc: Global) -> [(bool, u64, u64); 5] {
    let counts = Counts {
        told: AtomicU64::new(0),
        untold: AtomicU64::new(0),
    };
    let counts = Arc::new(alloc, counts).expect(&rt, "refused");
    let mailbox = Mailbox::new(rt, alloc, 2).expect(&rt, "refused");
    listen(&mailbox, &counts).expect(&rt, "refused");
    let first = post(&mailbox, &counts, 0);
    let second = post(&mailbox, &counts, 1);
    listen(&mailbox, &counts).expect(&rt, "refused");
    let again = post(&mailbox, &counts, 0);
    listen(&mailbox, &counts).expect(&rt, "refused");
    listen(&mailbox, &counts).expect(&rt, "refused");
    let outside = post(&mailbox, &counts, 2);
    let last = post(&mailbox, &counts, 1);
    [first, second, again, outside, last]
}

// It is told once, also of a number that waits already, and not of one for which there is no room.
#[test]
fn a_listener_is_told_of_the_next_post(rt: HostRuntime) {
    let seen = listen_and_post(rt, rt.alloc());
    assert!(rt;
        seen == [
            (true, 1, 0),
            (true, 1, 0),
            (true, 2, 0),
            (false, 2, 1),
            (true, 3, 1)
        ]
    );
}

// A listener that meets a second thread as it is told.
#[derive(Drop)]
struct Meets {
    rendezvous: Arc<Rendezvous>,
}

impl Listener for Meets {
    fn tell(self) {
        self.rendezvous.meet();
    }
}

// Takes a number while a listener is told or dropped.
fn take_meanwhile<R: Wait + Drop + Copy, L: Listener>(
    mailbox: &Mailbox<R, L>,
    rendezvous: &Rendezvous,
) -> Option<usize> {
    rendezvous.await_poll();
    let taken = mailbox.take();
    rendezvous.release();
    taken
}

// What is taken while a listener is told of the number 1, and whether it was told until then.
fn post_and_take<R: Wait + Abort + Threads + Drop + Copy + Send + Sync>(
    rt: R,
    alloc: Global,
) -> (Option<usize>, bool) {
    let rendezvous = Arc::new(alloc, Rendezvous::new()).expect(&rt, "refused");
    let mailbox = Mailbox::new(rt, alloc, 2).expect(&rt, "refused");
    rendezvous.arm();
    let listener = Meets {
        rendezvous: Arc::try_clone(&rendezvous).expect(&rt, "refused"),
    };
    mailbox.listen(listener);
    let (_, taken) = thread::join(
        &rt,
        || mailbox.post(1),
        || take_meanwhile(&mailbox, &rendezvous),
    );
    (taken, rendezvous.met())
}

#[test]
fn a_number_can_be_taken_while_a_listener_is_told_of_it(rt: HostRuntime) {
    let seen = post_and_take(rt, rt.alloc());
    assert!(rt; seen == (Some(1), true));
}

// A listener that, where it has a rendezvous, meets a second thread as it is dropped.
struct MeetsAtEnd {
    rendezvous: Option<Arc<Rendezvous>>,
}

impl Drop for MeetsAtEnd {
    fn drop(self) {
        let MeetsAtEnd { rendezvous } = self;
        if let Some(rendezvous) = rendezvous {
            rendezvous.meet();
        }
    }
}

impl Listener for MeetsAtEnd {
    fn tell(self) {}
}

// What is taken while a listener is dropped, in whose place another one comes, and whether it was dropped until then.
fn replace_and_take<R: Wait + Abort + Threads + Drop + Copy + Send + Sync>(
    rt: R,
    alloc: Global,
) -> (Option<usize>, bool) {
    let rendezvous = Arc::new(alloc, Rendezvous::new()).expect(&rt, "refused");
    let mailbox = Mailbox::new(rt, alloc, 2).expect(&rt, "refused");
    mailbox.post(1);
    rendezvous.arm();
    let listener = MeetsAtEnd {
        rendezvous: Some(Arc::try_clone(&rendezvous).expect(&rt, "refused")),
    };
    mailbox.listen(listener);
    let (_, taken) = thread::join(
        &rt,
        || mailbox.listen(MeetsAtEnd { rendezvous: None }),
        || take_meanwhile(&mailbox, &rendezvous),
    );
    (taken, rendezvous.met())
}

#[test]
fn a_number_can_be_taken_while_a_listener_that_was_replaced_is_dropped(rt: HostRuntime) {
    let seen = replace_and_take(rt, rt.alloc());
    assert!(rt; seen == (Some(1), true));
}
