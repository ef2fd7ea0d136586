//! Two tasks of one thread, and a channel between them: the message that the second one answers is proved to be the one that the first one sent.
#![tactic(auto)]

ghost use Rattle.std.specs.Prelude.{◌≡◌, ℕ, ⊤, IfSome};

use future_parts::{Receiver, Sender, channel};
use local_task::{LocalTask, Poll, Start, TaskPoll, Wake};
use std::alloc::Global;
use std::io;
use std::marker::{Brand, PhantomData};
use std::sync::Wait;
use task_core::{Future, Yields};

/// A number that proofs alone know: the one that is sent.
trait Number {
    ghost number: { ℕ };
}

impl Number for Brand {
    ghost number = { 0 };
}

/// A message whose value is that number. No contract sees through the lock of a channel, so its type says what comes out.
#[derive(Drop)]
struct Message<K: Number> {
    value: u64,
    of: PhantomData<K>,
    ghost is_number: { value ≡ K.number },
}

/// A waker that wakes nobody, since both tasks are polled in turn.
#[derive(Drop)]
struct Nobody;

impl Wake for Nobody {
    type Record = ();

    ghost woken = { λ _ _. ⊤ };

    ghost woken_by_ref = { λ _ _. ⊤ };

    ghost cloned = { λ _ _. ⊤ };

    ghost compared = { λ _ _ _. ⊤ };

    fn wake(self) {}

    fn wake_by_ref(&self) {}

    fn try_clone(&self) -> Result<Nobody, ()> {
        Ok(Nobody)
    }

    fn will_wake(&self, _other: &Nobody) -> bool {
        true
    }
}

/// The future of a task: it sends a message, or receives one and answers it.
#[derive(Drop)]
enum Part<R: Wait + Drop + Copy, K: Number> {
    Send(Sender<R, Message<K>, Nobody>, Option<Message<K>>),
    Receive(Receiver<R, Message<K>, Nobody>),
}

impl<R: Wait + Drop + Copy, K: Number> Yields for Part<R, K> {
    type Output = Option<Message<K>>;
}

impl<R: Wait + Drop + Copy, K: Number> Future<Nobody> for Part<R, K> {
    ghost polled = { λ _ _ _ _. ⊤ };

    fn poll(&mut self, waker: &Nobody) -> Poll<Option<Message<K>>> {
        match self {
            Part::Send(sender, message) => match sender.poll_send(message, waker) {
                Poll::Ready(_) => Poll::Ready(None),
                Poll::Pending => Poll::Pending,
            },
            Part::Receive(receiver) => receiver.poll_receive(waker),
        }
    }
}

// Runs a task, and polls its Task: the output, once.
fn run<F: Future<Nobody>>(task: &mut LocalTask<F, F::Output, (), Nobody>) -> Option<F::Output> {
    task.wake();
    if let Start::Poll(mut future) = task.start() {
        let answer = future.poll(&Nobody);
        task.settle(future, answer);
    }
    if !task.has_task() {
        return None;
    }
    let (answer, _) = task.poll(&Nobody);
    match answer {
        TaskPoll::Ready(output) => output,
        _ => None,
    }
}

// Sends the number by one task, and awaits another one, which receives it. `None` says that memory was refused.
fn send_number<R: Wait + Drop + Copy, K: Number>(rt: R, alloc: Global, value: u64) -> Option<u64>
    requires { value ≡ K.number }
    ensures { IfSome result (λ received. received ≡ K.number) }
{
    let of: PhantomData<K> = PhantomData;
    let (sender, receiver) = channel(rt, alloc, 1, 1).ok()?;
    let mut sending = LocalTask::new((), Part::Send(sender, Some(Message { value, of })));
    let mut receiving = LocalTask::new((), Part::Receive(receiver));
    for _ in rt.forever() {
        if let Some(received) = run(&mut receiving) {
            let Some(message) = received else { return None };
            return Some(message.value);
        }
        run(&mut sending);
    }
    unreachable!()
}

/// Sends a number from one task to another: what is received.
fn send<R: Wait + Drop + Copy>(rt: R, alloc: Global, value: u64) -> Option<u64>
    ensures { IfSome result (λ received. received ≡ value) }
{
    send_number::<R, Brand>(rt, alloc, value)
}

fn main(rt: HostRuntime) -> io::Result<()> {
    println!(rt; "{:?}", send(rt, rt.alloc(), 42))
}
