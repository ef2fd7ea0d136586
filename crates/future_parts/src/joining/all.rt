//! A future that awaits many futures of one type side by side.
ghost use Rattle.std.specs.Prelude.{◌≡◌, ◌≤◌, true, [], map, length, Some, IfErr, IfOk, IsSome, is_some};
ghost use Rattle.std.specs.List.{list_all, All};
ghost use Rattle.std.specs.VecDeque.{deque_capacity};
ghost use Rattle.task_core.specs.Poll.{IfReady};
ghost use Rattle.future_parts.specs.Joining.{is_ended, EachPolled, AreOutputs, HandedOutAll};
ghost use Rattle.future_parts.specs.declared.joining.half.Half.TheVariants.{Awaited};

use super::half::{Half, KeptOutput, poll_half};
use std::alloc::{AllocFailed, Global};
use std::collections::VecDeque;
use task_core::{Future, Poll, Yields};

// The halves of the futures, in order.
type Halves<F> = VecDeque<Half<F, KeptOutput<F>>>;

/// The future of `join_all`.
#[derive(Drop)]
pub struct JoinAll<F: Yields> {
    halves: VecDeque<Half<F, KeptOutput<F>>>,
    // Where the outputs go, with room for all: until they are handed out.
    outputs: Option<VecDeque<F::Output>>,
    ghost room: { (kept : _) → outputs ≡ Some kept → (length kept.items ≡ 0) × (length halves.items ≤ deque_capacity kept) },
}

// Polls each future that is awaited, in order.
fn poll_each<W, F: Future<W>>(halves: &mut Halves<F>, waker: &W)
    ensures { EachPolled F.polled (λ kept. kept.output) halves.old.items waker.now halves.new.items }
{
    for index in 0..halves.len() {
        poll_half(&mut halves[index], waker);
    }
}

// Whether each future has ended, and its output is here.
fn have_ended<F: Yields>(halves: &Halves<F>) -> bool
    ensures { result ≡ list_all is_ended halves.now.items }
{
    for index in 0..halves.len() {
        if !halves[index].has_ended() {
            return false;
        }
    }
    true
}

// Moves each output, in order, to where there is room for it.
fn move_out<F: Yields>(
    halves: &mut Halves<F>,
    mut outputs: VecDeque<F::Output>,
) -> VecDeque<F::Output>
    requires ended { list_all is_ended halves.old.items ≡ true }
    requires empty { outputs.items ≡ [] }
    requires room { length halves.old.items ≤ deque_capacity outputs }
    ensures outputs { AreOutputs (λ kept. kept.output) halves.old.items result.items }
    ensures meets { All (λ it. ∥ F.Yields.meets it ∥₁) result.items }
{
    while let Some(half) = halves.pop_front() {
        match half {
            Half::Ended(kept) => outputs.push_back_reserved(kept.into_output()),
            _ => unreachable!(),
        }
    }
    outputs
}

// As many futures as there is room for, each of which is awaited.
fn await_each<F: Yields>(mut futures: VecDeque<F>, mut halves: Halves<F>) -> Halves<F>
    requires empty { halves.items ≡ [] }
    requires room { length futures.items ≤ deque_capacity halves }
    ensures { result.items ≡ map Awaited futures.items }
{
    while let Some(future) = futures.pop_front() {
        halves.push_back_reserved(Half::Awaited(future));
    }
    halves
}

/// A future that awaits all, and answers their outputs, in the order of the futures. Each poll polls those that are not ready yet, in order. One that is ready is dropped at once, and its output kept.
///
/// `alloc` is where the memory comes from, which is asked for here alone. Where it is refused the futures are handed back.
pub fn join_all<F: Yields>(
    alloc: Global,
    futures: VecDeque<F>,
) -> Result<JoinAll<F>, AllocFailed<VecDeque<F>>>
    ensures awaited { IfOk result (λ all. all.halves.items ≡ map Awaited futures.items) }
    ensures waiting { IfOk result (λ all. IsSome all.outputs) }
    ensures refused { IfErr result (λ failed. failed.value ≡ futures) }
{
    let Ok(halves) = VecDeque::with_capacity(alloc, futures.len()) else {
        return Err(AllocFailed { value: futures });
    };
    let Ok(outputs) = VecDeque::with_capacity(alloc, futures.len()) else {
        return Err(AllocFailed { value: futures });
    };
    Ok(JoinAll {
        halves: await_each(futures, halves),
        outputs: Some(outputs),
    })
}

impl<F: Yields> JoinAll<F> {
    // Hands out all outputs, where all futures have ended.
    fn hand_out(&mut self) -> Poll<VecDeque<F::Output>>
        ensures meets { IfReady result (λ outputs. All (λ it. ∥ F.Yields.meets it ∥₁) outputs.items) }
        ensures handed { HandedOutAll (λ kept. kept.output) (λ outputs. outputs.items) self.old.halves.items (is_some self.old.outputs) result self.new.halves.items (is_some self.new.outputs) }
    {
        if !have_ended(&self.halves) {
            return Poll::Pending;
        }
        match self.outputs.take() {
            Some(outputs) => Poll::Ready(move_out(&mut self.halves, outputs)),
            None => Poll::Pending,
        }
    }
}

impl<F: Yields> Yields for JoinAll<F> {
    type Output = VecDeque<F::Output>;

    ghost meets = { λ outputs. All (λ it. ∥ F.Yields.meets it ∥₁) outputs.items };
}

impl<W, F: Future<W>> Future<W> for JoinAll<F> {
    // Each half was polled by this waker, and then the outputs are handed out where all are there.
    ghost polled = { λ old waker answer new. (halves : _) × EachPolled F.polled (λ kept. kept.output) old.halves.items waker halves × HandedOutAll (λ kept. kept.output) (λ outputs. outputs.items) halves (is_some old.outputs) answer new.halves.items (is_some new.outputs) };

    fn poll(&mut self, waker: &W) -> Poll<VecDeque<F::Output>> {
        poll_each(&mut self.halves, waker);
        self.hand_out()
    }
}
