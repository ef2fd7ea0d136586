//! One of the futures that a `join` awaits: it is polled until it is ready, and then its output is kept.
ghost use Rattle.std.specs.Prelude.{◌≡◌};
ghost use Rattle.future_parts.specs.Joining.{HalfPolled, is_ended};

use task_core::{Future, Poll, Yields};

/// An output, and that it meets what the type of its future states.
#[derive(Drop)]
pub struct KeptOutput<F: Yields> {
    output: F::Output,
    ghost met: { ∥ F.Yields.meets output ∥₁ },
}

impl<F: Yields> KeptOutput<F> {
    // The output.
    pub(crate) fn into_output(self) -> F::Output
        ensures output { result ≡ self.output }
        ensures meets { ∥ F.Yields.meets result ∥₁ }
    {
        let KeptOutput { output } = self;
        output
    }
}

/// What a `join` has of one of its futures. It is public to carry the claims on `join`.
#[derive(Drop)]
pub enum Half<F, K> {
    /// The future, which was not ready yet.
    Awaited(F),
    /// Its output. The future was dropped.
    Ended(K),
    /// Nothing: the output was handed out.
    Taken,
}

impl<F, K> Half<F, K> {
    // Whether the future has ended, and its output is here.
    pub(crate) fn has_ended(&self) -> bool
        ensures { result ≡ is_ended self.now }
    {
        matches!(self, Half::Ended(_))
    }
}

// Polls the future, where it is awaited. Where it is ready then, it is dropped, and its output is kept.
pub(crate) fn poll_half<W, F: Future<W>>(half: &mut Half<F, KeptOutput<F>>, waker: &W)
    ensures { HalfPolled F.polled (λ kept. kept.output) half.old waker.now half.new }
{
    let answer = match half {
        Half::Awaited(future) => future.poll(waker),
        Half::Ended(_) | Half::Taken => return,
    };
    if let Poll::Ready(output) = answer {
        *half = Half::Ended(KeptOutput { output });
    }
}
