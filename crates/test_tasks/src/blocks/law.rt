// What the owners of a pointer know of its block. The word is how many owners there are.
ghost use Rattle.std.specs.Prelude.{◌==◌, true, false};
ghost use Rattle.test_tasks.specs.Counting.{view, Agrees, Entered, Gained, gains_share, Parted};

use counted_block::{BlockPlay, BlockRule, CountPlay, Place};

/// What one owner knows: how many owners it stands for, which is 0 or 1.
pub struct View {
    pub owners: u64,
}

/// The word is the sum of the owners, each of which has a share.
pub struct Law;

impl BlockRule<(), (), View, ()> for Law {
    ghost holds = { λ _ s. Agrees s };

    ghost first = { λ _. view 1 };

    ghost out = { λ n. n };
}

/// A new seat comes, which stands for no owner yet.
pub(crate) struct Enter;

impl BlockPlay<Place<(), ()>, View, ()> for Enter {
    ghost then = { λ _. Entered };
}

/// One owner more, if the word is as expected.
pub(crate) struct Gain;

impl BlockPlay<Place<(), ()>, View, ()> for Gain {
    ghost then = { λ _. Gained };
}

impl CountPlay<Place<(), ()>, View, ()> for Gain {
    ghost counts = { gains_share };

    ghost lasts = { λ _ _. false };
}

/// One owner less.
pub(crate) struct Part;

impl BlockPlay<Place<(), ()>, View, ()> for Part {
    ghost then = { λ _. Parted };
}

impl CountPlay<Place<(), ()>, View, ()> for Part {
    ghost counts = { λ _ _. true };

    ghost lasts = { λ _ n. n == 1 };
}
