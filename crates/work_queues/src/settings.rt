//! The numbers of a crew that can be set.
ghost use Rattle.std.specs.Prelude.{◌≡◌, ◌<◌, max};

/// How much room a queue has at first.
const ROOM: usize = 64;

/// How many items a worker takes from another queue at once, at most.
const BATCH: usize = 256;

/// A worker looks at the queue for what comes from outside first, once in this many looks.
const OUTSIDE_EVERY: u64 = 61;

/// How often a worker that found nothing looks again before it lies down. How long that takes depends on the processor, as its `spin_loop` does: from 70 microseconds to 1 millisecond.
const SEARCH_LOOKS: usize = 2048;

/// The numbers that a crew is made with.
#[derive(Clone, Copy, Debug, PartialEq, Eq)]
pub struct Settings {
    pub(crate) room: usize,
    pub(crate) batch: usize,
    pub(crate) outside_every: u64,
    pub(crate) search_looks: usize,
    ghost some: { 0 < batch },
}

impl Default for Settings {
    fn default() -> Settings
        ensures { (result.room ≡ 64) × (result.batch ≡ 256) × (result.outside_every ≡ 61) × (result.search_looks ≡ 2048) }
    {
        Settings::new()
    }
}

impl Settings {
    /// Room for 64 items in each queue, batches of 256, the queue for what comes from outside at each 61st look, 2,048 looks before a sleep.
    pub fn new() -> Settings
        ensures { (result.room ≡ 64) × (result.batch ≡ 256) × (result.outside_every ≡ 61) × (result.search_looks ≡ 2048) }
    {
        Settings {
            room: ROOM,
            batch: BATCH,
            outside_every: OUTSIDE_EVERY,
            search_looks: SEARCH_LOOKS,
        }
    }

    /// The same numbers, where each queue has room for this many items before it asks for more memory.
    pub fn room(self, items: usize) -> Settings
        ensures { (result.room ≡ items) × (result.batch ≡ self.batch) × (result.outside_every ≡ self.outside_every) × (result.search_looks ≡ self.search_looks) }
    {
        let mut settings = self;
        settings.room = items;
        settings
    }

    /// The same numbers, where a worker takes at most this many items at once from another queue: at least one.
    pub fn batch(self, items: usize) -> Settings
        ensures { (result.room ≡ self.room) × (result.batch ≡ max items 1) × (result.outside_every ≡ self.outside_every) × (result.search_looks ≡ self.search_looks) }
    {
        let mut settings = self;
        settings.batch = items.max(1);
        settings
    }

    /// The same numbers, where a worker that has items of its own looks at the queue for what comes from outside once in this many looks, and at that of another worker once in 16 times as many. 0 is taken as 1.
    pub fn outside_every(self, looks: u64) -> Settings
        ensures { (result.room ≡ self.room) × (result.batch ≡ self.batch) × (result.outside_every ≡ max looks 1) × (result.search_looks ≡ self.search_looks) }
    {
        let mut settings = self;
        settings.outside_every = looks.max(1);
        settings
    }

    /// The same numbers, where a worker that found nothing looks again this many times before it sleeps. At 0 it sleeps at once.
    pub fn search_looks(self, looks: usize) -> Settings
        ensures { (result.room ≡ self.room) × (result.batch ≡ self.batch) × (result.outside_every ≡ self.outside_every) × (result.search_looks ≡ looks) }
    {
        let mut settings = self;
        settings.search_looks = looks;
        settings
    }
}
