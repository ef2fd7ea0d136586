//! The lines of the pool: their names, and what the tasks of each do.

/// What the tasks do.
#[derive(Clone, Copy, PartialEq)]
pub enum Line {
    /// Each is ready at its first poll.
    Spawn,
    /// Each gives way ten times.
    Yield,
    /// Each waits until the one before it wakes it.
    Chain,
    /// Each waits until a thread that is no worker wakes it, one after the other.
    Handoff,
    /// Each is ready at its first poll, and one thread awaits the outputs of all.
    Group,
}

impl Line {
    /// All of them, in the order in which they are printed.
    pub const ALL: [Line; 5] = [
        Line::Spawn,
        Line::Yield,
        Line::Chain,
        Line::Handoff,
        Line::Group,
    ];

    /// The name that is printed.
    pub fn name(self) -> &'static str {
        match self {
            Line::Spawn => "spawn",
            Line::Yield => "yield",
            Line::Chain => "chain",
            Line::Handoff => "handoff",
            Line::Group => "group",
        }
    }

    /// The line of that name.
    pub fn named(name: &str) -> Option<Line> {
        for line in Line::ALL {
            if line.name() == name {
                return Some(line);
            }
        }
        None
    }

    /// How often each task gives way.
    pub fn yields(self) -> u64 {
        match self {
            Line::Yield => 10,
            _ => 0,
        }
    }

    /// Whether the tasks wait for their wakes, in a row.
    pub fn is_row(self) -> bool {
        matches!(self, Line::Chain | Line::Handoff)
    }
}

/// How many tasks, and how many threads.
#[derive(Clone, Copy)]
pub struct Size {
    /// How many tasks. At least one.
    pub tasks: u64,
    /// How many threads run them. At least one.
    pub threads: usize,
}
