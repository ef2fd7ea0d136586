//! The machine of moves, and the laws of every interleaving.
//! It stands on the word and the acts of `task_core`.
//! A user calls nothing of it: the contract of `laws` is the theorem, and `specs/Lib.antt` gives the order in which to read its definitions.
//! `positions` is public to carry the claims of the crates above.
//! The pages are README.md, beside the code, and docs/MACHINE.md.
#![tactic(auto)]

pub mod positions;

ghost use Rattle.task_laws.specs.Theorem.{LawsHold, OwnersAct};
ghost use Rattle.task_laws.specs.Whole.{WholeRunsAgree};
ghost use Rattle.task_laws.specs.WholeCalls.{WholeCallsAgree};
ghost use Rattle.task_laws.specs.LocalRows.{EachRowAgrees};

/// For every limit and every list of steps that the machine allows from the opening state, the laws hold of the state reached. An act that changes a slot
/// is made by the slot's owner.
pub fn laws()
    ensures interleavings { LawsHold }
    ensures owners { OwnersAct }
    ensures whole_runs { WholeRunsAgree }
    ensures whole_calls { WholeCallsAgree }
    ensures local_rows { EachRowAgrees }
{}
