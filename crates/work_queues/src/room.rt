//! What a seat of a board knows.
ghost use Rattle.std.specs.Borrow.{ftrue};
ghost use Rattle.atomic_table.specs.Seated.{TableId, table_id_coded};

use std::marker::Model;

/// Plain data of the proofs. No value of it is made.
pub struct Room {
    /// The bells that have the flags of the board's queues.
    pub ghost bells: { TableId } by { table_id_coded },
}

impl Model for Room {
    ghost also_owns = { λ _. ftrue };
}
