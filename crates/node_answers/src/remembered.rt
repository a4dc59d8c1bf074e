//! A table of remembered answers.
ghost use Rattle.std.proofs.Props.{props};
ghost use Rattle.node_answers.specs.Generations.{Dated};

use crate::answered::Answered;

/// Answers in 4,096 slots. A question has one slot, and takes it over from any other. Only answers of the present generation
/// count, so that all are forgotten at once by beginning another.
#[derive(Drop)]
pub struct Remembered {
    pub(crate) entries: [Option<Answered>; 4096],
    pub(crate) generation: u32,
    ghost dated: { Dated entries generation } by { Prim.hlevel props },
}
