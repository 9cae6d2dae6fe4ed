use crate::outcome::Outcome;
use spg_base::{List, Span};

/// A command's place in the journal, and what became of it.
#[derive(Debug, Drop)]
pub struct Record {
    pub span: Span,
    pub outcome: Outcome,
}

/// One record for each command, in order of their numbers.
pub type Records = List<Record>;
