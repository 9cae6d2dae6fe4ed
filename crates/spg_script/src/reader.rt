ghost use Rattle.std.specs.Prelude.{◌≡◌, IfOk, IfSome, IfNone};
ghost use Rattle.spg_script.specs.Reader.{at_start, between, IsEnd};
ghost use Rattle.spg_script.specs.Steps.{place_of, GoesOn};

use crate::blocks::Blocks;
use crate::class_line::ClassLine;
use crate::lines::says_something;
use crate::part::Part;
use spg_base::{List, Memory};
use std::alloc::Global;

/// How far a script was read.
#[derive(Drop)]
pub enum Reader {
    /// No class was named yet.
    Start,
    /// A class was named, and blocks came behind it.
    Named(Blocks),
}

impl Reader {
    /// Reads one more line. False exactly where no script goes on by it.
    pub fn read(&mut self, alloc: Global, line: &[u8]) -> Result<bool, Memory>
        ensures { IfOk result (λ taken. GoesOn (place_of self.old) line.now taken (place_of self.new)) }
    {
        if !says_something(line) {
            return Ok(true);
        }
        match self {
            Reader::Start => match ClassLine::of_line(line) {
                Some(class) => {
                    *self = Reader::Named(Blocks::new(alloc, class));
                    Ok(true)
                }
                None => Ok(false),
            },
            Reader::Named(blocks) => blocks.read(alloc, line),
        }
    }

    /// What was read. None exactly where a script goes on from here.
    pub fn end(self) -> Option<(ClassLine, List<Part>)>
        ensures some { IfSome result (λ read. place_of self ≡ between read.0 read.1) }
        ensures none { IfNone result (IsEnd (place_of self) → ⊥) }
    {
        match self {
            Reader::Named(blocks) => match blocks.unended {
                None => Some((blocks.class, blocks.parts)),
                Some(_) => None,
            },
            Reader::Start => None,
        }
    }
}
