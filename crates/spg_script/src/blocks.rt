ghost use Rattle.std.specs.Prelude.{◌≡◌, ◌≢◌, ◌↔◌, [], None, IfOk, IsTrue, codes};
ghost use Rattle.spg_script.specs.Blocks.{alone_part};
ghost use Rattle.spg_script.specs.Script.{IsLaneCommand};
ghost use Rattle.spg_script.specs.Reader.{between, inside};
ghost use Rattle.spg_script.specs.Steps.{lanes_of, place_of_blocks, Steps};

use crate::class_line::ClassLine;
use crate::command::Command;
use crate::commands::read_command;
use crate::open_block::OpenBlock;
use crate::part::Part;
use spg_base::{List, Memory};
use std::alloc::Global;

/// The greatest number of lanes of a block.
const MOST_LANES: usize = 32;

/// What was read behind the class line.
#[derive(Drop)]
pub struct Blocks {
    /// The class.
    pub class: ClassLine,
    /// The blocks that have ended.
    pub parts: List<Part>,
    /// The block that goes on, where one does.
    pub unended: Option<OpenBlock>,
}

/// Whether a lane may have the command.
fn is_for_lanes(command: &Command) -> bool
    ensures { IsTrue result ↔ IsLaneCommand command.now }
{
    match command {
        Command::Insert { .. } | Command::Delete { .. } | Command::Find { .. } | Command::Vacuum =>
            { true }
        Command::Save { .. } | Command::Stat | Command::Near { .. } => false,
    }
}

impl Blocks {
    /// The class line was read.
    pub fn new(alloc: Global, class: ClassLine) -> Blocks
        ensures { place_of_blocks result ≡ between class [] }
    {
        Blocks {
            class,
            parts: List::new(alloc),
            unended: None,
        }
    }

    /// Reads a line that says something. False exactly where no script goes on by it.
    pub fn read(&mut self, alloc: Global, line: &[u8]) -> Result<bool, Memory>
        ensures { IfOk result (λ taken. Steps (place_of_blocks self.old) line.now taken (place_of_blocks self.new)) }
    {
        match self.unended.take() {
            None => self.read_between(alloc, line),
            Some(block) => self.read_inside(alloc, block, line),
        }
    }

    /// Reads a line where no block goes on.
    fn read_between(&mut self, alloc: Global, line: &[u8]) -> Result<bool, Memory>
        requires { self.old.unended ≡ None }
        ensures { IfOk result (λ taken. Steps (between self.old.class self.old.parts) line.now taken (place_of_blocks self.new)) }
    {
        if line == b"together".as_slice() {
            self.unended = Some(OpenBlock::Empty);
            return Ok(true);
        }
        match read_command(alloc, self.class, line)? {
            Some(command) => {
                self.parts.push(Part::alone(command))?;
                Ok(true)
            }
            None => Ok(false),
        }
    }

    /// Reads a line of a block.
    fn read_inside(&mut self, alloc: Global, block: OpenBlock, line: &[u8]) -> Result<bool, Memory>
        requires { self.old.unended ≡ None }
        ensures { IfOk result (λ taken. Steps (inside self.old.class self.old.parts (lanes_of block)) line.now taken (place_of_blocks self.new)) }
    {
        if line == b"lane".as_slice() {
            self.begin_lane(alloc, block)
        } else if line == b"end".as_slice() {
            self.end_block(alloc, block)
        } else {
            self.read_lane_command(alloc, block, line)
        }
    }

    /// A lane begins.
    fn begin_lane(&mut self, alloc: Global, block: OpenBlock) -> Result<bool, Memory>
        requires { self.old.unended ≡ None }
        ensures { IfOk result (λ taken. Steps (inside self.old.class self.old.parts (lanes_of block)) (codes "lane") taken (place_of_blocks self.new)) }
    {
        let ended = block.into_lanes(alloc)?;
        if ended.len() >= MOST_LANES {
            return Ok(false);
        }
        self.unended = Some(OpenBlock::InLane {
            ended,
            lane: List::new(alloc),
        });
        Ok(true)
    }

    /// The block ends.
    fn end_block(&mut self, alloc: Global, block: OpenBlock) -> Result<bool, Memory>
        requires { self.old.unended ≡ None }
        ensures { IfOk result (λ taken. Steps (inside self.old.class self.old.parts (lanes_of block)) (codes "end") taken (place_of_blocks self.new)) }
    {
        let lanes = block.into_lanes(alloc)?;
        if lanes.is_empty() {
            return Ok(false);
        }
        self.parts.push(Part::together(lanes))?;
        Ok(true)
    }

    /// Reads a line that is a command of a lane, or bad.
    fn read_lane_command(
        &mut self,
        alloc: Global,
        block: OpenBlock,
        line: &[u8],
    ) -> Result<bool, Memory>
        requires free { self.old.unended ≡ None }
        requires lane { line.now ≢ codes "lane" }
        requires end { line.now ≢ codes "end" }
        ensures { IfOk result (λ taken. Steps (inside self.old.class self.old.parts (lanes_of block)) line.now taken (place_of_blocks self.new)) }
    {
        let OpenBlock::InLane { ended, mut lane } = block else {
            return Ok(false);
        };
        match read_command(alloc, self.class, line)? {
            Some(command) => {
                if !is_for_lanes(&command) {
                    return Ok(false);
                }
                lane.push(command)?;
                self.unended = Some(OpenBlock::InLane { ended, lane });
                Ok(true)
            }
            None => Ok(false),
        }
    }
}
