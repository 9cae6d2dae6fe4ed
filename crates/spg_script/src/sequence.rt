ghost use Rattle.std.specs.Prelude.{◌≡◌, ◌<◌, ◌-◌, ◌^◌, ◌++◌, ◌∷◌, [], IfOk, IfErr, OnOk, length, map};
ghost use Rattle.std.specs.List.{AllByRecursion};
ghost use Rattle.spg_script.specs.Blocks.{alone_part};
ghost use Rattle.spg_script.specs.Script.{IsWritten, IsLaneCommand};
ghost use Rattle.spg_script.specs.Reader.{between};
ghost use Rattle.spg_script.specs.Sequences.{script_of, sequence_place, TakesOn, StepsInSequence, GoesOnInSequence, IsSequence, IsSequenceCause};

use crate::class_line::ClassLine;
use crate::command::Command;
use crate::commands::read_command;
use crate::lines::{first_line, says_something};
use crate::refused::ScriptRefused;
use spg_base::{List, Memory};
use std::alloc::Global;

/// A class and commands in order: a script whose commands stand outside lanes, each of which inserts,
/// deletes, finds or is a vacuum.
#[derive(Debug, Drop)]
pub struct Sequence {
    pub class: ClassLine,
    pub commands: List<Command>,
}

/// How far such a script was read.
#[derive(Drop)]
pub(crate) enum SequenceReader {
    /// No class was named yet.
    Start,
    /// A class was named, and commands came behind it.
    Named(Sequence),
}

/// Adds a command behind the others.
fn push_command(commands: &mut List<Command>, command: Command) -> Result<(), Memory>
    ensures { OnOk result (commands.new ≡ commands.old ++ command ∷ []) }
{
    commands.push(command)
}

impl Sequence {
    /// Adds a command. False exactly where it is none that inserts, deletes, finds or is a vacuum.
    fn take(&mut self, command: Command) -> Result<bool, Memory>
        ensures { IfOk result (λ taken. TakesOn self.old command taken self.new) }
    {
        match command {
            Command::Save { .. } | Command::Stat | Command::Near { .. } => Ok(false),
            other => {
                push_command(&mut self.commands, other)?;
                Ok(true)
            }
        }
    }

    /// Reads a line that says something. False exactly where it is no such command of the class.
    #[tactic(auto, using(crate::proofs::SequenceLines::sequence_steps))]
    fn read(&mut self, alloc: Global, line: &[u8]) -> Result<bool, Memory>
        ensures { IfOk result (λ taken. StepsInSequence self.old line.now taken self.new) }
    {
        match read_command(alloc, self.class, line)? {
            Some(command) => self.take(command),
            None => Ok(false),
        }
    }
}

impl SequenceReader {
    /// Reads one more line. False exactly where no script of such commands goes on by it.
    fn read(&mut self, alloc: Global, line: &[u8]) -> Result<bool, Memory>
        ensures { IfOk result (λ taken. GoesOnInSequence self.old line.now taken self.new) }
    {
        if !says_something(line) {
            return Ok(true);
        }
        match self {
            SequenceReader::Start => match ClassLine::of_line(line) {
                Some(class) => {
                    let commands = List::new(alloc);
                    *self = SequenceReader::Named(Sequence { class, commands });
                    Ok(true)
                }
                None => Ok(false),
            },
            SequenceReader::Named(sequence) => sequence.read(alloc, line),
        }
    }
}

/// The class and the commands that the bytes spell, which are at most 2^32 - 2. `BadLine` exactly where
/// they are no script, or one with a lane or with a command that neither inserts, deletes, finds nor is a
/// vacuum; its number is that of the first line at which no script without these can go on.
pub fn parse_sequence(alloc: Global, bytes: &[u8]) -> Result<Sequence, ScriptRefused>
    requires { length bytes.now < 2 ^ 32 - 1 }
    ensures found { IfOk result (λ sequence. IsSequence bytes.now sequence) }
    ensures written { IfOk result (λ sequence. IsWritten (script_of sequence)) }
    ensures bad { IfErr result (λ why. IsSequenceCause bytes.now why) }
{
    let mut reader = SequenceReader::Start;
    let mut rest = bytes;
    let mut number = 0u32;
    while !rest.is_empty() {
        let (line, after) = first_line(rest);
        number += 1;
        if !reader.read(alloc, line)? {
            return Err(ScriptRefused::BadLine(number));
        }
        rest = after;
    }
    match reader {
        SequenceReader::Named(sequence) => Ok(sequence),
        SequenceReader::Start => Err(ScriptRefused::BadLine(number + 1)),
    }
}
