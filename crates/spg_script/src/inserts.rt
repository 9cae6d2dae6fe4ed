ghost use Rattle.std.specs.Prelude.{◌≡◌, ◌<◌, ◌-◌, ◌^◌, ◌++◌, ◌∷◌, [], IfOk, IfErr, OnOk, length, map};
ghost use Rattle.spg_script.specs.Script.{IsWritten};
ghost use Rattle.spg_script.specs.Reader.{between};
ghost use Rattle.spg_script.specs.Inserts.{insert_part, script_of, insert_place, TakesInsert, StepsByInsert, GoesOnByInsert, IsInserts, IsInsertCause};

use crate::any_key::AnyKey;
use crate::class_line::ClassLine;
use crate::command::Command;
use crate::commands::read_command;
use crate::lines::{first_line, says_something};
use crate::refused::ScriptRefused;
use spg_base::{List, Memory, Row};
use std::alloc::Global;

/// A row that is inserted, with its key or a null.
#[derive(Debug, Drop)]
pub struct Insert {
    pub row: Row,
    pub key: Option<AnyKey>,
}

/// A class and inserts in order: a script whose commands are these, outside lanes.
#[derive(Debug, Drop)]
pub struct Inserts {
    pub class: ClassLine,
    pub rows: List<Insert>,
}

/// How far a script of inserts was read.
#[derive(Drop)]
pub(crate) enum InsertReader {
    /// No class was named yet.
    Start,
    /// A class was named, and inserts came behind it.
    Named(Inserts),
}

/// Adds an insert behind the others.
fn push_insert(rows: &mut List<Insert>, row: Row, key: Option<AnyKey>) -> Result<(), Memory>
    ensures { OnOk result (rows.new ≡ rows.old ++ record { row = row; key = key } ∷ []) }
{
    rows.push(Insert { row, key })
}

impl Inserts {
    /// Adds the insert that a command is. False exactly where it is none.
    fn take(&mut self, command: Command) -> Result<bool, Memory>
        ensures { IfOk result (λ taken. TakesInsert self.old command taken self.new) }
    {
        match command {
            Command::Insert { row, key } => {
                push_insert(&mut self.rows, row, key)?;
                Ok(true)
            }
            _ => Ok(false),
        }
    }

    /// Reads a line that says something. False exactly where it is no insert of the class.
    #[tactic(auto, using(crate::proofs::InsertLines::insert_steps))]
    fn read(&mut self, alloc: Global, line: &[u8]) -> Result<bool, Memory>
        ensures { IfOk result (λ taken. StepsByInsert (between self.old.class (map insert_part self.old.rows)) line.now taken (between self.new.class (map insert_part self.new.rows))) }
    {
        match read_command(alloc, self.class, line)? {
            Some(command) => self.take(command),
            None => Ok(false),
        }
    }
}

impl InsertReader {
    /// Reads one more line. False exactly where no script of inserts goes on by it.
    fn read(&mut self, alloc: Global, line: &[u8]) -> Result<bool, Memory>
        ensures { IfOk result (λ taken. GoesOnByInsert (insert_place self.old) line.now taken (insert_place self.new)) }
    {
        if !says_something(line) {
            return Ok(true);
        }
        match self {
            InsertReader::Start => match ClassLine::of_line(line) {
                Some(class) => {
                    let rows = List::new(alloc);
                    *self = InsertReader::Named(Inserts { class, rows });
                    Ok(true)
                }
                None => Ok(false),
            },
            InsertReader::Named(inserts) => inserts.read(alloc, line),
        }
    }
}

/// The class and the inserts that the bytes spell, which are at most 2^32 - 2. `BadLine` exactly where
/// they are no script, or one with another command; its number is that of the first line at which no
/// script of inserts can go on.
pub fn parse_inserts(alloc: Global, bytes: &[u8]) -> Result<Inserts, ScriptRefused>
    requires { length bytes.now < 2 ^ 32 - 1 }
    ensures found { IfOk result (λ inserts. IsInserts bytes.now inserts) }
    ensures written { IfOk result (λ inserts. IsWritten (script_of inserts)) }
    ensures bad { IfErr result (λ why. IsInsertCause bytes.now why) }
{
    let mut reader = InsertReader::Start;
    let mut rest = bytes;
    let mut number = 0u32;
    while !rest.is_empty() {
        let (line, after) = first_line(rest);
        number += 1;
        if !reader.read(alloc, line)? {
            return Err(ScriptRefused::BadLine(number));
        }
        rest = after;
    }
    match reader {
        InsertReader::Named(inserts) => Ok(inserts),
        InsertReader::Start => Err(ScriptRefused::BadLine(number + 1)),
    }
}
