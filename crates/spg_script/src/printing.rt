ghost use Rattle.std.specs.Prelude.{◌≡◌, ◌++◌, ◌∷◌, [], IfOk, OnOk};
ghost use Rattle.std.specs.List.{flat_map};
ghost use Rattle.spg_script.specs.declared.command.Command.TheVariants as asked;
ghost use Rattle.spg_script.specs.Blocks.{Script as Blocks};
ghost use Rattle.spg_script.specs.Script.{command_text, printed, IsScript};
ghost use Rattle.spg_script.specs.Printing.{commands_text, lanes_text, part_text};

use crate::command::Command;
use crate::numerals::{push_point, push_row};
use crate::part::{Part, PartRef};
use crate::script::Script;
use crate::spelling::{push_key, push_query};
use crate::tail::Tail;
use spg_base::{Bytes, List, Memory, Point};
use std::alloc::Global;

/// Adds a line.
fn push_line(text: &mut Bytes, line: &[u8]) -> Result<(), Memory>
    ensures { OnOk result (text.new ≡ text.old ++ (line.now ++ 10 ∷ [])) }
{
    text.extend(line)?;
    text.push(b'\n')
}

/// Adds a search for the nearest rows.
fn push_near(text: &mut Bytes, target: Point, limit: u16) -> Result<(), Memory>
    ensures { OnOk result (text.new ≡ text.old ++ command_text (asked.Near target limit)) }
{
    text.extend(b"near ")?;
    push_point(text, target)?;
    let mut tail = Tail::new();
    tail.number(u64::from(limit));
    tail.byte(b' ');
    text.extend(tail.as_slice())
}

/// Adds a command.
fn push_command(text: &mut Bytes, command: &Command) -> Result<(), Memory>
    ensures { OnOk result (text.new ≡ text.old ++ command_text command.now) }
{
    match command {
        Command::Insert { row, key } => {
            text.extend(b"insert ")?;
            push_row(text, *row)?;
            text.push(b' ')?;
            push_key(text, key)
        }
        Command::Delete { row } => {
            text.extend(b"delete ")?;
            push_row(text, *row)
        }
        Command::Find { query } => {
            text.extend(b"find ")?;
            push_query(text, query)
        }
        Command::Vacuum => text.extend(b"vacuum"),
        Command::Save { name } => {
            text.extend(b"save ")?;
            text.extend(name.as_slice())
        }
        Command::Stat => text.extend(b"stat"),
        Command::Near { target, limit } => push_near(text, *target, *limit),
    }
}

/// Adds a line for each command.
fn push_commands(text: &mut Bytes, commands: &[Command]) -> Result<(), Memory>
    ensures { OnOk result (text.new ≡ text.old ++ commands_text commands.now) }
{
    for command in commands {
        push_command(text, command)?;
        text.push(b'\n')?;
    }
    Ok(())
}

/// Adds lanes, each behind a line of its own.
fn push_lanes(text: &mut Bytes, lanes: &[List<Command>]) -> Result<(), Memory>
    ensures { OnOk result (text.new ≡ text.old ++ lanes_text lanes.now) }
{
    for lane in lanes {
        text.extend(b"lane\n")?;
        push_commands(text, lane.as_slice())?;
    }
    Ok(())
}

/// Adds a block.
fn push_part(text: &mut Bytes, part: &Part) -> Result<(), Memory>
    ensures { OnOk result (text.new ≡ text.old ++ part_text part.now) }
{
    match part.lent() {
        PartRef::Together(lanes) => {
            text.extend(b"together\n")?;
            push_lanes(text, lanes)?;
            text.extend(b"end\n")
        }
        PartRef::Alone(command) => {
            push_command(text, command)?;
            text.push(b'\n')
        }
    }
}

/// Adds blocks.
fn push_parts(text: &mut Bytes, parts: &[Part]) -> Result<(), Memory>
    ensures { OnOk result (text.new ≡ text.old ++ flat_map part_text parts.now) }
{
    for part in parts {
        push_part(text, part)?;
    }
    Ok(())
}

/// The script as text, without empty lines and `#` lines. It spells this script and no other, so
/// that reading gives it back.
pub fn print(alloc: Global, script: &Script) -> Result<Bytes, Memory>
    ensures text { IfOk result (λ text. text ≡ printed script.now) }
    ensures spells { IfOk result (λ text. IsScript text script.now) }
    ensures alone { IfOk result (λ text. (other : Blocks) → IsScript text other → other ≡ script.now) }
{
    let mut text = Bytes::new(alloc);
    push_line(&mut text, script.line().line())?;
    push_parts(&mut text, script.parts())?;
    Ok(text)
}
