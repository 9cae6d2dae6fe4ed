ghost use Rattle.std.specs.Prelude.{◌≡◌, IfOk, IfSome, IfNone};
ghost use Rattle.spg_script.specs.Line.{SpellsCommand, keys_of};
ghost use Rattle.spg_script.specs.Reading.{insert_of, delete_of, find_of, save_of, near_at, near_of, command_of};
ghost use Rattle.spg_script.specs.declared.command.Command.{Command};

use crate::any_query::AnyQuery;
use crate::bytes::split;
use crate::class_line::ClassLine;
use crate::command::Command;
use crate::conditions::conds;
use crate::key_form::KeyForm;
use crate::keys::key;
use crate::names::is_name;
use crate::numbers::{number, point, row};
use spg_base::{Bytes, Memory, Point};
use std::alloc::Global;

/// The greatest number of rows that a search for the nearest is asked for.
const MOST_NEAR: u32 = 65_535;

#[tactic(auto, unfolding(crate::specs::Reading::insert_of))]
fn insert(alloc: Global, keys: KeyForm, bytes: &[u8]) -> Result<Option<Command>, Memory>
    ensures { IfOk result (λ found. found ≡ insert_of keys bytes.now) }
{
    let Some((front, back)) = split(bytes, b' ') else {
        return Ok(None);
    };
    let Some(row) = row(front) else {
        return Ok(None);
    };
    match key(alloc, keys, back)? {
        Some(key) => Ok(Some(Command::Insert { row, key })),
        None => Ok(None),
    }
}

#[tactic(auto, unfolding(crate::specs::Reading::delete_of))]
fn delete(bytes: &[u8]) -> Option<Command>
    ensures { result ≡ delete_of bytes.now }
{
    Some(Command::Delete { row: row(bytes)? })
}

#[tactic(auto, unfolding(crate::specs::Reading::find_of))]
fn find(alloc: Global, keys: KeyForm, bytes: &[u8]) -> Result<Option<Command>, Memory>
    ensures { IfOk result (λ found. found ≡ find_of keys bytes.now) }
{
    if bytes == b"all".as_slice() {
        return Ok(Some(Command::Find {
            query: AnyQuery::All,
        }));
    }
    if bytes == b"null".as_slice() {
        return Ok(Some(Command::Find {
            query: AnyQuery::Null,
        }));
    }
    if !bytes.starts_with(b"where ") {
        return Ok(None);
    }
    match conds(alloc, keys, &bytes[6..])? {
        Some(conds) => Ok(Some(Command::Find {
            query: AnyQuery::Where(conds),
        })),
        None => Ok(None),
    }
}

#[tactic(auto, unfolding(crate::specs::Reading::save_of))]
fn save(alloc: Global, bytes: &[u8]) -> Result<Option<Command>, Memory>
    ensures { IfOk result (λ found. found ≡ save_of bytes.now) }
{
    if is_name(bytes) {
        let name = Bytes::copy(alloc, bytes)?;
        Ok(Some(Command::Save { name }))
    } else {
        Ok(None)
    }
}

/// The search for so many rows, from 1 to 65,535.
fn near_at(target: Point, limit: u32) -> Option<Command>
    ensures { result ≡ near_at target limit }
{
    if limit == 0 || limit > MOST_NEAR {
        None
    } else {
        Some(Command::Near {
            target,
            limit: limit as u16,
        })
    }
}

/// The search for the nearest rows, which is of points without numbers alone.
#[tactic(auto, unfolding(crate::specs::Reading::near_of))]
fn near(keys: KeyForm, bytes: &[u8]) -> Option<Command>
    ensures { result ≡ near_of keys bytes.now }
{
    if keys != KeyForm::Point {
        return None;
    }
    let (target, limit) = split(bytes, b' ')?;
    let target = point(target)?;
    let limit = number(limit)?;
    near_at(target, limit)
}

#[tactic(auto, unfolding(crate::specs::Reading::command_of))]
fn command(alloc: Global, keys: KeyForm, line: &[u8]) -> Result<Option<Command>, Memory>
    ensures { IfOk result (λ found. found ≡ command_of keys line.now) }
{
    if line.starts_with(b"insert ") {
        insert(alloc, keys, &line[7..])
    } else if line.starts_with(b"find ") {
        find(alloc, keys, &line[5..])
    } else if line.starts_with(b"delete ") {
        Ok(delete(&line[7..]))
    } else if line.starts_with(b"near ") {
        Ok(near(keys, &line[5..]))
    } else if line.starts_with(b"save ") {
        save(alloc, &line[5..])
    } else if line == b"vacuum".as_slice() {
        Ok(Some(Command::Vacuum))
    } else if line == b"stat".as_slice() {
        Ok(Some(Command::Stat))
    } else {
        Ok(None)
    }
}

/// The command that the line spells in a script of a class. None exactly where it spells none.
pub fn read_command(alloc: Global, class: ClassLine, line: &[u8]) -> Result<Option<Command>, Memory>
    ensures found { IfOk result (λ found. IfSome found (λ c. SpellsCommand (keys_of class) c line.now)) }
    ensures none { IfOk result (λ found. IfNone found ((c : Command) → SpellsCommand (keys_of class) c line.now → ⊥)) }
{
    command(alloc, class.keys(), line)
}
