ghost use Rattle.std.specs.Prelude.{◌≡◌, ◌≢◌, ◌<◌, ◌≤◌, ◌+◌, ◌++◌, IfOk, OnOk};
ghost use Rattle.spg_script.specs.Generated.{three_digits, address, load_key, load_row, changes};

use crate::any_key::AnyKey;
use crate::class_name::ClassName;
use crate::command::Command;
use spg_base::{Bytes, List, Memory, Point, Row};
use spg_radix::ByteText;
use std::alloc::Global;

/// The greatest number of rows that a load has.
pub const MOST_ROWS: u32 = 200_000;

/// The greatest seed of a load.
pub const MOST_SEED: u32 = 999_999;

/// The digit of a number below 10.
fn digit(n: u32) -> u8
    requires { n < 10 }
    ensures { result ≡ 48 + n }
{
    b'0' + n as u8
}

/// Adds a number below 1,000 in three digits.
fn push_three_digits(text: &mut Bytes, n: u32) -> Result<(), Memory>
    requires { n < 1000 }
    ensures { OnOk result (text.new ≡ text.old ++ three_digits n) }
{
    text.extend(&[digit(n / 100), digit(n / 10 % 10), digit(n % 10)])
}

/// The address of a house in a street, both below 1,000.
fn address(alloc: Global, street: u32, house: u32) -> Result<ByteText, Memory>
    requires street { street < 1000 }
    requires house { house < 1000 }
    ensures { IfOk result (λ text. text ≡ address street house) }
{
    let mut text = Bytes::copy(alloc, b"street ")?;
    push_three_digits(&mut text, street)?;
    text.extend(b" house ")?;
    push_three_digits(&mut text, house)?;
    Ok(ByteText::of_short(text))
}

/// Key number `i` of a load. No load is of ranges.
fn key(alloc: Global, class: ClassName, seed: u32, i: u32) -> Result<AnyKey, Memory>
    requires no_ranges { class ≢ ClassName.Range }
    requires number { i < MOST_ROWS }
    requires seed { seed ≤ MOST_SEED }
    ensures { IfOk result (λ key. key ≡ load_key class seed i) }
{
    let x = (37 * i + seed) % 1000;
    let y = (91 * i + seed) % 1000;
    match class {
        ClassName::Quad | ClassName::Kd => Ok(AnyKey::Point(Point {
            x: x as i32,
            y: y as i32,
        })),
        ClassName::Radix => Ok(AnyKey::Text(address(alloc, x, y)?)),
        ClassName::Range => unreachable!(),
    }
}

/// Row number `i` of a load.
fn row(i: u32) -> Row
    ensures { result ≡ load_row i }
{
    Row::at(i / 100, (i % 100 + 1) as u16)
}

/// Adds what a load does with number `i`: its insert and, for each third number, its delete.
pub fn push_changes(
    lane: &mut List<Command>,
    alloc: Global,
    class: ClassName,
    seed: u32,
    i: u32,
) -> Result<(), Memory>
    requires no_ranges { class ≢ ClassName.Range }
    requires number { i < MOST_ROWS }
    requires seed { seed ≤ MOST_SEED }
    ensures { OnOk result (lane.new ≡ lane.old ++ changes class seed i) }
{
    let key = key(alloc, class, seed, i)?;
    lane.push(Command::Insert {
        row: row(i),
        key: Some(key),
    })?;
    if i % 3 == 2 {
        lane.push(Command::Delete { row: row(i) })?;
    }
    Ok(())
}
