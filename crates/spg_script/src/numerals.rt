ghost use Rattle.std.specs.Prelude.{◌≡◌, ◌<◌, ◌++◌, OnOk};
ghost use Rattle.std.specs.Fmt.{signed_decimal};
ghost use Rattle.spg_base.specs.Text.{row_text, point_text};
ghost use Rattle.spg_script.specs.Spelling.{value_text, range_text};

use crate::tail::Tail;
use spg_base::{Bytes, Memory, Point, Row};
use spg_range::Range32;

/// Adds a coordinate in decimal digits, with `-` before a negative one.
pub fn push_coordinate(text: &mut Bytes, z: i32) -> Result<(), Memory>
    ensures { OnOk result (text.new ≡ text.old ++ signed_decimal z) }
{
    let mut tail = Tail::new();
    tail.coordinate(z);
    text.extend(tail.as_slice())
}

/// Adds a row: its block, a dot and its offset.
pub fn push_row(text: &mut Bytes, row: Row) -> Result<(), Memory>
    ensures { OnOk result (text.new ≡ text.old ++ row_text row) }
{
    let mut tail = Tail::new();
    tail.row(row);
    text.extend(tail.as_slice())
}

/// Adds a point: its coordinates with a comma between.
pub fn push_point(text: &mut Bytes, point: Point) -> Result<(), Memory>
    ensures { OnOk result (text.new ≡ text.old ++ point_text point) }
{
    let mut tail = Tail::new();
    tail.point(point);
    text.extend(tail.as_slice())
}

/// The number beside a key, as it stands behind it.
fn value_tail(value: u64) -> Tail
    ensures { result ≡ value_text value }
{
    let mut tail = Tail::new();
    tail.number(value);
    tail.piece(b" value ");
    tail
}

/// A number of one digit, as it stands behind a key.
fn digit_behind(digit: u8) -> [u8; 8]
    requires { digit < 10 }
    ensures { result ≡ value_text digit }
{
    [b' ', b'v', b'a', b'l', b'u', b'e', b' ', b'0' + digit]
}

/// Adds the number beside a key, behind it.
pub fn push_value(text: &mut Bytes, value: u64) -> Result<(), Memory>
    ensures { OnOk result (text.new ≡ text.old ++ value_text value) }
{
    if value < 10 {
        return text.extend(&digit_behind(value as u8));
    }
    text.extend(value_tail(value).as_slice())
}

/// Adds the number beside a key to a line, behind the key.
pub fn push_value_on(line: &mut Vec<u8>, value: u64) -> Result<(), Memory>
    ensures { OnOk result (line.new.items ≡ line.old.items ++ value_text value) }
{
    if value >= 10 {
        return push_tail_on(line, value);
    }
    line.extend_from_slice(&digit_behind(value as u8))?;
    Ok(())
}

/// The same for a number of any digits.
#[inline(never)]
fn push_tail_on(line: &mut Vec<u8>, value: u64) -> Result<(), Memory>
    ensures { OnOk result (line.new.items ≡ line.old.items ++ value_text value) }
{
    line.extend_from_slice(value_tail(value).as_slice())?;
    Ok(())
}

/// Adds a range: its ends between brackets, or that it is empty.
pub fn push_range(text: &mut Bytes, range: &Range32) -> Result<(), Memory>
    ensures { OnOk result (text.new ≡ text.old ++ range_text range.now) }
{
    let Some(ends) = range.ends() else {
        return text.extend(b"empty");
    };
    let mut tail = Tail::new();
    tail.byte(b']');
    tail.point(ends);
    tail.byte(b'[');
    text.extend(tail.as_slice())
}
