ghost use Rattle.std.specs.Prelude.{◌≡◌, ◌≤◌, ◌^◌, length};
ghost use Rattle.spg_script.specs.Reading.{value_from, number_below, number_of, positive_of, negative_of, coordinate_of, row_of, point_of};

use crate::bytes::split;
use spg_base::{Point, Row};

/// Every number below 2^32 has at most so many digits.
const MOST_DIGITS: usize = 10;

/// So many digits spell a number below 2^64.
const FEW_DIGITS: usize = 19;

/// The number that the digits spell, where it is below 2^32. Leading zeros are let through.
fn value(bytes: &[u8]) -> Option<u32>
    requires few { length bytes.now ≤ 10 }
    ensures { result ≡ value_from (2 ^ 32) 0 bytes.now }
{
    let mut value = 0u64;
    for b in bytes {
        let b = u64::from(*b);
        if b < u64::from(b'0') || b > u64::from(b'9') {
            return None;
        }
        value = value * 10 + (b - u64::from(b'0'));
    }
    if value < 1 << 32 {
        Some(value as u32)
    } else {
        None
    }
}

/// The number that the bytes spell in decimal digits, without a leading zero. None exactly where they
/// spell none below 2^32.
pub fn number(bytes: &[u8]) -> Option<u32>
    ensures { result ≡ number_of bytes.now }
{
    match bytes {
        [] => None,
        [b'0', more @ ..] => if more.is_empty() { Some(0) } else { None },
        _ if bytes.len() > MOST_DIGITS => None,
        _ => value(bytes),
    }
}

/// The number that the digits spell behind those of `begun`, where it is below 2^64.
fn value_behind(begun: u64, bytes: &[u8]) -> Option<u64>
    ensures { result ≡ value_from (2 ^ 64) begun bytes.now }
{
    let mut value = begun;
    for b in bytes {
        if *b < b'0' || *b > b'9' {
            return None;
        }
        value = value.checked_mul(10)?.checked_add(u64::from(*b - b'0'))?;
    }
    Some(value)
}

/// The number that the digits spell, where it is below 2^64. Leading zeros are let through. The first 19
/// digits need no test.
fn wide_value(bytes: &[u8]) -> Option<u64>
    ensures { result ≡ value_from (2 ^ 64) 0 bytes.now }
{
    let few = bytes.len().min(FEW_DIGITS);
    let mut value = 0u64;
    for at in 0..few {
        let b = bytes[at];
        if b < b'0' || b > b'9' {
            return None;
        }
        value = value * 10 + u64::from(b - b'0');
    }
    value_behind(value, &bytes[few..])
}

/// The number that the bytes spell in decimal digits, without a leading zero. None exactly where they
/// spell none below 2^64.
pub fn wide_number(bytes: &[u8]) -> Option<u64>
    ensures { result ≡ number_below (2 ^ 64) bytes.now }
{
    match bytes {
        [] => None,
        [b] if b'0' <= *b && *b <= b'9' => Some(u64::from(*b - b'0')),
        [b'0', ..] => None,
        _ => wide_value(bytes),
    }
}

/// The coordinate that the bytes spell.
#[tactic(auto, unfolding(crate::specs::Reading::coordinate_of))]
pub fn coordinate(bytes: &[u8]) -> Option<i32>
    ensures { result ≡ coordinate_of bytes.now }
{
    match bytes {
        [] => None,
        [b'-', digits @ ..] => negative(digits),
        _ => positive(bytes),
    }
}

fn positive(bytes: &[u8]) -> Option<i32>
    ensures { result ≡ positive_of bytes.now }
{
    let n = number(bytes)?;
    if n < 1 << 31 { Some(n as i32) } else { None }
}

fn negative(digits: &[u8]) -> Option<i32>
    ensures { result ≡ negative_of digits.now }
{
    let n = number(digits)?;
    if n == 0 || n > 1 << 31 {
        None
    } else {
        Some((-i64::from(n)) as i32)
    }
}

/// The row that the bytes spell.
#[tactic(auto, unfolding(crate::specs::Reading::row_of))]
pub fn row(bytes: &[u8]) -> Option<Row>
    ensures { result ≡ row_of bytes.now }
{
    let (block, offset) = split(bytes, b'.')?;
    let block = number(block)?;
    let offset = number(offset)?;
    if offset < 1 << 16 {
        Row::new(block, offset as u16)
    } else {
        None
    }
}

/// The point that the bytes spell.
#[tactic(auto, unfolding(crate::specs::Reading::point_of))]
pub fn point(bytes: &[u8]) -> Option<Point>
    ensures { result ≡ point_of bytes.now }
{
    let (x, y) = split(bytes, b',')?;
    let x = coordinate(x)?;
    let y = coordinate(y)?;
    Some(Point { x, y })
}
