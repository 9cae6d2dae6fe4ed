ghost use Rattle.std.specs.Prelude.{◌≡◌, ◌<◌, ◌++◌, ◌≤◌, IfOk, OnOk, length, codes};
ghost use Rattle.std.specs.Fmt.{signed_decimal};
ghost use Rattle.std.specs.List.{flat_map};
ghost use Rattle.spg_base.specs.declared.point.PointCond.TheVariants as point_cond;
ghost use Rattle.spg_script.specs.Quoted.{hex_digit, byte_text, quoted};
ghost use Rattle.spg_script.specs.Line.{word_of};
ghost use Rattle.spg_script.specs.Spelling.{cond_text, conds_text, range_word, range_named, range_cond_text};
ghost use Rattle.spg_script.specs.Speech.{text_cond_text, any_key_text, any_key_or_null_text, any_query_text, any_cond_text};
ghost use Rattle.spg_script.specs.Printing.{plain_before};

use crate::any_cond::AnyCond;
use crate::any_key::AnyKey;
use crate::any_query::AnyQuery;
use crate::numerals::{push_coordinate, push_point, push_range, push_value};
use crate::texts::plain_before;
use spg_base::{Bytes, Memory, Point, PointCond};
use spg_radix::TextCond;
use spg_range::{Range32, RangeCond};

/// Adds a condition on points that names one coordinate.
fn push_side(text: &mut Bytes, word: &[u8], z: i32) -> Result<(), Memory>
    ensures { OnOk result (text.new ≡ text.old ++ (word.now ++ signed_decimal z)) }
{
    text.extend(word)?;
    push_coordinate(text, z)
}

/// Adds the rectangle with these corners, the lower first.
fn push_inside(text: &mut Bytes, low: Point, high: Point) -> Result<(), Memory>
    ensures { OnOk result (text.new ≡ text.old ++ cond_text (point_cond.Inside low.x low.y high.x high.y)) }
{
    text.extend(b"in ")?;
    push_point(text, low)?;
    text.push(b',')?;
    push_point(text, high)
}

/// Adds a condition on points.
pub fn push_cond(text: &mut Bytes, cond: &PointCond) -> Result<(), Memory>
    ensures { OnOk result (text.new ≡ text.old ++ cond_text cond.now) }
{
    match *cond {
        PointCond::Eq(point) => {
            text.extend(b"eq ")?;
            push_point(text, point)
        }
        PointCond::Left(x) => push_side(text, b"left ", x),
        PointCond::Right(x) => push_side(text, b"right ", x),
        PointCond::Below(y) => push_side(text, b"below ", y),
        PointCond::Above(y) => push_side(text, b"above ", y),
        PointCond::Inside { x1, y1, x2, y2 } => {
            push_inside(text, Point { x: x1, y: y1 }, Point { x: x2, y: y2 })
        }
    }
}

/// A hexadecimal digit of lower case.
fn hex_digit(n: u8) -> u8
    requires { n < 16 }
    ensures { result ≡ hex_digit n }
{
    if n < 10 { 48 + n } else { 87 + n }
}

/// Adds bytes up to the first that may not stand for itself, and that one; gives what follows.
fn push_run<'a>(text: &mut Bytes, bytes: &'a [u8]) -> Result<&'a [u8], Memory>
    requires { 0 < length bytes.now }
    ensures added { IfOk result (λ rest. text.new ++ flat_map byte_text rest.now ≡ text.old ++ flat_map byte_text bytes.now) }
    ensures shorter { IfOk result (λ rest. length rest.now < length bytes.now) }
{
    let plain = plain_before(bytes);
    text.extend(&bytes[..plain])?;
    if plain == bytes.len() {
        return Ok(&bytes[plain..]);
    }
    let b = bytes[plain];
    text.extend(&[b'\\', b'x', hex_digit(b / 16), hex_digit(b % 16)])?;
    Ok(&bytes[plain + 1..])
}

/// Adds a text between quotes, each byte by itself where it may be.
pub fn push_quoted(text: &mut Bytes, bytes: &[u8]) -> Result<(), Memory>
    ensures { OnOk result (text.new ≡ text.old ++ quoted bytes.now) }
{
    text.push(b'"')?;
    let mut rest = bytes;
    while !rest.is_empty() {
        rest = push_run(text, rest)?;
    }
    text.push(b'"')
}

/// The word of a condition on texts.
fn word(cond: &TextCond) -> &[u8]
    ensures { result.now ≡ word_of cond.now }
{
    match cond {
        TextCond::Eq(_) => b"eq",
        TextCond::Lt(_) => b"lt",
        TextCond::Le(_) => b"le",
        TextCond::Gt(_) => b"gt",
        TextCond::Ge(_) => b"ge",
        TextCond::Starts(_) => b"starts",
    }
}

/// Adds a condition on texts.
pub fn push_text_cond(text: &mut Bytes, cond: &TextCond) -> Result<(), Memory>
    ensures { OnOk result (text.new ≡ text.old ++ text_cond_text cond.now) }
{
    text.extend(word(cond))?;
    text.push(b' ')?;
    push_quoted(text, cond.named())
}

/// The word of a condition on ranges.
fn range_word(cond: &RangeCond) -> &[u8]
    ensures { result.now ≡ range_word cond.now }
{
    match cond {
        RangeCond::Eq(_) => b"eq",
        RangeCond::Overlap(_) => b"overlap",
        RangeCond::Contains(_) => b"contains",
        RangeCond::Within(_) => b"within",
        RangeCond::Left(_) => b"left",
        RangeCond::Right(_) => b"right",
    }
}

/// The range that a condition names.
fn range_named(cond: &RangeCond) -> &Range32
    ensures { result.now ≡ range_named cond.now }
{
    match cond {
        RangeCond::Eq(range)
        | RangeCond::Overlap(range)
        | RangeCond::Contains(range)
        | RangeCond::Within(range)
        | RangeCond::Left(range)
        | RangeCond::Right(range) => range,
    }
}

/// Adds a condition on ranges.
pub fn push_range_cond(text: &mut Bytes, cond: &RangeCond) -> Result<(), Memory>
    ensures { OnOk result (text.new ≡ text.old ++ range_cond_text cond.now) }
{
    text.extend(range_word(cond))?;
    text.push(b' ')?;
    push_range(text, range_named(cond))
}

/// Adds a key.
fn push_any_key(text: &mut Bytes, key: &AnyKey) -> Result<(), Memory>
    ensures { OnOk result (text.new ≡ text.old ++ any_key_text key.now) }
{
    match key {
        AnyKey::Point(point) => push_point(text, *point),
        AnyKey::Text(key) => push_quoted(text, key.as_slice()),
        AnyKey::PointValue { point, value } => {
            push_point(text, *point)?;
            push_value(text, *value)
        }
        AnyKey::TextValue { text: key, value } => {
            push_quoted(text, key.as_slice())?;
            push_value(text, *value)
        }
        AnyKey::Range(range) => push_range(text, range),
    }
}

/// Adds a key or a null.
pub fn push_key(text: &mut Bytes, key: &Option<AnyKey>) -> Result<(), Memory>
    ensures { OnOk result (text.new ≡ text.old ++ any_key_or_null_text key.now) }
{
    match key {
        Some(key) => push_any_key(text, key),
        None => text.extend(b"null"),
    }
}

/// Adds a condition.
fn push_any_cond(text: &mut Bytes, cond: &AnyCond) -> Result<(), Memory>
    ensures { OnOk result (text.new ≡ text.old ++ any_cond_text cond.now) }
{
    match cond {
        AnyCond::Point(cond) => push_cond(text, cond),
        AnyCond::Text(cond) => push_text_cond(text, cond),
        AnyCond::Range(cond) => push_range_cond(text, cond),
    }
}

/// Adds conditions: the first behind `where`, each further one behind `and`.
fn push_conds(text: &mut Bytes, conds: &[AnyCond]) -> Result<(), Memory>
    ensures { OnOk result (text.new ≡ text.old ++ conds_text any_cond_text (codes "where ") conds.now) }
{
    let mut word: &[u8] = b"where ";
    for cond in conds {
        text.extend(word)?;
        push_any_cond(text, cond)?;
        word = b" and ";
    }
    Ok(())
}

/// Adds a query.
pub fn push_query(text: &mut Bytes, query: &AnyQuery) -> Result<(), Memory>
    ensures { OnOk result (text.new ≡ text.old ++ any_query_text query.now) }
{
    match query {
        AnyQuery::All => text.extend(b"all"),
        AnyQuery::Null => text.extend(b"null"),
        AnyQuery::Where(conds) => push_conds(text, conds.as_slice()),
    }
}
