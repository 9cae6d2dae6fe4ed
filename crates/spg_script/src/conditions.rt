ghost use Rattle.std.specs.Prelude.{◌≡◌, IfOk};
ghost use Rattle.spg_script.specs.Reading.{inside_of, cond_of, text_cond_of, range_cond_of, point_cond_then, text_cond_then, range_cond_then, cond_then, first_cond_of, told, told_cond, conds_of};

use crate::any_cond::AnyCond;
use crate::bytes::{len_before, split};
use crate::key_form::KeyForm;
use crate::numbers::{coordinate, point};
use crate::ranges::range;
use crate::texts::quoted_text;
use spg_base::{List, Memory, PointCond};
use spg_radix::{ByteText, TextCond};
use spg_range::{Range32, RangeCond};
use std::alloc::Global;

/// The greatest number of conditions of a query.
const MOST: usize = 8;

#[tactic(auto, unfolding(crate::specs::Reading::inside_of))]
fn inside(bytes: &[u8]) -> Option<PointCond>
    ensures { result ≡ inside_of bytes.now }
{
    let (x1, rest) = split(bytes, b',')?;
    let (y1, rest) = split(rest, b',')?;
    let (x2, y2) = split(rest, b',')?;
    let x1 = coordinate(x1)?;
    let y1 = coordinate(y1)?;
    let x2 = coordinate(x2)?;
    let y2 = coordinate(y2)?;
    if x1 <= x2 && y1 <= y2 {
        Some(PointCond::Inside { x1, y1, x2, y2 })
    } else {
        None
    }
}

/// The condition on points, of a kind, that the bytes spell.
#[tactic(auto, unfolding(crate::specs::Reading::cond_of))]
fn point_cond(kind: &[u8], bytes: &[u8]) -> Option<PointCond>
    ensures { result ≡ cond_of kind.now bytes.now }
{
    if kind == b"eq".as_slice() {
        Some(PointCond::Eq(point(bytes)?))
    } else if kind == b"left".as_slice() {
        Some(PointCond::Left(coordinate(bytes)?))
    } else if kind == b"right".as_slice() {
        Some(PointCond::Right(coordinate(bytes)?))
    } else if kind == b"below".as_slice() {
        Some(PointCond::Below(coordinate(bytes)?))
    } else if kind == b"above".as_slice() {
        Some(PointCond::Above(coordinate(bytes)?))
    } else if kind == b"in".as_slice() {
        inside(bytes)
    } else {
        None
    }
}

/// The condition on texts, of a kind.
#[tactic(auto, unfolding(crate::specs::Reading::text_cond_of))]
fn text_cond(kind: &[u8], text: ByteText) -> Option<TextCond>
    ensures { result ≡ text_cond_of kind.now text }
{
    if kind == b"eq".as_slice() {
        Some(TextCond::Eq(text))
    } else if kind == b"lt".as_slice() {
        Some(TextCond::Lt(text))
    } else if kind == b"le".as_slice() {
        Some(TextCond::Le(text))
    } else if kind == b"gt".as_slice() {
        Some(TextCond::Gt(text))
    } else if kind == b"ge".as_slice() {
        Some(TextCond::Ge(text))
    } else if kind == b"starts".as_slice() {
        Some(TextCond::Starts(text))
    } else {
        None
    }
}

/// The first condition on points, and what is left behind it, from a space on.
#[tactic(auto, unfolding(crate::specs::Reading::point_cond_then))]
pub fn point_cond_then(bytes: &[u8]) -> Option<(PointCond, &[u8])>
    ensures { told result ≡ point_cond_then bytes.now }
{
    let (kind, rest) = split(bytes, b' ')?;
    let at = len_before(rest, b' ');
    let cond = point_cond(kind, &rest[..at])?;
    Some((cond, &rest[at..]))
}

/// The first condition on texts, and what is left behind its text.
#[tactic(auto, unfolding(crate::specs::Reading::text_cond_then))]
fn text_cond_then(alloc: Global, bytes: &[u8]) -> Result<Option<(TextCond, &[u8])>, Memory>
    ensures { IfOk result (λ found. told found ≡ text_cond_then bytes.now) }
{
    let Some((kind, rest)) = split(bytes, b' ') else {
        return Ok(None);
    };
    match quoted_text(alloc, rest) {
        Ok(Some((text, left))) => match text_cond(kind, text) {
            Some(cond) => Ok(Some((cond, left))),
            None => Ok(None),
        },
        Ok(None) => Ok(None),
        Err(Memory) => Err(Memory),
    }
}

/// The condition on ranges, of a kind.
#[tactic(auto, unfolding(crate::specs::Reading::range_cond_of))]
fn range_cond(kind: &[u8], range: Range32) -> Option<RangeCond>
    ensures { result ≡ range_cond_of kind.now range }
{
    if kind == b"eq".as_slice() {
        Some(RangeCond::Eq(range))
    } else if kind == b"overlap".as_slice() {
        Some(RangeCond::Overlap(range))
    } else if kind == b"contains".as_slice() {
        Some(RangeCond::Contains(range))
    } else if kind == b"within".as_slice() {
        Some(RangeCond::Within(range))
    } else if kind == b"left".as_slice() {
        Some(RangeCond::Left(range))
    } else if kind == b"right".as_slice() {
        Some(RangeCond::Right(range))
    } else {
        None
    }
}

/// The first condition on ranges, and what is left behind it, from a space on.
#[tactic(auto, unfolding(crate::specs::Reading::range_cond_then))]
fn range_cond_then(bytes: &[u8]) -> Option<(RangeCond, &[u8])>
    ensures { told result ≡ range_cond_then bytes.now }
{
    let (kind, rest) = split(bytes, b' ')?;
    let at = len_before(rest, b' ');
    let range = range(&rest[..at])?;
    let cond = range_cond(kind, range)?;
    Some((cond, &rest[at..]))
}

/// The first condition on keys of a form, and what is left behind it.
#[tactic(auto, unfolding(crate::specs::Reading::cond_then))]
fn cond_then(alloc: Global, keys: KeyForm, bytes: &[u8]) -> Result<Option<(AnyCond, &[u8])>, Memory>
    ensures { IfOk result (λ found. told found ≡ cond_then keys bytes.now) }
{
    match keys {
        KeyForm::Point | KeyForm::PointValue => match point_cond_then(bytes) {
            Some((cond, left)) => Ok(Some((AnyCond::Point(cond), left))),
            None => Ok(None),
        },
        KeyForm::Text | KeyForm::TextValue => match text_cond_then(alloc, bytes)? {
            Some((cond, left)) => Ok(Some((AnyCond::Text(cond), left))),
            None => Ok(None),
        },
        KeyForm::Range => match range_cond_then(bytes) {
            Some((cond, left)) => Ok(Some((AnyCond::Range(cond), left))),
            None => Ok(None),
        },
    }
}

/// The first condition, and what follows its `and`, where one follows.
#[tactic(auto, unfolding(crate::specs::Reading::first_cond_of))]
fn first_cond(
    alloc: Global,
    keys: KeyForm,
    bytes: &[u8],
) -> Result<Option<(AnyCond, Option<&[u8]>)>, Memory>
    ensures { IfOk result (λ found. told_cond found ≡ first_cond_of keys bytes.now) }
{
    match cond_then(alloc, keys, bytes) {
        Ok(Some((cond, left))) => {
            if left.is_empty() {
                Ok(Some((cond, None)))
            } else if left.starts_with(b" and ") {
                Ok(Some((cond, Some(&left[5..]))))
            } else {
                Ok(None)
            }
        }
        Ok(None) => Ok(None),
        Err(Memory) => Err(Memory),
    }
}

/// The conditions on keys of a form, at most 8, that the bytes spell.
pub fn conds(alloc: Global, keys: KeyForm, bytes: &[u8]) -> Result<Option<List<AnyCond>>, Memory>
    ensures { IfOk result (λ found. found ≡ conds_of keys 8 bytes.now) }
{
    let mut conds = List::new(alloc);
    let mut rest = bytes;
    while conds.len() < MOST {
        match first_cond(alloc, keys, rest) {
            Ok(Some((cond, more))) => {
                conds.push(cond)?;
                match more {
                    Some(more) => rest = more,
                    None => return Ok(Some(conds)),
                }
            }
            Ok(None) => return Ok(None),
            Err(Memory) => return Err(Memory),
        }
    }
    Ok(None)
}
