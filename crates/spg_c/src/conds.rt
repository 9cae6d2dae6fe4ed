// The conditions of a search, as C gives them.
ghost use Rattle.std.specs.Prelude.{◌≡◌, ◌<◌, ◌≤◌, ◌+◌, length, slice_range, IsNone, IfSome};
ghost use Rattle.spg_c.specs.Conds.{point_cond_of, text_cond_on, text_cond_of, ReadsConds, ReadsCond};

use crate::refused::Refused;
use spgist::{List, Point, PointCond, TextCond, text};
use std::alloc::Global;

/// A condition on points, by its number: 1 the point x1, y1; 2 a lower x than x1; 3 a greater one; 4 a lower y than y1;
/// 5 a greater one; 6 the rectangle from x1, y1 to x2, y2, with its border.
#[repr(C)]
#[derive(Clone, Copy)]
pub struct SpgPointCond {
    pub number: u32,
    pub x1: i32,
    pub y1: i32,
    pub x2: i32,
    pub y2: i32,
}

/// A condition on texts, by its number: 1 the text itself; 2 lesser ones; 3 those and the text; 4 greater ones; 5 those
/// and the text; 6 texts that begin with it. The text has `len` bytes, from `from` on, of those that stand beside.
#[repr(C)]
#[derive(Clone, Copy)]
pub struct SpgTextCond {
    pub number: u32,
    pub from: usize,
    pub len: usize,
}

/// The condition of this number.
fn point_cond(cond: SpgPointCond) -> Option<PointCond>
    ensures { result ≡ point_cond_of cond }
{
    let SpgPointCond {
        number,
        x1,
        y1,
        x2,
        y2,
    } = cond;
    match number {
        1 => Some(PointCond::Eq(Point { x: x1, y: y1 })),
        2 => Some(PointCond::Left(x1)),
        3 => Some(PointCond::Right(x1)),
        4 => Some(PointCond::Below(y1)),
        5 => Some(PointCond::Above(y1)),
        6 => Some(PointCond::Inside { x1, y1, x2, y2 }),
        _ => None,
    }
}

/// All these conditions, 1 to 8. `Range` where there are fewer or more, or one has another number.
pub(crate) fn point_conds(alloc: Global, conds: &[SpgPointCond]) -> Result<List<PointCond>, Refused>
    ensures { ReadsConds point_cond_of conds.now result }
{
    if conds.is_empty() || 8 < conds.len() {
        return Err(Refused::Range);
    }
    let mut list = List::new(alloc);
    for cond in conds {
        match point_cond(*cond) {
            Some(known) => {
                if list.push(known).is_err() {
                    return Err(Refused::Memory);
                }
            }
            None => return Err(Refused::Range),
        }
    }
    Ok(list)
}

/// The part of the bytes that a condition names.
fn part_of(bytes: &[u8], from: usize, len: usize) -> Option<&[u8]>
    ensures none { IsNone result → length bytes.now < from + len }
    ensures some { IfSome result (λ part. (from + len ≤ length bytes.now) × (part.now ≡ slice_range bytes.now from (from + len))) }
{
    if bytes.len() < from || bytes.len() - from < len {
        return None;
    }
    Some(&bytes[from..from + len])
}

/// The condition of this number on a text.
fn text_cond_with(alloc: Global, number: u32, part: &[u8]) -> Result<TextCond, Refused>
    ensures { ReadsCond (text_cond_on number) part.now result }
{
    if 3_900 < part.len() {
        return Err(Refused::Range);
    }
    let Ok(text) = text(alloc, part) else {
        return Err(Refused::Memory);
    };
    match number {
        1 => Ok(TextCond::Eq(text)),
        2 => Ok(TextCond::Lt(text)),
        3 => Ok(TextCond::Le(text)),
        4 => Ok(TextCond::Gt(text)),
        5 => Ok(TextCond::Ge(text)),
        6 => Ok(TextCond::Starts(text)),
        _ => Err(Refused::Range),
    }
}

/// The condition of this number on the text that it names.
fn text_cond(alloc: Global, bytes: &[u8], cond: SpgTextCond) -> Result<TextCond, Refused>
    ensures { ReadsCond (text_cond_of bytes.now) cond result }
{
    match part_of(bytes, cond.from, cond.len) {
        Some(part) => text_cond_with(alloc, cond.number, part),
        None => Err(Refused::Range),
    }
}

/// All these conditions, 1 to 8.
pub(crate) fn text_conds(
    alloc: Global,
    bytes: &[u8],
    conds: &[SpgTextCond],
) -> Result<List<TextCond>, Refused>
    ensures { ReadsConds (text_cond_of bytes.now) conds.now result }
{
    if conds.is_empty() || 8 < conds.len() {
        return Err(Refused::Range);
    }
    let mut list = List::new(alloc);
    for cond in conds {
        match text_cond(alloc, bytes, *cond) {
            Ok(known) => {
                if list.push(known).is_err() {
                    return Err(Refused::Memory);
                }
            }
            Err(Refused::Range) => return Err(Refused::Range),
            Err(_) => return Err(Refused::Memory),
        }
    }
    Ok(list)
}
