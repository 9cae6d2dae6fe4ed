ghost use Rattle.std.specs.Prelude.{◌≡◌, take};
ghost use Rattle.spg_script.specs.Reading.{len_before};
ghost use Rattle.spg_script.specs.Wanting.{first_word, last_corner, are_corners, key_wants, insert_wants, cond_wants, conds_want, all_conds_want, find_wants, command_wants, between_wants, lane_wants, line_wants, end_wants, insert_wanted, standby_wanted};

use crate::bytes::{len_before, split};
use crate::conditions::point_cond_then;
use crate::key_form::KeyForm;
use crate::numbers::{coordinate, row};
use crate::spot::Spot;
use crate::wanted::Wanted;

/// The greatest number of conditions of a query.
const MOST: usize = 8;

/// The bytes before the first space.
fn first_word(bytes: &[u8]) -> &[u8]
    ensures { result.now ≡ first_word bytes.now }
{
    &bytes[..len_before(bytes, b' ')]
}

/// The last of four coordinates, where four stand there.
#[tactic(auto, unfolding(crate::specs::Wanting::last_corner))]
fn last_corner(bytes: &[u8]) -> Option<i32>
    ensures { result ≡ last_corner bytes.now }
{
    let (x1, rest) = split(bytes, b',')?;
    let (y1, rest) = split(rest, b',')?;
    let (x2, y2) = split(rest, b',')?;
    coordinate(x1)?;
    coordinate(y1)?;
    coordinate(x2)?;
    coordinate(y2)
}

/// Whether four coordinates stand behind the first word.
#[tactic(auto, unfolding(crate::specs::Wanting::are_corners))]
fn are_corners(bytes: &[u8]) -> bool
    ensures { result ≡ are_corners bytes.now }
{
    match split(bytes, b' ') {
        Some((_, rest)) => last_corner(first_word(rest)).is_some(),
        None => false,
    }
}

/// What is wanted where bytes begin with no condition on points.
#[tactic(auto, unfolding(crate::specs::Wanting::cond_wants))]
fn cond_wants(bytes: &[u8]) -> Wanted
    ensures { result ≡ cond_wants bytes.now }
{
    if first_word(bytes) == b"in".as_slice() && are_corners(bytes) {
        Wanted::RectangleInOrder
    } else {
        Wanted::PointCondition
    }
}

/// What is wanted where bytes are no conditions on points.
fn conds_want(bytes: &[u8]) -> Wanted
    ensures { result ≡ conds_want 8 bytes.now }
{
    let mut rest = bytes;
    for _read in 0..MOST {
        let Some((_, left)) = point_cond_then(rest) else {
            return cond_wants(rest);
        };
        if !left.starts_with(b" and ") {
            return Wanted::And;
        }
        rest = &left[5..];
    }
    Wanted::FewerConditions
}

/// What is wanted where bytes are no key.
fn key_wants(keys: KeyForm) -> Wanted
    ensures { result ≡ key_wants keys }
{
    match keys {
        KeyForm::Point => Wanted::PointKey,
        KeyForm::Text => Wanted::TextKey,
        KeyForm::PointValue => Wanted::PointValueKey,
        KeyForm::TextValue => Wanted::TextValueKey,
        KeyForm::Range => Wanted::RangeKey,
    }
}

/// What is wanted where bytes are no row and key.
#[tactic(auto, unfolding(crate::specs::Wanting::insert_wants))]
fn insert_wants(keys: KeyForm, bytes: &[u8]) -> Wanted
    ensures { result ≡ insert_wants keys bytes.now }
{
    if row(first_word(bytes)).is_none() {
        Wanted::InsertRow
    } else {
        key_wants(keys)
    }
}

/// What is wanted where bytes are no conditions on keys of a form.
fn all_conds_want(keys: KeyForm, bytes: &[u8]) -> Wanted
    ensures { result ≡ all_conds_want keys bytes.now }
{
    match keys {
        KeyForm::Point | KeyForm::PointValue => conds_want(bytes),
        KeyForm::Text | KeyForm::TextValue => Wanted::TextConditions,
        KeyForm::Range => Wanted::RangeConditions,
    }
}

/// What is wanted where bytes are no query.
#[tactic(auto, unfolding(crate::specs::Wanting::find_wants))]
fn find_wants(keys: KeyForm, bytes: &[u8]) -> Wanted
    ensures { result ≡ find_wants keys bytes.now }
{
    if !bytes.starts_with(b"where ") {
        Wanted::Query
    } else {
        all_conds_want(keys, &bytes[6..])
    }
}

/// What is wanted where a line is no command. It is `other` where its first word is none of a
/// command that has more words.
#[tactic(auto, unfolding(crate::specs::Wanting::command_wants))]
fn command_wants(keys: KeyForm, other: Wanted, line: &[u8]) -> Wanted
    ensures { result ≡ command_wants keys other line.now }
{
    if line.starts_with(b"insert ") {
        insert_wants(keys, &line[7..])
    } else if line.starts_with(b"find ") {
        find_wants(keys, &line[5..])
    } else if line.starts_with(b"delete ") {
        Wanted::DeleteRow
    } else if line.starts_with(b"near ") {
        Wanted::Near
    } else if line.starts_with(b"save ") {
        Wanted::Name
    } else {
        other
    }
}

/// What is wanted in place of a line outside blocks.
#[tactic(auto, unfolding(crate::specs::Wanting::between_wants))]
fn between_wants(keys: KeyForm, line: &[u8]) -> Wanted
    ensures { result ≡ between_wants keys line.now }
{
    if line == b"lane".as_slice() || line == b"end".as_slice() {
        Wanted::Together
    } else {
        command_wants(keys, Wanted::Command, line)
    }
}

/// What is wanted in place of a line of a lane.
#[tactic(auto, unfolding(crate::specs::Wanting::lane_wants))]
fn lane_wants(keys: KeyForm, line: &[u8]) -> Wanted
    ensures { result ≡ lane_wants keys line.now }
{
    if line == b"lane".as_slice() {
        Wanted::FewerLanes
    } else if line == b"stat".as_slice()
        || line.starts_with(b"save ")
        || line.starts_with(b"near ")
    {
        Wanted::NoLane
    } else {
        command_wants(keys, Wanted::LaneCommand, line)
    }
}

/// What is wanted in place of a line that is bad behind what has come.
#[tactic(auto, unfolding(crate::specs::Wanting::line_wants))]
pub fn line_wants(spot: Spot, line: &[u8]) -> Wanted
    ensures { result ≡ line_wants spot line.now }
{
    match spot {
        Spot::Start => Wanted::ClassLine,
        Spot::Between { keys } => between_wants(keys, line),
        Spot::Block { keys: _ } => Wanted::FirstLane,
        Spot::Lane { keys } => lane_wants(keys, line),
    }
}

/// What is wanted where a script ends too early behind what has come.
pub fn end_wants(spot: Spot) -> Wanted
    ensures { result ≡ end_wants spot }
{
    match spot {
        Spot::Start => Wanted::ClassLine,
        Spot::Between { keys: _ } => Wanted::Command,
        Spot::Block { keys: _ } | Spot::Lane { keys: _ } => Wanted::EndOfBlock,
    }
}

/// What is wanted in a script of inserts, where this is wanted in one of all commands.
pub fn insert_wanted(wanted: Wanted, line: &[u8]) -> Wanted
    ensures { result ≡ insert_wanted wanted line.now }
{
    match wanted {
        Wanted::ClassLine => Wanted::ClassLine,
        _ if line.starts_with(b"insert ") => wanted,
        _ => Wanted::Insert,
    }
}

/// What is wanted in a script for a standby, where this is wanted in one of all commands.
pub fn standby_wanted(wanted: Wanted, line: &[u8]) -> Wanted
    ensures { result ≡ standby_wanted wanted line.now }
{
    match wanted {
        Wanted::ClassLine => Wanted::ClassLine,
        _
            if line.starts_with(b"insert ")
                || line.starts_with(b"find ")
                || line.starts_with(b"delete ") => { wanted }
        _ => Wanted::StandbyCommand,
    }
}
