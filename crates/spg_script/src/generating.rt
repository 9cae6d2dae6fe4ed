ghost use Rattle.std.specs.Prelude.{◌≡◌, ◌≢◌, ◌<◌, ◌≤◌, ◌∷◌, [], IfOk};
ghost use Rattle.spg_script.specs.Generated.{load_lane, watching_lane, load_lanes, first_query, second_query, load_parts, load_class, generated};

use crate::any_cond::AnyCond;
use crate::any_query::AnyQuery;
use crate::class_line::ClassLine;
use crate::class_name::ClassName;
use crate::command::Command;
use crate::load::{MOST_ROWS, MOST_SEED, push_changes};
use crate::part::Part;
use crate::script::Script;
use spg_base::{Bytes, List, Memory, PointCond};
use spg_radix::{ByteText, TextCond};
use std::alloc::Global;

/// The greatest number of lanes that load.
pub const MOST_LOAD_LANES: u8 = 16;

/// Lane `l` of those that load.
fn load_lane(
    alloc: Global,
    class: ClassName,
    count: u32,
    seed: u32,
    lanes: u8,
    l: u8,
) -> Result<List<Command>, Memory>
    requires no_ranges { class ≢ ClassName.Range }
    requires count { count ≤ MOST_ROWS }
    requires seed { seed ≤ MOST_SEED }
    requires some { 0 < lanes }
    ensures { IfOk result (λ lane. lane ≡ load_lane class count seed lanes l) }
{
    let mut lane = List::new(alloc);
    for i in 0..count {
        if i % u32::from(lanes) == u32::from(l) {
            push_changes(&mut lane, alloc, class, seed, i)?;
        }
    }
    Ok(lane)
}

/// The lane that vacuums and finds while the others load.
fn watching_lane(alloc: Global) -> Result<List<Command>, Memory>
    ensures { IfOk result (λ lane. lane ≡ watching_lane) }
{
    let commands = [
        Command::Vacuum,
        Command::Find {
            query: AnyQuery::All,
        },
        Command::Vacuum,
        Command::Find {
            query: AnyQuery::All,
        },
    ];
    Ok(List::from_vec(Vec::from_array(alloc, commands)?))
}

/// All lanes of the block.
fn load_lanes(
    alloc: Global,
    class: ClassName,
    count: u32,
    seed: u32,
    lanes: u8,
) -> Result<List<List<Command>>, Memory>
    requires no_ranges { class ≢ ClassName.Range }
    requires count { count ≤ MOST_ROWS }
    requires seed { seed ≤ MOST_SEED }
    ensures { IfOk result (λ made. made ≡ load_lanes class count seed lanes) }
{
    let mut made = List::new(alloc);
    for l in 0..lanes {
        made.push(load_lane(alloc, class, count, seed, lanes, l)?)?;
    }
    made.push(watching_lane(alloc)?)?;
    Ok(made)
}

/// The query of one condition.
fn only(alloc: Global, cond: AnyCond) -> Result<AnyQuery, Memory>
    ensures { IfOk result (λ query. query ≡ AnyQuery.Where (cond ∷ [])) }
{
    Ok(AnyQuery::Where(List::from_vec(Vec::from_array(alloc, [cond])?)))
}

/// The first query behind the block.
fn first_query(alloc: Global, class: ClassName) -> Result<AnyQuery, Memory>
    requires { class ≢ ClassName.Range }
    ensures { IfOk result (λ query. query ≡ first_query class) }
{
    match class {
        ClassName::Quad | ClassName::Kd => only(alloc, AnyCond::Point(PointCond::Left(100))),
        ClassName::Range => unreachable!(),
        ClassName::Radix => {
            let text = ByteText::of_short(Bytes::copy(alloc, b"street 0")?);
            only(alloc, AnyCond::Text(TextCond::Starts(text)))
        }
    }
}

/// The second one.
fn second_query(alloc: Global, class: ClassName) -> Result<AnyQuery, Memory>
    requires { class ≢ ClassName.Range }
    ensures { IfOk result (λ query. query ≡ second_query class) }
{
    match class {
        ClassName::Quad | ClassName::Kd => only(alloc, AnyCond::Point(PointCond::Below(500))),
        ClassName::Range => unreachable!(),
        ClassName::Radix => {
            let text = ByteText::of_short(Bytes::copy(alloc, b"street 500")?);
            only(alloc, AnyCond::Text(TextCond::Ge(text)))
        }
    }
}

/// All blocks.
fn load_parts(
    alloc: Global,
    class: ClassName,
    count: u32,
    seed: u32,
    lanes: u8,
) -> Result<List<Part>, Memory>
    requires no_ranges { class ≢ ClassName.Range }
    requires count { count ≤ MOST_ROWS }
    requires seed { seed ≤ MOST_SEED }
    ensures { IfOk result (λ parts. parts ≡ load_parts class count seed lanes) }
{
    let load = Part::together(load_lanes(alloc, class, count, seed, lanes)?);
    let vacuum = Part::alone(Command::Vacuum);
    let all = Part::alone(Command::Find {
        query: AnyQuery::All,
    });
    let query = first_query(alloc, class)?;
    let first = Part::alone(Command::Find { query });
    let query = second_query(alloc, class)?;
    let second = Part::alone(Command::Find { query });
    let parts = [load, vacuum, all, first, second];
    Ok(List::from_vec(Vec::from_array(alloc, parts)?))
}

/// The class line of a load.
fn load_class(class: ClassName) -> ClassLine
    ensures { result ≡ load_class class }
{
    match class {
        ClassName::Quad => ClassLine::Quad,
        ClassName::Kd => ClassLine::Kd,
        ClassName::Radix => ClassLine::Radix,
        ClassName::Range => ClassLine::Range,
    }
}

/// The generated script: `count` rows, 1 to 200,000, inserted in `lanes` lanes, 1 to 16, each third
/// of them deleted too, beside a lane that vacuums and finds; then a vacuum and three finds. The
/// keys come from the seed, 0 to 999,999; no load is of ranges.
pub fn generate(
    alloc: Global,
    count: u32,
    seed: u32,
    lanes: u8,
    class: ClassName,
) -> Result<Script, Memory>
    requires no_ranges { class ≢ ClassName.Range }
    requires some { 0 < count }
    requires count { count ≤ MOST_ROWS }
    requires seed { seed ≤ MOST_SEED }
    requires one_lane { 0 < lanes }
    requires lanes { lanes ≤ MOST_LOAD_LANES }
    ensures { IfOk result (λ script. script ≡ generated count seed lanes class) }
{
    let parts = load_parts(alloc, class, count, seed, lanes)?;
    Ok(Script::new(load_class(class), parts))
}
