//! A street of shops: an index that is built at once, and goes on.
#![tactic(auto)]

ghost use Rattle.std.specs.Prelude.{◌≡◌, OnOk};
ghost use Rattle.spgist.specs.Calls.{Inserts};

use spgist::{
    DEFAULT_LIMIT, Gathered, Index, InsertRefused, Point, Quad, Row, build_index, within,
};
use std::mem;
use std::thread::Threads;

/// Many shops along a street, in an index that is built at once.
fn street<R: AllocGlobal + Threads + Sync>(rt: &R) -> anyhow::Result<Index<Quad>> {
    let mut shops = Gathered::new(rt.alloc());
    for n in 1..=300u16 {
        let at = Point {
            x: i32::from(n),
            y: 0,
        };
        shops.add(Row::at(1, n), Some(at))?;
    }
    Ok(build_index(rt, Quad, shops, 4, DEFAULT_LIMIT)?)
}

/// Opens one more shop.
fn open_shop(index: &mut Index<Quad>, shop: Row, at: Point) -> Result<(), InsertRefused>
    ensures ok { OnOk result (Inserts index.old index.new 0 shop (Some at)) }
{
    index.insert(shop, Some(at))
}

/// Opens a shop, and prints those at the street's beginning.
fn run(rt: &HostRuntime, shops: &mut Index<Quad>) -> anyhow::Result<()> {
    open_shop(shops, Row::at(2, 1), Point { x: 3, y: 1 })?;
    let (low, high) = (Point { x: 0, y: 0 }, Point { x: 4, y: 9 });
    for shop in shops.find(within(rt.alloc(), low, high)?)?.as_slice() {
        println!(rt; "{shop}")?;
    }
    Ok(())
}

fn main(rt: HostRuntime) -> anyhow::Result<()> {
    let mut shops = street(&rt)?;
    let done = run(&rt, &mut shops);
    // The process ends, so its memory need not be given back piece by piece.
    mem::forget(shops);
    done
}
