//! Shops by the place where they stand: a function of the program's own promises what the index promises.
#![tactic(auto)]

ghost use Rattle.std.specs.Prelude.{OnOk};
ghost use Rattle.spgist.specs.Calls.{Inserts};

use spgist::{DEFAULT_LIMIT, Index, InsertRefused, Point, Quad, Row, within};
use std::mem;

/// Opens a shop at a place.
fn open_shop(index: &mut Index<Quad>, shop: Row, at: Point) -> Result<(), InsertRefused>
    ensures ok { OnOk result (Inserts index.old index.new 0 shop (Some at)) }
{
    index.insert(shop, Some(at))
}

/// Opens two shops, and prints those of a rectangle.
fn run(rt: &HostRuntime, shops: &mut Index<Quad>) -> anyhow::Result<()> {
    open_shop(shops, Row::at(1, 1), Point { x: 120, y: 40 })?;
    open_shop(shops, Row::at(1, 2), Point { x: -300, y: 75 })?;
    let (low, high) = (Point { x: 0, y: -100 }, Point { x: 200, y: 100 });
    for shop in shops.find(within(rt.alloc(), low, high)?)?.as_slice() {
        println!(rt; "{shop}")?;
    }
    Ok(())
}

fn main(rt: HostRuntime) -> anyhow::Result<()> {
    let mut shops = Index::new(rt.alloc(), Quad, DEFAULT_LIMIT)?;
    let done = run(&rt, &mut shops);
    // The process ends, so its memory need not be given back piece by piece.
    mem::forget(shops);
    done
}
