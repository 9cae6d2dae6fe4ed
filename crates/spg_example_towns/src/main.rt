//! Towns by where they lie: inserted, saved under a name, loaded again; then a journal that begins anew.
#![tactic(auto)]

use spgist::{
    DEFAULT_LIMIT, FolderImages, Index, Point, Quad, Row, load_index, renew, save, within,
};
use std::mem;

/// Inserts three towns, and closes one of them.
fn fill(towns: &mut Index<Quad>) -> anyhow::Result<()> {
    towns.insert(Row::at(1, 1), Some(Point { x: -905, y: 5327 }))?;
    towns.insert(Row::at(1, 2), Some(Point { x: -626, y: 5335 }))?;
    towns.insert(Row::at(1, 3), Some(Point { x: -847, y: 5190 }))?;
    towns.delete(Row::at(1, 3))?;
    towns.vacuum()?;
    Ok(())
}

/// Prints the towns of the west, and how long the journal is then.
fn tell(rt: &HostRuntime, what: &str, towns: &mut Index<Quad>) -> anyhow::Result<()> {
    let (low, high) = (Point { x: -1100, y: 5100 }, Point { x: -800, y: 5500 });
    println!(rt; "{what}")?;
    for town in towns.find(within(rt.alloc(), low, high)?)?.as_slice() {
        println!(rt; "  {town}")?;
    }
    println!(rt; "  journal {}", towns.journal().len())?;
    Ok(())
}

/// Tells of an index that is then given up. The process ends soon, so its memory need not be given back piece by piece.
fn tell_last(rt: &HostRuntime, what: &str, mut towns: Index<Quad>) -> anyhow::Result<()> {
    let done = tell(rt, what, &mut towns);
    mem::forget(towns);
    done
}

/// The same towns from an image.
fn tell_loaded(rt: &HostRuntime, towns: &Index<Quad>) -> anyhow::Result<()> {
    let mut images = FolderImages::new(rt);
    save(towns.state(), &mut images, "towns")?;
    let loaded = load_index(rt.alloc(), Quad, &mut images, "towns", DEFAULT_LIMIT)?;
    tell_last(rt, "loaded", loaded)
}

/// Fills an index, and tells of it and of those that are made of it.
fn run(rt: &HostRuntime, towns: &mut Index<Quad>) -> anyhow::Result<()> {
    fill(towns)?;
    tell(rt, "inserted", towns)?;
    tell_loaded(rt, towns)?;
    tell_last(rt, "renewed", renew(rt.alloc(), towns)?)
}

fn main(rt: HostRuntime) -> anyhow::Result<()> {
    let mut towns = Index::new(rt.alloc(), Quad, DEFAULT_LIMIT)?;
    let done = run(&rt, &mut towns);
    mem::forget(towns);
    done
}
