use crate::watched::{Flags, Watched, set};
use spg_base::{Memory, Point};
use spg_opclass::{Choice, InnerView, OpClass};
use spg_points::{encode, zero_labels};
use spg_quad::QuadRecon;
use std::alloc::Global;
use std::test::Fail;

/// A class that answers a scan at once.
fn class(alloc: Global) -> Result<Watched, Memory> {
    let flags = Flags::new(alloc)?;
    set(&flags.put);
    Ok(Watched { flags })
}

/// A tuple that divides at 0,0.
fn view(alloc: Global) -> Result<InnerView, Memory> {
    let prefix = encode(alloc, Point { x: 0, y: 0 })?;
    let labels = zero_labels(alloc, 4)?;
    Ok(InnerView {
        all_same: false,
        prefix,
        labels,
    })
}

/// The point 5,-1 belongs to the second node.
fn chooses(alloc: Global, class: &Watched, view: &InnerView) -> Result<bool, Memory> {
    let rest = encode(alloc, Point { x: 5, y: -1 })?;
    let choice = class.choose_in_place(alloc, &QuadRecon, &view.in_place(), rest.as_slice())?;
    Ok(matches!(choice, Choice::Match { node: 1, .. }))
}

/// What is rebuilt below it says nothing.
fn goes_down(alloc: Global, class: &Watched, view: &InnerView) -> Result<bool, Memory> {
    if view.labels.as_slice().len() < 2 {
        return Ok(false);
    }
    Ok(class.down_in_place(alloc, &QuadRecon, &view.in_place(), 1)? == QuadRecon)
}

/// A scan of all visits each node.
fn visits(alloc: Global, class: &Watched, view: &InnerView) -> Result<bool, Memory> {
    let kept = class.inner_consistent_in_place(alloc, &QuadRecon, &view.in_place(), &[])?;
    Ok(kept.as_slice() == [0, 1, 2, 3].as_slice())
}

fn answers(alloc: Global, class: &Watched) -> Result<bool, Memory> {
    let view = view(alloc)?;
    Ok(
        chooses(alloc, class, &view)?
            && goes_down(alloc, class, &view)?
            && visits(alloc, class, &view)?,
    )
}

#[test]
fn asks_a_class_that_reads_nothing_in_place_on_a_copy(rt: HostRuntime) -> Result<(), Fail> {
    let class = class(rt.alloc())?;
    assert!(rt; answers(rt.alloc(), &class)?);
    Ok(())
}
