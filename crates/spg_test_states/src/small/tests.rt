use crate::small::state::small_state;
use spg_base::{Memory, SeatNo};
use spg_core::{ApplyRefused, Bare, OpenKind, OpenRefused, VacuumRefused};
use spg_quad::Quad;
use spg_scan::SiftRefused;
use std::alloc::Global;
use std::mem::forget;
use std::test::Fail;

/// What a seat has open.
fn open_at(bare: &Bare<Quad>, number: u8) -> Option<OpenKind> {
    match SeatNo::new(number) {
        Some(seat) => Some(bare.open_of(seat)),
        None => None,
    }
}

/// Whether an insert, a vacuum and a scan that holds two items are open.
fn has_much_open(bare: &Bare<Quad>) -> bool {
    open_at(bare, 0) == Some(OpenKind::Insert)
        && open_at(bare, 1) == Some(OpenKind::Vacuum)
        && open_at(bare, 2) == Some(OpenKind::Scan { held: 2 })
}

/// Whether the small state comes about, and all that is open in it.
fn comes_about(alloc: Global) -> Result<(bool, bool), Memory> {
    let (bare, is_so) = small_state(alloc, Quad)?;
    let much = has_much_open(&bare);
    forget(bare);
    Ok((is_so, much))
}

#[test]
fn much_is_open_at_once(rt: HostRuntime) -> Result<(), Fail> {
    assert!(rt; comes_about(rt.alloc())? == (true, true));
    Ok(())
}

#[test]
fn refusals_say_why(rt: HostRuntime) -> Result<(), Fail> {
    let by = SeatNo::first();
    let held = OpenRefused::RowHeld { by };
    let open = VacuumRefused::Open { by };
    let opens = format!(in rt.alloc(); "{held}, {open}")?;
    assert_eq!(rt;
        opens.as_str(),
        "seat 0 holds the row, seat 0 has a vacuum open"
    );
    let page = ApplyRefused::Changed;
    let item = SiftRefused::Changed;
    let changed = format!(in rt.alloc(); "{page}, {item}")?;
    let words =
        "the page has changed since it was looked at, the item is not the one that was copied";
    assert_eq!(rt; changed.as_str(), words);
    Ok(())
}
