// Classes of points.

use crate::served::Served;
use spg_base::{Memory, Point, SeatNo};
use spg_core::State;
use spg_kd::Kd;
use spg_nearest::{Nearest, find_nearest};
use spg_quad::Quad;
use std::alloc::Global;

impl Served for Quad {
    fn near(
        alloc: Global,
        state: &mut State<Quad>,
        seat: SeatNo,
        target: Point,
        limit: u16,
    ) -> Result<Option<Nearest>, Memory> {
        // The pages are well formed.
        let _ = state.pages();
        let found = find_nearest(alloc, state, seat, target, limit)?;
        Ok(Some(found))
    }
}

impl Served for Kd {
    fn near(
        alloc: Global,
        state: &mut State<Kd>,
        seat: SeatNo,
        target: Point,
        limit: u16,
    ) -> Result<Option<Nearest>, Memory> {
        // The pages are well formed.
        let _ = state.pages();
        let found = find_nearest(alloc, state, seat, target, limit)?;
        Ok(Some(found))
    }
}
