// Classes whose keys are no points.

use crate::served::Served;
use spg_base::{Memory, Point, SeatNo};
use spg_core::State;
use spg_nearest::Nearest;
use spg_opclass::With;
use spg_radix::Radix;
use spg_range::Ranges;
use spg_script::SpokenAlone;
use std::alloc::Global;

impl Served for Radix {
    fn near(
        _alloc: Global,
        _state: &mut State<Radix>,
        _seat: SeatNo,
        _target: Point,
        _limit: u16,
    ) -> Result<Option<Nearest>, Memory> {
        Ok(None)
    }
}

impl Served for Ranges {
    fn near(
        _alloc: Global,
        _state: &mut State<Ranges>,
        _seat: SeatNo,
        _target: Point,
        _limit: u16,
    ) -> Result<Option<Nearest>, Memory> {
        Ok(None)
    }
}

// A script names no key of such a class without its number.
impl<O: SpokenAlone> Served for With<O> {
    fn near(
        _alloc: Global,
        _state: &mut State<With<O>>,
        _seat: SeatNo,
        _target: Point,
        _limit: u16,
    ) -> Result<Option<Nearest>, Memory> {
        Ok(None)
    }
}
