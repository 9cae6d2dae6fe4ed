use spg_core::State;
use spg_kd::Kd;
use spg_opclass::With;
use spg_quad::Quad;
use spg_radix::Radix;
use spg_range::Ranges;

/// The state after the last command, of the class that the script's line names.
#[derive(Drop)]
pub enum EndState {
    Quad(State<Quad>),
    Kd(State<Kd>),
    Radix(State<Radix>),
    QuadValue(State<With<Quad>>),
    KdValue(State<With<Kd>>),
    RadixValue(State<With<Radix>>),
    Range(State<Ranges>),
}
