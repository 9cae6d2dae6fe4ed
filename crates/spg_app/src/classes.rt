ghost use Rattle.std.specs.Prelude.{◌≡◌, option_map};
ghost use Rattle.spg_core.specs.Seen.{Seen};
ghost use Rattle.spg_script.specs.declared.class_line.ClassLine.{ClassLine};
ghost use Rattle.spg_script.specs.declared.class_line.ClassLine.TheVariants as line;
ghost use Rattle.spg_app.specs.declared.end_state.EndState.{EndState};
ghost use Rattle.spg_app.specs.declared.end_state.EndState.TheVariants as answer;
ghost use Rattle.spg_app.specs.Named.{IsClass, quad_is, kd_is, radix_is, quad_value_is, kd_value_is, radix_value_is, range_is};

use crate::end_state::EndState;
use spg_core::State;
use spg_kd::Kd;
use spg_opclass::{SharedClass, With};
use spg_perform::Served;
use spg_quad::Quad;
use spg_radix::Radix;
use spg_range::Ranges;

/// A class of the program.
pub(crate) trait Ended: Served + SharedClass {
    /// What names it in a script.
    ghost line: { ClassLine };

    /// The answer with a state of it.
    ghost answer: { Seen Self Self.Key Self.Recon Self.Cond → EndState };

    /// Takes the state after the last command as the answer.
    fn ended(state: &mut Option<State<Self>>) -> Option<EndState>
        ensures { result ≡ option_map answer state.old };

    /// The list of classes has it under this line.
    ghost is_class: { IsClass Self.meaning Self.speech Self.code_number line answer };
}

impl Ended for Quad {
    ghost line = { line.Quad };

    ghost answer = { λ seen. answer.Quad seen };

    ghost is_class = { quad_is };

    fn ended(state: &mut Option<State<Quad>>) -> Option<EndState> {
        match state.take() {
            Some(state) => Some(EndState::Quad(state)),
            None => None,
        }
    }
}

impl Ended for Kd {
    ghost line = { line.Kd };

    ghost answer = { λ seen. answer.Kd seen };

    ghost is_class = { kd_is };

    fn ended(state: &mut Option<State<Kd>>) -> Option<EndState> {
        match state.take() {
            Some(state) => Some(EndState::Kd(state)),
            None => None,
        }
    }
}

impl Ended for Radix {
    ghost line = { line.Radix };

    ghost answer = { λ seen. answer.Radix seen };

    ghost is_class = { radix_is };

    fn ended(state: &mut Option<State<Radix>>) -> Option<EndState> {
        match state.take() {
            Some(state) => Some(EndState::Radix(state)),
            None => None,
        }
    }
}

impl Ended for With<Quad> {
    ghost line = { line.QuadValue };

    ghost answer = { λ seen. answer.QuadValue seen };

    ghost is_class = { quad_value_is };

    fn ended(state: &mut Option<State<With<Quad>>>) -> Option<EndState> {
        match state.take() {
            Some(state) => Some(EndState::QuadValue(state)),
            None => None,
        }
    }
}

impl Ended for With<Kd> {
    ghost line = { line.KdValue };

    ghost answer = { λ seen. answer.KdValue seen };

    ghost is_class = { kd_value_is };

    fn ended(state: &mut Option<State<With<Kd>>>) -> Option<EndState> {
        match state.take() {
            Some(state) => Some(EndState::KdValue(state)),
            None => None,
        }
    }
}

impl Ended for With<Radix> {
    ghost line = { line.RadixValue };

    ghost answer = { λ seen. answer.RadixValue seen };

    ghost is_class = { radix_value_is };

    fn ended(state: &mut Option<State<With<Radix>>>) -> Option<EndState> {
        match state.take() {
            Some(state) => Some(EndState::RadixValue(state)),
            None => None,
        }
    }
}

impl Ended for Ranges {
    ghost line = { line.Range };

    ghost answer = { λ seen. answer.Range seen };

    ghost is_class = { range_is };

    fn ended(state: &mut Option<State<Ranges>>) -> Option<EndState> {
        match state.take() {
            Some(state) => Some(EndState::Range(state)),
            None => None,
        }
    }
}
