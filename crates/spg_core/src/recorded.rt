// A state keeps a list of what was done, its journal.
ghost use Rattle.spg_rows.specs.History.{seat_of};

use crate::bare::Bare;
use crate::state::State;
use spg_base::{Origin, Recorded};
use spg_opclass::OpClass;
use spg_rows::Event;

impl<O: OpClass> Recorded for Bare<O> {
    type Entry = Event<O>;

    ghost entries = { λ s. s.journal };

    ghost seat_of = { λ e. seat_of e };

    ghost origin_of = { λ s. s.origin };

    fn len(&self) -> u64 {
        self.journal().len()
    }

    fn origin(&self) -> Origin {
        Bare::origin(self)
    }
}

impl<O: OpClass> Recorded for State<O> {
    type Entry = Event<O>;

    ghost entries = { λ s. s.journal };

    ghost seat_of = { λ e. seat_of e };

    ghost origin_of = { λ s. s.origin };

    fn len(&self) -> u64 {
        self.journal().len()
    }

    fn origin(&self) -> Origin {
        State::origin(self)
    }
}
