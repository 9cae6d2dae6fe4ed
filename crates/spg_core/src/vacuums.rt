ghost use Rattle.std.specs.Prelude.{◌≡◌, ◌∷◌, [], None, OnOk, OnErr};
ghost use Rattle.spg_rows.specs.Vacuums.{AreBefore, newest_ends, find_end};

use spg_base::Memory;
use std::alloc::Global;
use std::marker::Model;

/// Where a vacuum opened in the journal, and where it ended.
#[derive(Clone, Copy, Debug, PartialEq, Eq)]
pub struct VacuumSpan {
    opened: u64,
    ended: Option<u64>,
}

/// The vacuums that there were, the newest last. Seen as a list they go the other way.
#[derive(Drop)]
pub struct Vacuums {
    spans: Vec<VacuumSpan>,
}

impl Model for Vacuums {
    ghost use Rattle.std.specs.Prelude.{ℕ, List, Option};
    ghost use Rattle.spg_core.specs.Spans.{spans_of, IsDescending};

    ghost Value = { List (ℕ × Option ℕ) };

    ghost view = { λ v. spans_of v.spans.items };

    ghost invariant = { λ v. IsDescending (spans_of v.spans.items) };
}

impl Vacuums {
    /// No vacuums.
    pub fn new(alloc: Global) -> Vacuums
        ensures { result ≡ [] }
    {
        Vacuums {
            spans: Vec::new(alloc),
        }
    }

    /// A vacuum opens at a position behind all that there were. It takes the room for its end too.
    pub fn open(&mut self, at: u64) -> Result<(), Memory>
        requires { AreBefore at self.old }
        ensures ok { OnOk result (self.new ≡ (at, None) ∷ self.old) }
        ensures err { OnErr result (self.new ≡ self.old) }
    {
        self.spans.push(VacuumSpan {
            opened: at,
            ended: None,
        })?;
        Ok(())
    }

    /// The newest vacuum ends. It takes no memory.
    pub fn end(&mut self, at: u64)
        ensures { self.new ≡ newest_ends at self.old }
    {
        if let Some(span) = self.spans.last_mut() {
            span.ended = Some(at);
        }
    }

    /// Where the vacuum ended that opened at a position. None where there is no such vacuum or it has
    /// not ended.
    pub fn end_of(&self, opened: u64) -> Option<u64>
        ensures { result ≡ find_end opened self.now }
    {
        match self.spans.binary_search_by_key(&opened, |span| span.opened) {
            Ok(index) => self.spans[index].ended,
            Err(_) => None,
        }
    }
}
