// Which leaves a query asks for, told once for all leaves with the same rebuilt value.
ghost use Rattle.std.specs.Prelude.{◌≡◌, ℕ, List, IsSome, true};
ghost use Rattle.spg_forest.specs.Classes.{key_of};
ghost use Rattle.spg_scan.specs.Scanning.{asks_for};
ghost use Rattle.spg_scan.specs.Parts.{is_where};
ghost use Rattle.spg_scan.specs.Wanted.{is_wanted};

use crate::children::asked;
use spg_opclass::{OpClass, Query};

/// Which of the leaves with a rebuilt value a query asks for.
#[derive(Drop)]
pub(crate) enum Wanted<'a, O: OpClass> {
    Each,
    Nothing,
    /// Those whose key meets the conditions.
    Meeting {
        class: O,
        recon: &'a O::Recon,
        conds: &'a [O::Cond],
    },
}

impl<'a, O: OpClass> Wanted<'a, O> {
    /// Those that the query asks for. The nulls tree has no rebuilt value.
    pub(crate) fn of(
        class: Option<O>,
        query: &'a Query<O>,
        recon: &'a Option<O::Recon>,
    ) -> Wanted<'a, O>
        requires class { IsSome recon.now → is_where query.now ≡ true → IsSome class }
        ensures { (rest : List ℕ) → IsSome (key_of O.meaning recon.now rest) → is_wanted O.meaning result rest ≡ asks_for O.meaning query.now (key_of O.meaning recon.now rest) }
    {
        match recon {
            Some(recon) => match query {
                Query::All => Wanted::Each,
                Query::Null => Wanted::Nothing,
                Query::Where(conds) => Wanted::Meeting {
                    class: asked(class),
                    recon,
                    conds: conds.as_slice(),
                },
            },
            None => match query {
                Query::All | Query::Null => Wanted::Each,
                Query::Where(_) => Wanted::Nothing,
            },
        }
    }

    /// Whether a leaf with this rest is one of them.
    #[inline(always)]
    pub(crate) fn has(&self, rest: &[u8]) -> bool
        ensures { result ≡ is_wanted O.meaning self.now rest.now }
    {
        match self {
            Wanted::Each => true,
            Wanted::Nothing => false,
            Wanted::Meeting {
                class,
                recon,
                conds,
            } => class.leaf_consistent(recon, rest, conds),
        }
    }
}
