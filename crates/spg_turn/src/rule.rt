//! What a seat at the table knows, the rule of the table, and what each step tells.
//!
//! Word 0 is the next ticket, word 1 the ticket that is served, word 2 the length of the journal. The
//! 64 words after them are bells, and the last counts the seats that sleep or are about to. The one slot
//! has the state, unless a seat has it out.
use atomic_table::{Join, Play, Split, TableRule};
use spg_base::{Origin, Recorded};
use std::collections::LinkedList;
use std::snapshot::Snapshot;

/// Where a seat stands. Tickets count without a limit here; the words have them modulo 2^64.
pub enum Stage {
    Idle,
    Waiting(u64),
    Holding(u64),
}

/// What a seat knows. It is for contracts alone, and no value of it is made.
pub struct View<E> {
    /// Whether the seat was joined to the first one, and is gone.
    pub spent: bool,
    pub number: u64,
    pub stage: Stage,
    /// How long the journal was when the lock was made.
    pub base: u64,
    /// The other seat's `base` in a join, until the two are compared.
    pub met: u64,
    pub origin: Origin,
    /// The journal as it was seen last.
    pub seen: LinkedList<E>,
    /// The entries that this seat added under the lock.
    pub mine: LinkedList<E>,
    /// What the two seats of a join had seen, until it is compared.
    pub left: LinkedList<E>,
    pub right: LinkedList<E>,
    /// How many seats were given and how many came back. The first seat alone counts them.
    pub given: u64,
    pub back: u64,
    /// What each seat that came back had added, by its number.
    pub kept: LinkedList<(u64, LinkedList<E>)>,
}

/// What holds of the words, the slot and all views between any two steps.
pub struct Law;

impl<S: Recorded> TableRule<Option<S>, View<S::Entry>, Snapshot<S>> for Law {
    ghost use Rattle.spg_turn.specs.Rule.{Kept};
    ghost use Rattle.spg_turn.specs.Views.{first_view};

    ghost holds = { λ _. Kept S.entries S.seat_of S.origin_of };

    ghost first = { λ key. first_view (S.entries key.value) (S.origin_of key.value) };
}

/// Takes the next ticket.
pub struct Draw;

impl<S: Recorded> Play<Option<S>, View<S::Entry>> for Draw {
    ghost use Rattle.spg_turn.specs.Rule.{drew};

    ghost then = { drew };
}

/// Reads which ticket is served. Where it is the seat's own, the seat has the slot from then on.
pub struct Look;

impl<S: Recorded> Play<Option<S>, View<S::Entry>> for Look {
    ghost use Rattle.spg_turn.specs.Rule.{looked};

    ghost then = { looked S.entries S.seat_of S.origin_of };
}

/// Makes the journal as long as that of the state in the slot.
pub struct Extend;

impl<S: Recorded> Play<Option<S>, View<S::Entry>> for Extend {
    ghost use Rattle.spg_turn.specs.Rule.{extended};

    ghost then = { extended S.entries };
}

/// Gives the slot back, and serves the next ticket.
pub struct Serve;

impl<S: Recorded> Play<Option<S>, View<S::Entry>> for Serve {
    ghost use Rattle.spg_turn.specs.Rule.{served};

    ghost then = { served };
}

/// Changes a bell, so that who is about to sleep on it does not, or the count of those who sleep.
pub struct Ring;

impl<S: Recorded> Play<Option<S>, View<S::Entry>> for Ring {
    ghost use Rattle.spg_turn.specs.Rule.{rang};

    ghost then = { rang };
}

/// Compares what the two seats of a join had seen with the journal.
pub struct Compare;

impl<S: Recorded> Play<Option<S>, View<S::Entry>> for Compare {
    ghost use Rattle.spg_turn.specs.Rule.{compared};

    ghost then = { compared };
}

/// Gives a seat, and takes one back.
pub struct Deal;

impl<E> Split<View<E>> for Deal {
    ghost use Rattle.spg_turn.specs.Views.{after_split, dealt};

    ghost left = { after_split };

    ghost right = { dealt };
}

impl<E> Join<View<E>> for Deal {
    ghost use Rattle.spg_turn.specs.Views.{joining, spent_view};

    ghost both = { joining };

    ghost spent = { spent_view };
}
