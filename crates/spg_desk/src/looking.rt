// Calls that look at the index in one turn, and add nothing to its journal.
ghost use Rattle.std.specs.Prelude.{◌≡◌, IfOk};
ghost use Rattle.spg_rows.specs.Rows.{held_by};
ghost use Rattle.spg_seats.specs.Slots.{kept_key};
ghost use Rattle.spg_core.specs.Seen.{past_of};
ghost use Rattle.spg_turn.specs.Passes.{held_turn, held_view, held_state};
ghost use Rattle.spg_calls.specs.Doing.{idle};
ghost use Rattle.spg_desk.specs.Knowing.{IsAtRest, IsLent, doing_at};
ghost use Rattle.spg_desk.specs.Looks.{IsStatOf, LooksAt, DidStat, DidAskHeld, DidAskKey};
ghost use Rattle.spg_desk.specs.Passes.{desk_id, desk_of, view_of};

use crate::desk::Desk;
use crate::looked::{HeldAnswer, KeyAnswer, StatAnswer};
use crate::pass::{Going, Pass};
use spg_base::{Memory, Row, Same, Stat};
use spg_core::Bare;
use spg_opclass::OpClass;
use spg_rows::Event;
use spg_turn::Held;
use std::sync::Wait;

/// The counts of the index that a turn lends.
fn stat_in<O: OpClass>(bare: &Bare<O>) -> Stat
    ensures { IsStatOf O.meaning bare.now.origin (past_of bare.now) result }
{
    // The pages hold the rows that are present.
    let _ = bare.pages();
    let _ = bare.origin();
    bare.stat()
}

/// An equal key, or a null.
fn copy_key<O: OpClass>(key: &Option<O::Key>) -> Result<Option<O::Key>, Memory>
    ensures { IfOk result (λ copied. copied ≡ key.now) }
{
    match key {
        None => Ok(None),
        Some(key) => Ok(Some(key.copy()?)),
    }
}

/// A copy of the key of a row of the index that a turn lends.
fn key_in<O: OpClass>(bare: &Bare<O>, row: Row) -> Result<Option<Option<O::Key>>, Memory>
    ensures { IfOk result (λ key. key ≡ kept_key row (past_of bare.now)) }
{
    match bare.rows().key(row) {
        None => Ok(None),
        Some(key) => Ok(Some(copy_key::<O>(key)?)),
    }
}

impl<O: OpClass> Desk<O> {
    /// Ends a turn in which nothing was done. Gives the length of the journal.
    pub(crate) fn end_look(&self, held: Held<Bare<O>, Event<O>>) -> (Pass<O>, u64)
        requires own { held_turn held ≡ desk_id self.now }
        requires lent { IsLent (held_view held) }
        requires same { (held_state held).journal ≡ (held_view held).seen }
        requires origin { (held_state held).origin ≡ (held_view held).origin }
        requires idle { doing_at (held_view held) ≡ idle }
        ensures own { desk_of result.0 ≡ desk_id self.now }
        ensures looks { LooksAt O.meaning (held_view held) (view_of result.0) result.1 }
        ensures seen { (view_of result.0).seen ≡ (held_state held).journal }
        ensures free { IsAtRest (view_of result.0) }
    {
        let at = held.state().journal().len();
        let (going, _) = self.leave(held, at);
        (Pass { going }, at)
    }

    /// How many pages and how many tuples of each kind there are, and the clock, in one turn. It looks
    /// at all tuples, and takes no memory.
    pub fn stat<R: Wait>(&self, rt: &R, pass: Pass<O>) -> (Pass<O>, StatAnswer)
        requires own { desk_of pass ≡ desk_id self.now }
        ensures own { desk_of result.0 ≡ desk_of pass }
        ensures did { DidStat O.meaning (view_of pass) (view_of result.0) result.1 }
        ensures free { IsAtRest (view_of result.0) }
    {
        let Pass { going } = pass;
        let held = self.enter(rt, going);
        let stat = stat_in(held.state());
        let (pass, at) = self.end_look(held);
        (pass, StatAnswer { stat, at })
    }

    /// The seat that is waited for until the row may be inserted again, in one turn. None exactly where
    /// nobody is waited for.
    pub fn held_by<R: Wait>(&self, rt: &R, pass: Pass<O>, row: Row) -> (Pass<O>, HeldAnswer)
        requires own { desk_of pass ≡ desk_id self.now }
        ensures own { desk_of result.0 ≡ desk_of pass }
        ensures did { DidAskHeld O.meaning (view_of pass) (view_of result.0) row result.1 }
        ensures free { IsAtRest (view_of result.0) }
    {
        let Pass { going } = pass;
        let held = self.enter(rt, going);
        let by = held.state().held_by(row);
        let (pass, at) = self.end_look(held);
        (pass, HeldAnswer { by, at })
    }

    /// A copy of the key of the row's last life, or that it is a null, in one turn. None where the row
    /// had no life, or its last was an insert that was given up.
    pub fn key_of<R: Wait>(&self, rt: &R, pass: Pass<O>, row: Row) -> (Pass<O>, KeyAnswer<O::Key>)
        requires own { desk_of pass ≡ desk_id self.now }
        ensures own { desk_of result.0 ≡ desk_of pass }
        ensures did { DidAskKey O.meaning (view_of pass) (view_of result.0) row result.1 }
        ensures free { IsAtRest (view_of result.0) }
    {
        let Pass { going } = pass;
        let held = self.enter(rt, going);
        let copied = key_in(held.state(), row);
        let (pass, at) = self.end_look(held);
        match copied {
            Ok(key) => (pass, KeyAnswer::Copied { key, at }),
            Err(Memory) => (pass, KeyAnswer::Memory(at)),
        }
    }
}
