ghost use Rattle.std.specs.Prelude.{◌≡◌, ◌<◌, ◌≤◌, ◌+◌, ◌-◌, ◌∷◌, [], length, take, IfSome, OnOk, OnErr};
ghost use Rattle.spg_cover.specs.Vacuum.{AreHigh};
ghost use Rattle.spg_vacuum.specs.Listing.{none_listed, first_place, with_listed, first_done};

use spg_base::{Memory, Place};
use std::alloc::Global;
use std::collections::BTreeSet;
use std::marker::Model;

/// The places that a vacuum has still to see, each on a block from 3 on and listed once. They are done
/// in their order, and those that are done stay until all are.
#[derive(Drop)]
pub(crate) struct Pending {
    places: Vec<Place>,
    done: usize,
    listed: BTreeSet<Place>,
}

impl Model for Pending {
    ghost use Rattle.spg_vacuum.specs.Listing.{Listing};

    ghost Value = { Listing };

    ghost use Rattle.spg_vacuum.specs.Inside.{listing_of, IsPending};

    ghost view = { listing_of };

    ghost invariant = { IsPending };
}

impl Pending {
    /// No places.
    pub(crate) fn new(alloc: Global) -> Pending
        ensures { result ≡ none_listed }
    {
        Pending {
            places: Vec::new(alloc),
            done: 0,
            listed: BTreeSet::new(alloc),
        }
    }

    /// The first place to do. None where all are done.
    pub(crate) fn first(&self) -> Option<Place>
        ensures value { result ≡ first_place self.now.todo }
        ensures high { AreHigh self.now.todo }
    {
        self.places.get(self.done).copied()
    }

    /// Lists a place, unless it is listed already. After a refusal the list is as it was.
    fn list(&mut self, place: Place) -> Result<(), Memory>
        requires { 3 ≤ place.block }
        ensures ok { OnOk result (self.new ≡ with_listed self.old (place ∷ [])) }
        ensures err { OnErr result (self.new ≡ self.old) }
    {
        if self.listed.contains(&place) {
            return Ok(());
        }
        self.places.reserve(1)?;
        self.listed.insert(place)?;
        self.places.push(place)?;
        Ok(())
    }

    /// How many places are listed.
    fn len(&self) -> usize
        ensures { result ≡ length self.now.done + length self.now.todo }
    {
        self.places.len()
    }

    /// Takes the last place away, which is to do.
    fn pop(&mut self)
        requires { 0 < length self.old.todo }
        ensures { self.new ≡ record { done = self.old.done; todo = take (length self.old.todo - 1) self.old.todo } }
    {
        if let Some(place) = self.places.pop() {
            self.listed.remove(&place);
        }
    }

    /// Takes so many of the last places away, which are to do.
    fn drop_last(&mut self, count: usize)
        requires { count ≤ length self.old.todo }
        ensures { self.new ≡ record { done = self.old.done; todo = take (length self.old.todo - count) self.old.todo } }
    {
        for step in 0..count {
            self.pop();
        }
    }

    /// Lists places in their order, each unless it is listed already. After a refusal the list is as it
    /// was.
    pub(crate) fn list_all(&mut self, places: &[Place]) -> Result<(), Memory>
        requires { AreHigh places.now }
        ensures ok { OnOk result (self.new ≡ with_listed self.old places.now) }
        ensures err { OnErr result (self.new ≡ self.old) }
    {
        let before = self.len();
        for place in places {
            match self.list(*place) {
                Ok(()) => {}
                Err(memory) => {
                    self.drop_last(self.len() - before);
                    return Err(memory);
                }
            }
        }
        Ok(())
    }

    /// Marks the first place to do as done. Once all are done the list is emptied.
    pub(crate) fn mark_first(&mut self)
        requires { 0 < length self.old.todo }
        ensures { self.new ≡ first_done self.old.done self.old.todo }
    {
        self.done += 1;
        if self.done == self.places.len() {
            self.places.clear();
            self.listed.clear();
            self.done = 0;
        }
    }
}
