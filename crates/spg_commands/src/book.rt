ghost use Rattle.std.specs.Prelude.{◌≡◌, ◌≤◌, ◌<◌, ◌+◌, ◌++◌, ◌∷◌, [], length, IfOk};

use spg_base::{List, Memory};
use spg_report::{Record, Records};
use std::alloc::Global;
use std::marker::Model;

/// The records of the commands that were done, with room for some more.
#[derive(Drop)]
pub struct Book {
    records: Vec<Record>,
}

impl Model for Book {
    ghost use Rattle.std.specs.Prelude.{◌-◌, vec_capacity, vec_len};
    ghost use Rattle.spg_commands.specs.Noted.{Noted};

    ghost Value = { Noted };

    ghost view = { λ b. record { records = b.records.items; spare = vec_capacity b.records - vec_len b.records } };
}

impl Book {
    /// No records, and room for this many.
    pub fn with_room(alloc: Global, room: usize) -> Result<Book, Memory>
        ensures records { IfOk result (λ book. book.records ≡ []) }
        ensures spare { IfOk result (λ book. room ≤ book.spare) }
    {
        Ok(Book {
            records: Vec::with_capacity(alloc, room)?,
        })
    }

    /// Adds a record at the end. It takes no memory.
    pub fn add(&mut self, done: Record)
        requires { 0 < self.old.spare }
        ensures records { self.new.records ≡ self.old.records ++ done ∷ [] }
        ensures spare { self.new.spare + 1 ≡ self.old.spare }
    {
        self.records.push_reserved(done);
    }

    /// How many records there are.
    pub fn len(&self) -> usize
        ensures { result ≡ length self.now.records }
    {
        self.records.len()
    }

    /// The records as a list.
    pub fn into_records(self) -> Records
        ensures { result ≡ self.records }
    {
        List::from_vec(self.records)
    }
}
