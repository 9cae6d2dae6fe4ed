// Records and pages that are used again.
ghost use Rattle.std.specs.Prelude.{◌≡◌, ◌≤◌, length, take, IfOk, OnOk};

use crate::record::{MOST, PageCopy, Record};
use spg_base::{Block, Memory};
use spg_page::{Page, PageKind};
use std::alloc::Global;

/// Rooms, records and pages that were used before. A page is made only where none is left here: so there are
/// no more than the queue and the rooms had at once. No clause says so, since it is speed alone.
#[derive(Drop)]
pub(crate) struct Pool {
    /// Each has eight pages.
    rooms: Vec<Record>,
    /// They have places for eight pages.
    records: Vec<Record>,
    pages: Vec<PageCopy>,
}

/// A page that was used before, or a new one where there is none.
fn a_page(alloc: Global, pages: &mut Vec<PageCopy>) -> Result<PageCopy, Memory> {
    match pages.pop() {
        Some(page) => Ok(page),
        None => Ok((Block(0), Page::new(alloc, PageKind::Leaf, false)?)),
    }
}

/// Makes it eight pages, with those of a pool where it has fewer.
fn fill_up(
    alloc: Global,
    pages: &mut Vec<PageCopy>,
    spare: &mut Vec<PageCopy>,
) -> Result<(), Memory>
    ensures { OnOk result (length pages.new.items ≡ 8) }
{
    pages.truncate(MOST);
    while pages.len() < MOST {
        pages.push(a_page(alloc, spare)?)?;
    }
    Ok(())
}

impl Pool {
    /// Nothing.
    pub(crate) fn new(alloc: Global) -> Pool {
        Pool {
            rooms: Vec::new(alloc),
            records: Vec::new(alloc),
            pages: Vec::new(alloc),
        }
    }

    /// Room for the copies of eight pages.
    pub(crate) fn room(&mut self, alloc: Global) -> Result<Record, Memory>
        ensures { IfOk result (λ room. length room.pages ≡ 8) }
    {
        let mut room = match self.rooms.pop() {
            Some(room) => room,
            None => self.record(alloc)?,
        };
        fill_up(alloc, &mut room.pages, &mut self.pages)?;
        Ok(room)
    }

    /// A record that was used before, or a new one where there is none.
    fn record(&mut self, alloc: Global) -> Result<Record, Memory> {
        match self.records.pop() {
            Some(record) => Ok(record),
            None => Record::empty(alloc),
        }
    }

    /// Keeps a room that was not needed. Where this list cannot grow, the room is dropped: a later section makes
    /// one anew.
    pub(crate) fn keep_room(&mut self, room: Record) {
        let _ = self.rooms.push(room);
    }

    /// Keeps a record that is needed no more, and its pages, where it has some. Where a list cannot grow, what it
    /// would take is dropped, and made anew where it is needed.
    pub(crate) fn keep(&mut self, record: Record) {
        if record.pages.is_empty() {
            return;
        }
        let mut record = record;
        let _ = self.pages.append(&mut record.pages);
        let _ = self.records.push(record);
    }

    /// Keeps the pages behind the first ones. Where the list cannot grow for one, it is dropped.
    pub(crate) fn keep_behind(&mut self, pages: &mut Vec<PageCopy>, count: usize)
        requires { count ≤ length pages.old.items }
        ensures { pages.new.items ≡ take count pages.old.items }
    {
        while pages.len() > count {
            let page = pages.take_last();
            let _ = self.pages.push(page);
        }
    }
}
