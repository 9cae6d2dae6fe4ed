//! Counts of an index.
ghost use Rattle.std.specs.Prelude.{◌≡◌, ◌^◌};
ghost use Rattle.spg_forest.specs.Pages.{tuple_on};
ghost use Rattle.spg_page.specs.Kinds.{IsOffset};
ghost use Rattle.spg_core.specs.Counts.{IsStat, AreAtMost, one_of, counts_on, counts_in, plus};

use spg_base::{Block, Offset, Stat};
use spg_page::{Page, TupleKind};
use spg_tree::PageTable;

/// How many tuples of each kind there are.
#[derive(Clone, Copy)]
pub struct Counts {
    inner: u64,
    leaf: u64,
    redirect: u64,
    dead: u64,
    placeholder: u64,
}

/// No tuples.
const NONE: Counts = Counts {
    inner: 0,
    leaf: 0,
    redirect: 0,
    dead: 0,
    placeholder: 0,
};

impl Counts {
    /// These tuples and more, each at most 2^32.
    fn plus(self, more: Counts) -> Counts
        requires these { AreAtMost (2 ^ 32) self }
        requires more { AreAtMost (2 ^ 32) more }
        ensures { result ≡ plus self more }
    {
        Counts {
            inner: self.inner + more.inner,
            leaf: self.leaf + more.leaf,
            redirect: self.redirect + more.redirect,
            dead: self.dead + more.dead,
            placeholder: self.placeholder + more.placeholder,
        }
    }
}

/// The pages of a table, the tuples of each kind on them, and its clock.
pub fn stat_of(table: &PageTable) -> Stat
    ensures { IsStat table.now result }
{
    let counts = count_all(table);
    Stat {
        pages: table.page_count(),
        inner: counts.inner,
        leaf: counts.leaf,
        redirect: counts.redirect,
        dead: counts.dead,
        placeholder: counts.placeholder,
        clock: table.clock(),
    }
}

/// The tuples of all pages.
fn count_all(table: &PageTable) -> Counts
    ensures { result ≡ counts_in table.now.pages }
{
    let mut counts = NONE;
    for block in 0..table.page_count() {
        counts = counts.plus(count_page(table.page(Block(block))));
    }
    counts
}

/// The tuples of a page.
fn count_page(page: &Page) -> Counts
    ensures value { result ≡ counts_on page.now.tuples }
    ensures bound { AreAtMost 408 result }
{
    let mut counts = NONE;
    for index in 0..page.count() {
        counts = counts.plus(count_one(page, Offset(index + 1)));
    }
    counts
}

/// The tuple at an offset.
fn count_one(page: &Page, at: Offset) -> Counts
    requires { IsOffset page.now.tuples at }
    ensures { result ≡ one_of (tuple_on page.now.tuples at) }
{
    match page.kind_at(at) {
        TupleKind::Inner => Counts { inner: 1, ..NONE },
        TupleKind::Leaf => Counts { leaf: 1, ..NONE },
        TupleKind::Dead => Counts { dead: 1, ..NONE },
        TupleKind::Redirect => Counts {
            redirect: 1,
            ..NONE
        },
        TupleKind::Placeholder => Counts {
            placeholder: 1,
            ..NONE
        },
    }
}
