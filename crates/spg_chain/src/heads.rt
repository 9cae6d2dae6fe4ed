ghost use Rattle.std.specs.Prelude.{◌≡◌, ◌+◌, true, false, length, get_or};
ghost use Rattle.spg_forest.specs.Pages.{tuple_on};
ghost use Rattle.spg_forest.specs.Tuples.{next_of, is_led_to};
ghost use Rattle.spg_page.specs.Kinds.{IsOffset};
ghost use Rattle.spg_chain.specs.Chains.{is_live};
ghost use Rattle.spg_chain.specs.Sweeps.{is_chain_head, TellsLed};

use spg_base::Offset;
use spg_page::{Page, TupleKind};

/// The next offset of the tuple at an offset, 0 where it has none.
fn next_number(page: &Page, at: Offset) -> u16
    requires { IsOffset page.now.tuples at }
    ensures { result ≡ next_of (tuple_on page.now.tuples at) }
{
    if page.kind_at(at) != TupleKind::Leaf {
        return 0;
    }
    match page.next_at(at) {
        Some(next) => next.0,
        None => 0,
    }
}

/// For each offset of a page, from 1 to at most 408, whether a next offset leads to it.
pub(crate) fn led_offsets(page: &Page) -> [bool; 409]
    ensures { TellsLed page.now.tuples result }
{
    let mut led = [false; 409];
    for index in 0..page.count() {
        let next = next_number(page, Offset(index + 1)) as usize;
        if next < led.len() {
            led[next] = true;
        }
    }
    led
}

/// Whether a chain begins at an offset: a live leaf tuple stands there to which, as `led` tells, no
/// next offset leads.
pub(crate) fn begins_chain(page: &Page, led: &[bool; 409], offset: Offset) -> bool
    requires at { IsOffset page.now.tuples offset }
    requires led { is_live (tuple_on page.now.tuples offset) ≡ true → get_or led.now offset false ≡ is_led_to (tuple_on page.now.tuples) (length page.now.tuples + 1) offset }
    ensures { result ≡ is_chain_head page.now.tuples offset }
{
    let _count = page.count();
    page.kind_at(offset) == TupleKind::Leaf && !led[offset.0 as usize]
}
