ghost use Rattle.std.specs.Prelude.{◌≡◌, ◌<◌, ◌≤◌, ℕ, slice_index};
ghost use Rattle.spg_page.specs.Came.{sheet_in};
ghost use Rattle.spg_verify.specs.Meta.{HasHeadOf};
ghost use Rattle.spg_image.specs.Page.{IsPageAt};
ghost use Rattle.spg_image.specs.Meta.{IsMeta, said_in};

use crate::numbers::{put_eight, put_four, put_one, put_remembered, put_two};
use spg_page::{Page, put_mark};
use spg_tree::Meta;
use spg_verify::version_of;

/// Where a page has its own block number.
const BLOCK_AT: usize = 8;

/// Where the meta page has the code of the class.
const CLASS_AT: usize = 24;

/// Where it has the page count.
const COUNT_AT: usize = 28;

/// Where it has the clock.
const CLOCK_AT: usize = 32;

/// Where it has the rotating counter.
const COUNTER_AT: usize = 72;

/// The kind of a meta page, and where a page has its kind.
const META: u8 = 1;

const KIND_AT: usize = 6;

/// Where a page says where its items begin, and what a page without items says there.
const UPPER_AT: usize = 14;

const UPPER_END: u16 = 8184;

/// Writes the header of a meta page into zero bytes.
fn put_head(page: &mut [u8; 8192], version: u16)
    requires { (k : ℕ) → slice_index page.old k ≡ 0 }
    ensures head { HasHeadOf version page.new }
    ensures above { (k : ℕ) → 16 ≤ k → slice_index page.new k ≡ 0 }
{
    put_mark(page, version);
    put_one(page, KIND_AT, META);
    put_two(page, UPPER_AT, UPPER_END);
}

/// The bytes of the meta page.
pub(crate) fn meta_page(class: u8, count: u32, meta: &Meta) -> [u8; 8192]
    ensures is { IsMeta result }
    ensures says { said_in result ≡ record { class = class; count = count; clock = meta.now.clock; remembered = meta.now.remembered; counter = meta.now.counter } }
{
    let mut page = [0; 8192];
    put_head(&mut page, version_of(class));
    put_one(&mut page, CLASS_AT, class);
    put_four(&mut page, COUNT_AT, count);
    put_eight(&mut page, CLOCK_AT, meta.clock.moment());
    put_remembered(&mut page, &meta.remembered);
    put_one(&mut page, COUNTER_AT, meta.counter);
    page
}

/// The bytes of a page of tuples of an image of this version, with its block number.
pub(crate) fn page_bytes(page: &Page, block: u32, version: u16) -> [u8; 8192]
    ensures is { IsPageAt version block result }
    ensures shows { sheet_in result ≡ page.now }
{
    let mut bytes = page.bytes();
    put_mark(&mut bytes, version);
    put_four(&mut bytes, BLOCK_AT, block);
    bytes
}
