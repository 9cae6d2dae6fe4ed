// What comes into the caller's memory.
ghost use Rattle.std.specs.Prelude.{◌≡◌, Ok as Good};
ghost use Rattle.spg_c.specs.Calls.{HandsOne};
ghost use Rattle.spg_c.specs.Images.{HandsFault, bytes_in};
ghost use Rattle.spg_c.specs.Handing.{handed_out, HandsOut, HandsBytes};
ghost use Rattle.spg_c.specs.Shown.{told_row, told_near, told_stat};
ghost use Rattle.spg_c.specs.Told.{number_of};

use crate::images::NAME;
use crate::refused::{LoadRefused, Refused, number_of_reason};
use crate::values::{SpgFault, SpgNearRow, SpgRow, SpgStat, near_told, row_told, stat_told};
use spg_io::PlainImages;
use spgist::{List, NearRow, Row, Rows, Stat};

/// The buffer is too short.
const ROOM: u32 = 9;

/// The bytes are no image.
const IMAGE: u32 = 10;

/// Writes as many of the rows as there is room for.
fn fill_rows(found: &[Row], rows: &mut [SpgRow])
    ensures { rows.new ≡ handed_out told_row found.now rows.old }
{
    let count = found.len().min(rows.len());
    for i in 0..count {
        rows[i] = row_told(found[i]);
    }
}

/// The same of rows with their distances.
fn fill_near(found: &[NearRow], rows: &mut [SpgNearRow])
    ensures { rows.new ≡ handed_out told_near found.now rows.old }
{
    let count = found.len().min(rows.len());
    for i in 0..count {
        rows[i] = near_told(found[i]);
    }
}

/// Writes as many of the rows as there is room for, and how many there are.
pub(crate) fn hand_rows(
    found: &Result<Rows, Refused>,
    rows: &mut [SpgRow],
    count: &mut usize,
) -> u32
    ensures { HandsOut told_row rows.old rows.new count.old count.new result found.now }
{
    match found {
        Ok(found) => {
            *count = found.len();
            fill_rows(found.as_slice(), rows);
            0
        }
        Err(refused) => refused.number(),
    }
}

/// The same of rows with their distances.
pub(crate) fn hand_near(
    found: &Result<List<NearRow>, Refused>,
    rows: &mut [SpgNearRow],
    count: &mut usize,
) -> u32
    ensures { HandsOut told_near rows.old rows.new count.old count.new result found.now }
{
    match found {
        Ok(found) => {
            *count = found.len();
            fill_near(found.as_slice(), rows);
            0
        }
        Err(refused) => refused.number(),
    }
}

/// Writes a number.
pub(crate) fn hand_count(found: Result<u64, Refused>, count: &mut u64) -> u32
    ensures { HandsOne (λ n. n) count.old count.new result number_of found }
{
    match found {
        Ok(found) => {
            *count = found;
            0
        }
        Err(refused) => refused.number(),
    }
}

/// Writes counts.
pub(crate) fn hand_stat(found: Result<Stat, Refused>, stat: &mut SpgStat) -> u32
    ensures { HandsOne told_stat stat.old stat.new result number_of found }
{
    match found {
        Ok(found) => {
            *stat = stat_told(found);
            0
        }
        Err(refused) => refused.number(),
    }
}

/// Writes bytes to the front of a buffer, where there is room for all.
fn hand_bytes(bytes: &[u8], buffer: &mut [u8], len: &mut usize) -> u32
    ensures { HandsBytes buffer.old buffer.new len.old len.new result (Good bytes.now) }
{
    *len = bytes.len();
    if buffer.len() < bytes.len() {
        return ROOM;
    }
    buffer[..bytes.len()].copy_from_slice(bytes);
    0
}

/// Writes the image that came into memory.
pub(crate) fn hand_image(
    done: &Result<PlainImages, Refused>,
    buffer: &mut [u8],
    len: &mut usize,
) -> u32
    ensures { HandsBytes buffer.old buffer.new len.old len.new result (bytes_in NAME.now done.now) }
{
    match done {
        Ok(images) => match images.bytes(NAME) {
            Some(bytes) => hand_bytes(bytes, buffer, len),
            None => Refused::Memory.number(),
        },
        Err(refused) => refused.number(),
    }
}

/// Writes the fault of bytes that are no image.
pub(crate) fn hand_fault(done: Result<(), LoadRefused>, fault: &mut SpgFault) -> u32
    ensures { HandsFault fault.old fault.new result done }
{
    match done {
        Ok(()) => 0,
        Err(LoadRefused::Memory) => 1,
        Err(LoadRefused::Range) => 2,
        Err(LoadRefused::Image { block, reason }) => {
            *fault = SpgFault {
                block,
                reason: number_of_reason(reason),
            };
            IMAGE
        }
    }
}

/// Writes as many of the bytes as there is room for.
pub(crate) fn fill_bytes(found: &[u8], bytes: &mut [u8])
    ensures { bytes.new ≡ handed_out (λ n. n) found.now bytes.old }
{
    let count = found.len().min(bytes.len());
    for i in 0..count {
        bytes[i] = found[i];
    }
}
