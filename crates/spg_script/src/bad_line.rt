ghost use Rattle.std.specs.Prelude.{◌≡◌, ◌-◌, [], slice_index_or, take, length};
ghost use Rattle.spg_script.specs.Script.{lines_of};
ghost use Rattle.spg_script.specs.Wanting.{line_at, wanted_at, insert_wanted, standby_wanted};

use crate::lines::first_line;
use crate::spot::Spot;
use crate::wanted::Wanted;
use crate::wanting::{end_wants, insert_wanted, line_wants, standby_wanted};
use std::fmt;

/// The most bytes of a line that are shown.
const SHOWN: usize = 60;

/// The first line of bytes at which no script can go on.
#[derive(Clone, Copy, Debug)]
pub struct BadLine<'a> {
    /// Its number, counted from 1.
    pub number: u32,
    /// Its bytes; none where more is needed behind the last line.
    pub text: &'a [u8],
    /// What would have fitted there.
    pub wanted: Wanted,
}

impl<'a> BadLine<'a> {
    /// The line of this number, which is the first bad one, and what would have fitted in its place.
    pub fn of(bytes: &'a [u8], number: u32) -> BadLine<'a>
        ensures number { result.number ≡ number }
        ensures text { result.text.now ≡ line_at (lines_of bytes.now) number }
        ensures wanted { result.wanted ≡ wanted_at (lines_of bytes.now) number }
    {
        let mut spot = Spot::Start;
        let mut rest = bytes;
        let mut next = 1u32;
        while next < number && !rest.is_empty() {
            let (line, after) = first_line(rest);
            spot = spot.after(line);
            rest = after;
            next += 1;
        }
        if rest.is_empty() {
            return BadLine {
                number,
                text: rest,
                wanted: end_wants(spot),
            };
        }
        let (text, _) = first_line(rest);
        BadLine {
            number,
            text,
            wanted: line_wants(spot, text),
        }
    }

    /// The same of bytes that are no script of inserts, where the line of this number is the first bad one.
    pub fn of_inserts(bytes: &'a [u8], number: u32) -> BadLine<'a>
        ensures number { result.number ≡ number }
        ensures text { result.text.now ≡ line_at (lines_of bytes.now) number }
        ensures wanted { result.wanted ≡ insert_wanted (wanted_at (lines_of bytes.now) number) (line_at (lines_of bytes.now) number) }
    {
        let bad = BadLine::of(bytes, number);
        BadLine {
            number: bad.number,
            text: bad.text,
            wanted: insert_wanted(bad.wanted, bad.text),
        }
    }

    /// The same of bytes that are no script for a standby.
    pub fn of_standby(bytes: &'a [u8], number: u32) -> BadLine<'a>
        ensures number { result.number ≡ number }
        ensures text { result.text.now ≡ line_at (lines_of bytes.now) number }
        ensures wanted { result.wanted ≡ standby_wanted (wanted_at (lines_of bytes.now) number) (line_at (lines_of bytes.now) number) }
    {
        let bad = BadLine::of(bytes, number);
        BadLine {
            number: bad.number,
            text: bad.text,
            wanted: standby_wanted(bad.wanted, bad.text),
        }
    }

    /// What is shown of the line: its first 60 bytes.
    pub fn shown(&self) -> &'a [u8]
        ensures { result.now ≡ take 60 self.now.text.now }
    {
        if self.text.len() > SHOWN {
            &self.text[..SHOWN]
        } else {
            self.text
        }
    }
}

/// The number, what is shown of the line, and the words. A byte that is no printable ASCII is shown
/// as `\xHH`, and dots stand for what is cut off.
impl fmt::Display for BadLine<'_> {
    fn fmt<W: fmt::Write>(&self, f: &mut fmt::Formatter<W>) -> fmt::Result {
        let number = self.number;
        write!(f, "line {number} '")?;
        for b in self.shown() {
            if b' ' <= *b && *b <= b'~' {
                let c = char::from(*b);
                write!(f, "{c}")?;
            } else {
                write!(f, "\\x{b:02x}")?;
            }
        }
        let dots = if self.text.len() > SHOWN { ".." } else { "" };
        let words = self.wanted.words();
        write!(f, "'{dots}: {words}")
    }
}
