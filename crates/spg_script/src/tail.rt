ghost use Rattle.std.specs.Prelude.{◌≡◌, ◌<◌, ◌≤◌, ◌+◌, ◌++◌, ◌∷◌, [], length};
ghost use Rattle.std.specs.Fmt.{decimal, signed_decimal};
ghost use Rattle.spg_base.specs.Text.{row_text, point_text};

use itoa::write_digits;
use spg_base::{Point, Row};
use std::marker::Model;

/// How many bytes a short text has at most.
const ROOM: usize = 64;

/// The bytes of a short text that is put together from its end, without an allocation. There are at
/// most 64.
#[derive(Debug, Drop)]
pub struct Tail {
    bytes: [u8; ROOM],
    begin: usize,
}

impl Model for Tail {
    ghost use Rattle.std.specs.Prelude.{ℕ, List, ◌≤◌, drop};

    ghost Value = { List ℕ };

    ghost view = { λ t. drop t.begin t.bytes };

    ghost invariant = { λ t. t.begin ≤ 64 };
}

impl Tail {
    /// No bytes.
    pub fn new() -> Tail
        ensures { result ≡ [] }
    {
        Tail {
            bytes: [0; ROOM],
            begin: ROOM,
        }
    }

    /// The bytes.
    pub fn as_slice(&self) -> &[u8]
        ensures { result.now ≡ self.now }
    {
        &self.bytes[self.begin..]
    }

    /// Adds a byte in front.
    #[inline(always)]
    pub fn byte(&mut self, byte: u8)
        requires { length self.old < 64 }
        ensures { self.new ≡ byte ∷ self.old }
    {
        self.begin -= 1;
        self.bytes[self.begin] = byte;
    }

    /// Adds bytes in front.
    #[inline(always)]
    pub fn piece(&mut self, piece: &[u8])
        requires { length self.old + length piece.now ≤ 64 }
        ensures { self.new ≡ piece.now ++ self.old }
    {
        let begin = self.begin - piece.len();
        self.bytes[begin..self.begin].copy_from_slice(piece);
        self.begin = begin;
    }

    /// Adds a number in front, in decimal digits.
    pub fn number(&mut self, n: u64)
        requires { length self.old + 20 ≤ 64 }
        ensures text { self.new ≡ decimal n ++ self.old }
        ensures short { length self.new ≤ length self.old + 20 }
    {
        self.begin = write_digits(n, &mut self.bytes, self.begin);
    }

    /// Adds a coordinate in front, in decimal digits, with `-` before a negative one.
    pub fn coordinate(&mut self, z: i32)
        requires { length self.old + 21 ≤ 64 }
        ensures text { self.new ≡ signed_decimal z ++ self.old }
        ensures short { length self.new ≤ length self.old + 21 }
    {
        self.number(u64::from(z.unsigned_abs()));
        if z < 0 {
            self.byte(b'-');
        }
    }

    /// Adds a row in front: its block, a dot and its offset.
    pub fn row(&mut self, row: Row)
        requires { length self.old + 41 ≤ 64 }
        ensures text { self.new ≡ row_text row ++ self.old }
        ensures short { length self.new ≤ length self.old + 41 }
    {
        self.number(u64::from(row.offset()));
        self.byte(b'.');
        self.number(u64::from(row.block()));
    }

    /// Adds a point in front: its coordinates with a comma between.
    pub fn point(&mut self, point: Point)
        requires { length self.old + 43 ≤ 64 }
        ensures text { self.new ≡ point_text point ++ self.old }
        ensures short { length self.new ≤ length self.old + 43 }
    {
        self.coordinate(point.y);
        self.byte(b',');
        self.coordinate(point.x);
    }
}
