ghost use Rattle.std.specs.Prelude.{◌≡◌, ◌+◌, ◌<◌, ◌≤◌, ◌++◌, ◌∷◌, [], length};

use std::alloc::Global;
use std::marker::Model;

/// How many bytes have room in place.
pub(crate) const FEW: usize = 38;

/// How many bytes the rest of a point has.
const POINT: usize = 8;

/// At most 38 bytes: the first `len` of an array.
#[derive(Debug, Drop)]
pub(crate) struct Few {
    alloc: Global,
    len: u8,
    bytes: [u8; 38],
}

impl Model for Few {
    ghost use Rattle.std.specs.Prelude.{ℕ, ◌≤◌, List, take};

    ghost Value = { List ℕ };

    ghost view = { λ f. take f.len f.bytes };

    ghost invariant = { λ f. f.len ≤ 38 };
}

impl Few {
    /// No bytes.
    pub(crate) fn new(alloc: Global) -> Few
        ensures { result ≡ [] }
    {
        Few {
            alloc,
            len: 0,
            bytes: [0; 38],
        }
    }

    /// These bytes.
    #[inline(always)]
    pub(crate) fn of(alloc: Global, bytes: &[u8]) -> Few
        requires { length bytes.now ≤ 38 }
        ensures { result ≡ bytes.now }
    {
        let mut few = Few::new(alloc);
        if bytes.len() == POINT {
            few.extend_by_point(bytes);
        } else if bytes.len() == POINT + POINT {
            few.extend_by_point(&bytes[..POINT]);
            few.extend_by_point(&bytes[POINT..]);
        } else {
            few.extend(bytes);
        }
        few
    }

    /// The allocator of the list that these bytes are.
    pub(crate) fn allocator(&self) -> Global {
        self.alloc
    }

    /// How many there are.
    pub(crate) fn len(&self) -> usize
        ensures value { result ≡ length self.now }
        ensures bound { result ≤ 38 }
    {
        self.len as usize
    }

    /// The bytes.
    pub(crate) fn as_slice(&self) -> &[u8]
        ensures { result.now ≡ self.now }
    {
        &self.bytes[..self.len as usize]
    }

    /// Adds a byte at the end.
    pub(crate) fn push(&mut self, byte: u8)
        requires { length self.old < 38 }
        ensures { self.new ≡ self.old ++ byte ∷ [] }
    {
        self.bytes[self.len as usize] = byte;
        self.len += 1;
    }

    /// Adds as many bytes as the rest of a point has at the end, by one move.
    #[inline(always)]
    fn extend_by_point(&mut self, bytes: &[u8])
        requires point { length bytes.now ≡ 8 }
        requires room { length self.old ≤ 30 }
        ensures { self.new ≡ self.old ++ bytes.now }
    {
        let end = self.len as usize;
        self.bytes[end..end + POINT].copy_from_slice(bytes);
        self.len += POINT as u8;
    }

    /// Adds bytes at the end: the number beside a key by one move.
    #[inline(always)]
    pub(crate) fn extend(&mut self, bytes: &[u8])
        requires { length self.old + length bytes.now ≤ 38 }
        ensures { self.new ≡ self.old ++ bytes.now }
    {
        if bytes.len() == POINT {
            self.extend_by_point(bytes);
            return;
        }
        let end = self.len as usize;
        self.bytes[end..end + bytes.len()].copy_from_slice(bytes);
        self.len += bytes.len() as u8;
    }
}
