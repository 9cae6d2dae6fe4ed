// The item pointers and the tuples of a page, as they are kept: tuples stand in any order, and what a
// tuple leaves behind is waste until the page is pressed.
//
//     0             16       24       28                                upper              8184    8192
//     | placeholder | unused | item 1 | item 2 | .. | item n |    gap    | tuples and waste | unused |
//
// All placeholders are the one at the front, so that one takes no bytes but its pointer's.
ghost use Rattle.std.specs.Prelude.{◌≡◌, ◌≢◌, ◌+◌, ◌-◌, ◌*◌, ◌<◌, ◌≤◌, ◌++◌, ◌∷◌, [], length, IfOk, IfSome, slice_index_or, slice_set};
ghost use Rattle.std.specs.List.{remove};
ghost use Rattle.spg_page.specs.declared.tuple.Tuple.TheVariants.{Placeholder};
ghost use Rattle.spg_page.specs.Spelling.{size_of, tag_of, tuple_of, AreTuple};
ghost use Rattle.spg_page.specs.Stored.{used, free_of, placeholder_count, with_next, with_link, nodes_in, IsLive};

use crate::layout::{
    HEADER, POINTER, SIZES, UPPER_END, piece_at, put_piece, put_pointer, put_two, two_at,
};
use crate::reading::node_begin;
use crate::spelling::{Spelling, link_bytes, next_number};
use spg_base::{Memory, Offset, Place};
use std::alloc::Global;
use std::marker::Model;

/// The first byte of a placeholder.
pub(crate) const PLACEHOLDER_TAG: u8 = 5;

/// Where all placeholders stand, and how many bytes one has.
const PLACEHOLDER_AT: u16 = 0;

const PLACEHOLDER_SIZE: u16 = 16;

/// The tuples of a page in its bytes, with their counts beside them. Tuples go by their index here, from 0.
#[derive(Drop)]
pub(crate) struct TupleArea {
    bytes: Box<[u8; 8192]>,
    count: u16,
    upper: u16,
    placeholders: u16,
    /// How many bytes from `upper` on belong to no tuple.
    waste: u16,
}

impl Model for TupleArea {
    ghost use Rattle.spg_page.specs.Area.{Area, area_in, IsArea};

    ghost Value = { Area };

    ghost view = { λ s. area_in s.bytes.value s.count s.upper };

    ghost invariant = { λ s. IsArea s.bytes.value s.count s.upper s.placeholders s.waste };
}

impl TupleArea {
    /// An area with no tuples.
    pub(crate) fn new(alloc: Global) -> Result<TupleArea, Memory>
        ensures { IfOk result (λ area. area.tuples ≡ []) }
    {
        let mut bytes = Box::new(alloc, [0; 8192])?;
        let placeholder = Spelling::placeholder();
        put_piece(&mut bytes[..], 0, placeholder.as_slice());
        Ok(TupleArea {
            bytes,
            count: 0,
            upper: UPPER_END,
            placeholders: 0,
            waste: 0,
        })
    }

    /// Takes all tuples away.
    pub(crate) fn clear(&mut self)
        ensures tuples { self.new.tuples ≡ [] }
        ensures gap { self.new.gap ≡ 8160 }
    {
        self.count = 0;
        self.upper = UPPER_END;
        self.placeholders = 0;
        self.waste = 0;
    }

    /// Makes the area equal to another.
    pub(crate) fn copy_from(&mut self, other: &TupleArea)
        ensures { self.new ≡ other.now }
    {
        self.bytes.copy_from_slice(other.bytes.as_slice());
        self.count = other.count;
        self.upper = other.upper;
        self.placeholders = other.placeholders;
        self.waste = other.waste;
    }

    /// How many tuples there are.
    pub(crate) fn count(&self) -> u16
        ensures value { result ≡ length self.now.tuples }
        ensures bound { result ≤ 408 }
        ensures fits { used self.now.tuples ≤ 8160 }
    {
        self.count
    }

    /// How many placeholders there are.
    pub(crate) fn placeholders(&self) -> u16
        ensures value { result ≡ placeholder_count self.now.tuples }
        ensures bound { result ≤ 408 }
    {
        self.placeholders
    }

    /// How many bytes stand between the pointers and the tuples.
    fn gap(&self) -> u16
        ensures { result ≡ self.now.gap }
    {
        self.upper - HEADER as u16 - POINTER as u16 * self.count
    }

    /// How many bytes the tuples leave, where each placeholder has its own.
    pub(crate) fn free(&self) -> u16
        ensures value { result ≡ free_of self.now.tuples }
        ensures room { result + used self.now.tuples ≡ 8160 }
    {
        self.gap() + self.waste - PLACEHOLDER_SIZE * self.placeholders
    }

    /// The tag of the tuple at an index: 5 is a placeholder's.
    pub(crate) fn tag_at(&self, index: usize) -> u8
        requires { index < length self.now.tuples }
        ensures { result ≡ tag_of (slice_index_or self.now.tuples index Placeholder) }
    {
        let begin = two_at(self.bytes.as_slice(), HEADER + POINTER * index);
        self.bytes[begin as usize]
    }

    /// The bytes of the tuple at an index.
    pub(crate) fn piece(&self, index: usize) -> &[u8]
        requires { index < length self.now.tuples }
        ensures spelled { AreTuple result.now }
        ensures value { tuple_of result.now ≡ slice_index_or self.now.tuples index Placeholder }
    {
        piece_at(self.bytes.as_slice(), index)
    }
}

impl TupleArea {
    /// Puts a placeholder in the place of the tuple at an index.
    pub(crate) fn blank(&mut self, index: usize)
        requires { index < length self.old.tuples }
        ensures tuples { self.new.tuples ≡ slice_set self.old.tuples index Placeholder }
        ensures fits { used self.old.tuples ≤ 8160 }
    {
        if self.tag_at(index) == PLACEHOLDER_TAG {
            return;
        }
        self.waste += two_at(self.bytes.as_slice(), SIZES + POINTER * index);
        put_pointer(&mut self.bytes[..], index, PLACEHOLDER_AT, PLACEHOLDER_SIZE);
        self.placeholders += 1;
    }

    /// Adds a placeholder behind the tuples.
    pub(crate) fn grow(&mut self)
        requires fits { 20 ≤ free_of self.old.tuples }
        requires room { 4 ≤ self.old.gap }
        ensures tuples { self.new.tuples ≡ self.old.tuples ++ Placeholder ∷ [] }
        ensures gap { self.new.gap + 4 ≡ self.old.gap }
    {
        let index = self.count as usize;
        put_pointer(&mut self.bytes[..], index, PLACEHOLDER_AT, PLACEHOLDER_SIZE);
        self.count += 1;
        self.placeholders += 1;
    }

    /// Puts the tuple that the bytes spell in the place of the placeholder at an index.
    pub(crate) fn fill(&mut self, index: usize, piece: &[u8])
        requires index { index < length self.old.tuples }
        requires empty { tag_of (slice_index_or self.old.tuples index Placeholder) ≡ 5 }
        requires spelled { AreTuple piece.now }
        requires other { tag_of (tuple_of piece.now) ≢ 5 }
        requires fits { length piece.now ≤ 16 + free_of self.old.tuples }
        requires room { length piece.now ≤ self.old.gap }
        ensures tuples { self.new.tuples ≡ slice_set self.old.tuples index (tuple_of piece.now) }
        ensures gap { self.new.gap + length piece.now ≡ self.old.gap }
    {
        let upper = self.upper as usize - piece.len();
        put_piece(&mut self.bytes[..], upper, piece);
        put_pointer(&mut self.bytes[..], index, upper as u16, piece.len() as u16);
        self.upper = upper as u16;
        self.placeholders -= 1;
    }

    /// Takes the placeholder at an index away.
    pub(crate) fn cut(&mut self, index: usize)
        requires index { index < length self.old.tuples }
        requires empty { tag_of (slice_index_or self.old.tuples index Placeholder) ≡ 5 }
        ensures { self.new.tuples ≡ remove self.old.tuples index }
    {
        let end = HEADER + POINTER * self.count as usize;
        let behind = HEADER + POINTER + POINTER * index;
        self.bytes
            .copy_within(behind..end, HEADER + POINTER * index);
        self.count -= 1;
        self.placeholders -= 1;
    }

    /// Sets where the chain goes on from a live leaf tuple.
    pub(crate) fn set_next(&mut self, index: usize, next: Option<Offset>)
        requires index { index < length self.old.tuples }
        requires live { IsLive (slice_index_or self.old.tuples index Placeholder) }
        requires next { IfSome next (λ o. 0 < o) }
        ensures { self.new.tuples ≡ slice_set self.old.tuples index (with_next (slice_index_or self.old.tuples index Placeholder) next) }
    {
        let begin = two_at(self.bytes.as_slice(), HEADER + POINTER * index) as usize;
        put_two(&mut self.bytes[..], begin + 4, next_number(next));
    }

    /// Sets where a node of an inner tuple leads.
    pub(crate) fn set_link(&mut self, index: usize, node: usize, to: Option<Place>)
        requires index { index < length self.old.tuples }
        requires node { node < length (nodes_in (slice_index_or self.old.tuples index Placeholder)) }
        requires to { IfSome to (λ to. (0 < to.block) × (0 < to.offset)) }
        ensures { self.new.tuples ≡ slice_set self.old.tuples index (with_link (slice_index_or self.old.tuples index Placeholder) node to) }
    {
        let at = node_begin(self.piece(index), node);
        let begin = two_at(self.bytes.as_slice(), HEADER + POINTER * index) as usize;
        let link = link_bytes(to);
        put_piece(&mut self.bytes[..], begin + at, link.as_slice());
    }
}

impl TupleArea {
    /// Adds the tuple that the bytes spell behind the others.
    pub(crate) fn push(&mut self, piece: &[u8])
        requires spelled { AreTuple piece.now }
        requires room { length piece.now + 4 ≤ free_of self.old.tuples }
        ensures { self.new.tuples ≡ self.old.tuples ++ tuple_of piece.now ∷ [] }
    {
        self.make_gap(POINTER + piece.len());
        self.append(piece);
    }

    /// Sees to it that so many bytes stand between the pointers and the tuples.
    pub(crate) fn make_gap(&mut self, size: usize)
        requires { size ≤ free_of self.old.tuples + 16 * placeholder_count self.old.tuples }
        ensures tuples { self.new.tuples ≡ self.old.tuples }
        ensures room { size ≤ self.new.gap }
    {
        if (self.gap() as usize) < size {
            self.press();
        }
    }

    /// Writes the tuples anew without waste, from a copy on the stack.
    fn press(&mut self)
        ensures tuples { self.new.tuples ≡ self.old.tuples }
        ensures room { self.new.gap ≡ free_of self.old.tuples + 16 * placeholder_count self.old.tuples }
    {
        let old = *self.bytes;
        let count = self.count as usize;
        self.clear();
        for index in 0..count {
            self.append(piece_at(old.as_slice(), index));
        }
    }

    /// Adds the tuple that the bytes spell behind the others, where the gap has room for it. As much
    /// is waste as before.
    fn append(&mut self, piece: &[u8])
        requires spelled { AreTuple piece.now }
        requires fits { length piece.now + 4 ≤ free_of self.old.tuples }
        requires room { length piece.now + 4 ≤ self.old.gap }
        ensures tuples { self.new.tuples ≡ self.old.tuples ++ tuple_of piece.now ∷ [] }
        ensures gap { self.new.gap + used self.new.tuples + 16 * placeholder_count self.old.tuples ≡ self.old.gap + used self.old.tuples + 16 * placeholder_count self.new.tuples }
    {
        let index = self.count as usize;
        self.grow();
        if piece[0] != PLACEHOLDER_TAG {
            self.fill(index, piece);
        }
    }
}
