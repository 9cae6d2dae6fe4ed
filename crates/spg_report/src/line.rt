ghost use Rattle.std.specs.Prelude.{◌≡◌, ◌<◌, ◌^◌, ◌++◌, ◌∷◌, [], OnOk};
ghost use Rattle.std.specs.Fmt.{decimal};
ghost use Rattle.spg_base.specs.Text.{row_text};
ghost use Rattle.spg_script.specs.Spelling.{IsRow};

use itoa::Buffer;
use spg_base::{Memory, Row};
use spg_script::{Spoken, Tail};
use std::alloc::Global;
use std::marker::Model;

/// The bytes of a line that is being put together. One serves for all lines of a text, since it
/// keeps its room when it is cleared.
#[derive(Debug, Drop)]
pub struct Line {
    bytes: Vec<u8>,
}

impl Model for Line {
    ghost use Rattle.std.specs.Prelude.{ℕ, List};

    ghost Value = { List ℕ };

    ghost view = { λ l. l.bytes.items };
}

impl Line {
    /// No bytes.
    pub fn new(alloc: Global) -> Line
        ensures { result ≡ [] }
    {
        Line {
            bytes: Vec::new(alloc),
        }
    }

    /// The bytes.
    pub fn as_slice(&self) -> &[u8]
        ensures { result.now ≡ self.now }
    {
        self.bytes.as_slice()
    }

    /// Takes the bytes away.
    pub fn clear(&mut self)
        ensures { self.new ≡ [] }
    {
        self.bytes.clear()
    }

    /// Adds a byte at the end.
    pub fn push(&mut self, byte: u8) -> Result<(), Memory>
        ensures { OnOk result (self.new ≡ self.old ++ byte ∷ []) }
    {
        self.bytes.push(byte)?;
        Ok(())
    }

    /// Adds bytes at the end.
    pub fn extend(&mut self, bytes: &[u8]) -> Result<(), Memory>
        ensures { OnOk result (self.new ≡ self.old ++ bytes.now) }
    {
        self.bytes.extend_from_slice(bytes)?;
        Ok(())
    }

    /// Adds a number at the end, in decimal digits.
    pub fn number(&mut self, n: u64) -> Result<(), Memory>
        ensures { OnOk result (self.new ≡ self.old ++ decimal n) }
    {
        let mut text = Tail::new();
        text.number(n);
        self.extend(text.as_slice())
    }

    /// Adds a row at the end.
    pub fn row(&mut self, row: Row) -> Result<(), Memory>
        ensures fits { IsRow row }
        ensures text { OnOk result (self.new ≡ self.old ++ row_text row) }
    {
        let mut text = Tail::new();
        text.row(row);
        self.extend(text.as_slice())
    }

    /// Adds a key at the end, as its class spells it.
    pub fn key<O: Spoken>(&mut self, alloc: Global, class: &O, key: &O::Key) -> Result<(), Memory>
        ensures { OnOk result (self.new ≡ self.old ++ O.speech.key_text key.now) }
    {
        class.push_key_text(alloc, &mut self.bytes, key)
    }

    /// Adds a distance at the end, in decimal digits.
    pub fn distance(&mut self, n: u128) -> Result<(), Memory>
        ensures fits { n < 2 ^ 128 }
        ensures text { OnOk result (self.new ≡ self.old ++ decimal n) }
    {
        let mut text = Buffer::new();
        self.extend(text.format(n).as_bytes())
    }

    /// Adds a word and a number.
    pub fn named(&mut self, word: &[u8], n: u64) -> Result<(), Memory>
        ensures fits { n < 2 ^ 64 }
        ensures text { OnOk result (self.new ≡ self.old ++ (word.now ++ decimal n)) }
    {
        self.extend(word)?;
        self.number(n)
    }
}
