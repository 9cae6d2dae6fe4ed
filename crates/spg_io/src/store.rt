ghost use Rattle.std.specs.Prelude.{◌≡◌, ◌≢◌, ◌<◌, ◌↔◌, ◌++◌, ℕ, [], Some, None, length, IsNone, IfSome, OnOk, OnErr, slice_index_or};
ghost use Rattle.spg_io.specs.Files.{bytes_under, with_bytes, with_page, place_of};

use spg_base::{Bytes, Memory};
use std::alloc::Global;
use std::marker::Model;

/// Bytes under a name.
#[derive(Drop)]
pub struct File {
    name: Bytes,
    bytes: Bytes,
}

impl File {
    /// Puts other bytes in the place of its own.
    fn set(&mut self, bytes: Bytes)
        ensures { self.new ≡ record self.old { bytes = bytes } }
    {
        self.bytes = bytes;
    }

    /// Adds bytes behind its own.
    fn extend(&mut self, bytes: &[u8]) -> Result<(), Memory>
        ensures ok { OnOk result (self.new ≡ record self.old { bytes = self.old.bytes ++ bytes.now }) }
        ensures err { OnErr result (self.new ≡ self.old) }
    {
        self.bytes.extend(bytes)
    }
}

/// Bytes under names, in memory.
#[derive(Drop)]
pub struct Store {
    alloc: Global,
    files: Vec<File>,
}

impl Model for Store {
    ghost use Rattle.std.specs.Prelude.{List};
    ghost use Rattle.spg_io.specs.declared.store.File.{File};

    ghost Value = { List File };

    ghost view = { λ s. s.files.items };
}

impl Store {
    /// No name.
    pub fn new(alloc: Global) -> Store
        ensures { result ≡ [] }
    {
        Store {
            alloc,
            files: Vec::new(alloc),
        }
    }

    /// The bytes under the name. None exactly where there is no such name.
    pub fn bytes(&self, name: &[u8]) -> Option<&[u8]>
        ensures none { IsNone result ↔ (bytes_under self.now name.now ≡ None) }
        ensures some { IfSome result (λ bytes. bytes_under self.now name.now ≡ Some bytes.now) }
    {
        let at = self.place(name)?;
        Some(self.files[at].bytes.as_slice())
    }

    /// Puts the bytes under the name.
    pub fn set(&mut self, name: &[u8], bytes: Bytes) -> Result<(), Memory>
        ensures ok { OnOk result (self.new ≡ with_bytes self.old name.now bytes) }
        ensures err { OnErr result (self.new ≡ self.old) }
    {
        match self.place(name) {
            Some(at) => self.files[at].set(bytes),
            None => {
                let name = Bytes::copy(self.alloc, name)?;
                self.files.push(File { name, bytes })?;
            }
        }
        Ok(())
    }

    /// Leaves the name with no bytes.
    pub fn clear(&mut self, name: &[u8]) -> Result<(), Memory>
        ensures ok { OnOk result (self.new ≡ with_bytes self.old name.now []) }
        ensures err { OnErr result (self.new ≡ self.old) }
    {
        self.set(name, Bytes::new(self.alloc))
    }

    /// Adds a page after the last byte of the name.
    pub fn put(&mut self, name: &[u8], page: &[u8]) -> Result<(), Memory>
        ensures ok { OnOk result (self.new ≡ with_page self.old name.now page.now) }
        ensures err { OnErr result (self.new ≡ self.old) }
    {
        match self.place(name) {
            Some(at) => self.files[at].extend(page)?,
            None => {
                let bytes = Bytes::copy(self.alloc, page)?;
                self.set(name, bytes)?;
            }
        }
        Ok(())
    }

    /// The index of the first file of this name.
    fn place(&self, name: &[u8]) -> Option<usize>
        ensures { result ≡ place_of self.now name.now }
    {
        for at in 0..self.files.len() {
            if self.files[at].name.as_slice() == name {
                return Some(at);
            }
        }
        None
    }
}
