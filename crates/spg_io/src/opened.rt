use crate::images::PAGE;
use crate::name::LONGEST_NAME;
use std::io::{self, ErrorKind, Read, Seek, SeekFrom};

/// A file of images that stays open between reads: its name, and the block at which it stands, where
/// it has been read.
#[derive(Drop)]
pub(crate) struct Opened<F> {
    name: [u8; LONGEST_NAME],
    length: usize,
    file: F,
    next: Option<u32>,
}

impl<F: Read + Seek> Opened<F> {
    /// A file that was just opened under a name.
    pub(crate) fn new(name: &str, file: F) -> Opened<F> {
        let mut bytes = [0; LONGEST_NAME];
        let length = name.len().min(LONGEST_NAME);
        bytes[..length].copy_from_slice(&name.as_bytes()[..length]);
        Opened {
            name: bytes,
            length,
            file,
            next: None,
        }
    }

    /// Whether it was opened under this name.
    pub(crate) fn is_of(&self, name: &str) -> bool {
        &self.name[..self.length.min(LONGEST_NAME)] == name.as_bytes()
    }

    /// Reads a block. False where it does not lie wholly inside the file.
    pub(crate) fn read(&mut self, block: u32, page: &mut [u8; 8192]) -> io::Result<bool> {
        if self.next != Some(block) {
            self.file.seek(SeekFrom::Start(PAGE as u64 * block as u64))?;
        }
        self.next = block.checked_add(1);
        match self.file.read_exact(page) {
            Ok(()) => Ok(true),
            Err(error) if error.kind() == ErrorKind::UnexpectedEof => Ok(false),
            Err(error) => Err(error),
        }
    }
}
