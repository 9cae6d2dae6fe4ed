ghost use Rattle.std.specs.Prelude.{◌≡◌, ◌<◌, ◌^◌, None};
ghost use Rattle.spg_io.specs.Calls.{one_more};
ghost use Rattle.spg_io.specs.Files.{FolderLook, FolderChange};

use crate::images::{Images, PAGE};
use crate::name::is_name;
use crate::opened::Opened;
use crate::sink::IoRefused;
use spg_base::Failed;
use std::fs::{self, OpenFile, OpenOptions};
use std::io::{self, ErrorKind, Write};
use std::rt::Files;

/// Images as files of the current folder. Each refusal is a fault. So are a write that takes nothing, a
/// text that is not the name of an image, and a name that is not a file's. No call answers `Memory`.
/// Between reads of one name its file stays open, so that all blocks are of one file.
#[derive(Drop)]
pub struct FolderImages<'a, R: Files> {
    rt: &'a R,
    faults: u64,
    opened: Option<Opened<R::File>>,
}

impl<'a, R: Files> FolderImages<'a, R> {
    /// The files of the current folder, with no fault yet.
    pub fn new(rt: &'a R) -> FolderImages<'a, R>
        ensures { result.faults ≡ 0 }
    {
        FolderImages {
            rt,
            faults: 0,
            opened: None,
        }
    }

    /// Counts a fault.
    fn count_fault(&mut self)
        ensures count { self.new ≡ record self.old { faults = one_more self.old.faults } }
        ensures range { self.old.faults < 2 ^ 64 }
    {
        self.faults = self.faults.saturating_add(1);
    }
}

/// The length of a file. None where there is no such name.
fn file_length<R: Files>(rt: &R, name: &str) -> io::Result<Option<u64>> {
    match fs::metadata(rt, name) {
        Ok(found) if found.is_file() => Ok(Some(found.len())),
        Ok(_) => Err(io::Error::from(ErrorKind::InvalidInput)),
        Err(error) if error.kind() == ErrorKind::NotFound => Ok(None),
        Err(error) => Err(error),
    }
}

/// Reads a block of a file. False where it does not lie wholly inside. Else the file stays open.
fn read_block<R: Files>(
    rt: &R,
    opened: &mut Option<Opened<R::File>>,
    name: &str,
    block: u32,
    page: &mut [u8; 8192],
) -> io::Result<bool> {
    let mut file = match opened.take() {
        Some(file) if file.is_of(name) => file,
        _ => match file_length(rt, name)? {
            Some(_) => Opened::new(name, fs::open(rt, name)?),
            None => return Ok(false),
        },
    };
    let inside = file.read(block, page)?;
    if inside {
        *opened = Some(file);
    }
    Ok(inside)
}

/// Adds a page at the end of a file.
fn add_page<R: Files>(rt: &R, name: &str, page: &[u8; 8192]) -> io::Result<()> {
    let mut file = OpenOptions::new().append(true).create(true).open(rt, name)?;
    file.write_all(page)
}

/// Makes a file with no bytes.
fn empty_file<R: Files>(rt: &R, name: &str) -> io::Result<()> {
    fs::create(rt, name)?;
    Ok(())
}

impl<'a, R: Files> Images for FolderImages<'a, R> {
    ghost held = { λ _. None };

    ghost faults = { λ s. s.faults };

    ghost len_gives = { λ old name result new. FolderLook old.faults name result new.faults };

    ghost clear_gives = { λ old name result new. FolderChange old.faults name result new.faults };

    ghost get_gives = { λ old name result new. FolderLook old.faults name result new.faults };

    ghost put_gives = { λ old name _ result new. FolderChange old.faults name result new.faults };

    fn len(&mut self, name: &str) -> Result<Option<u64>, Failed> {
        self.opened = None;
        if is_name(name)
            && let Ok(length) = file_length(self.rt, name)
        {
            return Ok(length);
        }
        self.count_fault();
        Err(Failed)
    }

    fn clear(&mut self, name: &str) -> Result<(), IoRefused> {
        self.opened = None;
        if is_name(name) && empty_file(self.rt, name).is_ok() {
            return Ok(());
        }
        self.count_fault();
        Err(IoRefused::Failed)
    }

    fn get(&mut self, name: &str, block: u32, page: &mut [u8; 8192]) -> Result<bool, Failed> {
        if is_name(name)
            && let Ok(inside) = read_block(self.rt, &mut self.opened, name, block, page)
        {
            return Ok(inside);
        }
        self.count_fault();
        Err(Failed)
    }

    fn put(&mut self, name: &str, page: &[u8; 8192]) -> Result<(), IoRefused> {
        self.opened = None;
        if is_name(name) && add_page(self.rt, name, page).is_ok() {
            return Ok(());
        }
        self.count_fault();
        Err(IoRefused::Failed)
    }
}
