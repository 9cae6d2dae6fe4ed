// An image of the pages as they stand in one turn.
use crate::seat::Seat;
use spg_desk::PagesAnswer;
use spg_image::{SaveRefused, save_table};
use spg_io::Images;
use spg_opclass::OpClass;
use std::sync::Wait;

/// What came of a save.
#[derive(Clone, Copy, Debug, PartialEq, Eq)]
pub struct SaveAnswer {
    /// How many pages the image has.
    pub saved: Result<u32, SaveRefused>,
    /// How long the journal was when the pages were copied.
    pub at: u64,
}

impl<'a, O: OpClass> Seat<'a, O> {
    ghost use Rattle.std.specs.Prelude.{◌≡◌};
    ghost use Rattle.spg_image.specs.Saving.{HasCauseIfFault};
    ghost use Rattle.spg_share.specs.Seats.{seat_name, knows};
    ghost use Rattle.spg_share.specs.Saves.{DidSave};

    /// Saves the pages as they stand in one turn under a name, in place of what stood there: just the rows
    /// that are present then, whatever the other seats have open. In that turn they are copied; the others
    /// go on while the copy is written.
    pub fn save<R: Wait, M: Images>(&mut self, rt: &R, images: &mut M, name: &str) -> SaveAnswer
        ensures same { seat_name self.new ≡ seat_name self.old }
        ensures did { DidSave O.meaning O.code_number (knows self.old) (knows self.new) (M.held images.old) (M.held images.new) name.now result }
        ensures cause { HasCauseIfFault (M.faults images.old) (M.faults images.new) result.saved }
    {
        let code = self.desk.class().code();
        match self.pages(rt) {
            PagesAnswer::Copied { pages, at } => SaveAnswer {
                saved: save_table(code, &pages, images, name),
                at,
            },
            PagesAnswer::Memory(at) => SaveAnswer {
                saved: Err(SaveRefused::Memory),
                at,
            },
        }
    }
}
