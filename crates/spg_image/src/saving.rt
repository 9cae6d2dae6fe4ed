ghost use Rattle.std.specs.Prelude.{◌≡◌, ◌<◌, true, false, length, IfOk, OnOk};
ghost use Rattle.spg_forest.specs.Shape.{Represents};
ghost use Rattle.spg_tree.specs.Table.{sheet_at};
ghost use Rattle.spg_core.specs.Seen.{past_of, IsPresentWith};
ghost use Rattle.spg_image.specs.Image.{image_of, sheets_in};
ghost use Rattle.spg_image.specs.Saving.{Saves, HasCauseIfFault, SavesBy};

use crate::blocks::{meta_page, page_bytes};
use crate::refused::SaveRefused;
use spg_base::Block;
use spg_core::State;
use spg_io::Images;
use spg_opclass::OpClass;
use spg_tree::PageTable;
use spg_verify::version_of;

/// Saves the pages of an index under a name, from block 0 on, in place of what stood there: an image of the
/// version of the class. Gives the page count. The count of faults rises where the answer is `ImageFault`, and
/// else stays. After a refusal the name holds what it held, or the pages that had come; no other name changes.
/// The name is cleared, and then each page put, by one call each; the call that is refused is the last.
pub fn save<O: OpClass, M: Images>(
    state: &State<O>,
    images: &mut M,
    name: &str,
) -> Result<u32, SaveRefused>
    ensures saves { Saves (image_of O.code_number state.now.table) (M.held images.old) (M.held images.new) name.now result }
    ensures represents { Represents O.meaning (sheets_in (image_of O.code_number state.now.table)) (IsPresentWith (past_of state.now)) }
    ensures cause { HasCauseIfFault (M.faults images.old) (M.faults images.new) result }
    ensures calls { SavesBy M.clear_gives M.put_gives (image_of O.code_number state.now.table) name.now images.old images.new result }
{
    save_table(state.class().code(), state.pages(), images, name)
}

/// Saves the pages of a table, with the code of their class, as `save` saves those of a state.
pub fn save_table<M: Images>(
    class: u8,
    table: &PageTable,
    images: &mut M,
    name: &str,
) -> Result<u32, SaveRefused>
    requires main { (sheet_at table.now 1).nulls ≡ false }
    requires nulls { (sheet_at table.now 2).nulls ≡ true }
    ensures saves { Saves (image_of class table.now) (M.held images.old) (M.held images.new) name.now result }
    ensures cause { HasCauseIfFault (M.faults images.old) (M.faults images.new) result }
    ensures calls { SavesBy M.clear_gives M.put_gives (image_of class table.now) name.now images.old images.new result }
{
    let count = table.page_count();
    let version = version_of(class);
    images.clear(name)?;
    images.put(name, &meta_page(class, count, &table.meta()))?;
    for block in 1..count {
        images.put(name, &page_bytes(table.page(Block(block)), block, version))?;
    }
    Ok(count)
}
