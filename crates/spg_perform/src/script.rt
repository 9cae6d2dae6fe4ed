ghost use Rattle.std.specs.Prelude.{◌≡◌, ◌≤◌, [], length, IfOk, IfErr};
ghost use Rattle.spg_core.specs.Seen.{past_of};
ghost use Rattle.spg_histories.specs.Tasks.{parts_tasks};
ghost use Rattle.spg_perform.specs.Session.{AllClosed, IsOfClass, Performs, standing};

use crate::blocks::parts;
use crate::count::count_commands;
use spg_base::Memory;
use spg_commands::{Book, Gate};
use spg_core::State;
use spg_io::Images;
use spg_opclass::SharedClass;
use spg_report::Records;
use spg_script::{Part, Script};
use spg_served::Served;
use std::alloc::Global;
use std::sync::Wait;
use std::thread::Threads;

/// An empty book with room for the records of all commands of these blocks.
fn book_for(alloc: Global, blocks: &[Part]) -> Result<Book, Memory>
    ensures records { IfOk result (λ book. book.records ≡ []) }
    ensures room { IfOk result (λ book. length (parts_tasks 0 blocks.now) ≤ book.spare) }
{
    let Some(count) = count_commands(blocks) else {
        return Err(Memory);
    };
    Book::with_room(alloc, count)
}

/// Does the commands of a script on a state of its class in which nothing is open: blocks one after
/// another, the lanes of a block beside each other, lane i with seat i. The records come in the order of
/// the commands' numbers. A lane asks the gate before each of its commands. It goes on whatever becomes
/// of a command: the record says it, and `Memory` there means that what the command had opened was given
/// up. `Memory` comes only before the first command: the state is handed back as it was then, and the
/// images are as they were.
pub fn perform<R: AllocGlobal + Threads + Wait + Sync, O: Served + SharedClass, M: Images, G: Gate>(
    rt: &R,
    state: State<O>,
    script: &Script,
    images: &mut M,
    gate: &G,
) -> Result<(State<O>, Records), (State<O>, Memory)>
    requires of_class { IsOfClass O.speech script.now.class }
    requires closed { AllClosed (past_of state) }
    ensures ok { IfOk result (λ done. Performs O.meaning O.speech O.code_number script.now
        (standing state (M.held images.old) (M.faults images.old) [])
        (standing done.0 (M.held images.new) (M.faults images.new) done.1)) }
    ensures err { IfErr result (λ refused. (refused.0 ≡ state) × (images.new ≡ images.old)) }
{
    let blocks = script.parts();
    let Ok(mut book) = book_for(rt.alloc(), blocks) else {
        return Err((state, Memory));
    };
    let _ = state.journal();
    let state = parts(rt, state, images, &mut book, blocks, gate);
    Ok((state, book.into_records()))
}
