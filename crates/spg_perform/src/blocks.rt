ghost use Rattle.std.specs.Prelude.{◌≡◌, ◌<◌, ◌≤◌, ◌+◌, ◌∷◌, [], ℕ, true, not, length, All};
ghost use Rattle.spg_core.specs.Seen.{past_of};
ghost use Rattle.spg_histories.specs.Tasks.{lanes_tasks, parts_tasks};
ghost use Rattle.spg_perform.specs.Session.{AllClosed, LeadsOn, standing};
ghost use Rattle.spg_commands.specs.Acted.{CanBeDone, CanBlock, task_of};

use crate::command::command;
use crate::count::count_commands;
use crate::together::together;
use spg_base::SeatNo;
use spg_commands::{Book, Gate};
use spg_core::State;
use spg_io::Images;
use spg_opclass::SharedClass;
use spg_script::{Command, Part, PartRef};
use spg_served::Served;
use std::alloc::Global;
use std::sync::Wait;
use std::thread::Threads;

/// Does the command of a block outside lanes, with the first seat.
fn alone<O: Served, M: Images>(
    alloc: Global,
    state: &mut State<O>,
    images: &mut M,
    book: &mut Book,
    one: &Command,
)
    requires closed { AllClosed (past_of state.old) }
    requires can { CanBeDone O.speech true one.now }
    requires room { 0 < book.old.spare }
    ensures leads { (number : ℕ) → LeadsOn O.meaning O.speech O.code_number
        (standing state.old (M.held images.old) (M.faults images.old) book.old.records)
        (standing state.new (M.held images.new) (M.faults images.new) book.new.records)
        (task_of number 0 true one.now ∷ []) }
    ensures closed { AllClosed (past_of state.new) }
    ensures room { book.new.spare + 1 ≡ book.old.spare }
{
    book.add(command(alloc, state, images, SeatNo::first(), one));
}

/// Does a block: its command, or its lanes beside each other, lane i with seat i.
fn part<R: AllocGlobal + Threads + Wait + Sync, O: Served + SharedClass, M: Images, G: Gate>(
    rt: &R,
    state: State<O>,
    images: &mut M,
    book: &mut Book,
    block: &Part,
    gate: &G,
) -> State<O>
    requires closed { AllClosed (past_of state) }
    requires can { CanBlock O.speech block.now }
    requires room { length (lanes_tasks 0 0 true block.now.lanes) ≤ book.old.spare }
    ensures leads { (number : ℕ) → LeadsOn O.meaning O.speech O.code_number
        (standing state (M.held images.old) (M.faults images.old) book.old.records)
        (standing result (M.held images.new) (M.faults images.new) book.new.records)
        (lanes_tasks number 0 (not block.now.together) block.now.lanes) }
    ensures closed { AllClosed (past_of result) }
    ensures room { book.new.spare + length (lanes_tasks 0 0 true block.now.lanes) ≡ book.old.spare }
{
    match block.lent() {
        PartRef::Alone(one) => {
            let mut state = state;
            alone(rt.alloc(), &mut state, images, book, one);
            state
        }
        PartRef::Together(lanes) => together(rt, state, book, lanes, gate),
    }
}

/// Does blocks one after another.
pub(crate) fn parts<
    R: AllocGlobal + Threads + Wait + Sync,
    O: Served + SharedClass,
    M: Images,
    G: Gate,
>(rt: &R, state: State<O>, images: &mut M, book: &mut Book, blocks: &[Part], gate: &G) -> State<O>
    requires closed { AllClosed (past_of state) }
    requires can { All (CanBlock O.speech) blocks.now }
    requires room { length (parts_tasks 0 blocks.now) ≤ book.old.spare }
    ensures { LeadsOn O.meaning O.speech O.code_number
        (standing state (M.held images.old) (M.faults images.old) book.old.records)
        (standing result (M.held images.new) (M.faults images.new) book.new.records)
        (parts_tasks 0 blocks.now) }
{
    let of = count_commands(blocks).unwrap_or(usize::MAX);
    let mut state = state;
    for block in blocks {
        gate.done(book.len(), of);
        state = part(rt, state, images, book, block, gate);
    }
    gate.done(book.len(), of);
    state
}
