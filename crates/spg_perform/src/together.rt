// The lanes of a block beside each other.
ghost use Rattle.std.specs.Prelude.{◌≡◌, ◌<◌, ◌≤◌, ◌+◌, ◌++◌, ◌==◌, ℕ, true, false, Option, List as Items, length, map, vec_len, All, IfOk, IfErr};
ghost use Rattle.spg_rows.specs.Right.{Right};
ghost use Rattle.spg_tree.specs.Table.{sheets_of};
ghost use Rattle.spg_core.specs.Seen.{past_of};
ghost use Rattle.spg_histories.specs.Causes.{TellDrops};
ghost use Rattle.spg_script.specs.declared.command.Command.{Command as Asked};
ghost use Rattle.spg_histories.specs.Blocks.{joined};
ghost use Rattle.spg_histories.specs.Tasks.{lanes_tasks};
ghost use Rattle.spg_io.specs.Held.{Holding};
ghost use Rattle.spg_perform.specs.Session.{AllClosed, LeadsOn, standing};
ghost use Rattle.spg_commands.specs.Acted.{CanBeDone};
ghost use Rattle.spg_perform.specs.Lanes.{refusals};
ghost use Rattle.spg_perform.specs.Posts.{RanBeside};

use crate::position::position;
use crate::post::{Post, posts_for};
use spg_base::{List, Span};
use spg_commands::{Book, Gate};
use spg_core::State;
use spg_opclass::{OpClass, SharedClass};
use spg_report::{Outcome, Record};
use spg_script::{Command, Spoken};
use spg_share::{Lane, share};
use spg_whole::Index;
use std::sync::Wait;
use std::thread::Threads;

/// Whether lanes have no command.
fn are_idle(lanes: &[List<Command>]) -> bool
    ensures { result ≡ (length (lanes_tasks 0 0 true lanes.now) == 0) }
{
    for lane in lanes {
        if !lane.is_empty() {
            return false;
        }
    }
    true
}

/// Runs the lanes of a block beside each other, each at a post of its own. Where there is no memory for
/// that, the state is handed back as it was, and no command was begun.
fn beside<'a, R: AllocGlobal + Threads + Wait + Sync, O: Spoken + SharedClass, G: Gate>(
    rt: &R,
    state: State<O>,
    lanes: &'a [List<Command>],
    gate: &'a G,
) -> Result<(State<O>, Vec<Lane<O, Post<'a, G>>>), State<O>>
    requires closed { AllClosed (past_of state) }
    requires some { (0 < length lanes.now) × (length lanes.now ≤ 32) }
    requires can { All (λ (lane : Items Asked). All (CanBeDone O.speech false) lane) lanes.now }
    ensures ok { IfOk result (λ done. RanBeside O.meaning O.speech state done.0 lanes.now (map (λ p. p.task.records.items) done.1.items)) }
    ensures err { IfErr result (λ back. back ≡ state) }
{
    let Ok(mut posts) = posts_for(rt.alloc(), lanes, gate) else {
        return Err(state);
    };
    match share(rt, Index::of(state), &mut posts) {
        Ok(index) => Ok((index.into_state(), posts)),
        Err((index, _)) => Err(index.into_state()),
    }
}

/// Notes the records of a lane.
fn note_lane(book: &mut Book, records: Vec<Record>)
    requires room { vec_len records ≤ book.old.spare }
    ensures records { book.new.records ≡ book.old.records ++ records.items }
    ensures room { book.new.spare + vec_len records ≡ book.old.spare }
{
    for done in records {
        book.add(done);
    }
}

/// Notes the records of the lanes, lane by lane.
fn note_all<O: OpClass, G>(book: &mut Book, posts: Vec<Lane<O, Post<'_, G>>>)
    requires room { length (joined (map (λ p. p.task.records.items) posts.items)) ≤ book.old.spare }
    ensures records { book.new.records ≡ book.old.records ++ joined (map (λ p. p.task.records.items) posts.entry.items) }
    ensures room { book.new.spare + length (joined (map (λ p. p.task.records.items) posts.entry.items)) ≡ book.old.spare }
{
    for post in posts {
        note_lane(book, post.task.records);
    }
}

/// Notes of so many commands that they were not begun for want of memory, where the journal was so long.
fn refuse_lane(book: &mut Book, at: u64, count: usize)
    requires room { count ≤ book.old.spare }
    ensures records { book.new.records ≡ book.old.records ++ refusals at count }
    ensures room { book.new.spare + count ≡ book.old.spare }
{
    for _ in 0..count {
        book.add(Record {
            span: Span { from: at, to: at },
            outcome: Outcome::Memory,
        });
    }
}

/// The same of all commands of the lanes.
fn refuse_all(book: &mut Book, at: u64, lanes: &[List<Command>])
    requires room { length (lanes_tasks 0 0 true lanes.now) ≤ book.old.spare }
    ensures records { book.new.records ≡ book.old.records ++ refusals at (length (lanes_tasks 0 0 true lanes.now)) }
    ensures room { book.new.spare + length (lanes_tasks 0 0 true lanes.now) ≡ book.old.spare }
{
    for lane in lanes {
        refuse_lane(book, at, lane.len());
    }
}

/// Between calls the journal of a state is right, and the pages show why inserts were given up. Nothing is
/// done here.
fn shows<O: OpClass>(state: &State<O>)
    ensures right { Right O.meaning state.now.journal }
    ensures drops { TellDrops state.now.origin.limit (sheets_of state.now.table) (past_of state.now) }
{
    let _ = state.journal();
    let _ = state.pages();
    let _ = state.origin();
}

/// Does the lanes of a block beside each other, lane i with seat i. Where there is no memory for that,
/// each of their commands had none.
pub(crate) fn together<R: AllocGlobal + Threads + Wait + Sync, O: Spoken + SharedClass, G: Gate>(
    rt: &R,
    state: State<O>,
    book: &mut Book,
    lanes: &[List<Command>],
    gate: &G,
) -> State<O>
    requires closed { AllClosed (past_of state) }
    requires few { length lanes.now ≤ 32 }
    requires can { All (λ (lane : Items Asked). All (CanBeDone O.speech false) lane) lanes.now }
    requires room { length (lanes_tasks 0 0 true lanes.now) ≤ book.old.spare }
    ensures leads { (number : ℕ) (held : Option Holding) (faults : ℕ) → LeadsOn O.meaning O.speech O.code_number
        (standing state held faults book.old.records) (standing result held faults book.new.records) (lanes_tasks number 0 false lanes.now) }
    ensures closed { AllClosed (past_of result) }
    ensures room { book.new.spare + length (lanes_tasks 0 0 true lanes.now) ≡ book.old.spare }
{
    if are_idle(lanes) {
        return state;
    }
    match beside(rt, state, lanes, gate) {
        Ok((after, posts)) => {
            shows(&after);
            note_all(book, posts);
            after
        }
        Err(before) => {
            shows(&before);
            refuse_all(book, position(&before), lanes);
            before
        }
    }
}
