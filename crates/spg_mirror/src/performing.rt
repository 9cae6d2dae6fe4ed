ghost use Rattle.std.specs.Prelude.{◌≡◌, ◌≤◌, ◌++◌, ◌∷◌, [], All, IfOk, length};
ghost use Rattle.std.specs.List.{AllByRecursion};
ghost use Rattle.spg_script.specs.Script.{IsWritten, IsLaneCommand};
ghost use Rattle.spg_script.specs.Sequences.{script_of};
ghost use Rattle.spg_script.specs.Speech.{IsKnown};
ghost use Rattle.spg_commands.specs.Known.{IsOfClass};
ghost use Rattle.spg_mirror.specs.Mirrored.{commands_tasks, Mirrored, DoesOn, LeadsTo};

use crate::find::find;
use crate::rest::position;
use crate::writes::{delete, insert, vacuum};
use spg_base::Memory;
use spg_commands::{Book, Gate};
use spg_core::State;
use spg_report::{Record, Records};
use spg_script::{Command, Sequence, Spoken};
use spg_standby::Pair;
use std::alloc::Global;

/// Does one command.
fn command<O: Spoken>(alloc: Global, pair: &mut Pair<O>, command: &Command) -> Record
    requires known { IsKnown O.speech command.now }
    requires lane { IsLaneCommand command.now }
    ensures { DoesOn O.meaning O.speech pair.old pair.new command.now result }
{
    match command {
        Command::Insert { row, key } => insert(pair, *row, key),
        Command::Delete { row } => delete(pair, *row),
        Command::Find { query } => find(alloc, pair, query),
        Command::Vacuum => vacuum(pair),
        Command::Save { .. } | Command::Stat | Command::Near { .. } => unreachable!(),
    }
}

/// Does commands one after another. The gate is told before each and behind the last how many were done.
fn commands<O: Spoken, G: Gate>(
    alloc: Global,
    pair: &mut Pair<O>,
    book: &mut Book,
    commands: &[Command],
    gate: &G,
)
    requires known { All (IsKnown O.speech) commands.now }
    requires lane { All IsLaneCommand commands.now }
    requires room { length commands.now ≤ book.old.spare }
    ensures { LeadsTo O.meaning O.speech pair.old book.old.records pair.new book.new.records (commands_tasks 0 commands.now) }
{
    for one in commands {
        gate.done(book.len(), commands.len());
        book.add(command(alloc, pair, one));
    }
    gate.done(book.len(), commands.len());
}

/// Does the commands of a script one after another on a new index of 4 to 131,072 pages, whose searches a
/// standby answers that is so many records behind at most. The gate is told before each command and behind
/// the last how many were done. It goes on whatever becomes of a command: its record says it. `Memory`
/// comes only before the first command. The state is the primary's.
pub fn perform_on<O: Spoken, G: Gate>(
    alloc: Global,
    class: O,
    limit: u32,
    lag: u32,
    sequence: &Sequence,
    gate: &G,
) -> Result<(State<O>, Records), Memory>
    requires of_class { IsOfClass O.speech sequence.now.class }
    requires written { IsWritten (script_of sequence.now) }
    requires lane { AllByRecursion IsLaneCommand sequence.now.commands }
    requires from { 4 ≤ limit }
    requires to { limit ≤ 131072 }
    ensures { IfOk result (λ done. Mirrored O.meaning O.speech limit lag (commands_tasks 0 sequence.now.commands) done.0 done.1) }
{
    let all = sequence.commands.as_slice();
    let mut book = Book::with_room(alloc, all.len())?;
    let mut pair = Pair::new(alloc, class, limit, lag)?;
    let _ = position(&pair);
    commands(alloc, &mut pair, &mut book, all, gate);
    Ok((pair.into_primary(), book.into_records()))
}
