// A lane: its commands, each done by its seat.
ghost use Rattle.std.specs.Prelude.{◌≡◌, false, length};
ghost use Rattle.spg_script.specs.declared.command.Command.TheVariants as asked;
ghost use Rattle.spg_script.specs.Speech.{IsKnown};
ghost use Rattle.spg_share.specs.Seats.{seat_name, knows};
ghost use Rattle.spg_commands.specs.Acted.{CanBeDone};
ghost use Rattle.spg_perform.specs.Lanes.{Went, WentOne, insert_record, kill_record, find_record, vacuum_record, refused_at};
ghost use Rattle.spg_perform.specs.Posts.{IsWhole, IsReady};

use crate::post::Post;
use spg_base::{Memory, Row, Span};
use spg_commands::{Gate, key_in, query_in};
use spg_opclass::OpClass;
use spg_report::{Outcome, Record};
use spg_script::{AnyKey, AnyQuery, Command, Spoken};
use spg_share::{FindAnswer, InsertAnswer, KillAnswer, Seat, Task, VacuumAnswer};
use std::alloc::Global;
use std::sync::Wait;

/// The record of a command that could not be begun for want of memory.
fn wanting<O: OpClass>(seat: &Seat<'_, O>) -> Record
    ensures { result ≡ refused_at (length (knows seat.now).seen) }
{
    let at = seat.seen();
    Record {
        span: Span { from: at, to: at },
        outcome: Outcome::Memory,
    }
}

fn insert_record(answer: &InsertAnswer) -> Record
    ensures { result ≡ insert_record answer.now }
{
    let (span, outcome) = match answer {
        InsertAnswer::Added(span) => (*span, Outcome::Added),
        InsertAnswer::RowUsed(span) => (*span, Outcome::RowUsed),
        InsertAnswer::RowHeld { by, span } => (*span, Outcome::RowHeld { by: *by }),
        InsertAnswer::IndexFull(span) => (*span, Outcome::Full),
        InsertAnswer::ClockFull(span) => (*span, Outcome::ClockFull),
        InsertAnswer::Memory(span) => (*span, Outcome::Memory),
    };
    Record { span, outcome }
}

fn kill_record(answer: &KillAnswer) -> Record
    ensures { result ≡ kill_record answer.now }
{
    let (span, outcome) = match answer {
        KillAnswer::Killed(span) => (*span, Outcome::Killed),
        KillAnswer::NotLive(span) => (*span, Outcome::NotLive),
        KillAnswer::Memory(span) => (*span, Outcome::Memory),
    };
    Record { span, outcome }
}

fn find_record(answer: FindAnswer) -> Record
    ensures { result ≡ find_record answer }
{
    let (span, outcome) = match answer {
        // What a scan met is told outside lanes alone.
        FindAnswer::Found { rows, span } => (span, Outcome::Found { rows, walk: None }),
        FindAnswer::Memory(span) => (span, Outcome::Memory),
    };
    Record { span, outcome }
}

fn vacuum_record(answer: &VacuumAnswer) -> Record
    ensures { result ≡ vacuum_record answer.now }
{
    let (span, outcome) = match answer {
        VacuumAnswer::Vacuumed { swept, span } => (*span, Outcome::Vacuumed(*swept)),
        VacuumAnswer::Open { by, span } => (*span, Outcome::OpenBy(*by)),
        VacuumAnswer::Memory(span) => (*span, Outcome::Memory),
    };
    Record { span, outcome }
}

#[tactic(auto, using(crate::proofs::LaneTold::went_insert, crate::proofs::LaneTold::went_wanting))]
fn insert<R: Wait, O: Spoken>(
    rt: &R,
    seat: &mut Seat<'_, O>,
    row: Row,
    key: &Option<AnyKey>,
) -> Record
    requires whole { IsWhole (knows seat.old) }
    requires known { IsKnown O.speech (asked.Insert row key.now) }
    ensures same { seat_name seat.new ≡ seat_name seat.old }
    ensures went { WentOne O.meaning O.speech (knows seat.old) (knows seat.new) (asked.Insert row key.now) result }
{
    let key = match key_in(seat.class(), key) {
        Ok(Some(key)) => key,
        Ok(None) => unreachable!(),
        Err(Memory) => return wanting(seat),
    };
    let answer = seat.insert(rt, row, key);
    insert_record(&answer)
}

#[tactic(auto, using(crate::proofs::LaneTold::went_delete))]
fn delete<R: Wait, O: Spoken>(rt: &R, seat: &mut Seat<'_, O>, row: Row) -> Record
    ensures same { seat_name seat.new ≡ seat_name seat.old }
    ensures went { WentOne O.meaning O.speech (knows seat.old) (knows seat.new) (asked.Delete row) result }
{
    let answer = seat.delete(rt, row);
    kill_record(&answer)
}

#[tactic(auto, using(crate::proofs::LaneTold::went_find, crate::proofs::LaneTold::went_wanting))]
fn find<R: Wait, O: Spoken>(
    rt: &R,
    alloc: Global,
    seat: &mut Seat<'_, O>,
    query: &AnyQuery,
) -> Record
    requires whole { IsWhole (knows seat.old) }
    requires known { IsKnown O.speech (asked.Find query.now) }
    ensures same { seat_name seat.new ≡ seat_name seat.old }
    ensures went { WentOne O.meaning O.speech (knows seat.old) (knows seat.new) (asked.Find query.now) result }
{
    let query = match query_in(alloc, seat.class(), query) {
        Ok(Some(query)) => query,
        Ok(None) => unreachable!(),
        Err(Memory) => return wanting(seat),
    };
    let answer = seat.find(rt, query);
    find_record(answer)
}

#[tactic(auto, using(crate::proofs::LaneTold::went_vacuum))]
fn vacuum<R: Wait, O: Spoken>(rt: &R, seat: &mut Seat<'_, O>) -> Record
    ensures same { seat_name seat.new ≡ seat_name seat.old }
    ensures went { WentOne O.meaning O.speech (knows seat.old) (knows seat.new) asked.Vacuum result }
{
    let answer = seat.vacuum(rt);
    vacuum_record(&answer)
}

/// Does one command of a lane.
fn lane_command<R: Wait, O: Spoken>(
    rt: &R,
    alloc: Global,
    seat: &mut Seat<'_, O>,
    command: &Command,
) -> Record
    requires whole { IsWhole (knows seat.old) }
    requires can { CanBeDone O.speech false command.now }
    ensures same { seat_name seat.new ≡ seat_name seat.old }
    ensures went { WentOne O.meaning O.speech (knows seat.old) (knows seat.new) command.now result }
{
    match command {
        Command::Insert { row, key } => insert(rt, seat, *row, key),
        Command::Delete { row } => delete(rt, seat, *row),
        Command::Find { query } => find(rt, alloc, seat, query),
        Command::Vacuum => vacuum(rt, seat),
        // No lane has these.
        Command::Save { name: _ } | Command::Stat | Command::Near { .. } => unreachable!(),
    }
}

impl<'a, O: Spoken, G: Gate> Task<O> for Post<'a, G> {
    ghost ready = { λ post v. IsReady O.speech post v };

    ghost does = { λ before after v w. Went O.meaning O.speech v w before.commands.now after.records.items };

    /// Does the commands of the lane one after another. Before each it asks the gate.
    fn run<R: Wait>(&mut self, rt: &R, seat: &mut Seat<'_, O>) {
        let commands = self.commands;
        let mut number = 0u32;
        for command in commands {
            self.gate.at(rt, self.number, number);
            let done = lane_command(rt, self.alloc, seat, command);
            self.records.push_reserved(done);
            number = number.saturating_add(1);
        }
    }
}
