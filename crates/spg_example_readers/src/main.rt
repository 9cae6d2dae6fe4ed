//! Questions about a town that threads answer at once. None of them changes the index, so none waits for another.
//! The input says how many threads, and then the questions, each on a line `X1 Y1 X2 Y2`.
#![tactic(auto)]

mod question;

ghost use Rattle.std.specs.Prelude.{◌<◌, ℕ, length, slice_index_or};
ghost use Rattle.spgist.specs.Quad.{quad_meaning};
ghost use Rattle.spg_example_readers.specs.Answers.{IsAnswered};

use anyhow::{Context, bail, ensure};
use question::Question;
use spgist::{DEFAULT_LIMIT, Gathered, Index, Point, Quad, Row, build_index};
use std::alloc::Global;
use std::thread::Threads;
use std::{mem, thread};

/// How many questions one thread asks again at the end.
const ASKED_AGAIN: usize = 16;

/// A house at each place of a square with sides of 200.
fn town<R: AllocGlobal + Threads + Sync>(rt: &R) -> anyhow::Result<Index<Quad>> {
    let mut houses = Gathered::new(rt.alloc());
    for x in 0..200u16 {
        for y in 1..=200u16 {
            let at = Point {
                x: i32::from(x),
                y: i32::from(y),
            };
            houses.add(Row::at(u32::from(x), y), Some(at))?;
        }
    }
    Ok(build_index(rt, Quad, houses, 4, DEFAULT_LIMIT)?)
}

/// So many threads answer the questions at once.
fn answer_all<R: Threads + Sync>(
    rt: &R,
    alloc: Global,
    town: &Index<Quad>,
    questions: &mut [Question],
    threads: usize,
)
    ensures { (i : ℕ) (d : _) → i < length questions.old → IsAnswered quad_meaning town.now (slice_index_or questions.old i d) (slice_index_or questions.new i d) }
{
    let ask = |_: usize, question: &mut Question| question.answer(alloc, town);
    thread::for_each_mut(rt, questions, threads.max(1), &ask);
}

/// The point of two numbers.
fn point(x: &str, y: &str) -> anyhow::Result<Point> {
    Ok(Point {
        x: x.parse()?,
        y: y.parse()?,
    })
}

/// The question of a line.
fn parse(alloc: Global, line: &str) -> anyhow::Result<Question> {
    let words: Vec<&str> = line.split_whitespace().collect(alloc)?;
    let [x1, y1, x2, y2] = *words else {
        bail!("a question is X1 Y1 X2 Y2");
    };
    Ok(Question {
        low: point(x1, y1)?,
        high: point(x2, y2)?,
        houses: None,
    })
}

/// The number of threads, and the questions.
fn read(rt: &HostRuntime) -> anyhow::Result<(usize, Vec<Question>)> {
    let alloc = rt.alloc();
    let mut questions = Vec::new(alloc);
    let mut lines = rt.lines(alloc);
    let threads = lines.next().context("how many threads?")??;
    for line in lines {
        questions.push(parse(alloc, line?.as_str())?)?;
    }
    Ok((threads.as_str().parse()?, questions))
}

/// Prints how many houses each question has found. One thread asks the first ones again.
fn tell(rt: &HostRuntime, town: &Index<Quad>, questions: &[Question]) -> anyhow::Result<()> {
    for (number, question) in questions.iter().enumerate() {
        let (low, high) = (question.low, question.high);
        let houses = question.houses.as_ref().context("out of memory")?;
        println!(rt; "{low} to {high}: {} houses", houses.len())?;
        if number < ASKED_AGAIN {
            let again = question.search(rt.alloc(), town)?;
            ensure!(again.as_slice() == houses.as_slice(), "not the same");
        }
    }
    println!(rt; "one thread finds the same")?;
    Ok(())
}

fn main(rt: HostRuntime) -> anyhow::Result<()> {
    let (threads, mut questions) = read(&rt)?;
    let town = town(&rt)?;
    answer_all(&rt, rt.alloc(), &town, questions.as_mut_slice(), threads);
    let done = tell(&rt, &town, questions.as_slice());
    // The process ends, so its memory need not be given back piece by piece.
    mem::forget(town);
    done
}
