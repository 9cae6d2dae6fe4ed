//! A gazetteer: places by where they lie and by what they are called. It reads them from a file, and answers the
//! questions of its input.
#![tactic(auto)]

use anyhow::{Context, bail};
use spgist::{DEFAULT_LIMIT, Index, Kd, Point, Radix, Row, Rows, near, prefix, text, within};
use std::alloc::Global;
use std::{fs, mem};

/// How many places the question `near` tells.
const NEAREST: u16 = 3;

/// Places: that of number n, from 0 on, has the row n.1 in both indexes.
#[derive(Drop)]
struct Gazetteer {
    names: Vec<String>,
    by_place: Index<Kd>,
    by_name: Index<Radix>,
}

impl Gazetteer {
    /// One without places.
    fn new(alloc: Global) -> anyhow::Result<Gazetteer> {
        Ok(Gazetteer {
            names: Vec::new(alloc),
            by_place: Index::new(alloc, Kd, DEFAULT_LIMIT)?,
            by_name: Index::new(alloc, Radix, DEFAULT_LIMIT)?,
        })
    }

    /// Adds a place.
    fn add(&mut self, alloc: Global, name: &str, at: Point) -> anyhow::Result<()> {
        let row = Row::at(u32::try_from(self.names.len())?, 1);
        let key = text(alloc, name.as_bytes())?;
        let name = String::from_str(alloc, name)?;
        self.by_place.insert(row, Some(at))?;
        self.by_name.insert(row, Some(key))?;
        self.names.push(name)?;
        Ok(())
    }

    /// The places that a question asks for.
    fn answer(&mut self, alloc: Global, words: &[&str]) -> anyhow::Result<Rows> {
        match *words {
            ["within", x1, y1, x2, y2] => {
                let query = within(alloc, point(x1, y1)?, point(x2, y2)?)?;
                Ok(self.by_place.find(query)?)
            }
            ["begins", front] => {
                let query = prefix(alloc, text(alloc, front.as_bytes())?)?;
                Ok(self.by_name.find(query)?)
            }
            ["near", x, y] => self.nearest(alloc, point(x, y)?),
            _ => bail!("no such question"),
        }
    }

    /// The places nearest to a point, the nearest first.
    fn nearest(&self, alloc: Global, at: Point) -> anyhow::Result<Rows> {
        let mut rows = Rows::new(alloc);
        for found in near(alloc, &self.by_place, at, NEAREST)?.as_slice() {
            rows.push(found.row)?;
        }
        Ok(rows)
    }
}

/// The point of two numbers.
fn point(x: &str, y: &str) -> anyhow::Result<Point> {
    Ok(Point {
        x: number(x)?,
        y: number(y)?,
    })
}

/// The number of a word.
fn number(word: &str) -> anyhow::Result<i32> {
    match word.parse() {
        Ok(number) => Ok(number),
        Err(_) => bail!("`{word}` is no number of 32 bits"),
    }
}

/// Adds the place of a line `X Y NAME`.
fn read_place(alloc: Global, places: &mut Gazetteer, line: &str) -> anyhow::Result<()> {
    let (x, rest) = line.split_once(' ').context("there is no Y")?;
    let (y, name) = rest.split_once(' ').context("there is no name")?;
    places.add(alloc, name, point(x, y)?)
}

/// Reads the places of a file, and tells each line that is none.
fn read(rt: &HostRuntime, places: &mut Gazetteer, file: &str) -> anyhow::Result<()> {
    let mut line_number = 0u32;
    for line in file.lines() {
        line_number = line_number.saturating_add(1);
        if let Err(why) = read_place(rt.alloc(), places, line) {
            println!(rt; "line {line_number} is left out: {why}")?;
        }
    }
    Ok(())
}

/// Prints the names of the places that a line asks for, or why there is no answer.
fn tell(rt: &HostRuntime, places: &mut Gazetteer, line: &str) -> anyhow::Result<()> {
    let alloc = rt.alloc();
    let words: Vec<&str> = line.split_whitespace().collect(alloc)?;
    println!(rt; "{line}")?;
    match places.answer(alloc, &words) {
        Ok(rows) => print_names(rt, &places.names, rows.as_slice()),
        Err(why) => Ok(println!(rt; "  no answer: {why}")?),
    }
}

/// Prints the names of places.
fn print_names(rt: &HostRuntime, names: &[String], rows: &[Row]) -> anyhow::Result<()> {
    for row in rows {
        if let Some(name) = names.get(row.block() as usize) {
            println!(rt; "  {name}")?;
        }
    }
    Ok(())
}

/// Reads the places, and answers each line of the input.
fn run(rt: &HostRuntime, places: &mut Gazetteer) -> anyhow::Result<()> {
    let file = fs::read_to_string(rt, "places.txt")?;
    read(rt, places, file.as_str())?;
    for line in rt.lines(rt.alloc()) {
        let line = line?;
        tell(rt, places, line.as_str())?;
    }
    Ok(())
}

fn main(rt: HostRuntime) -> anyhow::Result<()> {
    let mut places = Gazetteer::new(rt.alloc())?;
    let done = run(&rt, &mut places);
    // The process ends, so its memory need not be given back piece by piece.
    mem::forget(places);
    done
}
