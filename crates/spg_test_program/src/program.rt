use spg_app::{Gate, Status, run};
use spg_base::{Bytes, List, Memory};
use spg_io::{FaultyImages, FaultySink, FaultySource};
use std::alloc::{AllocError, Global};
use std::mem;
use std::sync::Wait;
use std::thread::Threads;

/// The most bytes of a read.
const MOST: usize = 40;

/// The numbers of the calls that fail, counted from 1; 0 where none does.
#[derive(Clone, Copy)]
pub struct Fails {
    /// Of the reads of the script.
    pub read: u64,
    /// Of the writes of the text.
    pub write: u64,
    /// Of the calls on the images.
    pub image: u64,
}

/// How a run ended, what it wrote, and the images after it.
#[derive(Drop)]
pub struct Ended {
    /// How the run ended.
    pub status: Status,
    /// What it wrote.
    pub text: Vec<u8>,
    /// The images, as it left them.
    pub images: FaultyImages,
}

/// A run of which no call fails.
pub fn no_fails() -> Fails {
    Fails {
        read: 0,
        write: 0,
        image: 0,
    }
}

/// The words of a run without options.
pub fn run_word() -> [&'static str; 1] {
    ["run"]
}

fn owned(alloc: Global, words: &[&str]) -> Result<Vec<String>, AllocError> {
    let mut owned = Vec::new(alloc);
    for word in words {
        owned.push(String::from_str(alloc, word)?)?;
    }
    Ok(owned)
}

fn one_call(alloc: Global, call: u64) -> Result<List<u64>, Memory> {
    let mut calls = List::new(alloc);
    calls.push(call)?;
    Ok(calls)
}

/// Images whose call of this number fails.
fn images_of(alloc: Global, call: u64) -> Result<FaultyImages, Memory> {
    Ok(FaultyImages::new(alloc, one_call(alloc, call)?))
}

/// A script as a source whose read of this number fails.
fn source_of(alloc: Global, script: &[u8], call: u64) -> Result<FaultySource, Memory> {
    let script = Bytes::copy(alloc, script)?;
    let calls = one_call(alloc, call)?;
    Ok(FaultySource::new(script, MOST, calls))
}

/// A sink whose write of this number fails.
fn sink_of(alloc: Global, call: u64) -> Result<FaultySink, Memory> {
    Ok(FaultySink::new(alloc, one_call(alloc, call)?))
}

/// A gate at which no lane waits.
pub struct Open;

impl Gate for Open {
    fn at<R: Wait>(&self, _rt: &R, _lane: u8, _command: u32) {}
}

/// Runs the program on a script.
pub fn ran<R: AllocGlobal + Threads + Wait + Sync>(
    rt: &R,
    words: &[&str],
    script: &[u8],
    fails: Fails,
) -> Result<Ended, Memory> {
    ran_by(rt, words, script, fails, &Open)
}

/// Runs the program on a script whose lanes ask a gate.
pub fn ran_by<R: AllocGlobal + Threads + Wait + Sync, G: Gate>(
    rt: &R,
    words: &[&str],
    script: &[u8],
    fails: Fails,
    gate: &G,
) -> Result<Ended, Memory> {
    let mut images = images_of(rt.alloc(), fails.image)?;
    let (status, text) = ran_over(rt, words, script, fails, &mut images, gate)?;
    Ok(Ended {
        status,
        text,
        images,
    })
}

/// Runs the program, and gives how it ended. The state of the index is not given back piece by piece, as
/// the program itself does not: so no proof of that, for each class, is needed here.
fn status_of<R: AllocGlobal + Threads + Wait + Sync, G: Gate>(
    rt: &R,
    words: &[String],
    source: &mut FaultySource,
    sink: &mut FaultySink,
    images: &mut FaultyImages,
    gate: &G,
) -> Status {
    let (status, state) = run(rt, words, source, sink, images, gate);
    mem::forget(state);
    status
}

/// Runs the program, and gives how it ended and what it wrote.
fn taken<R: AllocGlobal + Threads + Wait + Sync, G: Gate>(
    rt: &R,
    words: &[String],
    source: &mut FaultySource,
    sink: &mut FaultySink,
    images: &mut FaultyImages,
    gate: &G,
) -> Result<(Status, Vec<u8>), Memory> {
    let status = status_of(rt, words, source, sink, images, gate);
    let text = sink.taken().to_vec(rt.alloc())?;
    Ok((status, text))
}

/// Runs the program on a script over images that are there, and gives how it ended and what it wrote.
pub fn ran_over<R: AllocGlobal + Threads + Wait + Sync, G: Gate>(
    rt: &R,
    words: &[&str],
    script: &[u8],
    fails: Fails,
    images: &mut FaultyImages,
    gate: &G,
) -> Result<(Status, Vec<u8>), Memory> {
    let words = owned(rt.alloc(), words)?;
    let mut source = source_of(rt.alloc(), script, fails.read)?;
    let mut sink = sink_of(rt.alloc(), fails.write)?;
    taken(rt, &words, &mut source, &mut sink, images, gate)
}

/// Lines with their ends.
pub fn joined(alloc: Global, lines: &[&str]) -> Result<String, AllocError> {
    let mut text = String::new(alloc);
    for line in lines {
        text.push_str(line)?;
        text.push_str("\n")?;
    }
    Ok(text)
}

/// Whether a run over images ends so and writes this.
pub fn writes<R: AllocGlobal + Threads + Wait + Sync>(
    rt: &R,
    words: &[&str],
    script: &[u8],
    images: &mut FaultyImages,
    wanted: (Status, &[u8]),
) -> Result<bool, Memory> {
    let (status, text) = ran_over(rt, words, script, no_fails(), images, &Open)?;
    Ok((status, text.as_slice()) == wanted)
}

/// Whether a run of which these calls fail ends so and writes this.
pub fn ends<R: AllocGlobal + Threads + Wait + Sync>(
    rt: &R,
    words: &[&str],
    script: &[u8],
    fails: Fails,
    wanted: (Status, &[u8]),
) -> Result<bool, Memory> {
    let mut images = images_of(rt.alloc(), fails.image)?;
    let (status, text) = ran_over(rt, words, script, fails, &mut images, &Open)?;
    Ok((status, text.as_slice()) == wanted)
}

/// Runs the program on a script over images: the text of a run that comes to its end.
pub fn done_over<R: AllocGlobal + Threads + Wait + Sync>(
    rt: &R,
    words: &[&str],
    script: &str,
    images: &mut FaultyImages,
) -> Result<Option<Vec<u8>>, Memory> {
    match ran_over(rt, words, script.as_bytes(), no_fails(), images, &Open)? {
        (Status::Done, text) => Ok(Some(text)),
        _ => Ok(None),
    }
}

/// Runs the program on a script: the text of a run that comes to its end.
pub fn done<R: AllocGlobal + Threads + Wait + Sync>(
    rt: &R,
    words: &[&str],
    script: &str,
) -> Result<Option<Vec<u8>>, Memory> {
    let mut images = images_of(rt.alloc(), 0)?;
    done_over(rt, words, script, &mut images)
}

/// Whether a text has this line, counted from 0.
pub fn is_line(text: &[u8], number: usize, line: &str) -> bool {
    let mut lines = text.split(|b| *b == b'\n').skip(number);
    lines.next() == Some(line.as_bytes())
}

/// Whether a text has these lines from a number on, counted from 0.
pub fn are_lines(text: &[u8], first: usize, lines: &[&str]) -> bool {
    for (line, number) in lines.iter().zip(first..) {
        if !is_line(text, number, line) {
            return false;
        }
    }
    true
}

fn push_with(text: &mut String, line: &str, told: &str) -> Result<(), AllocError> {
    for letter in line.chars() {
        if letter == 'N' {
            text.push_str(told)?;
        } else {
            text.push(letter)?;
        }
    }
    Ok(())
}

/// Puts a line behind a text, with a number in place of each `N`.
pub fn push_numbered(
    alloc: Global,
    text: &mut String,
    line: &str,
    number: u32,
) -> Result<(), AllocError> {
    let told = format!(in alloc; "{number}")?;
    push_with(text, line, told.as_str())
}

/// Puts the insert of row 1.N behind a script, whose key has this number in place of each `N`.
pub fn push_insert(
    alloc: Global,
    script: &mut String,
    key: &str,
    number: u32,
) -> Result<(), AllocError> {
    push_numbered(alloc, script, "insert 1.N ", number)?;
    push_numbered(alloc, script, key, number)?;
    script.push_str("\n")
}
