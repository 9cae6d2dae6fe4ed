use clap::{Arg, ArgAction, Command};
use spg_words::{RunLine, build_of, check_of, load_of, run_of, standby_of};
use std::alloc::{AllocError, Global};
use std::process::Abort;
use std::test::Fail;

/// Lines, each behind the program's name, whose numbers and names are in their forms: which options and
/// words stand where decides whether they are taken.
const LINES: [&[&str]; 54] = [
    &["spgist", "run"],
    &["spgist", "run", "--limit", "4"],
    &["spgist", "run", "--limit=4"],
    &["spgist", "run", "--from", "town"],
    &["spgist", "run", "--from=town", "--limit", "5"],
    &["spgist", "run", "--limit=5", "--from", "town"],
    &["spgist", "check", "town"],
    &["spgist", "gen", "3000", "7"],
    &["spgist", "gen", "3000", "--lanes", "2", "7"],
    &["spgist", "gen", "--class=kd", "3000", "7"],
    &[
        "spgist",
        "gen",
        "3000",
        "7",
        "--lanes=16",
        "--class",
        "radix",
    ],
    &["spgist"],
    &["spgist", "fast"],
    &["spgist", "run", "fast"],
    &["spgist", "run", "--limit"],
    &["spgist", "run", "--from"],
    &["spgist", "run", "--limit", "5", "--limit", "6"],
    &["spgist", "run", "--limit=5", "--limit=5"],
    &["spgist", "run", "--from", "a", "--from=b"],
    &["spgist", "run", "--from", "--limit", "5"],
    &["spgist", "run", "--lim", "5"],
    &["spgist", "run", "--lanes", "2"],
    &["spgist", "run", "-"],
    &["spgist", "run", "-l", "5"],
    &["spgist", "--limit", "5", "run"],
    &["spgist", "gen"],
    &["spgist", "gen", "3000"],
    &["spgist", "gen", "3000", "7", "1"],
    &["spgist", "gen", "3000", "7", "--lanes"],
    &["spgist", "gen", "3000", "7", "--limit=5"],
    &["spgist", "gen", "3000", "-7"],
    &["spgist", "gen", "3000", "7", "--class=kd", "--class", "kd"],
    &["spgist", "check"],
    &["spgist", "check", "town", "town"],
    &["spgist", "check", "--from", "town"],
    &["spgist", "--help"],
    &["spgist", "-h"],
    &["spgist", "help"],
    &["spgist", "--version"],
    &["spgist", "run", "--help"],
    &["spgist", "build", "town"],
    &["spgist", "build", "--workers", "2", "town"],
    &["spgist", "build", "town", "--workers=2"],
    &["spgist", "build"],
    &["spgist", "build", "town", "town"],
    &["spgist", "build", "town", "--lanes=2"],
    &["spgist", "check", "town", "--workers=2"],
    &["spgist", "standby", "1"],
    &["spgist", "standby", "--limit", "4", "0"],
    &["spgist", "standby", "1", "--limit=4"],
    &["spgist", "standby"],
    &["spgist", "standby", "1", "2"],
    &["spgist", "standby", "1", "--from=town"],
    &["spgist", "standby", "1", "--workers=2"],
];

/// An option with a value.
fn option<'a>(alloc: Global, name: &'a str) -> Arg<'a> {
    Arg::new(alloc, name).long(name).action(ArgAction::Set)
}

/// A word that must be there.
fn word<'a>(alloc: Global, name: &'a str) -> Arg<'a> {
    Arg::new(alloc, name).required(true).action(ArgAction::Set)
}

/// A command without the flags that `clap` adds.
fn bare<'a>(alloc: Global, name: &'a str) -> Command<'a> {
    Command::new(alloc, name)
        .disable_help_flag(true)
        .disable_version_flag(true)
}

fn run_command<'a>(alloc: Global) -> Result<Command<'a>, AllocError> {
    bare(alloc, "run")
        .arg(option(alloc, "limit"))?
        .arg(option(alloc, "from"))
}

fn check_command<'a>(alloc: Global) -> Result<Command<'a>, AllocError> {
    bare(alloc, "check").arg(word(alloc, "NAME"))
}

fn gen_command<'a>(alloc: Global) -> Result<Command<'a>, AllocError> {
    bare(alloc, "gen")
        .arg(word(alloc, "COUNT"))?
        .arg(word(alloc, "SEED"))?
        .arg(option(alloc, "lanes"))?
        .arg(option(alloc, "class"))
}

fn build_command<'a>(alloc: Global) -> Result<Command<'a>, AllocError> {
    bare(alloc, "build")
        .arg(word(alloc, "NAME"))?
        .arg(option(alloc, "workers"))
}

fn standby_command<'a>(alloc: Global) -> Result<Command<'a>, AllocError> {
    bare(alloc, "standby")
        .arg(word(alloc, "LAG"))?
        .arg(option(alloc, "limit"))
}

/// The program as `clap` sees it.
fn program<'a>(alloc: Global) -> Result<Command<'a>, AllocError> {
    bare(alloc, "spgist")
        .disable_help_subcommand(true)
        .subcommand_required(true)
        .subcommand(run_command(alloc)?)?
        .subcommand(check_command(alloc)?)?
        .subcommand(gen_command(alloc)?)?
        .subcommand(build_command(alloc)?)?
        .subcommand(standby_command(alloc)?)
}

/// Whether `clap` takes the line.
fn clap_takes(alloc: Global, line: &[&str]) -> Result<bool, AllocError> {
    Ok(program(alloc)?.try_get_matches_from(line).is_ok())
}

/// The words of a line, without the program's name.
fn words_of(alloc: Global, line: &[&str]) -> Result<Vec<String>, AllocError> {
    let mut words = Vec::new(alloc);
    for word in line.iter().skip(1) {
        words.push(String::from_str(alloc, word)?)?;
    }
    Ok(words)
}

/// Whether the program's own readers take it.
fn is_taken(alloc: Global, line: &[&str]) -> Result<bool, AllocError> {
    let words = words_of(alloc, line)?;
    let words = words.as_slice();
    let reads = run_of(words).is_some() || build_of(words).is_some();
    let reads = reads || standby_of(words).is_some();
    Ok(reads || load_of(words).is_some() || check_of(words).is_some())
}

#[test]
fn takes_what_clap_takes(rt: HostRuntime) -> Result<(), Fail> {
    for line in &LINES {
        let taken = is_taken(rt.alloc(), line)?;
        assert_eq!(rt; (line, taken), (line, clap_takes(rt.alloc(), line)?));
    }
    Ok(())
}

/// A value is a word of its own, or stands behind the option's name.
#[test]
fn reads_a_value_both_ways(rt: HostRuntime) -> Result<(), Fail> {
    let apart = words_of(rt.alloc(), &["spgist", "run", "--limit", "5"])?;
    let joined = words_of(rt.alloc(), &["spgist", "run", "--limit=5"])?;
    let wanted = Some(RunLine {
        limit: 5,
        from: None,
    });
    assert_eq!(rt; run_of(apart.as_slice()), wanted);
    assert_eq!(rt; run_of(joined.as_slice()), wanted);
    Ok(())
}
