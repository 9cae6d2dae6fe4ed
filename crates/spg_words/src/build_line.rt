ghost use Rattle.std.specs.Prelude.{◌≡◌, ◌≤◌, IfSome, map, string_bytes};
ghost use Rattle.spg_words.specs.Numbers.{most_workers};
ghost use Rattle.spg_words.specs.Reading.{held, word_in};
ghost use Rattle.spg_words.specs.Asked.{worker_count, workers_in, with_workers, build_in, build_of, build_told};

use crate::check_line::name_in;
use crate::words::{Words, words_behind};
use spg_script::number;

/// How many workers build an index at most.
const MOST_WORKERS: u32 = 16;

/// How many workers build an index where the words name no number.
const USUAL_WORKERS: u32 = 4;

/// The number of workers that a word spells.
fn worker_count(word: &[u8]) -> Option<u32>
    ensures value { result ≡ worker_count word.now }
    ensures in_range { IfSome result (λ n. (1 ≤ n) × (n ≤ most_workers)) }
{
    let count = number(word)?;
    if 1 <= count && count <= MOST_WORKERS {
        Some(count)
    } else {
        None
    }
}

/// The number of workers that an option names, or the usual one.
fn workers_in(option: Option<&[u8]>) -> Option<u32>
    ensures value { result ≡ workers_in (word_in option.entry) }
    ensures in_range { IfSome result (λ n. (1 ≤ n) × (n ≤ most_workers)) }
{
    match option {
        Some(word) => worker_count(word),
        None => Some(USUAL_WORKERS),
    }
}

/// What a line of `build` asks for.
#[derive(Clone, Copy, Debug, PartialEq, Eq)]
pub struct BuildLine<'a> {
    /// The name of the image.
    pub name: &'a str,
    /// How many workers build it, 1 to 16.
    pub workers: u32,
}

/// What is asked for with this name, and with the option `--workers`.
fn with_workers<'a>(name: &'a str, option: Option<&[u8]>) -> Option<BuildLine<'a>>
    ensures value { build_told result ≡ with_workers name.now (word_in option.entry) }
    ensures in_range { IfSome result (λ line. (1 ≤ line.workers) × (line.workers ≤ most_workers)) }
{
    let workers = workers_in(option)?;
    Some(BuildLine { name, workers })
}

/// What the words behind `build` ask for.
fn build_in(words: Words<'_>) -> Option<BuildLine<'_>>
    ensures value { build_told result ≡ build_in (held words.entry) }
    ensures in_range { IfSome result (λ line. (1 ≤ line.workers) × (line.workers ≤ most_workers)) }
{
    let run_options = words.limit.is_some() || words.from.is_some();
    let load_options = words.lanes.is_some() || words.class.is_some();
    if words.second.is_some() || run_options || load_options {
        return None;
    }
    match name_in(words.first) {
        Some(name) => with_workers(name, words.workers),
        None => None,
    }
}

/// What a line of `build` asks for: the name of an image, and a number of workers, that of the option
/// `--workers`, 1 to 16, or 4. None exactly where the words are no such line.
pub fn build_of(words: &[String]) -> Option<BuildLine<'_>>
    ensures value { build_told result ≡ build_of (map string_bytes words.now) }
    ensures in_range { IfSome result (λ line. (1 ≤ line.workers) × (line.workers ≤ most_workers)) }
{
    match words_behind(b"build", words) {
        Some(words) => build_in(words),
        None => None,
    }
}
