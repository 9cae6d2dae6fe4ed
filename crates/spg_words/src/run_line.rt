ghost use Rattle.std.specs.Prelude.{◌≡◌, ◌≤◌, IfSome, map, string_bytes};
ghost use Rattle.spg_words.specs.Numbers.{fewest_pages, most_pages, usual_pages};
ghost use Rattle.spg_words.specs.Reading.{held, word_in};
ghost use Rattle.spg_words.specs.Asked.{page_limit, limit_in, with_name, run_in, run_of, run_told};

use crate::check_line::image_name;
use crate::words::{Words, words_behind};
use spg_script::number;

/// The least number of pages that an index may be limited to.
const FEWEST_PAGES: u32 = 4;

/// The greatest number of pages that an index may be limited to: 1 GiB.
const MOST_PAGES: u32 = 131_072;

/// The limit where the words name none: 512 MiB.
pub const USUAL_PAGES: u32 = 65_536;

/// The limit that a word spells.
fn page_limit(word: &[u8]) -> Option<u32>
    ensures value { result ≡ page_limit word.now }
    ensures in_range { IfSome result (λ n. (fewest_pages ≤ n) × (n ≤ most_pages)) }
{
    let limit = number(word)?;
    if FEWEST_PAGES <= limit && limit <= MOST_PAGES {
        Some(limit)
    } else {
        None
    }
}

/// The limit that an option names, or the usual one.
pub(crate) fn limit_in(option: Option<&[u8]>) -> Option<u32>
    ensures value { result ≡ limit_in (word_in option.entry) }
    ensures in_range { IfSome result (λ n. (fewest_pages ≤ n) × (n ≤ most_pages)) }
{
    match option {
        Some(word) => page_limit(word),
        None => Some(USUAL_PAGES),
    }
}

/// What a line of `run` asks for.
#[derive(Clone, Copy, Debug, PartialEq, Eq)]
pub struct RunLine<'a> {
    /// The limit of pages, 4 to 131,072.
    pub limit: u32,
    /// The name of the image that the run goes on from.
    pub from: Option<&'a str>,
}

/// What is asked for with this limit, and with the option `--from`.
fn with_name(limit: u32, option: Option<&[u8]>) -> Option<RunLine<'_>>
    ensures value { run_told result ≡ with_name limit (word_in option.entry) }
    ensures limit { IfSome result (λ line. line.limit ≡ limit) }
{
    match option {
        None => Some(RunLine { limit, from: None }),
        Some(word) => match image_name(word) {
            Some(name) => Some(RunLine {
                limit,
                from: Some(name),
            }),
            None => None,
        },
    }
}

/// What the words behind `run` ask for.
fn run_in(words: Words<'_>) -> Option<RunLine<'_>>
    ensures value { run_told result ≡ run_in (held words.entry) }
    ensures in_range { IfSome result (λ line. (fewest_pages ≤ line.limit) × (line.limit ≤ most_pages)) }
{
    let others = words.lanes.is_some() || words.class.is_some() || words.workers.is_some();
    if words.first.is_some() || others {
        return None;
    }
    with_name(limit_in(words.limit)?, words.from)
}

/// What a line of `run` asks for: a limit of pages, that of the option `--limit`, 4 to 131,072, or
/// 65,536, and with the option `--from` the name of an image. None exactly where the words are no such
/// line.
pub fn run_of(words: &[String]) -> Option<RunLine<'_>>
    ensures value { run_told result ≡ run_of (map string_bytes words.now) }
    ensures in_range { IfSome result (λ line. (fewest_pages ≤ line.limit) × (line.limit ≤ most_pages)) }
{
    match words_behind(b"run", words) {
        Some(words) => run_in(words),
        None => None,
    }
}
