ghost use Rattle.std.specs.Prelude.{◌≡◌, ◌≤◌, IfSome, map, string_bytes};
ghost use Rattle.spg_words.specs.Numbers.{fewest_pages, most_pages, most_lag};
ghost use Rattle.spg_words.specs.Reading.{held, word_in};
ghost use Rattle.spg_words.specs.Asked.{lag_named, lag_in, with_limit, standby_in, standby_of};

use crate::run_line::limit_in;
use crate::words::{Words, words_behind};
use spg_script::number;

/// How many records a standby is behind at most.
const MOST_LAG: u32 = 1_000;

/// The lag that a word spells.
fn lag_named(word: &[u8]) -> Option<u32>
    ensures value { result ≡ lag_named word.now }
    ensures in_range { IfSome result (λ n. n ≤ most_lag) }
{
    let lag = number(word)?;
    if lag <= MOST_LAG { Some(lag) } else { None }
}

/// The lag that the first word spells, where there is one.
fn lag_in(word: Option<&[u8]>) -> Option<u32>
    ensures value { result ≡ lag_in (word_in word.entry) }
    ensures in_range { IfSome result (λ n. n ≤ most_lag) }
{
    match word {
        Some(word) => lag_named(word),
        None => None,
    }
}

/// What a line of `standby` asks for.
#[derive(Clone, Copy, Debug, PartialEq, Eq)]
pub struct StandbyLine {
    /// How many records the standby may be behind, 0 to 1,000.
    pub lag: u32,
    /// The limit of pages, 4 to 131,072.
    pub limit: u32,
}

/// What is asked for with this lag, and with the option `--limit`.
fn with_limit(lag: u32, option: Option<&[u8]>) -> Option<StandbyLine>
    ensures value { result ≡ with_limit lag (word_in option.entry) }
    ensures lag { IfSome result (λ line. line.lag ≡ lag) }
    ensures limit { IfSome result (λ line. (fewest_pages ≤ line.limit) × (line.limit ≤ most_pages)) }
{
    let limit = limit_in(option)?;
    Some(StandbyLine { lag, limit })
}

/// What the words behind `standby` ask for.
fn standby_in(words: Words<'_>) -> Option<StandbyLine>
    ensures value { result ≡ standby_in (held words.entry) }
    ensures lag { IfSome result (λ line. line.lag ≤ most_lag) }
    ensures limit { IfSome result (λ line. (fewest_pages ≤ line.limit) × (line.limit ≤ most_pages)) }
{
    let others = words.lanes.is_some() || words.class.is_some() || words.workers.is_some();
    if words.second.is_some() || words.from.is_some() || others {
        return None;
    }
    with_limit(lag_in(words.first)?, words.limit)
}

/// What a line of `standby` asks for: a lag, 0 to 1,000, and a limit of pages, that of the option
/// `--limit`, 4 to 131,072, or 65,536. None exactly where the words are no such line.
pub fn standby_of(words: &[String]) -> Option<StandbyLine>
    ensures value { result ≡ standby_of (map string_bytes words.now) }
    ensures lag { IfSome result (λ line. line.lag ≤ most_lag) }
    ensures limit { IfSome result (λ line. (fewest_pages ≤ line.limit) × (line.limit ≤ most_pages)) }
{
    match words_behind(b"standby", words) {
        Some(words) => standby_in(words),
        None => None,
    }
}
