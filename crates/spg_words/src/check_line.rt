ghost use Rattle.std.specs.Prelude.{◌≡◌, map, string_bytes};
ghost use Rattle.spg_words.specs.Reading.{held, word_in};
ghost use Rattle.spg_words.specs.Asked.{image_name, name_told, name_of, checked_in, check_of};

use crate::words::{Words, words_behind};
use spg_io::is_name;
use std::str;

/// The name of an image that a word spells.
pub(crate) fn image_name(word: &[u8]) -> Option<&str>
    ensures { name_told result ≡ image_name word.now }
{
    match str::from_utf8(word) {
        Ok(name) if is_name(name) => Some(name),
        _ => None,
    }
}

/// The name of an image that the first word spells, where there is one.
pub(crate) fn name_in(word: Option<&[u8]>) -> Option<&str>
    ensures { name_told result ≡ name_of (word_in word.entry) }
{
    match word {
        Some(word) => image_name(word),
        None => None,
    }
}

/// The name that the words behind `check` ask for.
fn checked_in(words: Words<'_>) -> Option<&str>
    ensures { name_told result ≡ checked_in (held words.entry) }
{
    let run_options = words.limit.is_some() || words.from.is_some();
    let others = words.lanes.is_some() || words.class.is_some() || words.workers.is_some();
    if words.second.is_some() || run_options || others {
        return None;
    }
    name_in(words.first)
}

/// The name of the image that a line of `check` asks for. None exactly where the words are no such line.
pub fn check_of(words: &[String]) -> Option<&str>
    ensures { name_told result ≡ check_of (map string_bytes words.now) }
{
    match words_behind(b"check", words) {
        Some(words) => checked_in(words),
        None => None,
    }
}
