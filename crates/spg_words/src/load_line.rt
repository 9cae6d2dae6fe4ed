ghost use Rattle.std.specs.Prelude.{◌≡◌, ◌≢◌, IfSome, map, string_bytes};
ghost use Rattle.spg_script.specs.declared.class_name.ClassName.TheVariants as ClassName;
ghost use Rattle.spg_words.specs.Lines.{IsLoad};
ghost use Rattle.spg_words.specs.Reading.{held, word_in};
ghost use Rattle.spg_words.specs.Asked.{class_named, class_in, lanes_in, checked, load_in, load_of};

use crate::load::Load;
use crate::words::{Words, words_behind};
use spg_script::{ClassName, MOST_LOAD_LANES, MOST_ROWS, MOST_SEED, number};

/// How many lanes insert where the words name no number.
const USUAL_LANES: u32 = 4;

/// The class of this name. No load is of ranges.
fn class_named(word: &[u8]) -> Option<ClassName>
    ensures value { result ≡ class_named word.now }
    ensures no_ranges { IfSome result (λ class. class ≢ ClassName.Range) }
{
    if word == b"quad".as_slice() {
        Some(ClassName::Quad)
    } else if word == b"kd".as_slice() {
        Some(ClassName::Kd)
    } else if word == b"radix".as_slice() {
        Some(ClassName::Radix)
    } else {
        None
    }
}

/// The class that an option names, or points in a quad tree.
fn class_in(option: Option<&[u8]>) -> Option<ClassName>
    ensures value { result ≡ class_in (word_in option.entry) }
    ensures no_ranges { IfSome result (λ class. class ≢ ClassName.Range) }
{
    match option {
        Some(word) => class_named(word),
        None => Some(ClassName::Quad),
    }
}

/// How many lanes an option asks for, or the usual number.
fn lanes_in(option: Option<&[u8]>) -> Option<u32>
    ensures { result ≡ lanes_in (word_in option.entry) }
{
    match option {
        Some(word) => number(word),
        None => Some(USUAL_LANES),
    }
}

/// The load, where its numbers are in range.
fn checked(load: Load) -> Option<Load>
    requires { load.class ≢ ClassName.Range }
    ensures value { result ≡ checked load }
    ensures in_range { IfSome result (λ load. IsLoad load) }
{
    let rows = 1 <= load.count && load.count <= MOST_ROWS && load.seed <= MOST_SEED;
    let lanes = 1 <= load.lanes && load.lanes <= u32::from(MOST_LOAD_LANES);
    if rows && lanes { Some(load) } else { None }
}

/// The load that the words behind `gen` ask for.
fn load_in(words: Words<'_>) -> Option<Load>
    ensures value { result ≡ load_in (held words.entry) }
    ensures in_range { IfSome result (λ load. IsLoad load) }
{
    match (
        words.first,
        words.second,
        words.limit,
        words.from,
        words.workers,
    ) {
        (Some(count), Some(seed), None, None, None) => checked(Load {
            count: number(count)?,
            seed: number(seed)?,
            lanes: lanes_in(words.lanes)?,
            class: class_in(words.class)?,
        }),
        _ => None,
    }
}

/// The load that a line of `gen` asks for: the number of rows and the seed, with the options `--lanes`
/// and `--class`. None exactly where the words are no such line.
pub fn load_of(words: &[String]) -> Option<Load>
    ensures value { result ≡ load_of (map string_bytes words.now) }
    ensures in_range { IfSome result (λ load. IsLoad load) }
{
    match words_behind(b"gen", words) {
        Some(words) => load_in(words),
        None => None,
    }
}
