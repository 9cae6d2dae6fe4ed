ghost use Rattle.std.specs.Prelude.{◌≡◌, map, string_bytes};
ghost use Rattle.spg_words.specs.Reading.{is_plain, nothing, held, held_in, with_plain, with_option, ready, with_value, with_sought, with_word, step, taken, taken_in, sought_in, read, behind};

use crate::option_name::{OptionName, Setting, option_in};

/// The words behind the name of a command, taken apart.
#[derive(Clone, Copy)]
pub struct Words<'a> {
    /// The words that are no option, of which no command takes more than two.
    pub first: Option<&'a [u8]>,
    pub second: Option<&'a [u8]>,
    /// The value of each option.
    pub limit: Option<&'a [u8]>,
    pub lanes: Option<&'a [u8]>,
    pub class: Option<&'a [u8]>,
    pub from: Option<&'a [u8]>,
    pub workers: Option<&'a [u8]>,
}

/// The words that were read so far.
#[derive(Clone, Copy)]
pub struct Reader<'a> {
    pub words: Words<'a>,
    /// The option whose value is the next word.
    pub awaited: Option<OptionName>,
}

/// Whether a word does not begin with `-`.
fn is_plain(word: &[u8]) -> bool
    ensures { result ≡ is_plain word.now }
{
    match word {
        [] => true,
        [first, ..] => *first != b'-',
    }
}

impl<'a> Words<'a> {
    /// No words.
    fn nothing() -> Words<'a>
        ensures { held result ≡ nothing }
    {
        Words {
            first: None,
            second: None,
            limit: None,
            lanes: None,
            class: None,
            from: None,
            workers: None,
        }
    }

    /// One more word that is no option.
    fn with_plain(self, word: &'a [u8]) -> Option<Words<'a>>
        ensures { held_in result ≡ with_plain (held self.entry) word.now }
    {
        match (self.first, self.second) {
            (None, None) => Some(Words {
                first: Some(word),
                ..self
            }),
            (Some(_), None) => Some(Words {
                second: Some(word),
                ..self
            }),
            (_, Some(_)) => None,
        }
    }

    /// One more option, with its value.
    fn with_option(self, name: OptionName, value: &'a [u8]) -> Option<Words<'a>>
        ensures { held_in result ≡ with_option (held self.entry) name value.now }
    {
        match name {
            OptionName::Limit => match self.limit {
                None => Some(Words {
                    limit: Some(value),
                    ..self
                }),
                Some(_) => None,
            },
            OptionName::Lanes => match self.lanes {
                None => Some(Words {
                    lanes: Some(value),
                    ..self
                }),
                Some(_) => None,
            },
            OptionName::Class => match self.class {
                None => Some(Words {
                    class: Some(value),
                    ..self
                }),
                Some(_) => None,
            },
            OptionName::From => match self.from {
                None => Some(Words {
                    from: Some(value),
                    ..self
                }),
                Some(_) => None,
            },
            OptionName::Workers => match self.workers {
                None => Some(Words {
                    workers: Some(value),
                    ..self
                }),
                Some(_) => None,
            },
        }
    }
}

/// The reader after a word that completes what these words hold, or none where they hold it not.
fn ready(words: Option<Words<'_>>) -> Option<Reader<'_>>
    ensures { taken_in result ≡ ready (held_in words.entry) }
{
    match words {
        Some(words) => Some(Reader {
            words,
            awaited: None,
        }),
        None => None,
    }
}

impl<'a> Reader<'a> {
    /// One more option and its value, which does not begin with `-`.
    fn with_value(self, name: OptionName, value: &'a [u8]) -> Option<Reader<'a>>
        ensures { taken_in result ≡ with_value (held self.entry.words) name value.now }
    {
        if is_plain(value) {
            ready(self.words.with_option(name, value))
        } else {
            None
        }
    }

    /// One more word that begins with `-`.
    fn with_setting(self, setting: Option<Setting<'a>>) -> Option<Reader<'a>>
        ensures { taken_in result ≡ with_sought (held self.entry.words) (sought_in setting.entry) }
    {
        match setting {
            Some(Setting::Awaits(name)) => Some(Reader {
                awaited: Some(name),
                ..self
            }),
            Some(Setting::Has(name, value)) => self.with_value(name, value),
            None => None,
        }
    }

    /// One more word, where no value is awaited.
    fn with_word(self, word: &'a [u8]) -> Option<Reader<'a>>
        ensures { taken_in result ≡ with_word (held self.entry.words) word.now }
    {
        if is_plain(word) {
            ready(self.words.with_plain(word))
        } else {
            self.with_setting(option_in(word))
        }
    }

    /// One more word.
    fn step(self, word: &'a [u8]) -> Option<Reader<'a>>
        ensures { taken_in result ≡ step (taken self.entry) word.now }
    {
        match self.awaited {
            None => self.with_word(word),
            Some(name) => self.with_value(name, word),
        }
    }
}

/// Words taken apart. None where one begins with `-` and is neither `--x` nor `--x=VALUE` of an option
/// that some command has, where an option lacks its value or comes twice, and where more than two words
/// are no option.
fn take_apart(words: &[String]) -> Option<Words<'_>>
    ensures { held_in result ≡ read nothing (map string_bytes words.now) }
{
    let mut reader = Reader {
        words: Words::nothing(),
        awaited: None,
    };
    for word in words {
        match reader.step(word.as_bytes()) {
            Some(next) => reader = next,
            None => return None,
        }
    }
    match reader.awaited {
        None => Some(reader.words),
        Some(_) => None,
    }
}

/// The words behind the name of this command, taken apart.
pub fn words_behind<'a>(name: &[u8], words: &'a [String]) -> Option<Words<'a>>
    ensures { held_in result ≡ behind name.now (map string_bytes words.now) }
{
    match words {
        [command, rest @ ..] if command.as_bytes() == name => take_apart(rest),
        _ => None,
    }
}
