ghost use Rattle.std.specs.Prelude.{◌≡◌};
ghost use Rattle.spg_words.specs.Reading.{sought_in, setting_in, option_in};

/// The options of all commands.
#[derive(Clone, Copy)]
pub enum OptionName {
    Limit,
    Lanes,
    Class,
    From,
    Workers,
}

/// How a word names an option.
#[derive(Clone, Copy)]
pub enum Setting<'a> {
    /// Its value is the next word.
    Awaits(OptionName),
    /// Its value stands behind `=`.
    Has(OptionName, &'a [u8]),
}

/// What stands behind the name of an option.
fn named_by(name: OptionName, behind: &[u8]) -> Option<Setting<'_>>
    ensures { sought_in result ≡ setting_in name behind.now }
{
    match behind {
        [] => Some(Setting::Awaits(name)),
        [b'=', value @ ..] => Some(Setting::Has(name, value)),
        _ => None,
    }
}

/// The option that a word names.
pub fn option_in(word: &[u8]) -> Option<Setting<'_>>
    ensures { sought_in result ≡ option_in word.now }
{
    if word.starts_with(b"--limit") {
        named_by(OptionName::Limit, &word[7..])
    } else if word.starts_with(b"--lanes") {
        named_by(OptionName::Lanes, &word[7..])
    } else if word.starts_with(b"--class") {
        named_by(OptionName::Class, &word[7..])
    } else if word.starts_with(b"--from") {
        named_by(OptionName::From, &word[6..])
    } else if word.starts_with(b"--workers") {
        named_by(OptionName::Workers, &word[9..])
    } else {
        None
    }
}
