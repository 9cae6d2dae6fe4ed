ghost use Rattle.std.specs.Prelude.{◌≡◌};
ghost use Rattle.std.specs.List.{list_all};
ghost use Rattle.spg_io.specs.Names.{is_name, is_first_byte, is_name_byte};

/// The greatest length of a name.
pub(crate) const LONGEST_NAME: usize = 64;

/// Whether the text is the name of an image: 1 to 64 of `a` to `z`, `0` to `9`, `_`, `-` and `.`, the
/// first a letter, a digit or `_`.
pub fn is_name(name: &str) -> bool
    ensures { result ≡ is_name name.now }
{
    let Some((first, rest)) = name.as_bytes().split_first() else {
        return false;
    };
    is_first_byte(*first) && are_name_bytes(rest) && rest.len() < LONGEST_NAME
}

/// Whether all of these bytes may stand in a name.
fn are_name_bytes(bytes: &[u8]) -> bool
    ensures { result ≡ list_all is_name_byte bytes.now }
{
    bytes.iter().all(|byte| is_name_byte(*byte))
}

/// Whether a name may begin with the byte.
fn is_first_byte(byte: u8) -> bool
    ensures { result ≡ is_first_byte byte }
{
    byte.is_ascii_lowercase() || byte.is_ascii_digit() || byte == b'_'
}

/// Whether the byte may stand in a name.
fn is_name_byte(byte: u8) -> bool
    ensures { result ≡ is_name_byte byte }
{
    is_first_byte(byte) || byte == b'-' || byte == b'.'
}
