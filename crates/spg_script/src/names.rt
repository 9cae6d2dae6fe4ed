ghost use Rattle.std.specs.Prelude.{◌≡◌};
ghost use Rattle.std.specs.List.{list_all};
ghost use Rattle.spg_script.specs.Line.{is_first_of_name, is_in_name, is_name};

/// The greatest number of bytes of a name.
const LONGEST: usize = 64;

/// A letter, a digit or `_`.
fn is_first_of_name(b: u8) -> bool
    ensures { result ≡ is_first_of_name b }
{
    (b'a' <= b && b <= b'z') || (b'0' <= b && b <= b'9') || b == b'_'
}

/// A byte that may begin a name, `-` or a dot.
fn is_in_name(b: u8) -> bool
    ensures { result ≡ is_in_name b }
{
    is_first_of_name(b) || b == b'-' || b == b'.'
}

/// Whether each byte may stand in a name.
fn are_in_name(bytes: &[u8]) -> bool
    ensures { result ≡ list_all is_in_name bytes.now }
{
    for b in bytes {
        if !is_in_name(*b) {
            return false;
        }
    }
    true
}

/// Whether the bytes are a name: 1 to 64 of those of names, the first neither `-` nor a dot.
pub fn is_name(bytes: &[u8]) -> bool
    ensures { result ≡ is_name bytes.now }
{
    match bytes {
        [] => false,
        [first, more @ ..] => {
            is_first_of_name(*first) && are_in_name(more) && more.len() < LONGEST
        }
    }
}
