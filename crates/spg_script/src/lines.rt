ghost use Rattle.std.specs.Prelude.{◌≡◌, ◌<◌, ◌≤◌, ◌∷◌, length};
ghost use Rattle.spg_script.specs.Reading.{len_before};
ghost use Rattle.spg_script.specs.Script.{lines_of, says_something};

use memchr::memchr;

/// How many bytes stand before the first end of a line.
fn line_len(bytes: &[u8]) -> usize
    ensures value { result ≡ len_before 10 bytes.now }
    ensures within { result ≤ length bytes.now }
{
    match memchr(b'\n', bytes) {
        Some(at) => at,
        None => bytes.len(),
    }
}

/// The first line, and the bytes after its end.
pub fn first_line(bytes: &[u8]) -> (&[u8], &[u8])
    requires { 0 < length bytes.now }
    ensures lines { lines_of bytes.now ≡ result.0.now ∷ lines_of result.1.now }
    ensures shorter { length result.1.now < length bytes.now }
{
    let at = line_len(bytes);
    if at < bytes.len() {
        (&bytes[..at], &bytes[at + 1..])
    } else {
        (bytes, &bytes[at..])
    }
}

/// Whether a line says something: it is not empty and does not begin with `#`.
pub fn says_something(line: &[u8]) -> bool
    ensures { result ≡ says_something line.now }
{
    match line {
        [] => false,
        [first, ..] => *first != b'#',
    }
}
