ghost use Rattle.std.specs.Prelude.{◌≡◌, ◌<◌, ◌≤◌, ◌-◌, None, IfOk, IfSome, IfNone, length};
ghost use Rattle.std.specs.List.{list_all};
ghost use Rattle.spg_script.specs.Quoted.{hex_of, is_plain, escaped, first_byte};
ghost use Rattle.spg_script.specs.Printing.{plain_before};
ghost use Rattle.spg_script.specs.Reading.{ReadsOn, told, now_of, after_quote, text_of, quoted_of, whole_text_of};

use spg_base::{Bytes, Memory};
use spg_radix::ByteText;
use std::alloc::Global;

/// The greatest number of bytes of a text.
const LONGEST: usize = 3900;

/// How many bytes are looked at together.
const TOGETHER: usize = 16;

/// The value of a hexadecimal digit of either case.
fn hex(b: u8) -> Option<u8>
    ensures value { result ≡ hex_of b }
    ensures small { IfSome result (λ n. n < 16) }
{
    if b'0' <= b && b <= b'9' {
        Some(b - 48)
    } else if b'a' <= b && b <= b'f' {
        Some(b - 87)
    } else if b'A' <= b && b <= b'F' {
        Some(b - 55)
    } else {
        None
    }
}

/// Whether a byte of a text may stand for itself.
pub fn is_plain(b: u8) -> bool
    ensures { result ≡ is_plain b }
{
    b >= 32 && b != b'"' && b != b'\\' && b != 127
}

/// The byte that is spelled behind a backslash, and what follows it.
fn escaped(bytes: &[u8]) -> Option<(u8, &[u8])>
    ensures { told result ≡ escaped bytes.now }
{
    match bytes {
        [b'x', high, low, more @ ..] => {
            let high = hex(*high)?;
            let low = hex(*low)?;
            Some((high * 16 + low, more))
        }
        _ => None,
    }
}

/// The byte that is spelled first, and what follows it.
fn first_byte(bytes: &[u8]) -> Option<(u8, &[u8])>
    ensures { told result ≡ first_byte bytes.now }
{
    match bytes {
        [] => None,
        [b'\\', more @ ..] => escaped(more),
        [b, more @ ..] => if is_plain(*b) { Some((*b, more)) } else { None },
    }
}

/// What follows a quote, where the bytes begin with one.
fn after_quote(bytes: &[u8]) -> Option<&[u8]>
    ensures { now_of result ≡ after_quote bytes.now }
{
    match bytes {
        [] => None,
        [b, more @ ..] => if *b == b'"' { Some(more) } else { None },
    }
}

/// Whether each of the bytes may stand for itself. All are looked at, so that the processor may look
/// at many at once.
#[inline(always)]
fn are_plain(bytes: &[u8]) -> bool
    ensures { result ≡ list_all is_plain bytes.now }
{
    let mut plain = true;
    for b in bytes {
        plain &= is_plain(*b);
    }
    plain
}

/// How many bytes stand before the first that may not stand for itself.
pub fn plain_before(bytes: &[u8]) -> usize
    ensures value { result ≡ plain_before bytes.now }
    ensures within { result ≤ length bytes.now }
{
    let mut at = 0;
    while bytes.len() - at >= TOGETHER && are_plain(&bytes[at..at + TOGETHER]) {
        at += TOGETHER;
    }
    while at < bytes.len() && is_plain(bytes[at]) {
        at += 1;
    }
    at
}

/// Adds the bytes up to the first that may not stand for itself, and gives what follows them. None
/// where the text would have more than 3,900 bytes.
fn push_plain<'a>(text: &mut Bytes, bytes: &'a [u8]) -> Result<Option<&'a [u8]>, Memory>
    requires { length text.old ≤ 3900 }
    ensures some { IfOk result (λ found. IfSome found (λ rest. ReadsOn text.old bytes.now text.new rest.now)) }
    ensures none { IfOk result (λ found. IfNone found (text_of (3901 - length text.old) bytes.now ≡ None)) }
{
    let plain = plain_before(bytes);
    if plain > LONGEST - text.len() {
        return Ok(None);
    }
    text.extend(&bytes[..plain])?;
    Ok(Some(&bytes[plain..]))
}

/// The text of at most 3,900 bytes that is spelled up to a quote, and what is left behind that.
fn text(alloc: Global, bytes: &[u8]) -> Result<Option<(ByteText, &[u8])>, Memory>
    ensures { IfOk result (λ found. told found ≡ text_of 3901 bytes.now) }
{
    let mut text = Bytes::new(alloc);
    let mut rest = bytes;
    while text.len() <= LONGEST {
        let Some(next) = push_plain(&mut text, rest)? else {
            return Ok(None);
        };
        match after_quote(next) {
            Some(left) => return Ok(Some((ByteText::of_short(text), left))),
            None => match first_byte(next) {
                Some((byte, more)) => {
                    text.push(byte)?;
                    rest = more;
                }
                None => return Ok(None),
            },
        }
    }
    Ok(None)
}

/// The text of at most 3,900 bytes that stands between quotes, and what is left behind them.
#[tactic(auto, unfolding(crate::specs::Reading::quoted_of))]
pub fn quoted_text(alloc: Global, bytes: &[u8]) -> Result<Option<(ByteText, &[u8])>, Memory>
    ensures { IfOk result (λ found. told found ≡ quoted_of bytes.now) }
{
    match after_quote(bytes) {
        Some(inner) => text(alloc, inner),
        None => Ok(None),
    }
}

/// The text that the bytes spell, with nothing behind its quotes.
#[tactic(auto, unfolding(crate::specs::Reading::whole_text_of))]
pub fn whole_text(alloc: Global, bytes: &[u8]) -> Result<Option<ByteText>, Memory>
    ensures { IfOk result (λ found. found ≡ whole_text_of bytes.now) }
{
    match quoted_text(alloc, bytes) {
        Ok(Some((text, left))) => {
            if left.is_empty() {
                Ok(Some(text))
            } else {
                Ok(None)
            }
        }
        Ok(None) => Ok(None),
        Err(Memory) => Err(Memory),
    }
}
