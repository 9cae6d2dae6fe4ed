ghost use Rattle.std.specs.Prelude.{◌≡◌, ◌<◌, ◌≤◌, length};
ghost use Rattle.std.specs.List.{list_all};
ghost use Rattle.spg_script.specs.Reading.{is_other, len_before, parts_of, split_at, after, now_of};

/// How many bytes are looked at together.
const TOGETHER: usize = 16;

/// How many bytes stand before the first that is this one.
pub fn len_before(bytes: &[u8], stop: u8) -> usize
    ensures value { result ≡ len_before stop bytes.now }
    ensures within { result ≤ length bytes.now }
{
    for i in 0..bytes.len() {
        if bytes[i] == stop {
            return i;
        }
    }
    bytes.len()
}

/// Whether a byte is another than this one.
#[inline(always)]
fn is_other(byte: u8, stop: u8) -> bool
    ensures { result ≡ is_other stop byte }
{
    byte != stop
}

/// Whether none of the bytes is this one. All are looked at, so that the processor may look at many at
/// once.
#[inline(always)]
fn lack(bytes: &[u8], stop: u8) -> bool
    ensures { result ≡ list_all (is_other stop) bytes.now }
{
    let mut others = true;
    for b in bytes {
        others &= is_other(*b, stop);
    }
    others
}

/// How many bytes stand before the first that is this one, where that is likely to be far.
pub fn len_before_far(bytes: &[u8], stop: u8) -> usize
    ensures value { result ≡ len_before stop bytes.now }
    ensures within { result ≤ length bytes.now }
{
    let mut at = 0;
    while bytes.len() - at >= TOGETHER && lack(&bytes[at..at + TOGETHER], stop) {
        at += TOGETHER;
    }
    while at < bytes.len() && is_other(bytes[at], stop) {
        at += 1;
    }
    at
}

/// The parts before and after the first byte that is this one.
#[tactic(auto, unfolding(crate::specs::Reading::split_at))]
pub fn split(bytes: &[u8], stop: u8) -> Option<(&[u8], &[u8])>
    ensures { parts_of result ≡ split_at stop bytes.now }
{
    let at = len_before(bytes, stop);
    if at < bytes.len() {
        Some((&bytes[..at], &bytes[at + 1..]))
    } else {
        None
    }
}

/// What stands behind this front. None where the bytes do not begin with it.
pub fn behind<'a>(bytes: &'a [u8], front: &[u8]) -> Option<&'a [u8]>
    ensures { now_of result ≡ after front.now bytes.now }
{
    if bytes.starts_with(front) {
        Some(&bytes[front.len()..])
    } else {
        None
    }
}
