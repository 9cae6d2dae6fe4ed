ghost use Rattle.std.specs.Prelude.{◌≡◌, IfOk};
ghost use Rattle.spg_script.specs.Reading.{value_behind, point_value_of, text_value_of, any_key_of, key_of};

use crate::any_key::AnyKey;
use crate::bytes::{behind, len_before_far};
use crate::key_form::KeyForm;
use crate::numbers::{point, wide_number};
use crate::ranges::range;
use crate::texts::{quoted_text, whole_text};
use spg_base::Memory;
use std::alloc::Global;

/// The number beside a key, which stands behind it.
#[tactic(auto, unfolding(crate::specs::Reading::value_behind))]
fn value(bytes: &[u8]) -> Option<u64>
    ensures { result ≡ value_behind bytes.now }
{
    wide_number(behind(bytes, b" value ")?)
}

/// The point and the number beside it.
#[tactic(auto, unfolding(crate::specs::Reading::point_value_of))]
fn point_value(bytes: &[u8]) -> Option<AnyKey>
    ensures { result ≡ point_value_of bytes.now }
{
    let at = len_before_far(bytes, b' ');
    let point = point(&bytes[..at])?;
    let value = value(&bytes[at..])?;
    Some(AnyKey::PointValue { point, value })
}

/// The text and the number beside it.
#[tactic(auto, unfolding(crate::specs::Reading::text_value_of))]
fn text_value(alloc: Global, bytes: &[u8]) -> Result<Option<AnyKey>, Memory>
    ensures { IfOk result (λ found. found ≡ text_value_of bytes.now) }
{
    match quoted_text(alloc, bytes)? {
        Some((text, left)) => match value(left) {
            Some(value) => Ok(Some(AnyKey::TextValue { text, value })),
            None => Ok(None),
        },
        None => Ok(None),
    }
}

/// The key of a form.
#[tactic(auto, unfolding(crate::specs::Reading::any_key_of))]
fn any_key(alloc: Global, keys: KeyForm, bytes: &[u8]) -> Result<Option<AnyKey>, Memory>
    ensures { IfOk result (λ found. found ≡ any_key_of keys bytes.now) }
{
    match keys {
        KeyForm::Point => Ok(point(bytes).map(AnyKey::Point)),
        KeyForm::Text => Ok(whole_text(alloc, bytes)?.map(AnyKey::Text)),
        KeyForm::PointValue => Ok(point_value(bytes)),
        KeyForm::TextValue => text_value(alloc, bytes),
        KeyForm::Range => Ok(range(bytes).map(AnyKey::Range)),
    }
}

/// The key of a form that the bytes spell, or a null.
#[tactic(auto, unfolding(crate::specs::Reading::key_of))]
pub fn key(alloc: Global, keys: KeyForm, bytes: &[u8]) -> Result<Option<Option<AnyKey>>, Memory>
    ensures { IfOk result (λ found. found ≡ key_of keys bytes.now) }
{
    if bytes == b"null".as_slice() {
        return Ok(Some(None));
    }
    match any_key(alloc, keys, bytes)? {
        Some(key) => Ok(Some(Some(key))),
        None => Ok(None),
    }
}
