ghost use Rattle.std.specs.Prelude.{◌≡◌, ◌++◌, ℕ, Option, None, true, false, IfOk, OnOk};
ghost use Rattle.spg_script.specs.declared.any_key.AnyKey.TheVariants.{Text};
ghost use Rattle.spg_script.specs.declared.key_form.KeyForm.{KeyForm};
ghost use Rattle.spg_script.specs.Speech.{Speech, SpeaksAsPrinted, NamesKeys, Knows, HasNoValues, takes_value, with_value, point_in, point_cond_in, text_in, text_cond_in};

use crate::any_cond::AnyCond;
use crate::any_key::AnyKey;
use crate::numerals::{push_point, push_range, push_value, push_value_on};
use crate::spelling::{push_cond, push_quoted, push_range_cond, push_text_cond};
use spg_base::{Bytes, Memory, Point, PointCond, Same};
use spg_kd::Kd;
use spg_opclass::{OpClass, TakesValue, With, WithKey};
use spg_quad::Quad;
use spg_radix::{ByteText, Radix, TextCond};
use spg_range::{Range32, RangeCond, Ranges};
use std::alloc::Global;

/// A class whose keys and conditions scripts can name, and texts can tell.
pub trait Spoken: OpClass {
    ghost speech: { Speech Self.Key Self.Cond };

    /// It spells its keys and conditions as scripts are printed.
    ghost speaks: { SpeaksAsPrinted speech };

    /// What its keys and conditions are.
    ghost keys: { KeyForm };

    /// The class's key for a script's. None exactly where the class has no such key.
    fn key_in(&self, key: &AnyKey) -> Result<Option<Self::Key>, Memory>
        ensures { IfOk result (λ found. found ≡ speech.key_in key.now) };

    /// The class's key for a text of a script. None exactly where the class has no such key.
    fn text_key_in(&self, text: &ByteText) -> Result<Option<Self::Key>, Memory>
        ensures { IfOk result (λ found. found ≡ speech.key_in (Text text.now)) }
    {
        self.key_in(&AnyKey::Text(text.copy()?))
    }

    /// The class's condition for a script's. None exactly where the class has no such condition.
    fn cond_in(&self, cond: &AnyCond) -> Result<Option<Self::Cond>, Memory>
        ensures { IfOk result (λ found. found ≡ speech.cond_in cond.now) };

    /// The text of a key.
    fn key_text(&self, alloc: Global, key: &Self::Key) -> Result<Bytes, Memory>
        ensures { IfOk result (λ text. text ≡ speech.key_text key.now) };

    /// Adds the text of a key to a line.
    fn push_key_text(
        &self,
        alloc: Global,
        line: &mut Vec<u8>,
        key: &Self::Key,
    ) -> Result<(), Memory>
        ensures { OnOk result (line.new.items ≡ line.old.items ++ speech.key_text key.now) }
    {
        let text = self.key_text(alloc, key)?;
        line.extend_from_slice(text.as_slice())?;
        Ok(())
    }

    /// The text of a condition.
    fn cond_text(&self, alloc: Global, cond: &Self::Cond) -> Result<Bytes, Memory>
        ensures { IfOk result (λ text. text ≡ speech.cond_text cond.now) };

    /// The number beside a key, where the class has such.
    fn value_of(&self, key: &Self::Key) -> Option<u64>
        ensures { result ≡ speech.value_of key.now };

    /// Whether its keys may have a number beside them. Where it is false, none has.
    fn valued(&self) -> bool
        ensures { result ≡ false → HasNoValues speech };

    /// Scripts name each of its keys.
    ghost names: { NamesKeys keys Self.OpClass.meaning.is_key speech };

    /// It has each key and condition that scripts of such keys name.
    ghost knows: { Knows keys speech };
}

/// A class whose keys are points or texts, without a number. So scripts can name a number beside each.
pub trait SpokenAlone: Spoken + TakesValue {
    ghost alone: { takes_value Self.Spoken.keys ≡ true };
}

impl SpokenAlone for Quad {
    ghost use Rattle.std.specs.Prelude.{refl};

    ghost alone = { refl };
}

impl SpokenAlone for Kd {
    ghost use Rattle.std.specs.Prelude.{refl};

    ghost alone = { refl };
}

impl SpokenAlone for Radix {
    ghost use Rattle.std.specs.Prelude.{refl};

    ghost alone = { refl };
}

/// The point that a key is. None exactly where it is none.
fn point_in(key: &AnyKey) -> Option<Point>
    ensures { result ≡ point_in key.now }
{
    match key {
        AnyKey::Point(point) => Some(*point),
        _ => None,
    }
}

/// The condition on points that a condition is. None exactly where it is none.
fn point_cond_in(cond: &AnyCond) -> Option<PointCond>
    ensures { result ≡ point_cond_in cond.now }
{
    match cond {
        AnyCond::Point(cond) => Some(*cond),
        _ => None,
    }
}

impl Spoken for Quad {
    ghost use Rattle.spg_script.specs.declared.key_form.KeyForm.TheVariants as KeyForm;
    ghost use Rattle.spg_script.specs.Speech.{point_speech};
    ghost use Rattle.spg_script.specs.Speaking.{point_speaks, point_names, point_knows};

    ghost speech = { point_speech };

    ghost speaks = { point_speaks };

    ghost keys = { KeyForm.Point };

    ghost names = { point_names };

    ghost knows = { point_knows };

    fn key_in(&self, key: &AnyKey) -> Result<Option<Point>, Memory> {
        Ok(point_in(key))
    }

    fn cond_in(&self, cond: &AnyCond) -> Result<Option<PointCond>, Memory> {
        Ok(point_cond_in(cond))
    }

    fn key_text(&self, alloc: Global, key: &Point) -> Result<Bytes, Memory> {
        let mut text = Bytes::new(alloc);
        push_point(&mut text, *key)?;
        Ok(text)
    }

    fn cond_text(&self, alloc: Global, cond: &PointCond) -> Result<Bytes, Memory> {
        let mut text = Bytes::new(alloc);
        push_cond(&mut text, cond)?;
        Ok(text)
    }

    fn value_of(&self, _key: &Point) -> Option<u64> {
        None
    }

    fn valued(&self) -> bool {
        false
    }
}

impl Spoken for Kd {
    ghost use Rattle.spg_script.specs.declared.key_form.KeyForm.TheVariants as KeyForm;
    ghost use Rattle.spg_script.specs.Speech.{point_speech};
    ghost use Rattle.spg_script.specs.Speaking.{point_speaks, point_names, point_knows};

    ghost speech = { point_speech };

    ghost speaks = { point_speaks };

    ghost keys = { KeyForm.Point };

    ghost names = { point_names };

    ghost knows = { point_knows };

    fn key_in(&self, key: &AnyKey) -> Result<Option<Point>, Memory> {
        Ok(point_in(key))
    }

    fn cond_in(&self, cond: &AnyCond) -> Result<Option<PointCond>, Memory> {
        Ok(point_cond_in(cond))
    }

    fn key_text(&self, alloc: Global, key: &Point) -> Result<Bytes, Memory> {
        let mut text = Bytes::new(alloc);
        push_point(&mut text, *key)?;
        Ok(text)
    }

    fn cond_text(&self, alloc: Global, cond: &PointCond) -> Result<Bytes, Memory> {
        let mut text = Bytes::new(alloc);
        push_cond(&mut text, cond)?;
        Ok(text)
    }

    fn value_of(&self, _key: &Point) -> Option<u64> {
        None
    }

    fn valued(&self) -> bool {
        false
    }
}

impl Spoken for Radix {
    ghost use Rattle.spg_script.specs.declared.key_form.KeyForm.TheVariants as KeyForm;
    ghost use Rattle.spg_script.specs.Speech.{text_speech};
    ghost use Rattle.spg_script.specs.Speaking.{text_speaks, text_names, text_knows};

    ghost speech = { text_speech };

    ghost speaks = { text_speaks };

    ghost keys = { KeyForm.Text };

    ghost names = { text_names };

    ghost knows = { text_knows };

    fn key_in(&self, key: &AnyKey) -> Result<Option<ByteText>, Memory> {
        match key {
            AnyKey::Text(text) => Ok(Some(text.copy()?)),
            _ => Ok(None),
        }
    }

    fn text_key_in(&self, text: &ByteText) -> Result<Option<ByteText>, Memory> {
        Ok(Some(text.copy()?))
    }

    fn cond_in(&self, cond: &AnyCond) -> Result<Option<TextCond>, Memory> {
        match cond {
            AnyCond::Text(cond) => Ok(Some(cond.copy()?)),
            _ => Ok(None),
        }
    }

    fn key_text(&self, alloc: Global, key: &ByteText) -> Result<Bytes, Memory> {
        let mut text = Bytes::new(alloc);
        push_quoted(&mut text, key.as_slice())?;
        Ok(text)
    }

    fn cond_text(&self, alloc: Global, cond: &TextCond) -> Result<Bytes, Memory> {
        let mut text = Bytes::new(alloc);
        push_text_cond(&mut text, cond)?;
        Ok(text)
    }

    fn value_of(&self, _key: &ByteText) -> Option<u64> {
        None
    }

    fn valued(&self) -> bool {
        false
    }
}

impl Spoken for Ranges {
    ghost use Rattle.spg_script.specs.declared.key_form.KeyForm.TheVariants as KeyForm;
    ghost use Rattle.spg_script.specs.Speech.{range_speech};
    ghost use Rattle.spg_script.specs.Speaking.{range_speaks, range_names, range_knows};

    ghost speech = { range_speech };

    ghost speaks = { range_speaks };

    ghost keys = { KeyForm.Range };

    ghost names = { range_names };

    ghost knows = { range_knows };

    fn key_in(&self, key: &AnyKey) -> Result<Option<Range32>, Memory> {
        match key {
            AnyKey::Range(range) => Ok(Some(range.copy()?)),
            _ => Ok(None),
        }
    }

    fn cond_in(&self, cond: &AnyCond) -> Result<Option<RangeCond>, Memory> {
        match cond {
            AnyCond::Range(cond) => Ok(Some(cond.copy()?)),
            _ => Ok(None),
        }
    }

    fn key_text(&self, alloc: Global, key: &Range32) -> Result<Bytes, Memory> {
        let mut text = Bytes::new(alloc);
        push_range(&mut text, key)?;
        Ok(text)
    }

    fn cond_text(&self, alloc: Global, cond: &RangeCond) -> Result<Bytes, Memory> {
        let mut text = Bytes::new(alloc);
        push_range_cond(&mut text, cond)?;
        Ok(text)
    }

    fn value_of(&self, _key: &Range32) -> Option<u64> {
        None
    }

    fn valued(&self) -> bool {
        false
    }
}

/// A key with a number beside it, where there is a key.
fn with_value<K>(key: Option<K>, value: u64) -> Option<WithKey<K>>
    ensures { result ≡ with_value value key }
{
    Some(WithKey { key: key?, value })
}

impl<O: SpokenAlone> Spoken for With<O> {
    ghost use Rattle.spg_script.specs.Speech.{value_form, value_speech};
    ghost use Rattle.spg_script.specs.Speaking.{value_speaks, value_names, value_knows};

    ghost speech = { value_speech O.speech };

    ghost speaks = { value_speaks O.speech O.speaks };

    ghost keys = { value_form O.keys };

    ghost names = { value_names O.keys O.meaning O.speech O.alone O.names };

    ghost knows = { value_knows O.keys O.speech O.alone O.knows };

    fn key_in(&self, key: &AnyKey) -> Result<Option<WithKey<O::Key>>, Memory> {
        match key {
            AnyKey::PointValue { point, value } => {
                Ok(with_value(self.inner.key_in(&AnyKey::Point(*point))?, *value))
            }
            AnyKey::TextValue { text, value } => {
                Ok(with_value(self.inner.text_key_in(text)?, *value))
            }
            _ => Ok(None),
        }
    }

    fn cond_in(&self, cond: &AnyCond) -> Result<Option<O::Cond>, Memory> {
        self.inner.cond_in(cond)
    }

    fn key_text(&self, alloc: Global, key: &WithKey<O::Key>) -> Result<Bytes, Memory> {
        let mut text = self.inner.key_text(alloc, &key.key)?;
        push_value(&mut text, key.value)?;
        Ok(text)
    }

    fn push_key_text(
        &self,
        alloc: Global,
        line: &mut Vec<u8>,
        key: &WithKey<O::Key>,
    ) -> Result<(), Memory> {
        self.inner.push_key_text(alloc, line, &key.key)?;
        push_value_on(line, key.value)
    }

    fn cond_text(&self, alloc: Global, cond: &O::Cond) -> Result<Bytes, Memory> {
        self.inner.cond_text(alloc, cond)
    }

    fn value_of(&self, key: &WithKey<O::Key>) -> Option<u64> {
        Some(key.value)
    }

    fn valued(&self) -> bool {
        true
    }
}
