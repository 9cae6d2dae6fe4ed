//! The keys, conditions and numbers of a script, as each class speaks of them.

use crate::scripts::read;
use spg_base::{Bytes, List, Memory};
use spg_kd::Kd;
use spg_opclass::With;
use spg_quad::Quad;
use spg_radix::Radix;
use spg_range::Ranges;
use spg_script::{AnyCond, AnyKey, AnyQuery, Command, PartRef, Spoken};
use std::alloc::Global;
use std::test::Fail;

/// Adds a key as the class spells it, behind a bar.
fn push_key<O: Spoken>(
    alloc: Global,
    class: &O,
    key: &AnyKey,
    text: &mut Bytes,
) -> Result<(), Memory> {
    if let Some(key) = class.key_in(key)? {
        text.push(b'|')?;
        text.extend(class.key_text(alloc, &key)?.as_slice())?;
    }
    Ok(())
}

/// Adds a condition as the class spells it, behind a bar.
fn push_cond<O: Spoken>(
    alloc: Global,
    class: &O,
    cond: &AnyCond,
    text: &mut Bytes,
) -> Result<(), Memory> {
    if let Some(cond) = class.cond_in(cond)? {
        text.push(b'|')?;
        text.extend(class.cond_text(alloc, &cond)?.as_slice())?;
    }
    Ok(())
}

/// Adds the keys and conditions of a command, as the class spells them, each behind a bar.
fn push_spoken<O: Spoken>(
    alloc: Global,
    class: &O,
    command: &Command,
    text: &mut Bytes,
) -> Result<(), Memory> {
    match command {
        Command::Insert { key: Some(key), .. } => push_key(alloc, class, key, text),
        Command::Find {
            query: AnyQuery::Where(conds),
        } => {
            for cond in conds.as_slice() {
                push_cond(alloc, class, cond, text)?;
            }
            Ok(())
        }
        _ => Ok(()),
    }
}

/// The keys and conditions that the class has among those of a script without lanes.
fn spoken<O: Spoken>(alloc: Global, class: &O, bytes: &[u8]) -> Result<Bytes, Memory> {
    let mut text = Bytes::new(alloc);
    if let Ok(script) = read(alloc, bytes) {
        for part in script.parts() {
            if let PartRef::Alone(command) = part.lent() {
                push_spoken(alloc, class, command, &mut text)?;
            }
        }
    }
    Ok(text)
}

/// Whether just that is spoken.
fn says<O: Spoken>(alloc: Global, class: &O, bytes: &[u8], wanted: &[u8]) -> Result<bool, Memory> {
    Ok(spoken(alloc, class, bytes)?.as_slice() == wanted)
}

const POINTS: &[u8] =
    b"class kd\ninsert 1.1 -3,4\ninsert 1.2 null\nfind where left 7 and in 0,1,2,3\nstat\n";

const TEXTS: &[u8] =
    b"class radix\ninsert 1.1 \"a\\x41\\x0A\"\nfind where starts \"b\" and le \"\"\nvacuum\n";

#[test]
fn classes_speak(rt: HostRuntime) -> Result<(), Fail> {
    let alloc = rt.alloc();
    assert!(rt; says(alloc, &Kd, POINTS, b"|-3,4|left 7|in 0,1,2,3")?);
    assert!(rt; says(alloc, &Quad, POINTS, b"|-3,4|left 7|in 0,1,2,3")?);
    assert!(rt; says(alloc, &Radix, TEXTS, b"|\"aA\\x0a\"|starts \"b\"|le \"\"")?);
    assert!(rt; says(alloc, &Quad, TEXTS, b"")? && says(alloc, &Radix, POINTS, b"")?);
    Ok(())
}

const NUMBERED: &[u8] = b"class kd value\ninsert 1.1 -3,4 value 0\nfind where left 7\n";

const NUMBERED_TEXTS: &[u8] =
    b"class radix value\ninsert 1.1 \"\\x41\" value 18446744073709551615\nfind where le \"\"\n";

const RANGES: &[u8] =
    b"class range\ninsert 1.1 empty\ninsert 1.2 [-1,2]\nfind where within [0,0]\n";

/// Whether the classes of points speak of points with numbers, and without them of no key.
fn points_speak(alloc: Global) -> Result<bool, Memory> {
    let of_points: &[u8] = b"|-3,4 value 0|left 7";
    Ok(
        says(alloc, &With { inner: Quad }, NUMBERED, of_points)?
            && says(alloc, &With { inner: Kd }, NUMBERED, of_points)?
            && says(alloc, &Kd, NUMBERED, b"|left 7")?,
    )
}

/// Whether the classes of texts with numbers and of ranges speak of their own.
fn others_speak(alloc: Global) -> Result<bool, Memory> {
    let of_texts: &[u8] = b"|\"A\" value 18446744073709551615|le \"\"";
    let of_ranges: &[u8] = b"|empty|[-1,2]|within [0,0]";
    Ok(
        says(alloc, &With { inner: Radix }, NUMBERED_TEXTS, of_texts)?
            && says(alloc, &Ranges, RANGES, of_ranges)?,
    )
}

/// Whether no class speaks of another's.
fn none_speaks(alloc: Global) -> Result<bool, Memory> {
    Ok(
        says(alloc, &With { inner: Kd }, NUMBERED_TEXTS, b"")?
            && says(alloc, &With { inner: Radix }, NUMBERED, b"")?
            && says(alloc, &With { inner: Kd }, RANGES, b"")?
            && says(alloc, &Ranges, NUMBERED, b"")?,
    )
}

/// The script of a class with numbers beside its keys, or of ranges, is spoken by that class alone.
#[test]
fn classes_speak_of_numbers_and_ranges(rt: HostRuntime) -> Result<(), Fail> {
    assert!(rt; points_speak(rt.alloc())?);
    assert!(rt; others_speak(rt.alloc())?);
    assert!(rt; none_speaks(rt.alloc())?);
    Ok(())
}

/// The numbers beside the keys that a class has among those of a script without lanes.
fn values<O: Spoken>(alloc: Global, class: &O, bytes: &[u8]) -> Result<List<Option<u64>>, Memory> {
    let mut values = List::new(alloc);
    if let Ok(script) = read(alloc, bytes) {
        for part in script.parts() {
            if let PartRef::Alone(Command::Insert { key: Some(key), .. }) = part.lent() {
                if let Some(key) = class.key_in(key)? {
                    values.push(class.value_of(&key))?;
                }
            }
        }
    }
    Ok(values)
}

/// Whether just those numbers stand beside the keys.
fn tells<O: Spoken>(
    alloc: Global,
    class: &O,
    bytes: &[u8],
    wanted: &[Option<u64>],
) -> Result<bool, Memory> {
    Ok(values(alloc, class, bytes)?.as_slice() == wanted)
}

#[test]
fn classes_tell_numbers(rt: HostRuntime) -> Result<(), Fail> {
    let alloc = rt.alloc();
    let points =
        b"class quad value\ninsert 1.1 0,0 value 5\ninsert 1.2 null\ninsert 1.3 0,0 value 18446744073709551615\n";
    assert!(rt;
        tells(
            alloc,
            &With { inner: Quad },
            points,
            &[Some(5), Some(u64::MAX)]
        )?
    );
    assert!(rt; tells(alloc, &Quad, b"class quad\ninsert 1.1 0,0\n", &[None])?);
    assert!(rt; tells(alloc, &Ranges, b"class range\ninsert 1.1 empty\n", &[None])?);
    let with = With { inner: Radix };
    assert!(rt; with.valued() && !Radix.valued() && !Ranges.valued() && !Kd.valued());
    Ok(())
}
