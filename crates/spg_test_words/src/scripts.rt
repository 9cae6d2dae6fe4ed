//! Scripts both ways, and the first bad line of what is none.

use spg_base::{Bytes, Memory};
use spg_script::{ClassLine, ClassName, Script, ScriptRefused, parse, print};
use std::alloc::Global;
use std::test::Fail;

/// Scripts, and how they are printed; None where they are printed as they stand.
const SCRIPTS: [(&[u8], Option<&[u8]>); 18] = [
    (b"class quad\ninsert 1.1 3,4\nfind all\n", None),
    (b"class kd", Some(b"class kd\n")),
    (b"class radix\n", None),
    (
        b"\n# a town\n\nclass quad\n#\ninsert 0.1 0,0\n\n\ndelete 0.1\nvacuum\n# the end",
        Some(b"class quad\ninsert 0.1 0,0\ndelete 0.1\nvacuum\n"),
    ),
    (
        b"class quad\ninsert 4294967295.65535 -2147483648,2147483647\ninsert 10.10 null\nfind null\nstat\nsave a\nsave _9.-z\n",
        None,
    ),
    (
        b"class kd\nfind where eq -1,2\nfind where left -3 and right 4 and below 5 and above -6\nfind where in -2147483648,-1,-2147483648,2147483647\n",
        None,
    ),
    (
        b"class kd\nfind where left 1 and left 2 and left 3 and left 4 and left 5 and left 6 and left 7 and left 8\n",
        None,
    ),
    (
        b"class radix\ninsert 1.1 \"\"\ninsert 1.2 \"a b\\x41\\x0a\\x22\\x5C\\xfF\\x7f~ \xc3\xa9\"\nfind where lt \"a\" and le \"b and \" and gt \"\\x00\" and ge \"\"\nfind where starts \"and\" and eq \"x\"\n",
        Some(
            b"class radix\ninsert 1.1 \"\"\ninsert 1.2 \"a bA\\x0a\\x22\\x5c\xff\\x7f~ \xc3\xa9\"\nfind where lt \"a\" and le \"b and \" and gt \"\\x00\" and ge \"\"\nfind where starts \"and\" and eq \"x\"\n",
        ),
    ),
    (
        b"class quad\ntogether\nlane\nend\ntogether\nlane\ninsert 1.1 1,2\n\n# in a lane\ndelete 1.1\nlane\nlane\nvacuum\nfind where above 7\nend\nstat\n",
        Some(
            b"class quad\ntogether\nlane\nend\ntogether\nlane\ninsert 1.1 1,2\ndelete 1.1\nlane\nlane\nvacuum\nfind where above 7\nend\nstat\n",
        ),
    ),
    (
        b"class quad\ntogether\nlane\nlane\nlane\nlane\nlane\nlane\nlane\nlane\nlane\nlane\nlane\nlane\nlane\nlane\nlane\nlane\nlane\nlane\nlane\nlane\nlane\nlane\nlane\nlane\nlane\nlane\nlane\nlane\nlane\nlane\nlane\nlane\nend\n",
        None,
    ),
    (
        b"class quad\nsave aaaaaaaaaaaaaaaaaaaaaaaaaaaaaaaaaaaaaaaaaaaaaaaaaaaaaaaaaaaaaaaa\n",
        None,
    ),
    (
        b"class kd\nnear -2147483648,2147483647 1\nnear 0,-1 65535\n",
        None,
    ),
    (
        b"class quad value\ninsert 1.1 -3,4 value 0\ninsert 1.2 null\ninsert 1.3 0,0 value 18446744073709551615\nfind where eq -3,4 and left 7\nfind null\nstat\nsave a\n",
        None,
    ),
    (
        b"class kd value\n# a lane\ntogether\nlane\ninsert 4294967295.65535 2147483647,-2147483648 value 10\ndelete 1.1\nend\nfind where in 0,0,1,1",
        Some(
            b"class kd value\ntogether\nlane\ninsert 4294967295.65535 2147483647,-2147483648 value 10\ndelete 1.1\nend\nfind where in 0,0,1,1\n",
        ),
    ),
    (
        b"class radix value\ninsert 1.1 \"\" value 7\ninsert 1.2 \"a value 1\\x22 value 2\" value 9999999999\ninsert 1.3 null\nfind where starts \"and\" and ge \" value 3\"\nvacuum\n",
        None,
    ),
    (
        b"class radix value\ninsert 1.1 \"\\x41\\x0A\" value 1",
        Some(b"class radix value\ninsert 1.1 \"A\\x0a\" value 1\n"),
    ),
    (
        b"class range\ninsert 1.1 [1,5]\ninsert 1.2 [-2147483648,2147483647]\ninsert 1.3 empty\ninsert 1.4 null\ninsert 1.5 [-1,-1]\nfind where eq empty and eq [0,0]\nfind where overlap [5,6] and contains empty and contains [-1,0]\nfind where within [0,5] and left [6,6] and right [-6,-6] and within empty\n",
        None,
    ),
    (
        b"class range\nfind where left empty and left empty and left empty and left empty and left empty and left empty and left empty and right empty\nfind all\nfind null\nvacuum\nstat\nsave a\n",
        None,
    ),
];

/// Bytes that are no script, and the first bad line.
const BAD: [(&[u8], u32); 101] = [
    (b"", 1),
    (b"\n", 2),
    (b"# nothing\n\n", 3),
    (b"class\n", 1),
    (b"class ranges", 1),
    (b" class quad", 1),
    (b"class quad ", 1),
    (b"Class quad", 1),
    (b"class quad\r\n", 1),
    (b"insert 1.1 1,1\n", 1),
    (b"#\n\nclass point\n", 3),
    (b"class quad\nstats", 2),
    (b"class quad\n stat", 2),
    (b"class quad\nvacuum ", 2),
    (b"class quad\nfind", 2),
    (b"class quad\nfind all ", 2),
    (b"class quad\nfind  all", 2),
    (b"class quad\ninsert  1.1 1,1", 2),
    (b"class quad\ninsert 1.0 1,1", 2),
    (b"class quad\ninsert 1.65536 1,1", 2),
    (b"class quad\ninsert 4294967296.1 1,1", 2),
    (b"class quad\ninsert 01.1 1,1", 2),
    (b"class quad\ninsert 1.01 1,1", 2),
    (b"class quad\ninsert 1 1,1", 2),
    (b"class quad\ninsert 1.1.1 1,1", 2),
    (b"class quad\ninsert -1.1 1,1", 2),
    (b"class quad\ninsert 1.1", 2),
    (b"class quad\ninsert 1.1 ", 2),
    (b"class quad\ninsert 1.1 1", 2),
    (b"class quad\ninsert 1.1 1,1,1", 2),
    (b"class quad\ninsert 1.1 +1,1", 2),
    (b"class quad\ninsert 1.1 -0,1", 2),
    (b"class quad\ninsert 1.1 00,1", 2),
    (b"class quad\ninsert 1.1 2147483648,1", 2),
    (b"class quad\ninsert 1.1 1,-2147483649", 2),
    (b"class quad\ninsert 1.1 1, 1", 2),
    (b"class quad\ninsert 1.1 \"a\"", 2),
    (b"class quad\ninsert 1.1 nul", 2),
    (b"class quad\ndelete 1.0", 2),
    (b"class quad\ndelete 1.1 ", 2),
    (b"class quad\ndelete", 2),
    (b"class quad\nfind where", 2),
    (b"class quad\nfind where ", 2),
    (b"class quad\nfind where left", 2),
    (b"class quad\nfind where left 1 and", 2),
    (b"class quad\nfind where left 1 and ", 2),
    (b"class quad\nfind where left 1  and left 2", 2),
    (b"class quad\nfind where left 1 or left 2", 2),
    (b"class quad\nfind where in 1,0,0,1", 2),
    (b"class quad\nfind where in 0,1,1,0", 2),
    (b"class quad\nfind where in 0,0,1", 2),
    (b"class quad\nfind where starts \"a\"", 2),
    (b"class quad\nfind where eq 1", 2),
    (
        b"class quad\nfind where left 1 and left 2 and left 3 and left 4 and left 5 and left 6 and left 7 and left 8 and left 9",
        2,
    ),
    (b"class radix\ninsert 1.1 1,1", 2),
    (b"class radix\ninsert 1.1 \"a", 2),
    (b"class radix\ninsert 1.1 a\"", 2),
    (b"class radix\ninsert 1.1 \"a\"b", 2),
    (b"class radix\ninsert 1.1 \"a\"\"", 2),
    (b"class radix\ninsert 1.1 \"\\x4\"", 2),
    (b"class radix\ninsert 1.1 \"\\x4g\"", 2),
    (b"class radix\ninsert 1.1 \"\\n\"", 2),
    (b"class radix\ninsert 1.1 \"\x7f\"", 2),
    (b"class radix\ninsert 1.1 \"\x1f\"", 2),
    (b"class radix\nfind where left 1", 2),
    (b"class radix\nfind where lt \"a\"and le \"b\"", 2),
    (b"class radix\nfind where lt a", 2),
    (b"class quad\nsave", 2),
    (b"class quad\nsave ", 2),
    (b"class quad\nsave .a", 2),
    (b"class quad\nsave -a", 2),
    (b"class quad\nsave A", 2),
    (b"class quad\nsave a/b", 2),
    (
        b"class quad\nsave aaaaaaaaaaaaaaaaaaaaaaaaaaaaaaaaaaaaaaaaaaaaaaaaaaaaaaaaaaaaaaaaa",
        2,
    ),
    (b"class quad\nstat\n\nclass quad", 4),
    (b"class quad\nend", 2),
    (b"class quad\nnear 1,1", 2),
    (b"class quad\nnear 1,1 ", 2),
    (b"class quad\nnear 1,1 0", 2),
    (b"class quad\nnear 1,1 65536", 2),
    (b"class quad\nnear 1,1 01", 2),
    (b"class quad\nnear 1 1", 2),
    (b"class quad\nnear null 1", 2),
    (b"class radix\nnear \"a\" 1", 2),
    (b"class kd\ntogether\nlane\nnear 1,1 1\nend", 4),
    (b"class quad\nlane", 2),
    (b"class quad\ntogether", 3),
    (b"class quad\ntogether\n", 3),
    (b"class quad\ntogether\n\n#\n", 5),
    (b"class quad\ntogether\nend", 3),
    (b"class quad\ntogether\nvacuum", 3),
    (b"class quad\ntogether\ntogether", 3),
    (b"class quad\ntogether\nlane\nstat\nend", 4),
    (b"class quad\ntogether\nlane\nsave a\nend", 4),
    (b"class quad\ntogether\nlane\ntogether", 4),
    (b"class quad\ntogether\nlane\ninsert 1.1 1,1\n", 5),
    (b"class quad\ntogether\nlane\nend\nend", 5),
    (b"class quad\ntogether\nlane 1\nend", 3),
    (
        b"class quad\ntogether\nlane\nlane\nlane\nlane\nlane\nlane\nlane\nlane\nlane\nlane\nlane\nlane\nlane\nlane\nlane\nlane\nlane\nlane\nlane\nlane\nlane\nlane\nlane\nlane\nlane\nlane\nlane\nlane\nlane\nlane\nlane\nlane\nlane\nend\n",
        35,
    ),
    (b"class quad\n# one\nfind all\n\nfind al\nfind all\n", 5),
    (b"class quad\ninsert 1.1 1,1\ninsert 1.2 x\n", 3),
];

/// Bytes that are no script of a class with numbers beside its keys, or with ranges, and the first bad line.
const BAD_BESIDE: [(&[u8], u32); 60] = [
    (b"class quad values", 1),
    (b"class quad  value", 1),
    (b"class quad value ", 1),
    (b"class value", 1),
    (b"class range value", 1),
    (b"class Range", 1),
    (b"class quad\ninsert 1.1 1,1 value 1", 2),
    (b"class radix\ninsert 1.1 \"a\" value 1", 2),
    (b"class range\ninsert 1.1 [1,1] value 1", 2),
    (b"class quad value\ninsert 1.1 1,1", 2),
    (b"class quad value\ninsert 1.1 1,1 value", 2),
    (b"class quad value\ninsert 1.1 1,1 value ", 2),
    (b"class quad value\ninsert 1.1 1,1 value -1", 2),
    (b"class quad value\ninsert 1.1 1,1 value +1", 2),
    (b"class quad value\ninsert 1.1 1,1 value 01", 2),
    (b"class quad value\ninsert 1.1 1,1 value 00", 2),
    (b"class quad value\ninsert 1.1 1,1 value 1 ", 2),
    (b"class quad value\ninsert 1.1 1,1 value 1x", 2),
    (b"class quad value\ninsert 1.1 1,1  value 1", 2),
    (b"class quad value\ninsert 1.1 1,1 value  1", 2),
    (b"class quad value\ninsert 1.1 1,1 Value 1", 2),
    (
        b"class quad value\ninsert 1.1 1,1 value 18446744073709551616",
        2,
    ),
    (
        b"class quad value\ninsert 1.1 1,1 value 99999999999999999999",
        2,
    ),
    (
        b"class quad value\ninsert 1.1 1,1 value 100000000000000000000",
        2,
    ),
    (b"class quad value\ninsert 1.1 2147483648,1 value 1", 2),
    (b"class quad value\ninsert 1.1 null value 1", 2),
    (b"class quad value\ninsert 1.1 \"a\" value 1", 2),
    (b"class quad value\nfind where eq 1,1 value 1", 2),
    (b"class quad value\nfind where starts \"a\"", 2),
    (b"class quad value\nnear 1,1 1", 2),
    (b"class kd value\nfind all\nnear 0,0 9", 3),
    (b"class kd value\ninsert 1.1 [1,1] value 1", 2),
    (b"class radix value\ninsert 1.1 \"a\"", 2),
    (b"class radix value\ninsert 1.1 \"a\"value 1", 2),
    (b"class radix value\ninsert 1.1 \"a\" value 1\"", 2),
    (b"class radix value\ninsert 1.1 1,1 value 1", 2),
    (b"class radix value\nfind where left 1", 2),
    (b"class radix value\nfind where eq \"a\" value 1", 2),
    (b"class radix value\nnear \"a\" 1", 2),
    (b"class range\ninsert 1.1 [2,1]", 2),
    (b"class range\ninsert 1.1 [0,-1]", 2),
    (b"class range\ninsert 1.1 [1,1", 2),
    (b"class range\ninsert 1.1 1,1]", 2),
    (b"class range\ninsert 1.1 1,1", 2),
    (b"class range\ninsert 1.1 [1, 1]", 2),
    (b"class range\ninsert 1.1 [1]", 2),
    (b"class range\ninsert 1.1 []", 2),
    (b"class range\ninsert 1.1 [1,1]]", 2),
    (b"class range\ninsert 1.1 [[1,1]", 2),
    (b"class range\ninsert 1.1 [1,1] ", 2),
    (b"class range\ninsert 1.1 [01,1]", 2),
    (b"class range\ninsert 1.1 [0,2147483648]", 2),
    (b"class range\ninsert 1.1 Empty", 2),
    (b"class range\ninsert 1.1 empty ", 2),
    (b"class range\nfind where overlap [6,5]", 2),
    (b"class range\nfind where overlap 5,6", 2),
    (b"class range\nfind where in [1,1]", 2),
    (b"class range\nfind where eq [1,1] and", 2),
    (b"class range\nfind where eq null", 2),
    (b"class range\nnear 1,1 1", 2),
];

/// Reads bytes that are not too many.
pub(crate) fn read(alloc: Global, bytes: &[u8]) -> Result<Script, ScriptRefused> {
    if bytes.len() < u32::MAX as usize {
        parse(alloc, bytes)
    } else {
        Err(ScriptRefused::Memory)
    }
}

/// Whether the bytes are a script, and are printed so.
fn prints_as(alloc: Global, bytes: &[u8], text: &[u8]) -> Result<bool, Memory> {
    match read(alloc, bytes) {
        Ok(script) => Ok(print(alloc, &script)?.as_slice() == text),
        Err(_) => Ok(false),
    }
}

/// Whether the bytes are no script, with this first bad line.
fn is_bad(alloc: Global, bytes: &[u8], number: u32) -> bool {
    match read(alloc, bytes) {
        Ok(_) => false,
        Err(why) => why == ScriptRefused::BadLine(number),
    }
}

#[test]
fn reads_and_prints(rt: HostRuntime) -> Result<(), Fail> {
    for (script, text) in &SCRIPTS {
        let text = match text {
            Some(text) => *text,
            None => *script,
        };
        assert!(rt; prints_as(rt.alloc(), script, text)?);
        assert!(rt; prints_as(rt.alloc(), text, text)?);
    }
    Ok(())
}

#[test]
fn names_the_first_bad_line(rt: HostRuntime) -> Result<(), Fail> {
    for (script, number) in &BAD {
        assert!(rt; is_bad(rt.alloc(), script, *number));
    }
    for (script, number) in &BAD_BESIDE {
        assert!(rt; is_bad(rt.alloc(), script, *number));
    }
    Ok(())
}

/// Class lines, and what they name.
const LINES: [(&[u8], ClassLine, ClassName, bool); 7] = [
    (b"class quad", ClassLine::Quad, ClassName::Quad, false),
    (b"class kd", ClassLine::Kd, ClassName::Kd, false),
    (b"class radix", ClassLine::Radix, ClassName::Radix, false),
    (
        b"class quad value",
        ClassLine::QuadValue,
        ClassName::Quad,
        true,
    ),
    (b"class kd value", ClassLine::KdValue, ClassName::Kd, true),
    (
        b"class radix value",
        ClassLine::RadixValue,
        ClassName::Radix,
        true,
    ),
    (b"class range", ClassLine::Range, ClassName::Range, false),
];

/// Whether the bytes name this class.
fn names(alloc: Global, bytes: &[u8], line: ClassLine, class: ClassName, valued: bool) -> bool {
    match read(alloc, bytes) {
        Ok(script) => {
            script.line() == line && script.class() == class && script.valued() == valued
        }
        Err(_) => false,
    }
}

#[test]
fn tells_the_class(rt: HostRuntime) -> Result<(), Fail> {
    for (bytes, line, class, valued) in &LINES {
        assert!(rt; names(rt.alloc(), bytes, *line, *class, *valued));
    }
    Ok(())
}

/// A script that inserts a text of so many bytes, each spelled so.
fn with_text(alloc: Global, count: usize, spelled: &[u8]) -> Result<Bytes, Memory> {
    let mut script = Bytes::copy(alloc, b"class radix\ninsert 1.1 \"")?;
    for _ in 0..count {
        script.extend(spelled)?;
    }
    script.extend(b"\"\n")?;
    Ok(script)
}

/// Whether a text of so many bytes is read, and printed as it stands.
fn takes(alloc: Global, count: usize, spelled: &[u8]) -> Result<bool, Memory> {
    let script = with_text(alloc, count, spelled)?;
    prints_as(alloc, script.as_slice(), script.as_slice())
}

/// Whether a text of so many bytes is no key.
fn refuses(alloc: Global, count: usize, spelled: &[u8]) -> Result<bool, Memory> {
    let script = with_text(alloc, count, spelled)?;
    Ok(is_bad(alloc, script.as_slice(), 2))
}

#[test]
fn takes_texts_of_3900_bytes(rt: HostRuntime) -> Result<(), Fail> {
    let spellings: [&[u8]; 2] = [b"x", b"\\x01"];
    for spelled in &spellings {
        assert!(rt; takes(rt.alloc(), 3900, spelled)?);
        assert!(rt; refuses(rt.alloc(), 3901, spelled)?);
    }
    Ok(())
}
