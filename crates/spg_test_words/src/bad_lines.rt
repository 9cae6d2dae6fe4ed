use spg_script::{BadLine, ScriptRefused, Wanted, parse};
use std::alloc::Global;
use std::test::Fail;

/// Bytes that are no script, the number of the first bad line, how it is shown, and the words.
const TOLD: [(&[u8], u32, &str, Wanted); 45] = [
    (b"", 1, "''", Wanted::ClassLine),
    (b"# a town\n\n", 3, "''", Wanted::ClassLine),
    (b"#\nclass ranges\n", 2, "'class ranges'", Wanted::ClassLine),
    (
        b"insert 1.1 1,1\n",
        1,
        "'insert 1.1 1,1'",
        Wanted::ClassLine,
    ),
    (b"class quad\r\n", 1, "'class quad\\x0d'", Wanted::ClassLine),
    (b"class kd\nstats\n", 2, "'stats'", Wanted::Command),
    (b"class kd\ninsert", 2, "'insert'", Wanted::Command),
    (b"class kd\n#\nend\n", 3, "'end'", Wanted::Together),
    (b"class kd\nlane\n", 2, "'lane'", Wanted::Together),
    (
        b"class kd\ntogether\nvacuum\n",
        3,
        "'vacuum'",
        Wanted::FirstLane,
    ),
    (b"class kd\ntogether\nend\n", 3, "'end'", Wanted::FirstLane),
    (
        b"class kd\ntogether\nlane\ntogether\n",
        4,
        "'together'",
        Wanted::LaneCommand,
    ),
    (
        b"class kd\ntogether\nlane\nstat\nend\n",
        4,
        "'stat'",
        Wanted::NoLane,
    ),
    (
        b"class kd\ntogether\nlane\nsave a\nend\n",
        4,
        "'save a'",
        Wanted::NoLane,
    ),
    (b"class kd\ntogether\n\n", 4, "''", Wanted::EndOfBlock),
    (
        b"class kd\ntogether\nlane\nvacuum\n",
        5,
        "''",
        Wanted::EndOfBlock,
    ),
    (
        b"class kd\ntogether\nlane\nend\nlane\n",
        5,
        "'lane'",
        Wanted::Together,
    ),
    (
        b"class kd\ninsert 1.0 1,1\n",
        2,
        "'insert 1.0 1,1'",
        Wanted::InsertRow,
    ),
    (b"class kd\ndelete 1\n", 2, "'delete 1'", Wanted::DeleteRow),
    (
        b"class kd\ninsert 1.1 \"a\"\n",
        2,
        "'insert 1.1 \"a\"'",
        Wanted::PointKey,
    ),
    (
        b"class kd\ninsert 1.1\nstat\n",
        2,
        "'insert 1.1'",
        Wanted::PointKey,
    ),
    (
        b"class radix\ninsert 1.1 \xc3\xa9\n",
        2,
        "'insert 1.1 \\xc3\\xa9'",
        Wanted::TextKey,
    ),
    (
        b"class radix\nfind where left 1\n",
        2,
        "'find where left 1'",
        Wanted::TextConditions,
    ),
    (b"class quad\nfind al\n", 2, "'find al'", Wanted::Query),
    (
        b"class quad\nfind where near 1\n",
        2,
        "'find where near 1'",
        Wanted::PointCondition,
    ),
    (
        b"class quad\nfind where left 1 and in 1,0,0,1\n",
        2,
        "'find where left 1 and in 1,0,0,1'",
        Wanted::RectangleInOrder,
    ),
    (
        b"class quad\nfind where left 1 or left 2\n",
        2,
        "'find where left 1 or left 2'",
        Wanted::And,
    ),
    (
        b"class quad\nfind where left 1 and left 2 and left 3 and left 4 and left 5 and left 6 and left 7 and left 8 and left 9\n",
        2,
        "'find where left 1 and left 2 and left 3 and left 4 and left '..",
        Wanted::FewerConditions,
    ),
    (b"class kd\nnear 1,1\n", 2, "'near 1,1'", Wanted::Near),
    (b"class kd\nnear 1,1 0\n", 2, "'near 1,1 0'", Wanted::Near),
    (
        b"class radix\nnear 1,1 5\n",
        2,
        "'near 1,1 5'",
        Wanted::Near,
    ),
    (
        b"class kd\ntogether\nlane\nnear 1,1 5\nend\n",
        4,
        "'near 1,1 5'",
        Wanted::NoLane,
    ),
    (b"class quad\nsave A\n", 2, "'save A'", Wanted::Name),
    (
        b"class quad\ntogether\nlane\nlane\nlane\nlane\nlane\nlane\nlane\nlane\nlane\nlane\nlane\nlane\nlane\nlane\nlane\nlane\nlane\nlane\nlane\nlane\nlane\nlane\nlane\nlane\nlane\nlane\nlane\nlane\nlane\nlane\nlane\nlane\nlane\nend\n",
        35,
        "'lane'",
        Wanted::FewerLanes,
    ),
    (
        b"class range value\n",
        1,
        "'class range value'",
        Wanted::ClassLine,
    ),
    (
        b"class quad value\ninsert 1.1 1,1\n",
        2,
        "'insert 1.1 1,1'",
        Wanted::PointValueKey,
    ),
    (
        b"class kd value\ninsert 1.1 1,1 value 01\n",
        2,
        "'insert 1.1 1,1 value 01'",
        Wanted::PointValueKey,
    ),
    (
        b"class radix value\ninsert 1.1 1,1 value 1\n",
        2,
        "'insert 1.1 1,1 value 1'",
        Wanted::TextValueKey,
    ),
    (
        b"class kd value\ninsert 1 1,1 value 1\n",
        2,
        "'insert 1 1,1 value 1'",
        Wanted::InsertRow,
    ),
    (
        b"class kd value\nfind where left 1 and in 1,0,0,1\n",
        2,
        "'find where left 1 and in 1,0,0,1'",
        Wanted::RectangleInOrder,
    ),
    (
        b"class radix value\nfind where left 1\n",
        2,
        "'find where left 1'",
        Wanted::TextConditions,
    ),
    (
        b"class kd value\nnear 1,1 5\n",
        2,
        "'near 1,1 5'",
        Wanted::Near,
    ),
    (
        b"class range\ninsert 1.1 [2,1]\n",
        2,
        "'insert 1.1 [2,1]'",
        Wanted::RangeKey,
    ),
    (
        b"class range\nfind where within 1\n",
        2,
        "'find where within 1'",
        Wanted::RangeConditions,
    ),
    (
        b"class range\nnear 1,1 5\n",
        2,
        "'near 1,1 5'",
        Wanted::Near,
    ),
];

/// Reads bytes that are not too many. None where they are a script.
fn first_bad(alloc: Global, bytes: &[u8]) -> Option<u32> {
    if bytes.len() >= u32::MAX as usize {
        return None;
    }
    match parse(alloc, bytes) {
        Err(ScriptRefused::BadLine(number)) => Some(number),
        _ => None,
    }
}

/// Whether the line is told so.
fn is_told(alloc: Global, line: &BadLine<'_>, number: u32, shown: &str) -> Result<bool, Fail> {
    let words = line.wanted.words();
    let told = format!(in alloc; "line {number} {shown}: {words}")?;
    Ok(format!(in alloc; "{line}")?.as_str() == told.as_str())
}

#[test]
fn tells_what_was_wanted(rt: HostRuntime) -> Result<(), Fail> {
    for (bytes, number, shown, wanted) in &TOLD {
        assert!(rt; first_bad(rt.alloc(), bytes) == Some(*number), "{shown}");
        let line = BadLine::of(bytes, *number);
        assert!(rt;
            line.wanted == *wanted && is_told(rt.alloc(), &line, *number, shown)?,
            "{shown}"
        );
    }
    Ok(())
}

#[test]
fn a_refusal_names_the_line(rt: HostRuntime) -> Result<(), Fail> {
    let refused = ScriptRefused::BadLine(3);
    let text = format!(in rt.alloc(); "{refused}")?;
    assert_eq!(rt; text.as_str(), "bad line 3");
    Ok(())
}
