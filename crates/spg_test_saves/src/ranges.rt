use crate::images::{Asked, all_asked};
use std::test::Fail;

/// Ranges: an image that the next run goes on from, an index that is built at once, and one with a standby.
const RANGES: [Asked; 6] = [
    (
        &["run"],
        &[
            "class range",
            "insert 1.1 [1,5]",
            "insert 1.2 [6,9]",
            "insert 1.3 empty",
            "insert 1.4 null",
            "find where overlap [5,6]",
            "find where within [0,5]",
            "find where contains empty",
            "find where left [6,6]",
            "save town",
        ],
        0,
        &[
            "1 0 2 added",
            "2 2 4 added",
            "3 4 6 added",
            "4 6 8 added",
            "5 8 10 found 2 walk 3 1.1 1.2",
            "6 10 12 found 2 walk 3 1.1 1.3",
            "7 12 14 found 3 walk 3 1.1 1.2 1.3",
            "8 14 16 found 1 walk 3 1.1",
            "9 16 16 saved 3",
            "journal 16",
            "0 0 open insert 1.1 [1,5]",
            "1 0 put 1.1",
            "2 0 open insert 1.2 [6,9]",
            "3 0 put 1.2",
            "4 0 open insert 1.3 empty",
            "5 0 put 1.3",
            "6 0 open insert 1.4 null",
            "7 0 put 1.4",
            "8 0 open scan where overlap [5,6]",
            "9 0 close scan 2",
            "10 0 open scan where within [0,5]",
            "11 0 close scan 2",
            "12 0 open scan where contains empty",
            "13 0 close scan 3",
            "14 0 open scan where left [6,6]",
            "15 0 close scan 1",
        ],
    ),
    (&["check", "town"], &[], 0, &["ok pages 3 entries 4"]),
    (
        &["run", "--from", "town"],
        &["class range", "find where right [5,5] and overlap [9,9]"],
        0,
        &[
            "1 8 10 found 1 walk 3 1.2",
            "journal 10",
            "0 0 open insert 1.1 [1,5]",
            "1 0 put 1.1",
            "2 0 open insert 1.2 [6,9]",
            "3 0 put 1.2",
            "4 0 open insert 1.3 empty",
            "5 0 put 1.3",
            "6 0 open insert 1.4 null",
            "7 0 put 1.4",
            "8 0 open scan where right [5,5] and overlap [9,9]",
            "9 0 close scan 1",
        ],
    ),
    (
        &["run", "--from", "town"],
        &["class quad", "find all"],
        7,
        &[],
    ),
    (
        &["build", "town"],
        &[
            "class range",
            "insert 1.1 [-2147483648,2147483647]",
            "insert 1.2 empty",
        ],
        0,
        &["built 2 skipped 0 pages 3"],
    ),
    (
        &["standby", "0"],
        &["class range", "insert 1.1 [3,3]", "find where eq [3,3]"],
        0,
        &[
            "1 0 2 added",
            "2 2 2 found 1 1.1",
            "journal 2",
            "0 0 open insert 1.1 [3,3]",
            "1 0 put 1.1",
        ],
    ),
];

/// Lines that are bad in these classes.
const BAD: [Asked; 5] = [
    (&["run"], &["class quad value", "near 1,1 1"], 3, &[]),
    (&["run"], &["class kd value", "insert 1.1 1,1"], 3, &[]),
    (
        &["run"],
        &[
            "class radix value",
            "insert 1.1 \"a\" value 18446744073709551616",
        ],
        3,
        &[],
    ),
    (&["run"], &["class range value"], 3, &[]),
    (&["run"], &["class range", "insert 1.1 [5,4]"], 3, &[]),
];

#[test]
fn knows_ranges(rt: HostRuntime) -> Result<(), Fail> {
    assert!(rt; all_asked(&rt, &RANGES)?);
    Ok(())
}

#[test]
fn refuses_lines_of_other_classes(rt: HostRuntime) -> Result<(), Fail> {
    assert!(rt; all_asked(&rt, &BAD)?);
    Ok(())
}
