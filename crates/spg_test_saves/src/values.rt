use crate::images::{Asked, all_asked};
use std::test::Fail;

/// Keys with numbers beside them: an image that the next run goes on from, and runs of other classes that refuse it.
const SAVED: [Asked; 7] = [
    (
        &["run"],
        &["class quad", "insert 1.1 3,4", "save town"],
        0,
        &[
            "1 0 2 added",
            "2 2 2 saved 3",
            "journal 2",
            "0 0 open insert 1.1 3,4",
            "1 0 put 1.1",
        ],
    ),
    (
        &["run", "--from", "town"],
        &["class quad value", "find all"],
        7,
        &[],
    ),
    (
        &["run"],
        &[
            "class quad value",
            "insert 1.1 3,4 value 18446744073709551615",
            "insert 1.2 null",
            "insert 1.3 3,4 value 0",
            "find all",
            "delete 1.1",
            "vacuum",
            "insert 1.1 5,5 value 7",
            "find where eq 5,5 and left 6",
            "find null",
            "save town",
        ],
        0,
        &[
            "1 0 2 added",
            "2 2 4 added",
            "3 4 6 added",
            "4 6 8 found 3 walk 3 1.1=18446744073709551615 1.2 1.3=0",
            "5 8 9 killed",
            "6 9 12 vacuumed 1",
            "7 12 14 added",
            "8 14 16 found 1 walk 2 1.1=7",
            "9 16 18 found 1 walk 1 1.2",
            "10 18 18 saved 3",
            "journal 18",
            "0 0 open insert 1.1 3,4 value 18446744073709551615",
            "1 0 put 1.1",
            "2 0 open insert 1.2 null",
            "3 0 put 1.2",
            "4 0 open insert 1.3 3,4 value 0",
            "5 0 put 1.3",
            "6 0 open scan all",
            "7 0 close scan 3",
            "8 0 kill 1.1",
            "9 0 open vacuum",
            "10 0 sweep 1.1",
            "11 0 close vacuum 1",
            "12 0 open insert 1.1 5,5 value 7",
            "13 0 put 1.1",
            "14 0 open scan where eq 5,5 and left 6",
            "15 0 close scan 1",
            "16 0 open scan null",
            "17 0 close scan 1",
        ],
    ),
    (&["check", "town"], &[], 0, &["ok pages 3 entries 3"]),
    (
        &["run", "--from", "town"],
        &["class quad", "find all"],
        7,
        &[],
    ),
    (
        &["run", "--from", "town"],
        &["class kd value", "find all"],
        7,
        &[],
    ),
    (
        &["run", "--from", "town"],
        &["class quad value", "find where right 3"],
        0,
        &[
            "1 6 8 found 1 walk 2 1.1=7",
            "journal 8",
            "0 0 open insert 1.3 3,4 value 0",
            "1 0 put 1.3",
            "2 0 open insert 1.1 5,5 value 7",
            "3 0 put 1.1",
            "4 0 open insert 1.2 null",
            "5 0 put 1.2",
            "6 0 open scan where right 3",
            "7 0 close scan 1",
        ],
    ),
];

/// An index of such keys that is built at once, and one with a standby.
const OTHERS: [Asked; 4] = [
    (
        &["build", "town", "--workers", "3"],
        &[
            "class radix value",
            "insert 0.1 \"12 High Street\" value 12",
            "insert 0.2 null",
            "insert 0.1 \"3 Mill Lane\" value 3",
        ],
        0,
        &["built 2 skipped 1 pages 3"],
    ),
    (&["check", "town"], &[], 0, &["ok pages 3 entries 2"]),
    (
        &["run", "--from=town"],
        &["class radix value", "find where starts \"12\""],
        0,
        &[
            "1 4 6 found 1 walk 1 0.1=12",
            "journal 6",
            "0 0 open insert 0.1 \"12 High Street\" value 12",
            "1 0 put 0.1",
            "2 0 open insert 0.2 null",
            "3 0 put 0.2",
            "4 0 open scan where starts \"12\"",
            "5 0 close scan 1",
        ],
    ),
    (
        &["standby", "2"],
        &[
            "class kd value",
            "insert 1.1 5,1 value 10",
            "find all",
            "insert 1.2 5,1 value 20",
            "find all",
        ],
        0,
        &[
            "1 0 2 added",
            "2 1 2 found 0",
            "3 2 4 added",
            "4 3 4 found 1 1.1=10",
            "journal 4",
            "0 0 open insert 1.1 5,1 value 10",
            "1 0 put 1.1",
            "2 0 open insert 1.2 5,1 value 20",
            "3 0 put 1.2",
        ],
    ),
];

#[test]
fn goes_on_from_keys_with_numbers(rt: HostRuntime) -> Result<(), Fail> {
    assert!(rt; all_asked(&rt, &SAVED)?);
    Ok(())
}

#[test]
fn builds_and_mirrors_keys_with_numbers(rt: HostRuntime) -> Result<(), Fail> {
    assert!(rt; all_asked(&rt, &OTHERS)?);
    Ok(())
}
