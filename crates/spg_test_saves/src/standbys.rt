use crate::images::{Asked, all_asked};
use spg_app::Status;
use spg_test_program::{Fails, ends};
use std::test::Fail;

/// Scripts that are done beside a standby: one that is behind, one that is not, each class, and scripts
/// with another command or a lane. The finds of the others come from another model.
const SCRIPTS: [Asked; 8] = [
    (
        &["standby", "2"],
        &["class quad", "insert 1.1 0,0", "insert 1.2 1,1", "find all"],
        0,
        &[
            "1 0 2 added",
            "2 2 4 added",
            "3 3 4 found 1 1.1",
            "journal 4",
            "0 0 open insert 1.1 0,0",
            "1 0 put 1.1",
            "2 0 open insert 1.2 1,1",
            "3 0 put 1.2",
        ],
    ),
    (
        &["standby", "0", "--limit", "4"],
        &["class quad", "insert 1.1 0,0", "insert 1.2 1,1", "find all"],
        0,
        &[
            "1 0 2 added",
            "2 2 4 added",
            "3 4 4 found 2 1.1 1.2",
            "journal 4",
            "0 0 open insert 1.1 0,0",
            "1 0 put 1.1",
            "2 0 open insert 1.2 1,1",
            "3 0 put 1.2",
        ],
    ),
    (
        &["standby", "1"],
        &[
            "class kd",
            "insert 1.1 3,4",
            "insert 1.1 3,4",
            "delete 1.1",
            "delete 1.2",
            "vacuum",
            "find where left 9",
        ],
        0,
        &[
            "1 0 2 added",
            "2 2 2 row used",
            "3 2 3 killed",
            "4 3 3 not live",
            "5 3 6 vacuumed 1",
            "6 5 6 found 0",
            "journal 6",
            "0 0 open insert 1.1 3,4",
            "1 0 put 1.1",
            "2 0 kill 1.1",
            "3 0 open vacuum",
            "4 0 sweep 1.1",
            "5 0 close vacuum 1",
        ],
    ),
    (
        &["standby", "1000"],
        &[
            "class radix",
            "insert 0.1 null",
            "insert 0.2 \"a\"",
            "find null",
        ],
        0,
        &[
            "1 0 2 added",
            "2 2 4 added",
            "3 0 1 found 0",
            "journal 4",
            "0 0 open insert 0.1 null",
            "1 0 put 0.1",
            "2 0 open insert 0.2 \"a\"",
            "3 0 put 0.2",
        ],
    ),
    (
        &["standby", "0"],
        &["class quad", "find all", "stat"],
        3,
        &[],
    ),
    (&["standby", "0"], &["class quad", "save town"], 3, &[]),
    (&["standby", "0"], &["class quad", "near 0,0 1"], 3, &[]),
    (&["standby", "0"], &["class quad", "together"], 3, &[]),
];

#[test]
fn does_scripts_beside_a_standby(rt: HostRuntime) -> Result<(), Fail> {
    assert!(rt; all_asked(&rt, &SCRIPTS)?);
    Ok(())
}

/// The first call that fails of the reads and the writes, and how a run ends then.
const FAULTS: [(u64, u64, Status); 2] = [(1, 0, Status::ReadFault), (0, 1, Status::WriteFault)];

#[test]
fn tells_failing_standbys(rt: HostRuntime) -> Result<(), Fail> {
    for (read, write, status) in FAULTS {
        let fails = Fails {
            read,
            write,
            image: 0,
        };
        let script = b"class quad\ninsert 1.1 3,4\n";
        assert!(rt; ends(&rt, &["standby", "1"], script, fails, (status, b""))?);
    }
    Ok(())
}
