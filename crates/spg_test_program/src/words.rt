use crate::program::{ends, no_fails};
use spg_app::Status;
use std::test::Fail;

/// Words that are no line of the program.
const REFUSED: [&[&str]; 68] = [
    &[],
    &["run", "--limit", "3"],
    &["run", "--limit", "05"],
    &["run", "--limit", "5", "--limit", "6"],
    &["gen", "0", "1"],
    &["check"],
    &["check", ".town"],
    &["--help"],
    &["-h"],
    &["help"],
    &["--version"],
    &["--"],
    &["run", "--"],
    &["run", "-"],
    &["run", "fast"],
    &["run", "--limit"],
    &["run", "--limit="],
    &["run", "--limit=3"],
    &["run", "--limit=+5"],
    &["run", "--limit=131073"],
    &["run", "--limit", "131073"],
    &["run", "--limit", "5", "fast"],
    &["run", "--limit=5", "--limit=5"],
    &["--limit", "5", "run"],
    &["gen"],
    &["gen", "3000"],
    &["gen", "3000", "7", "1"],
    &["gen", "200001", "7"],
    &["gen", "3000", "1000000"],
    &["gen", "03000", "7"],
    &["gen", "3000", "-7"],
    &["gen", "--", "3000", "7"],
    &["gen", "3000", "7", "--lanes"],
    &["gen", "3000", "7", "--lanes", "0"],
    &["gen", "3000", "7", "--lanes=17"],
    &["gen", "3000", "7", "--lanes=2", "--lanes=2"],
    &["gen", "3000", "7", "--class"],
    &["gen", "3000", "7", "--class", "range"],
    &["gen", "3000", "7", "--class="],
    &["gen", "3000", "7", "--class=kd", "--class", "kd"],
    &["gen", "3000", "7", "--limit=5"],
    &["--lanes=2", "gen", "3000", "7"],
    &["check", "town", "town"],
    &["check", "--from", "town"],
    &["check", "town", "--limit=5"],
    &["run", "--from"],
    &["run", "--from="],
    &["run", "--from", ".town"],
    &["run", "--from=a", "--from=b"],
    &["run", "--from", "town", "town"],
    &["gen", "3000", "7", "--from=town"],
    &["build"],
    &["build", "town", "town"],
    &["build", ".town"],
    &["build", "town", "--workers"],
    &["build", "town", "--workers=0"],
    &["build", "town", "--workers", "17"],
    &["build", "town", "--workers=2", "--workers=2"],
    &["build", "town", "--limit=5"],
    &["run", "--workers=2"],
    &["standby"],
    &["standby", "1001"],
    &["standby", "01"],
    &["standby", "1", "2"],
    &["standby", "1", "--from=town"],
    &["standby", "1", "--workers", "2"],
    &["standby", "--limit=3", "1"],
    &["standby", "1", "--limit=4", "--limit=4"],
];

/// Words that are.
const TAKEN: [&[&str]; 5] = [
    &["run"],
    &["run", "--limit", "4"],
    &["run", "--limit=4"],
    &["run", "--limit", "131072"],
    &["run", "--limit=131072"],
];

#[test]
fn reads_the_words(rt: HostRuntime) -> Result<(), Fail> {
    for words in &REFUSED {
        assert!(rt;
            ends(
                &rt,
                words,
                b"class quad\n",
                no_fails(),
                (Status::Usage, b"")
            )?
        );
    }
    for words in &TAKEN {
        assert!(rt;
            ends(
                &rt,
                words,
                b"class quad\n",
                no_fails(),
                (Status::Done, b"journal 0\n")
            )?
        );
    }
    Ok(())
}
