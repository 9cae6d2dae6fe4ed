use crate::program::{done, is_line, push_insert, push_numbered};
use spg_base::Memory;
use std::alloc::{AllocError, Global};
use std::sync::Wait;
use std::test::Fail;
use std::thread::Threads;

/// A line of a text: its start, the offsets from, to and apart of the rows of block 1 that follow, and
/// its end.
type Line = (&'static str, (u16, u16, u16), &'static str);

/// No rows.
const NONE: (u16, u16, u16) = (1, 0, 1);

/// Many inserts of rows 1.1, 1.2 and so on, and what comes behind them. An `N` in a key stands for the
/// offset of the row.
#[derive(Clone, Copy)]
struct Filled {
    words: &'static [&'static str],
    class: &'static str,
    count: u16,
    odd: &'static str,
    even: &'static str,
    behind: &'static str,
    ends: &'static [Line],
}

const FILLED: [Filled; 13] = [
    Filled {
        words: &["run"],
        class: "quad",
        count: 292,
        odd: "N,0",
        even: "N,0",
        behind: "find all\nfind where eq 292,0\nstat\n",
        ends: &[
            ("292 582 584 added", NONE, ""),
            ("293 584 586 found 292 walk 294", (1, 292, 1), ""),
            ("294 586 588 found 1 walk 75", (292, 292, 1), ""),
            (
                "295 588 588 stat pages 6 inner 2 leaf 292 redirect 1 dead 0 placeholder 71 clock 1",
                NONE,
                "",
            ),
            ("journal 588", NONE, ""),
        ],
    },
    Filled {
        words: &["run"],
        class: "quad",
        count: 300,
        odd: "0,0",
        even: "0,0",
        behind: "find all\nstat\n",
        ends: &[
            ("300 598 600 added", NONE, ""),
            ("301 600 602 found 300 walk 301", (1, 300, 1), ""),
            (
                "302 602 602 stat pages 5 inner 1 leaf 300 redirect 1 dead 0 placeholder 29 clock 1",
                NONE,
                "",
            ),
        ],
    },
    Filled {
        words: &["run"],
        class: "quad",
        count: 292,
        odd: "0,0",
        even: "1,0",
        behind: "find where eq 1,0\nfind where eq 0,0\nstat\n",
        ends: &[
            ("292 582 584 added", NONE, ""),
            ("293 584 586 found 146 walk 148", (2, 292, 2), ""),
            ("294 586 588 found 146 walk 147", (1, 291, 2), ""),
            (
                "295 588 588 stat pages 6 inner 2 leaf 292 redirect 1 dead 0 placeholder 16 clock 1",
                NONE,
                "",
            ),
        ],
    },
    Filled {
        words: &["run"],
        class: "kd",
        count: 292,
        odd: "N,5",
        even: "N,5",
        behind: "find where eq 100,5\n",
        ends: &[
            ("292 582 584 added", NONE, ""),
            ("293 584 586 found 1 walk 221", (100, 100, 1), ""),
        ],
    },
    Filled {
        words: &["run"],
        class: "quad",
        count: 292,
        odd: "-2147483648,-2147483648",
        even: "2147483647,2147483647",
        behind: "find where in -2147483648,-2147483648,2147483647,2147483647\nfind where left -2147483648\n",
        ends: &[
            ("292 582 584 added", NONE, ""),
            ("293 584 586 found 292 walk 294", (1, 292, 1), ""),
            ("294 586 588 found 0 walk 1", NONE, ""),
        ],
    },
    Filled {
        words: &["run"],
        class: "quad",
        count: 409,
        odd: "null",
        even: "null",
        behind: "find null\nfind all\nstat\n",
        ends: &[
            ("409 816 818 added", NONE, ""),
            ("410 818 820 found 409 walk 410", (1, 409, 1), ""),
            ("411 820 822 found 409 walk 410", (1, 409, 1), ""),
            (
                "412 822 822 stat pages 5 inner 1 leaf 409 redirect 1 dead 0 placeholder 50 clock 1",
                NONE,
                "",
            ),
        ],
    },
    Filled {
        words: &["run"],
        class: "radix",
        count: 292,
        odd: "\"abc\"",
        even: "\"abc\"",
        behind: "insert 2.1 \"\"\ninsert 2.2 \"a\"\ninsert 2.3 \"ab\"\ninsert 2.4 \"abx\"\ninsert 2.5 \"abcd\"\nfind where starts \"abc\"\nfind where lt \"ab\"\nstat\n",
        ends: &[
            ("292 582 584 added", NONE, ""),
            ("293 584 586 added", NONE, ""),
            ("294 586 588 added", NONE, ""),
            ("295 588 590 added", NONE, ""),
            ("296 590 592 added", NONE, ""),
            ("297 592 594 added", NONE, ""),
            ("298 594 596 found 293 walk 298", (1, 292, 1), " 2.5"),
            ("299 596 598 found 2 walk 4 2.1 2.2", NONE, ""),
            (
                "300 598 598 stat pages 6 inner 5 leaf 297 redirect 0 dead 0 placeholder 0 clock 0",
                NONE,
                "",
            ),
        ],
    },
    Filled {
        words: &["run", "--limit", "5"],
        class: "quad",
        count: 292,
        odd: "N,0",
        even: "N,0",
        behind: "find all\nstat\n",
        ends: &[
            ("292 582 584 full", NONE, ""),
            ("293 584 586 found 291 walk 292", (1, 291, 1), ""),
            (
                "294 586 586 stat pages 4 inner 1 leaf 291 redirect 0 dead 0 placeholder 0 clock 0",
                NONE,
                "",
            ),
        ],
    },
    Filled {
        words: &["run", "--limit=5"],
        class: "quad",
        count: 292,
        odd: "N,0",
        even: "N,0",
        behind: "stat\n",
        ends: &[
            ("292 582 584 full", NONE, ""),
            (
                "293 584 584 stat pages 4 inner 1 leaf 291 redirect 0 dead 0 placeholder 0 clock 0",
                NONE,
                "",
            ),
            ("journal 584", NONE, ""),
        ],
    },
    // A row whose insert was given up may be inserted again.
    Filled {
        words: &["run", "--limit", "5"],
        class: "quad",
        count: 292,
        odd: "N,0",
        even: "N,0",
        behind: "insert 1.292 null\ninsert 1.292 0,0\nfind null\nstat\n",
        ends: &[
            ("292 582 584 full", NONE, ""),
            ("293 584 586 added", NONE, ""),
            ("294 586 586 row used", NONE, ""),
            ("295 586 588 found 1 walk 1", (292, 292, 1), ""),
            (
                "296 588 588 stat pages 4 inner 1 leaf 292 redirect 0 dead 0 placeholder 0 clock 0",
                NONE,
                "",
            ),
        ],
    },
    // A vacuum sweeps two chains and lets a redirect go; a swept row is inserted again.
    Filled {
        words: &["run"],
        class: "quad",
        count: 300,
        odd: "0,0",
        even: "0,0",
        behind: "delete 1.1\ndelete 1.300\nstat\nvacuum\nstat\ninsert 1.1 0,0\nvacuum\nfind all\nstat\n",
        ends: &[
            ("300 598 600 added", NONE, ""),
            ("301 600 601 killed", NONE, ""),
            ("302 601 602 killed", NONE, ""),
            (
                "303 602 602 stat pages 5 inner 1 leaf 300 redirect 1 dead 0 placeholder 29 clock 1",
                NONE,
                "",
            ),
            ("304 602 606 vacuumed 2", NONE, ""),
            (
                "305 606 606 stat pages 5 inner 1 leaf 298 redirect 0 dead 0 placeholder 31 clock 1",
                NONE,
                "",
            ),
            ("306 606 608 added", NONE, ""),
            ("307 608 610 vacuumed 0", NONE, ""),
            ("308 610 612 found 299 walk 300", (1, 299, 1), ""),
            (
                "309 612 612 stat pages 5 inner 1 leaf 299 redirect 0 dead 0 placeholder 30 clock 1",
                NONE,
                "",
            ),
        ],
    },
    // A leaf has 32 bytes, so 226 of them fill the root page.
    Filled {
        words: &["run"],
        class: "quad value",
        count: 227,
        odd: "N,0 value N",
        even: "N,0 value N",
        behind: "find where eq 227,0\nstat\n",
        ends: &[
            ("227 452 454 added", NONE, ""),
            ("228 454 456 found 1 walk 59 1.227=227", NONE, ""),
            (
                "229 456 456 stat pages 6 inner 2 leaf 227 redirect 1 dead 0 placeholder 55 clock 1",
                NONE,
                "",
            ),
        ],
    },
    Filled {
        words: &["run"],
        class: "range",
        count: 292,
        odd: "[N,N]",
        even: "[N,N]",
        behind: "find where left [100,100]\nstat\n",
        ends: &[
            ("292 582 584 added", NONE, ""),
            ("293 584 586 found 99 walk 147", (1, 99, 1), ""),
            (
                "294 586 586 stat pages 6 inner 2 leaf 292 redirect 1 dead 0 placeholder 71 clock 1",
                NONE,
                "",
            ),
        ],
    },
];

fn push_inserts(alloc: Global, script: &mut String, filled: &Filled) -> Result<(), AllocError> {
    for number in 1..=filled.count {
        let key = if number % 2 == 1 {
            filled.odd
        } else {
            filled.even
        };
        push_insert(alloc, script, key, u32::from(number))?;
    }
    Ok(())
}

fn script_of(alloc: Global, filled: &Filled) -> Result<String, AllocError> {
    let mut script = String::from_str(alloc, "class ")?;
    script.push_str(filled.class)?;
    script.push_str("\n")?;
    push_inserts(alloc, &mut script, filled)?;
    script.push_str(filled.behind)?;
    Ok(script)
}

/// Puts the rows of a line behind its start.
fn push_rows(alloc: Global, told: &mut String, rows: (u16, u16, u16)) -> Result<(), AllocError> {
    let (from, to, apart) = rows;
    for number in from..=to {
        if (number - from).checked_rem(apart) == Some(0) {
            push_numbered(alloc, told, " 1.N", u32::from(number))?;
        }
    }
    Ok(())
}

fn line_of(alloc: Global, line: Line) -> Result<String, AllocError> {
    let (start, rows, end) = line;
    let mut told = String::from_str(alloc, start)?;
    push_rows(alloc, &mut told, rows)?;
    told.push_str(end)?;
    Ok(told)
}

/// Whether a text has this line, counted from 0.
fn has_line(alloc: Global, text: &[u8], number: usize, line: Line) -> Result<bool, AllocError> {
    let line = line_of(alloc, line)?;
    Ok(is_line(text, number, line.as_str()))
}

/// Whether the lines from the result of the last insert on are these.
fn ends_so(alloc: Global, text: &[u8], filled: &Filled) -> Result<bool, AllocError> {
    let first = usize::from(filled.count).saturating_sub(1);
    for (line, number) in filled.ends.iter().zip(first..) {
        if !has_line(alloc, text, number, *line)? {
            return Ok(false);
        }
    }
    Ok(true)
}

/// Whether a run that fills pages comes to its end, with the lines that are told of it.
fn fills_so<R: AllocGlobal + Threads + Wait + Sync>(
    rt: &R,
    filled: &Filled,
) -> Result<bool, Memory> {
    let script = script_of(rt.alloc(), filled)?;
    match done(rt, filled.words, script.as_str())? {
        Some(text) => Ok(ends_so(rt.alloc(), text.as_slice(), filled)?),
        None => Ok(false),
    }
}

#[test]
fn fills_pages(rt: HostRuntime) -> Result<(), Fail> {
    for filled in &FILLED {
        assert!(rt; fills_so(&rt, filled)?);
    }
    Ok(())
}
