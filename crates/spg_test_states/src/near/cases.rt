// Searches, and what comes of them.
use crate::near::lines::{CHAINS, DELETED, LONG};
use crate::near::turns::Turn;
use spg_base::Point;

/// What another seat does before a search and between its reads; how many rows the search gives, None
/// where it comes to a block that the other seat holds; the first of these rows, 1.N with its distance;
/// and how many inner tuples and redirects there are then, in a quad tree and in a k-d tree.
#[derive(Clone, Copy)]
pub(crate) struct Case {
    pub(crate) before: &'static [Turn],
    pub(crate) target: Point,
    pub(crate) limit: u16,
    pub(crate) between: &'static [Turn],
    pub(crate) count: Option<usize>,
    pub(crate) rows: &'static [(u16, u128)],
    pub(crate) quad: (u64, u64),
    pub(crate) kd: (u64, u64),
}

pub(crate) const CASES: [Case; 18] = [
    // Points of one page, the nearest last.
    Case {
        before: &[Turn::Insert {
            row: 1,
            x: 0,
            y: 0,
            by: 1,
            count: 10,
        }],
        target: Point { x: 10, y: 0 },
        limit: 3,
        between: &[],
        count: Some(3),
        rows: &[(10, 1), (9, 4), (8, 9)],
        quad: (0, 0),
        kd: (0, 0),
    },
    // Equal points: rows decide, and not the order of inserts.
    Case {
        before: &[
            Turn::Insert {
                row: 9,
                x: 5,
                y: 5,
                by: 0,
                count: 1,
            },
            Turn::Insert {
                row: 3,
                x: 5,
                y: 5,
                by: 0,
                count: 1,
            },
            Turn::Insert {
                row: 1,
                x: 5,
                y: 5,
                by: 0,
                count: 1,
            },
        ],
        target: Point { x: 5, y: 5 },
        limit: 2,
        between: &[],
        count: Some(2),
        rows: &[(1, 0), (3, 0)],
        quad: (0, 0),
        kd: (0, 0),
    },
    // One null, and no point.
    Case {
        before: &[Turn::Null { row: 1 }],
        target: Point { x: 0, y: 0 },
        limit: 1,
        between: &[],
        count: Some(0),
        rows: &[],
        quad: (0, 0),
        kd: (0, 0),
    },
    // The corners of the plane and a null; more are wanted than there are.
    Case {
        before: &[
            Turn::Insert {
                row: 1,
                x: -2147483648,
                y: -2147483648,
                by: 0,
                count: 1,
            },
            Turn::Insert {
                row: 2,
                x: -2147483648,
                y: 2147483647,
                by: 0,
                count: 1,
            },
            Turn::Insert {
                row: 3,
                x: 2147483647,
                y: -2147483648,
                by: 0,
                count: 1,
            },
            Turn::Insert {
                row: 4,
                x: 2147483647,
                y: 2147483647,
                by: 0,
                count: 1,
            },
            Turn::Null { row: 5 },
        ],
        target: Point {
            x: 2147483647,
            y: 2147483647,
        },
        limit: 65535,
        between: &[Turn::Wait],
        count: Some(4),
        rows: &[
            (4, 0),
            (2, 18446744065119617025),
            (3, 18446744065119617025),
            (1, 36893488130239234050),
        ],
        quad: (0, 0),
        kd: (0, 0),
    },
    // A line of points in many chains.
    Case {
        before: &[Turn::Insert {
            row: 1,
            x: 0,
            y: 0,
            by: 1,
            count: 400,
        }],
        target: Point { x: 10, y: 0 },
        limit: 4,
        between: &[],
        count: Some(4),
        rows: &[(11, 0), (10, 1), (12, 1), (9, 4)],
        quad: (3, 2),
        kd: (2, 1),
    },
    // A tuple that is all-the-same.
    Case {
        before: &[Turn::Insert {
            row: 1,
            x: 7,
            y: 7,
            by: 0,
            count: 500,
        }],
        target: Point { x: 7, y: 8 },
        limit: 3,
        between: &[Turn::Wait, Turn::Wait],
        count: Some(3),
        rows: &[(1, 1), (2, 1), (3, 1)],
        quad: (1, 4),
        kd: (2, 1),
    },
    // A nearer point is inserted below it after it was read.
    Case {
        before: &[Turn::Insert {
            row: 1,
            x: 7,
            y: 7,
            by: 0,
            count: 500,
        }],
        target: Point { x: 7, y: 8 },
        limit: 3,
        between: &[
            Turn::Wait,
            Turn::Insert {
                row: 600,
                x: 7,
                y: 8,
                by: 0,
                count: 1,
            },
        ],
        count: Some(3),
        rows: &[(600, 0), (1, 1), (2, 1)],
        quad: (1, 4),
        kd: (2, 1),
    },
    // Four chains. Nobody else works.
    Case {
        before: &CHAINS,
        target: Point { x: 1010, y: 1000 },
        limit: 4,
        between: &[],
        count: Some(4),
        rows: &[(11, 0), (10, 1), (12, 1), (9, 4)],
        quad: (1, 1),
        kd: (2, 1),
    },
    // The nearest chain, which is held, moves.
    Case {
        before: &CHAINS,
        target: Point { x: 1010, y: 1000 },
        limit: 4,
        between: &[
            Turn::Wait,
            Turn::Insert {
                row: 600,
                x: 1000,
                y: 1001,
                by: 1,
                count: 40,
            },
        ],
        count: Some(4),
        rows: &[(11, 0), (10, 1), (12, 1), (610, 1)],
        quad: (1, 2),
        kd: (2, 1),
    },
    // The same, and a vacuum comes between the move and the read.
    Case {
        before: &CHAINS,
        target: Point { x: 1010, y: 1000 },
        limit: 4,
        between: &[
            Turn::Wait,
            Turn::InsertAndVacuum {
                row: 600,
                x: 1000,
                y: 1001,
                by: 1,
                count: 40,
            },
        ],
        count: Some(4),
        rows: &[(11, 0), (10, 1), (12, 1), (610, 1)],
        quad: (1, 1),
        kd: (2, 0),
    },
    // Points come nearer, and neither moves nor divides anything.
    Case {
        before: &CHAINS,
        target: Point { x: 1010, y: 1000 },
        limit: 4,
        between: &[
            Turn::Wait,
            Turn::Insert {
                row: 600,
                x: 1010,
                y: 1000,
                by: 0,
                count: 2,
            },
        ],
        count: Some(4),
        rows: &[(11, 0), (600, 0), (601, 0), (10, 1)],
        quad: (1, 1),
        kd: (2, 1),
    },
    // Four chains, the nearest of 100 points. Nobody else works.
    Case {
        before: &LONG,
        target: Point { x: 1010, y: 1000 },
        limit: 4,
        between: &[],
        count: Some(4),
        rows: &[(11, 0), (10, 1), (12, 1), (9, 4)],
        quad: (1, 1),
        kd: (2, 1),
    },
    // The nearest chain, which is held, is divided.
    Case {
        before: &LONG,
        target: Point { x: 1010, y: 1000 },
        limit: 4,
        between: &[
            Turn::Wait,
            Turn::Insert {
                row: 600,
                x: 1000,
                y: 1001,
                by: 1,
                count: 60,
            },
        ],
        count: Some(4),
        rows: &[(11, 0), (10, 1), (12, 1), (610, 1)],
        quad: (2, 2),
        kd: (3, 2),
    },
    // The same, and a vacuum comes before the last reads: it leaves the redirect of that division.
    Case {
        before: &LONG,
        target: Point { x: 1010, y: 1000 },
        limit: 4,
        between: &[
            Turn::Wait,
            Turn::Insert {
                row: 600,
                x: 1000,
                y: 1001,
                by: 1,
                count: 60,
            },
            Turn::Vacuum,
        ],
        count: Some(4),
        rows: &[(11, 0), (10, 1), (12, 1), (610, 1)],
        quad: (2, 1),
        kd: (3, 1),
    },
    // Deleted rows are vacuumed.
    Case {
        before: &DELETED,
        target: Point { x: 1010, y: 1000 },
        limit: 3,
        between: &[Turn::Vacuum],
        count: Some(3),
        rows: &[(10, 1), (12, 1), (9, 4)],
        quad: (1, 0),
        kd: (2, 0),
    },
    // The same, and one more is deleted before its chain is read.
    Case {
        before: &DELETED,
        target: Point { x: 1010, y: 1000 },
        limit: 3,
        between: &[Turn::Vacuum, Turn::Kill { row: 10 }],
        count: Some(3),
        rows: &[(12, 1), (9, 4), (13, 4)],
        quad: (1, 0),
        kd: (2, 0),
    },
    // More are wanted than the nearest chain has.
    Case {
        before: &CHAINS,
        target: Point { x: 1010, y: 1000 },
        limit: 31,
        between: &[Turn::Wait, Turn::Vacuum],
        count: Some(31),
        rows: &[(11, 0), (10, 1), (12, 1), (9, 4)],
        quad: (1, 0),
        kd: (2, 0),
    },
    // Another seat inserts, and holds the root.
    Case {
        before: &[Turn::Insert {
            row: 1,
            x: 0,
            y: 0,
            by: 1,
            count: 10,
        }],
        target: Point { x: 10, y: 0 },
        limit: 3,
        between: &[Turn::Begin {
            row: 100,
            x: 0,
            y: 0,
        }],
        count: None,
        rows: &[],
        quad: (0, 0),
        kd: (0, 0),
    },
];
