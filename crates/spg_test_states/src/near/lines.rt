//! Lines of points, each of which is a chain.

use crate::near::turns::Turn;

/// Four lines of points, in a quad tree four chains of one inner tuple: the first of 30 points.
pub(crate) const CHAINS: [Turn; 4] = [
    Turn::Insert {
        row: 1,
        x: 1000,
        y: 1000,
        by: 1,
        count: 30,
    },
    Turn::Insert {
        row: 31,
        x: -1300,
        y: 1000,
        by: 1,
        count: 200,
    },
    Turn::Insert {
        row: 231,
        x: -1000,
        y: -1000,
        by: 1,
        count: 30,
    },
    Turn::Insert {
        row: 261,
        x: 1000,
        y: -1000,
        by: 1,
        count: 100,
    },
];

/// The same, the first chain of 100 points.
pub(crate) const LONG: [Turn; 4] = [
    Turn::Insert {
        row: 1,
        x: 1000,
        y: 1000,
        by: 1,
        count: 100,
    },
    Turn::Insert {
        row: 101,
        x: -1300,
        y: 1000,
        by: 1,
        count: 150,
    },
    Turn::Insert {
        row: 251,
        x: -1000,
        y: -1000,
        by: 1,
        count: 30,
    },
    Turn::Insert {
        row: 281,
        x: 1000,
        y: -1000,
        by: 1,
        count: 100,
    },
];

/// The first, with three rows deleted.
pub(crate) const DELETED: [Turn; 7] = [
    Turn::Insert {
        row: 1,
        x: 1000,
        y: 1000,
        by: 1,
        count: 30,
    },
    Turn::Insert {
        row: 31,
        x: -1300,
        y: 1000,
        by: 1,
        count: 200,
    },
    Turn::Insert {
        row: 231,
        x: -1000,
        y: -1000,
        by: 1,
        count: 30,
    },
    Turn::Insert {
        row: 261,
        x: 1000,
        y: -1000,
        by: 1,
        count: 100,
    },
    Turn::Kill { row: 1 },
    Turn::Kill { row: 2 },
    Turn::Kill { row: 11 },
];
