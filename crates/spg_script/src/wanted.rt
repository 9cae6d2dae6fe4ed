/// What would have fitted where a script goes wrong.
#[derive(Clone, Copy, Debug, PartialEq, Eq)]
pub enum Wanted {
    /// The line that names the class.
    ClassLine,
    /// A command, or `together`.
    Command,
    /// An insert: a script of inserts has no other command.
    Insert,
    /// A command of a script for a standby: one that inserts, deletes, finds or is a vacuum.
    StandbyCommand,
    /// `lane` and `end` stand in a block alone.
    Together,
    /// A block begins with `lane`.
    FirstLane,
    /// A command of a lane, `lane` or `end`.
    LaneCommand,
    /// `save`, `stat` and `near` stand in no lane.
    NoLane,
    /// A block has 32 lanes already.
    FewerLanes,
    /// The script ends inside a block.
    EndOfBlock,
    /// The row of an insert.
    InsertRow,
    /// The row of a delete.
    DeleteRow,
    /// A key of a class of points.
    PointKey,
    /// A key of a class of texts.
    TextKey,
    /// A key of a class of points with a number beside each.
    PointValueKey,
    /// A key of a class of texts with a number beside each.
    TextValueKey,
    /// A key of a class of ranges.
    RangeKey,
    /// A query.
    Query,
    /// A condition on points.
    PointCondition,
    /// A rectangle whose corners are in order.
    RectangleInOrder,
    /// Another condition, or the end of the line.
    And,
    /// A query has eight conditions already.
    FewerConditions,
    /// Conditions on texts.
    TextConditions,
    /// Conditions on ranges.
    RangeConditions,
    /// A name to save under.
    Name,
    /// A point and a number of rows, in a class of points without numbers.
    Near,
}

impl Wanted {
    /// The words that tell it.
    pub fn words(self) -> &'static str {
        match self {
            Wanted::ClassLine => {
                "class quad, class kd, class radix, one of these with value behind it, or class range is wanted"
            }
            Wanted::Command => {
                "insert, find, near, delete, vacuum, save, stat or together is wanted"
            }
            Wanted::Insert => "build: insert B.O KEY is wanted",
            Wanted::StandbyCommand => "standby: insert, find, delete or vacuum is wanted",
            Wanted::Together => "lane and end stand behind together alone",
            Wanted::FirstLane => "together: lane is wanted",
            Wanted::LaneCommand => "insert, find, delete, vacuum, lane or end is wanted",
            Wanted::NoLane => "save, stat and near stand in no lane",
            Wanted::FewerLanes => "lane: a block has at most 32 lanes",
            Wanted::EndOfBlock => "the script ends inside a block: its line end is missing",
            Wanted::InsertRow => "insert B.O KEY: a row B.O is wanted, O from 1 to 65535",
            Wanted::DeleteRow => "delete B.O: a row B.O is wanted, O from 1 to 65535",
            Wanted::PointKey => "insert B.O KEY: a point X,Y or null is wanted",
            Wanted::TextKey => {
                "insert B.O KEY: a text between quotes, of at most 3900 bytes, or null is wanted"
            }
            Wanted::PointValueKey => {
                "insert B.O KEY: X,Y value N, N from 0 to 18446744073709551615, or null is wanted"
            }
            Wanted::TextValueKey => {
                "insert B.O KEY: T value N, T a text between quotes, of at most 3900 bytes, N from 0 to 18446744073709551615, or null is wanted"
            }
            Wanted::RangeKey => {
                "insert B.O KEY: a range [LO,HI], LO at most HI, empty or null is wanted"
            }
            Wanted::Query => "find QUERY: all, null or where is wanted",
            Wanted::PointCondition => {
                "find where: eq X,Y, left X, right X, below Y, above Y or in X1,Y1,X2,Y2 is wanted"
            }
            Wanted::RectangleInOrder => {
                "find where in X1,Y1,X2,Y2: X1 is at most X2, and Y1 at most Y2"
            }
            Wanted::And => "find where: and is wanted behind a condition, or the end of the line",
            Wanted::FewerConditions => "find where: a query has at most 8 conditions",
            Wanted::TextConditions => {
                "find where: at most 8 of eq T, lt T, le T, gt T, ge T and starts T are wanted, T a text between quotes"
            }
            Wanted::RangeConditions => {
                "find where: at most 8 of eq R, overlap R, contains R, within R, left R and right R are wanted, R a range [LO,HI], LO at most HI, or empty"
            }
            Wanted::Name => {
                "save NAME: 1 to 64 of a to z, 0 to 9, _, - and . are wanted, the first no - or ."
            }
            Wanted::Near => {
                "near X,Y N: a point X,Y and N from 1 to 65535 are wanted, in class quad or class kd"
            }
        }
    }
}
