//! An SP-GiST index to embed: rows, each with a point, a text, a range or a null for its key, found by what their keys
//! are. All that an embedder needs is here under one name; docs/EMBEDDING.md shows each call.
//!
//! An `Index` belongs to one owner, and its calls are whole: `insert`, `delete`, `find`, `vacuum`. `near` gives the rows
//! nearest to a point, `find_some` and `Reader` search an index that many threads read, `save` and `load_index` write and
//! read images, `build_index` makes an index of many rows at once, `renew` begins a journal anew.
//! Threads share it by the crate `spg_share`. A class is `Quad` or `Kd` for points, `Radix` for texts, `With` one of these
//! and a number beside each key, or `Ranges` for ranges of whole numbers; docs/CLASSES.md tells how another one is made.
#![tactic(auto)]

mod builds;
mod images;
mod nearest;
mod queries;
mod renews;
mod texts;

pub use builds::build_index;
pub use images::load_index;
pub use nearest::near;
pub use queries::{DEFAULT_LIMIT, equal, one, prefix, within};
pub use renews::renew;
pub use spg_among::{Between, Idle, NearOut, near_among};
pub use spg_base::{
    Block, Bytes, Failed, Labels, List, Memory, Origin, Place, Point, PointCond, Row, Rows, Same,
    SeatNo, Span, Stamp, Stat,
};
pub use spg_build::{BuildRefused, Entry, Gathered, build};
pub use spg_clauses::{Fault, Reason};
pub use spg_core::{
    InsertOut, OpenKind, OpenRefused, ReadOut, State, StepRefused, VacuumOut, VacuumRefused,
};
pub use spg_image::{ImageRefused, SaveRefused, Verified, load, save, verify};
pub use spg_io::{FolderImages, Images, IoRefused};
pub use spg_kd::Kd;
pub use spg_near::{NearClass, NearRow};
pub use spg_opclass::{
    Choice, InnerRef, InnerView, OpClass, Picked, Query, SharedClass, TakesValue, With, WithKey,
};
pub use spg_peek::{Reader, find_some};
pub use spg_quad::Quad;
pub use spg_radix::{ByteText, Radix, TextCond};
pub use spg_range::{Range32, RangeCond, Ranges};
pub use spg_rows::{Event, Journal, Why};
pub use spg_tree::PageTable;
pub use spg_whole::{Closed, Index, InsertRefused, delete, find, insert, vacuum};
pub use texts::{TextRefused, text};
