ghost use Rattle.std.specs.Prelude.{◌≡◌, ◌<◌, [], ℕ, List as Items, length, vec_len, slice_index_or, IfOk};
ghost use Rattle.spg_script.specs.declared.command.Command.{Command as Asked};
ghost use Rattle.spg_perform.specs.Posts.{IsVacant};

use spg_base::{List, Memory};
use spg_commands::Gate;
use spg_opclass::OpClass;
use spg_report::Record;
use spg_script::Command;
use spg_share::Lane;
use std::alloc::Global;

/// Where a lane works: its commands, and room for the records of all of them.
#[derive(Drop)]
pub(crate) struct Post<'a, G> {
    pub(crate) alloc: Global,
    pub(crate) gate: &'a G,
    /// Which lane it is, counted from 0.
    pub(crate) number: u8,
    pub(crate) commands: &'a [Command],
    pub(crate) records: Vec<Record>,
}

/// A post for each lane.
pub(crate) fn posts_for<'a, O: OpClass, G: Gate>(
    alloc: Global,
    lanes: &'a [List<Command>],
    gate: &'a G,
) -> Result<Vec<Lane<O, Post<'a, G>>>, Memory>
    ensures count { IfOk result (λ posts. vec_len posts ≡ length lanes.now) }
    ensures vacant { IfOk result (λ posts. (i : ℕ) (d : _) (c : Items Asked) → i < length lanes.now → IsVacant (slice_index_or lanes.now i c) (slice_index_or posts.items i d).task) }
{
    let mut posts = Vec::with_capacity(alloc, lanes.len())?;
    for lane in lanes {
        let number = u8::try_from(posts.len()).unwrap_or(u8::MAX);
        let records = Vec::with_capacity(alloc, lane.len())?;
        posts.push(Lane::new(Post {
            alloc,
            gate,
            number,
            commands: lane.as_slice(),
            records,
        }))?;
    }
    Ok(posts)
}
