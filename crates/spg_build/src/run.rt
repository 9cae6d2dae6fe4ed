ghost use Rattle.std.specs.Prelude.{◌≡◌, ◌<◌, ◌≤◌, ◌^◌, ◌-◌, min, ℕ, length, vec_len, slice_index_or, get_or, IfOk};
ghost use Rattle.std.specs.List.{AllByRecursion};
ghost use Rattle.spg_build.specs.Lots.{IsLot};
ghost use Rattle.spg_build.specs.Posts.{groups_at, IsParted, IsPosted};
ghost use Rattle.spg_build.specs.Runs.{posts_in, values_in, AreToPart, AreParted, PartsOne};

use crate::division::piece_of;
use crate::lot::{Group, Piece};
use spg_base::{List, Memory};
use spg_opclass::{OpClass, SharedClass};
use std::alloc::Global;
use std::thread;
use std::thread::Threads;

/// Where a group is divided: the group, and what is made of it.
#[derive(Drop)]
pub(crate) struct Post<R> {
    pub(crate) group: Group<R>,
    pub(crate) piece: Option<Piece<R>>,
}

/// The posts of groups that follow one another, which one worker divides.
#[derive(Drop)]
pub(crate) struct Run<R> {
    pub(crate) posts: Vec<Post<R>>,
}

/// How many values groups have, as far as a number goes.
fn values_in<R>(groups: &[Group<R>]) -> usize
    ensures { result ≡ min (values_in groups.now) (2 ^ 64 - 1) }
{
    let mut values: usize = 0;
    for group in groups {
        values = values.saturating_add(group.lot.rows.len());
    }
    values
}

/// The groups of a round in at most as many runs as there are workers. A group goes to the worker in whose
/// share of the values its middle lies, so that a run has at most one share and two halves of groups.
fn runs_for<R: Drop>(
    alloc: Global,
    round: List<Group<R>>,
    workers: u8,
) -> Result<Vec<Run<R>>, Memory>
    requires { 0 < workers }
    ensures groups { IfOk result (λ runs. groups_at (posts_in runs.items) ≡ round) }
    ensures few { IfOk result (λ runs. vec_len runs ≤ workers) }
{
    let share = values_in(round.as_slice())
        .div_ceil(workers as usize)
        .max(1);
    let last = workers as usize - 1;
    let mut runs = Vec::with_capacity(alloc, workers as usize)?;
    let mut posts = Vec::new(alloc);
    let mut worker = 0;
    let mut before: usize = 0;
    for group in round.into_vec() {
        let values = group.lot.rows.len();
        let middle = before.saturating_add(values / 2);
        before = before.saturating_add(values);
        let wanted = last.min(middle / share);
        if worker < wanted {
            worker = wanted;
            runs.push(Run { posts })?;
            posts = Vec::new(alloc);
        }
        posts.push(Post { group, piece: None })?;
    }
    runs.push(Run { posts })?;
    Ok(runs)
}

/// Divides the group of a post; nothing is made of it where memory is short.
fn part_post<O: OpClass>(alloc: Global, class: &O, post: &mut Post<O::Recon>)
    requires { IsLot O.meaning post.old.group.lot }
    ensures { IsParted O.meaning post.old post.new }
{
    post.piece = piece_of(alloc, class, &post.group.lot).ok();
}

/// Divides the group of one of several posts.
fn part_at<O: OpClass>(alloc: Global, class: &O, posts: &mut Vec<Post<O::Recon>>, index: usize)
    requires there { index < vec_len posts.old }
    requires lot { (d : _) → IsLot O.meaning (get_or posts.old.items index d).group.lot }
    ensures count { vec_len posts.new ≡ vec_len posts.old }
    ensures one { PartsOne O.meaning posts.old.items posts.new.items index }
{
    part_post(alloc, class, &mut posts[index]);
}

/// Divides the groups of posts, one after another.
fn part_posts<O: OpClass>(alloc: Global, class: &O, posts: &mut Vec<Post<O::Recon>>)
    requires { AreToPart O.meaning posts.old.items }
    ensures { AreParted O.meaning posts.old.items posts.new.items }
{
    for index in 0..posts.len() {
        part_at(alloc, class, posts, index);
    }
}

/// Divides the groups of each run, the runs beside each other.
fn part_runs<R: Threads + Sync, O: SharedClass>(
    rt: &R,
    alloc: Global,
    class: &O,
    runs: &mut [Run<O::Recon>],
    workers: u8,
)
    requires workers { 0 < workers }
    requires lots { (i : ℕ) (d : _) → i < length runs.old → AreToPart O.meaning (slice_index_or runs.old i d).posts.items }
    ensures { (i : ℕ) (d : _) → i < length runs.old → AreParted O.meaning (slice_index_or runs.old i d).posts.items (slice_index_or runs.new i d).posts.items }
{
    let part = |_i: usize, run: &mut Run<O::Recon>|
        requires { AreToPart O.meaning run.old.posts.items }
        ensures { AreParted O.meaning run.old.posts.items run.new.posts.items }
    { part_posts(alloc, class, &mut run.posts) };
    thread::for_each_mut(rt, runs, workers as usize, &part);
}

/// The posts of all runs, in the order of the runs.
fn join_runs<R: Drop>(alloc: Global, runs: Vec<Run<R>>) -> Result<Vec<Post<R>>, Memory>
    ensures { IfOk result (λ posts. posts.items ≡ posts_in runs.items) }
{
    let mut posts = Vec::new(alloc);
    for run in runs {
        let Run { posts: mut more } = run;
        posts.append(&mut more)?;
    }
    Ok(posts)
}

/// Divides the groups of a round beside each other by so many workers. The posts have their order.
pub(crate) fn part_round<R: Threads + Sync, O: SharedClass>(
    rt: &R,
    alloc: Global,
    class: &O,
    round: List<Group<O::Recon>>,
    workers: u8,
) -> Result<Vec<Post<O::Recon>>, Memory>
    requires workers { 0 < workers }
    requires lots { AllByRecursion (λ g. IsLot O.meaning g.lot) round }
    ensures groups { IfOk result (λ posts. groups_at posts.items ≡ round) }
    ensures posted { IfOk result (λ posts. AllByRecursion (IsPosted O.meaning) posts.items) }
{
    let mut runs = runs_for(alloc, round, workers)?;
    part_runs(rt, alloc, class, &mut runs, workers);
    join_runs(alloc, runs)
}
