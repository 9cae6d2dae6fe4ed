// A scan of a standby that is read to its end.
ghost use Rattle.std.specs.Prelude.{◌≡◌, None, IfOk, OnOk};
ghost use Rattle.spg_standby.specs.Pair.{IsPaired};
ghost use Rattle.spg_standby.specs.Standing.{scan_at, with_scan, IsReadIn};
ghost use Rattle.spg_standby.specs.Finding.{Finishes, IsOpenIn, ReadsOn};

use crate::catching::end;
use crate::follower::Follower;
use crate::queue::Queue;
use spg_base::{Memory, SeatNo};
use spg_core::State;
use spg_opclass::OpClass;
use spg_scan::Closed;

/// Reads what a scan of the follower holds, the first item first, until it holds nothing. No record is
/// applied, so each read leaves fewer to do.
fn read_out<O: OpClass>(
    state: &State<O>,
    follower: &mut Follower<O>,
    queue: &Queue,
    seat: SeatNo,
) -> Result<(), Memory>
    requires paired { IsPaired O.meaning state.now follower.old queue.now.records.items }
    requires scans { IsOpenIn (scan_at follower.old seat) }
    ensures paired { IsPaired O.meaning state.now follower.new queue.now.records.items }
    ensures keeps { ReadsOn follower.old follower.new seat }
    ensures rest { with_scan follower.new seat None ≡ with_scan follower.old seat None }
    ensures read { OnOk result (IsReadIn (scan_at follower.new seat)) }
{
    loop {
        if follower.held(seat) == 0 {
            return Ok(());
        }
        follower.read(seat, 0)?;
    }
}

/// Reads the scan of a seat to its end, where it has one open, and gives its rows.
fn gather<O: OpClass>(
    state: &State<O>,
    follower: &mut Follower<O>,
    queue: &Queue,
    seat: SeatNo,
) -> Result<Option<Closed>, Memory>
    requires paired { IsPaired O.meaning state.now follower.old queue.now.records.items }
    ensures paired { IsPaired O.meaning state.now follower.new queue.now.records.items }
    ensures rest { with_scan follower.new seat None ≡ with_scan follower.old seat None }
    ensures ok { IfOk result (λ out. Finishes O.meaning state.now.journal follower.old.applied (scan_at follower.old seat) out) }
{
    let open = follower.is_open(seat);
    if open {
        read_out(state, follower, queue, seat)?;
        let closed = follower.close(seat)?;
        return Ok(Some(closed));
    }
    Ok(None)
}

/// Reads the scan of a seat to its end, and ends it, also where there is no memory. None where the seat has
/// none open.
pub(crate) fn finish<O: OpClass>(
    state: &State<O>,
    follower: &mut Follower<O>,
    queue: &Queue,
    seat: SeatNo,
) -> Result<Option<Closed>, Memory>
    requires paired { IsPaired O.meaning state.now follower.old queue.now.records.items }
    ensures paired { IsPaired O.meaning state.now follower.new queue.now.records.items }
    ensures ok { IfOk result (λ out. Finishes O.meaning state.now.journal follower.old.applied (scan_at follower.old seat) out) }
    ensures ended { follower.new ≡ with_scan follower.old seat None }
{
    let out = gather(state, follower, queue, seat);
    end(state, follower, queue, seat);
    out
}
