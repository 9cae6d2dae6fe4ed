// The sections of a scan, on the index that a turn lends.
ghost use Rattle.std.specs.Prelude.{◌≡◌, OnOk};
ghost use Rattle.spg_core.specs.Seen.{stage_at};
ghost use Rattle.spg_core.specs.Stage.{IsReading};
ghost use Rattle.spg_desk.specs.Acting.{Adds, readings};
ghost use Rattle.spg_desk.specs.Progress.{ReadsOn, SiftsOn};
ghost use Rattle.spg_desk.specs.declared.ended.Read.TheVariants.{Refused as Gives};

use crate::ended::Read;
use spg_base::{Memory, SeatNo};
use spg_core::{Bare, OpenKind, ScanCopy, SiftRefused};
use spg_opclass::{OpClass, Sifted};
use spg_rows::Why;

/// Gives the scan up.
fn refuse<O: OpClass>(bare: &mut Bare<O>, seat: SeatNo) -> Read<O>
    requires reading { IsReading (stage_at bare.old seat) }
    ensures adds { Adds bare.old bare.new (readings seat result) }
    ensures refused { result ≡ Gives }
{
    bare.abandon(seat, Why::Given);
    Read::Refused
}

/// Closes the seat's scan where it holds nothing more, and else reads or copies what it holds last.
/// After a refusal the scan is given up. It goes on only where an item was read or copied, or another
/// seat holds its block.
pub(crate) fn read_on<O: OpClass>(bare: &mut Bare<O>, seat: SeatNo) -> Read<O>
    requires reading { IsReading (stage_at bare.old seat) }
    ensures adds { Adds bare.old bare.new (readings seat result) }
    ensures on { ReadsOn O.meaning bare.old bare.new seat result }
{
    let OpenKind::Scan { held } = bare.open_of(seat) else {
        unreachable!()
    };
    if held == 0 {
        return match bare.close_scan(seat) {
            Ok(closed) => Read::Closed(closed.rows),
            Err(Memory) => refuse(bare, seat),
        };
    }
    let item = held - 1;
    match bare.scan_copy(seat, item) {
        Ok(ScanCopy::Read) => Read::On,
        Ok(ScanCopy::Latched { .. }) => Read::On,
        Ok(ScanCopy::Sift(copied)) => Read::Sift { item, copied },
        Err(Memory) => refuse(bare, seat),
    }
}

/// Takes in what the class sifted of the copy of an item. One that was changed meanwhile is read
/// again. After another refusal the scan is given up.
pub(crate) fn sift_on<O: OpClass>(
    bare: &mut Bare<O>,
    seat: SeatNo,
    item: usize,
    sifted: &Sifted<O>,
) -> Read<O>
    requires reading { IsReading (stage_at bare.old seat) }
    ensures adds { Adds bare.old bare.new (readings seat result) }
    ensures on { SiftsOn O.meaning bare.old bare.new seat item sifted.now result }
{
    match bare.scan_sifted(seat, item, sifted) {
        Ok(()) | Err(SiftRefused::Changed) => Read::On,
        Err(SiftRefused::Memory) => refuse(bare, seat),
    }
}
