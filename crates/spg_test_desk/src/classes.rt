ghost use Rattle.std.specs.Prelude.{◌≡◌, IfOk};

use crate::watched::{Flags, Watched, is_set, set};
use spg_base::Memory;
use spg_core::State;
use spg_desk::Desk;
use spg_opclass::OpClass;
use std::alloc::Global;
use std::test::Fail;

/// The classes of an index that is made with this class, of a desk over it, and of the index that the
/// desk gives back.
fn classes_of<O: OpClass>(alloc: Global, class: O) -> Result<(O, O, O), Memory>
    ensures made { IfOk result (λ found. found.0 ≡ class) }
    ensures shared { IfOk result (λ found. found.1 ≡ class) }
    ensures back { IfOk result (λ found. found.2 ≡ class) }
{
    let state = State::new(alloc, class, 4)?;
    let made = *state.class();
    match Desk::new(alloc, state, 1) {
        Ok((desk, first)) => {
            let shared = *desk.class();
            let back = desk.close(first);
            Ok((made, shared, *back.class()))
        }
        Err((_, memory)) => Err(memory),
    }
}

#[test]
fn an_index_a_desk_and_what_it_gives_back_have_one_class(rt: HostRuntime) -> Result<(), Fail> {
    let alloc = rt.alloc();
    let flags = Flags::new(alloc)?;
    let (made, shared, back) = classes_of(alloc, Watched { flags })?;
    set(&made.flags.asked);
    set(&shared.flags.put);
    set(&back.flags.answered);
    assert!(rt; is_set(&flags.asked));
    assert!(rt; is_set(&flags.put));
    assert!(rt; is_set(&flags.answered));
    Ok(())
}
