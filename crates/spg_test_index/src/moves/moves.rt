use crate::moves::pages::adopted;
use crate::moves::places::Stands;
use crate::moves::steps::{Step, is_so};
use spg_base::{Memory, SeatNo};
use spg_core::{InsertOut, State, VacuumOut};
use spg_quad::Quad;
use std::alloc::Global;
use std::mem;
use std::test::Fail;

/// A section of the vacuum that handles the next block and changes nothing.
const BLOCK: Step = Step::Vacuums(VacuumOut::Block, &[]);

/// The vacuum has seen the roots and the empty pages when the chain that holds a deleted row moves to one
/// of these, as its page is full. The vacuum finds the redirect, and the row there.
const MOVED: [Step; 24] = [
    Step::Kills((1, 1)),
    Step::OpensVacuum,
    BLOCK,
    BLOCK,
    BLOCK,
    BLOCK,
    BLOCK,
    BLOCK,
    Step::OpensInsert((3, 1), (1, 1)),
    Step::Inserts(InsertOut::Descended),
    Step::Inserts(InsertOut::Descended),
    Step::Inserts(InsertOut::Put),
    Step::Holds((1, 1), Stands::Inner([(3, 1), (7, 41), (7, 105), (0, 0)])),
    Step::Holds(
        (7, 1),
        Stands::Redirect {
            to: (3, 1),
            stamp: 0,
        },
    ),
    Step::Holds((7, 40), Stands::Placeholder),
    Step::Holds(
        (3, 1),
        Stands::Leaf {
            row: (1, 1),
            next: 2,
        },
    ),
    BLOCK,
    Step::Holds(
        (3, 1),
        Stands::Leaf {
            row: (1, 1),
            next: 2,
        },
    ),
    Step::Vacuums(VacuumOut::Pending, &[3]),
    // The new row stood behind the head, and takes its place.
    Step::Holds(
        (3, 1),
        Stands::Leaf {
            row: (3, 1),
            next: 3,
        },
    ),
    Step::Holds((3, 2), Stands::Placeholder),
    Step::Holds(
        (3, 41),
        Stands::Leaf {
            row: (1, 40),
            next: 0,
        },
    ),
    Step::Vacuums(VacuumOut::Finished { swept: 1 }, &[]),
    Step::Holds((3, 42), Stands::Nothing),
];

/// Here the chain is divided: the greater points stay, and the others, with the deleted row, go to a page
/// that the vacuum has seen. It finds the redirect, the inner tuple, and both lists.
const DIVIDED: [Step; 26] = [
    Step::Kills((2, 5)),
    Step::OpensVacuum,
    BLOCK,
    BLOCK,
    BLOCK,
    BLOCK,
    BLOCK,
    BLOCK,
    Step::OpensInsert((3, 1), (65, -1)),
    Step::Inserts(InsertOut::Descended),
    Step::Inserts(InsertOut::Descended),
    Step::Inserts(InsertOut::Put),
    Step::Holds((1, 1), Stands::Inner([(7, 1), (5, 1), (7, 105), (0, 0)])),
    Step::Holds(
        (7, 41),
        Stands::Redirect {
            to: (5, 1),
            stamp: 0,
        },
    ),
    Step::Holds((5, 1), Stands::Inner([(7, 42), (0, 0), (3, 1), (0, 0)])),
    // The 33 greater points, and the 32 others.
    Step::Holds(
        (7, 42),
        Stands::Leaf {
            row: (2, 33),
            next: 43,
        },
    ),
    Step::Holds(
        (7, 74),
        Stands::Leaf {
            row: (3, 1),
            next: 0,
        },
    ),
    Step::Holds(
        (3, 32),
        Stands::Leaf {
            row: (2, 32),
            next: 0,
        },
    ),
    BLOCK,
    Step::Vacuums(VacuumOut::Pending, &[]),
    Step::Vacuums(VacuumOut::Pending, &[]),
    Step::Holds(
        (3, 5),
        Stands::Leaf {
            row: (2, 5),
            next: 6,
        },
    ),
    Step::Vacuums(VacuumOut::Pending, &[3]),
    Step::Holds((3, 5), Stands::Placeholder),
    Step::Holds(
        (3, 4),
        Stands::Leaf {
            row: (2, 4),
            next: 6,
        },
    ),
    Step::Vacuums(VacuumOut::Finished { swept: 1 }, &[]),
];

/// Whether each step comes out as it says.
fn are_so(alloc: Global, state: &mut State<Quad>, steps: &[Step]) -> Result<bool, Memory> {
    let second = SeatNo::new(1).ok_or(Memory)?;
    for step in steps {
        if !is_so(alloc, state, second, step)? {
            return Ok(false);
        }
    }
    Ok(true)
}

/// Makes the index, and takes the steps.
fn go_so(alloc: Global, steps: &[Step]) -> Result<bool, Memory> {
    let mut state = adopted(alloc)?;
    let so = are_so(alloc, &mut state, steps);
    // Nothing is to be proved of how a state is dropped at each exit.
    mem::forget(state);
    so
}

#[test]
fn sweeps_where_a_chain_moved(rt: HostRuntime) -> Result<(), Fail> {
    assert!(rt; go_so(rt.alloc(), &MOVED)?);
    Ok(())
}

#[test]
fn sweeps_where_a_chain_was_divided(rt: HostRuntime) -> Result<(), Fail> {
    assert!(rt; go_so(rt.alloc(), &DIVIDED)?);
    Ok(())
}
