//! Scripts that are generated.

use spg_base::{List, Memory};
use spg_script::{ClassName, PartRef, Script, generate, print};
use std::alloc::Global;
use std::test::Fail;

/// Small loads, with five rows in two lanes.
const LOADS: [(ClassName, u32, &[u8]); 3] = [
    (
        ClassName::Quad,
        7,
        b"class quad\ntogether\nlane\ninsert 0.1 7,7\ninsert 0.3 81,189\ndelete 0.3\ninsert 0.5 155,371\nlane\ninsert 0.2 44,98\ninsert 0.4 118,280\nlane\nvacuum\nfind all\nvacuum\nfind all\nend\nvacuum\nfind all\nfind where left 100\nfind where below 500\n",
    ),
    (
        ClassName::Kd,
        999_970,
        b"class kd\ntogether\nlane\ninsert 0.1 970,970\ninsert 0.3 44,152\ndelete 0.3\ninsert 0.5 118,334\nlane\ninsert 0.2 7,61\ninsert 0.4 81,243\nlane\nvacuum\nfind all\nvacuum\nfind all\nend\nvacuum\nfind all\nfind where left 100\nfind where below 500\n",
    ),
    (
        ClassName::Radix,
        0,
        b"class radix\ntogether\nlane\ninsert 0.1 \"street 000 house 000\"\ninsert 0.3 \"street 074 house 182\"\ndelete 0.3\ninsert 0.5 \"street 148 house 364\"\nlane\ninsert 0.2 \"street 037 house 091\"\ninsert 0.4 \"street 111 house 273\"\nlane\nvacuum\nfind all\nvacuum\nfind all\nend\nvacuum\nfind all\nfind where starts \"street 0\"\nfind where ge \"street 500\"\n",
    ),
];

/// Whether the script is printed so.
fn is_printed(alloc: Global, script: &Script, text: &[u8]) -> Result<bool, Memory> {
    Ok(print(alloc, script)?.as_slice() == text)
}

#[test]
fn generates_loads(rt: HostRuntime) -> Result<(), Fail> {
    for (class, seed, text) in &LOADS {
        let script = generate(rt.alloc(), 5, *seed, 2, *class)?;
        assert!(rt; is_printed(rt.alloc(), &script, *text)?);
    }
    Ok(())
}

/// How many commands the lanes of a script's first block have.
fn sizes(alloc: Global, script: &Script) -> Result<List<usize>, Memory> {
    let mut sizes = List::new(alloc);
    if let Some(load) = script.parts().first() {
        if let PartRef::Together(lanes) = load.lent() {
            for lane in lanes {
                sizes.push(lane.len())?;
            }
        }
    }
    Ok(sizes)
}

/// The largest load has 17 lanes, the last a vacuum's.
fn are_largest(sizes: &[usize]) -> bool {
    sizes.len() == 17 && sizes[..3] == [16_666, 16_667, 16_667] && sizes.get(16).copied() == Some(4)
}

#[test]
fn generates_the_largest_load(rt: HostRuntime) -> Result<(), Fail> {
    let script = generate(rt.alloc(), 200_000, 999_999, 16, ClassName::Radix)?;
    assert!(rt; are_largest(sizes(rt.alloc(), &script)?.as_slice()));
    Ok(())
}
