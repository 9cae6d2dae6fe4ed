use spg_base::Stamp;
use spg_tree::PageTable;
use spg_vacuum::{Vacuum, Work};
use std::process::Abort;
use std::test::Fail;

#[test]
fn a_vacuum_begins_at_its_block(rt: HostRuntime) -> Result<(), Fail> {
    let alloc = rt.alloc();
    let table = PageTable::new(alloc, 8)?;
    let vacuum = Vacuum::open(alloc, 5, Stamp::at(7));
    assert_eq!(rt; vacuum.at(), 5);
    assert_eq!(rt; vacuum.stamp(), Stamp::at(7));
    assert_eq!(rt; vacuum.work(&table), Work::Block);
    Ok(())
}
