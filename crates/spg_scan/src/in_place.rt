// Items in the place of one.
ghost use Rattle.std.specs.Prelude.{◌≡◌, ◌<◌, ◌≤◌, ◌++◌, ◌+◌, length, take, drop, OnOk, OnErr};

use spg_base::Memory;

/// Takes an item out. The last costs no shift, and where one stands behind it that takes its place.
pub(crate) fn take_out<T: Drop>(items: &mut Vec<T>, at: usize)
    requires { at < length items.old.items }
    ensures { items.new.items ≡ take at items.old.items ++ drop (at + 1) items.old.items }
{
    if items.len() - at <= 2 {
        items.swap_remove(at);
    } else {
        items.remove(at);
    }
}

/// Puts what stands behind so many items in the place of one of them. The last costs no shift of the
/// others.
pub(crate) fn move_in_place<T: Drop>(items: &mut Vec<T>, held: usize, at: usize)
    requires at { at < held }
    requires held { held ≤ length items.old.items }
    ensures { items.new.items ≡ take at items.old.items ++ (drop held items.old.items ++ drop (at + 1) (take held items.old.items)) }
{
    take_out(items, at);
    let others = held - at - 1;
    if others == 0 {
        return;
    }
    items[at..].rotate_left(others);
}

/// Puts other items in the place of one.
pub fn put_in_place<T: Drop>(
    items: &mut Vec<T>,
    at: usize,
    mut children: Vec<T>,
) -> Result<(), Memory>
    requires { at < length items.old.items }
    ensures ok { OnOk result (items.new.items ≡ take at items.old.items ++ (children.items ++ drop (at + 1) items.old.items)) }
    ensures err { OnErr result (items.new.items ≡ items.old.items) }
{
    let held = items.len();
    items.append(&mut children)?;
    move_in_place(items, held, at);
    Ok(())
}
