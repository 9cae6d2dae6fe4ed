ghost use Rattle.std.specs.Prelude.{◌≡◌, ◌+◌, ◌*◌, ◌<◌, ◌≤◌, ℕ, length, slice_index};
ghost use Rattle.spg_page.specs.Numbers.{two_at, four_at};
ghost use Rattle.spg_verify.specs.Meta.{eight_at};

/// Where the meta page has the remembered pages.
pub(crate) const REMEMBERED_AT: usize = 40;

/// Writes a byte.
pub(crate) fn put_one(page: &mut [u8; 8192], at: usize, byte: u8)
    requires { at < 8192 }
    ensures value { slice_index page.new at ≡ byte }
    ensures below { (k : ℕ) → k < at → slice_index page.new k ≡ slice_index page.old k }
    ensures above { (k : ℕ) → at + 1 ≤ k → slice_index page.new k ≡ slice_index page.old k }
{
    page[at] = byte;
}

/// Writes a number into two bytes.
#[tactic(auto, unfolding(spg_page::specs::Numbers::two_at))]
pub(crate) fn put_two(page: &mut [u8; 8192], at: usize, number: u16)
    requires { at + 2 ≤ 8192 }
    ensures value { two_at page.new at ≡ number }
    ensures below { (k : ℕ) → k < at → slice_index page.new k ≡ slice_index page.old k }
    ensures above { (k : ℕ) → at + 2 ≤ k → slice_index page.new k ≡ slice_index page.old k }
{
    let [low, high] = number.to_le_bytes();
    page[at] = low;
    page[at + 1] = high;
}

/// Writes a number into four bytes.
#[tactic(auto, unfolding(spg_page::specs::Numbers::two_at, spg_page::specs::Numbers::four_at))]
pub(crate) fn put_four(page: &mut [u8; 8192], at: usize, number: u32)
    requires { at + 4 ≤ 8192 }
    ensures value { four_at page.new at ≡ number }
    ensures below { (k : ℕ) → k < at → slice_index page.new k ≡ slice_index page.old k }
    ensures above { (k : ℕ) → at + 4 ≤ k → slice_index page.new k ≡ slice_index page.old k }
{
    let [first, second, third, fourth] = number.to_le_bytes();
    page[at] = first;
    page[at + 1] = second;
    page[at + 2] = third;
    page[at + 3] = fourth;
}

/// Writes a number into eight bytes.
pub(crate) fn put_eight(page: &mut [u8; 8192], at: usize, number: u64)
    requires { at + 8 ≤ 8192 }
    ensures value { eight_at page.new at ≡ number }
    ensures below { (k : ℕ) → k < at → slice_index page.new k ≡ slice_index page.old k }
    ensures above { (k : ℕ) → at + 8 ≤ k → slice_index page.new k ≡ slice_index page.old k }
{
    put_four(page, at, (number % (1 << 32)) as u32);
    put_four(page, at + 4, (number / (1 << 32)) as u32);
}

/// Writes the remembered pages.
pub(crate) fn put_remembered(page: &mut [u8; 8192], remembered: &[u32; 8])
    ensures count { length remembered.now ≡ 8 }
    ensures value { (i : ℕ) → i < 8 → four_at page.new (40 + 4 * i) ≡ slice_index remembered.now i }
    ensures below { (k : ℕ) → k < 40 → slice_index page.new k ≡ slice_index page.old k }
    ensures above { (k : ℕ) → 72 ≤ k → slice_index page.new k ≡ slice_index page.old k }
{
    for index in 0..8usize {
        put_four(page, REMEMBERED_AT + 4 * index, remembered[index]);
    }
}
