ghost use Rattle.std.specs.Prelude.{◌≡◌, ◌<◌, ◌≤◌, ◌^◌, ◌↔◌, [], ℕ, List as Items, Some, None, Bool, true, false, IfOk, IfSome, IsNone, IsErrOf, OnOk, OnErr, ⊤};
ghost use Rattle.std.specs.declared.result.Result.{Result};
ghost use Rattle.std.specs.declared.option.Option.{Option};
ghost use Rattle.spg_base.specs.declared.memory.Failed.{Failed};
ghost use Rattle.spg_io.specs.declared.sink.IoRefused.{IoRefused};
ghost use Rattle.spg_io.specs.Causes.{HasCause, HasCauseIfFailed};
ghost use Rattle.spg_io.specs.Calls.{no_calls, fails_next, went_through, failed_once};
ghost use Rattle.spg_io.specs.Held.{Holding, Stays, Holds, Clears, Puts, IsBlock, length_of};
ghost use Rattle.spg_io.specs.Files.{bytes_under, with_bytes, with_page, PlainLook, PlainChange, FaultyLook, FaultyChange};

use crate::sink::IoRefused;
use crate::store::Store;
use spg_base::{Bytes, Failed, List, Memory};
use std::alloc::Global;
use std::marker::Model;

/// The bytes of a page.
pub const PAGE: usize = 8192;

/// Where images stand: bytes under names.
pub trait Images {
    /// The bytes under each name, where it tells them.
    ghost held: { Self → Option Holding };

    /// How often a call failed. It never falls.
    ghost faults: { Self → ℕ };

    /// What else a form of images tells of each call: of the images before, the name and what the call
    /// is about, the answer and the images after.
    ghost len_gives: { Self → Items ℕ → Result (Option ℕ) Failed → Self → Type 0 } = { λ _ _ _ _. ⊤ };

    ghost clear_gives: { Self → Items ℕ → Result Unit IoRefused → Self → Type 0 } = { λ _ _ _ _. ⊤ };

    ghost get_gives: { Self → Items ℕ → Result Bool Failed → Self → Type 0 } = { λ _ _ _ _. ⊤ };

    ghost put_gives: { Self → Items ℕ → Items ℕ → Result Unit IoRefused → Self → Type 0 } = { λ _ _ _ _ _. ⊤ };

    /// How many bytes stand under the name. None where there is no such name. The count of faults rises
    /// where the answer is `Failed`, and else stays.
    fn len(&mut self, name: &str) -> Result<Option<u64>, Failed>
        ensures value { IfOk result (λ n. Holds (held self.old) name.now (λ bytes. n ≡ length_of bytes)) }
        ensures stays { Stays (held self.old) (held self.new) }
        ensures cause { HasCause (faults self.old) (faults self.new) result }
        ensures answered { OnOk result (faults self.new ≡ faults self.old) }
        ensures gives { len_gives self.old name.now result self.new };

    /// Leaves the name with no bytes. The count of faults rises where the answer is `Failed`, and else
    /// stays. `Failed` leaves what every name holds. After `Memory` the images are as they were.
    fn clear(&mut self, name: &str) -> Result<(), IoRefused>
        ensures bytes { Clears (held self.old) (held self.new) name.now result }
        ensures cause { HasCauseIfFailed (faults self.old) (faults self.new) result }
        ensures answered { OnOk result (faults self.new ≡ faults self.old) }
        ensures memory { IsErrOf result IoRefused.Memory → self.new ≡ self.old }
        ensures gives { clear_gives self.old name.now result self.new };

    /// Reads a block, counted from 0, into the page. False exactly where the block does not lie wholly
    /// inside the bytes under the name. The count of faults rises where the answer is `Failed`, and else
    /// stays. The page may hold anything then, and where the answer is false.
    fn get(&mut self, name: &str, block: u32, page: &mut [u8; 8192]) -> Result<bool, Failed>
        ensures value { IfOk result (λ inside. Holds (held self.old) name.now (IsBlock block inside page.new)) }
        ensures stays { Stays (held self.old) (held self.new) }
        ensures cause { HasCause (faults self.old) (faults self.new) result }
        ensures answered { OnOk result (faults self.new ≡ faults self.old) }
        ensures gives { get_gives self.old name.now result self.new };

    /// Adds the page after the last byte of the name, which is made where it is not there. The count of
    /// faults rises where the answer is `Failed`, and else stays. After `Failed` the name holds its former
    /// bytes and a front of the page. After `Memory` the images are as they were. No other name is changed.
    fn put(&mut self, name: &str, page: &[u8; 8192]) -> Result<(), IoRefused>
        ensures bytes { Puts (held self.old) (held self.new) name.now page.now result }
        ensures cause { HasCauseIfFailed (faults self.old) (faults self.new) result }
        ensures answered { OnOk result (faults self.new ≡ faults self.old) }
        ensures memory { IsErrOf result IoRefused.Memory → self.new ≡ self.old }
        ensures gives { put_gives self.old name.now page.now result self.new };
}

/// Copies the block into the page, where it lies wholly inside the bytes under the name.
fn copy_block(store: &Store, name: &[u8], block: u32, page: &mut [u8; 8192]) -> bool
    ensures { IsBlock block result page.new (bytes_under store.now name.now) }
{
    let Some(bytes) = store.bytes(name) else {
        return false;
    };
    let from = PAGE * block as usize;
    if bytes.len() < from + PAGE {
        return false;
    }
    page.copy_from_slice(&bytes[from..from + PAGE]);
    true
}

/// How many bytes stand under the name.
fn length_in(store: &Store, name: &[u8]) -> Option<u64>
    ensures { result ≡ length_of (bytes_under store.now name.now) }
{
    let bytes = store.bytes(name)?;
    Some(bytes.len() as u64)
}

/// Images in memory. No call fails.
#[derive(Drop)]
pub struct PlainImages {
    store: Store,
}

impl Model for PlainImages {
    ghost use Rattle.std.specs.Prelude.{List};
    ghost use Rattle.spg_io.specs.declared.store.File.{File};

    ghost Value = { List File };

    ghost view = { λ s. s.store };
}

impl PlainImages {
    /// No name.
    pub fn new(alloc: Global) -> PlainImages
        ensures { result ≡ [] }
    {
        PlainImages {
            store: Store::new(alloc),
        }
    }

    /// Puts the bytes under the name. It is no call that is counted.
    pub fn set(&mut self, name: &str, bytes: Bytes) -> Result<(), Memory>
        ensures ok { OnOk result (self.new ≡ with_bytes self.old name.now bytes) }
        ensures err { OnErr result (self.new ≡ self.old) }
    {
        self.store.set(name.as_bytes(), bytes)
    }

    /// The bytes under the name. None exactly where there is no such name.
    pub fn bytes(&self, name: &str) -> Option<&[u8]>
        ensures none { IsNone result ↔ (bytes_under self.now name.now ≡ None) }
        ensures some { IfSome result (λ bytes. bytes_under self.now name.now ≡ Some bytes.now) }
    {
        self.store.bytes(name.as_bytes())
    }
}

impl Images for PlainImages {
    ghost held = { λ s. Some (bytes_under s) };

    ghost faults = { λ _. 0 };

    ghost len_gives = { λ old _ result new. PlainLook old result new };

    ghost clear_gives = { λ old name result new. PlainChange old (with_bytes old name []) result new };

    ghost get_gives = { λ old _ result new. PlainLook old result new };

    ghost put_gives = { λ old name page result new. PlainChange old (with_page old name page) result new };

    fn len(&mut self, name: &str) -> Result<Option<u64>, Failed> {
        Ok(length_in(&self.store, name.as_bytes()))
    }

    fn clear(&mut self, name: &str) -> Result<(), IoRefused> {
        Ok(self.store.clear(name.as_bytes())?)
    }

    fn get(&mut self, name: &str, block: u32, page: &mut [u8; 8192]) -> Result<bool, Failed> {
        Ok(copy_block(&self.store, name.as_bytes(), block, page))
    }

    fn put(&mut self, name: &str, page: &[u8; 8192]) -> Result<(), IoRefused> {
        Ok(self.store.put(name.as_bytes(), page)?)
    }
}

/// Images in memory. The calls with these numbers fail, all calls counted together from 1, and no other
/// fails. A call that finds no memory is not counted.
#[derive(Drop)]
pub struct FaultyImages {
    store: Store,
    fails: List<u64>,
    calls: u64,
    faults: u64,
}

impl Model for FaultyImages {
    ghost use Rattle.spg_io.specs.Files.{FaultyFiles};

    ghost Value = { FaultyFiles };

    ghost view = { λ s. record {
      files = s.store;
      calls = record { fails = s.fails; made = s.calls; faults = s.faults };
    } };
}

impl FaultyImages {
    /// No name, and no call made.
    pub fn new(alloc: Global, fails: List<u64>) -> FaultyImages
        ensures files { result.files ≡ [] }
        ensures calls { result.calls ≡ no_calls fails }
    {
        FaultyImages {
            store: Store::new(alloc),
            fails,
            calls: 0,
            faults: 0,
        }
    }

    /// Puts the bytes under the name. It is no call that is counted.
    pub fn set(&mut self, name: &str, bytes: Bytes) -> Result<(), Memory>
        ensures ok { OnOk result (self.new ≡ record self.old { files = with_bytes self.old.files name.now bytes }) }
        ensures err { OnErr result (self.new ≡ self.old) }
    {
        self.store.set(name.as_bytes(), bytes)
    }

    /// The bytes under the name. None exactly where there is no such name.
    pub fn bytes(&self, name: &str) -> Option<&[u8]>
        ensures none { IsNone result ↔ (bytes_under self.now.files name.now ≡ None) }
        ensures some { IfSome result (λ bytes. bytes_under self.now.files name.now ≡ Some bytes.now) }
    {
        self.store.bytes(name.as_bytes())
    }

    /// Whether the next call fails. If so it is counted, as a call and as a fault.
    fn fails_now(&mut self) -> bool
        ensures value { result ≡ fails_next self.old.calls }
        ensures yes { result ≡ true → self.new ≡ record self.old { calls = failed_once self.old.calls } }
        ensures no { result ≡ false → self.new ≡ self.old }
        ensures range { result ≡ true → self.old.calls.faults < 2 ^ 64 }
    {
        let call = self.calls.saturating_add(1);
        let fails = self.fails.as_slice().contains(&call);
        if fails {
            self.calls = call;
            self.faults = self.faults.saturating_add(1);
        }
        fails
    }

    /// Counts a call that went through.
    fn count_call(&mut self)
        ensures { self.new ≡ record self.old { calls = went_through self.old.calls } }
    {
        self.calls = self.calls.saturating_add(1);
    }
}

impl Images for FaultyImages {
    ghost held = { λ s. Some (bytes_under s.files) };

    ghost faults = { λ s. s.calls.faults };

    ghost len_gives = { λ old _ result new. FaultyLook old result new };

    ghost clear_gives = { λ old name result new. FaultyChange old (with_bytes old.files name []) result new };

    ghost get_gives = { λ old _ result new. FaultyLook old result new };

    ghost put_gives = { λ old name page result new. FaultyChange old (with_page old.files name page) result new };

    fn len(&mut self, name: &str) -> Result<Option<u64>, Failed> {
        if self.fails_now() {
            return Err(Failed);
        }
        self.count_call();
        Ok(length_in(&self.store, name.as_bytes()))
    }

    fn clear(&mut self, name: &str) -> Result<(), IoRefused> {
        if self.fails_now() {
            return Err(IoRefused::Failed);
        }
        self.store.clear(name.as_bytes())?;
        self.count_call();
        Ok(())
    }

    fn get(&mut self, name: &str, block: u32, page: &mut [u8; 8192]) -> Result<bool, Failed> {
        if self.fails_now() {
            return Err(Failed);
        }
        self.count_call();
        Ok(copy_block(&self.store, name.as_bytes(), block, page))
    }

    fn put(&mut self, name: &str, page: &[u8; 8192]) -> Result<(), IoRefused> {
        if self.fails_now() {
            return Err(IoRefused::Failed);
        }
        self.store.put(name.as_bytes(), page)?;
        self.count_call();
        Ok(())
    }
}
