ghost use Rattle.std.specs.Prelude.{◌≡◌, option_copied, IfOk};
ghost use Rattle.spg_opclass.specs.Copies.{first_rest, IsKeyOrNull};

use crate::class::OpClass;
use spg_base::{Bytes, Memory};
use std::alloc::Global;
use std::marker::Model;

/// What an insert of a key begins with: the key, where none is a null, with the rebuilt value and
/// the rest that it has at the root. Contracts see the key alone, since the class tells the others
/// of it.
#[derive(Drop)]
pub struct Started<O: OpClass> {
    key: Option<O::Key>,
    recon: O::Recon,
    rest: Bytes,
}

impl<O: OpClass> Model for Started<O> {
    ghost use Rattle.std.specs.Prelude.{◌≡◌, Option};
    ghost use Rattle.spg_opclass.specs.Copies.{first_rest, IsKeyOrNull};

    ghost Value = { Option O.Key };

    ghost view = { λ s. s.key };

    ghost invariant = { λ s. (s.recon ≡ O.meaning.start) × (s.rest ≡ first_rest O.meaning s.key) × IsKeyOrNull O.meaning s.key };
}

impl<O: OpClass> Started<O> {
    /// The key. None is a null.
    pub fn key(&self) -> Option<&O::Key>
        ensures value { option_copied result ≡ self.now }
        ensures known { IsKeyOrNull O.meaning self.now }
    {
        self.key.as_ref()
    }

    /// The key, and the rebuilt value and the rest that it has at the root.
    pub fn into_parts(self) -> (Option<O::Key>, O::Recon, Bytes)
        ensures parts { result ≡ (self, O.meaning.start, first_rest O.meaning self) }
        ensures known { IsKeyOrNull O.meaning self }
    {
        (self.key, self.recon, self.rest)
    }

    /// The rebuilt value at the root of the main tree.
    pub fn recon(&self) -> &O::Recon
        ensures { result.now ≡ O.meaning.start }
    {
        &self.recon
    }

    /// The rest of the key at the root. It has no bytes where the key is a null.
    pub fn rest(&self) -> &Bytes
        ensures { result.now ≡ first_rest O.meaning self.now }
    {
        &self.rest
    }
}

/// Asks the class what an insert of the key begins with.
pub fn start_at<O: OpClass>(
    alloc: Global,
    class: &O,
    key: Option<O::Key>,
) -> Result<Started<O>, Memory>
    ensures { IfOk result (λ started. started ≡ key) }
{
    let recon = class.start(alloc)?;
    let rest = match &key {
        None => Bytes::new(alloc),
        Some(key) => class.rest_of(alloc, key)?,
    };
    Ok(Started { key, recon, rest })
}
