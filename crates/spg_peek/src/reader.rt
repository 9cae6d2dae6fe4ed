// Rows that conditions ask for, one by one.
use crate::some::{open_now, read_to};
use spg_base::{List, Memory, Row};
use spg_opclass::OpClass;
use spg_scan::Scan;
use spg_whole::Index;
use std::alloc::Global;
use std::marker::Model;

/// A search that hands out its rows one by one, while its index is only read.
#[derive(Drop)]
pub struct Reader<O: OpClass> {
    scan: Scan<O>,
    found: Vec<Row>,
    told: usize,
}

impl<O: OpClass> Model for Reader<O> {
    ghost use Rattle.spg_peek.specs.Peeking.{Reading};

    ghost Value = { Reading O O.Key O.Recon O.Cond };

    ghost view = { λ r. record { scan = r.scan; found = r.found.items; told = r.told } };
}

impl<O: OpClass> Reader<O> {
    ghost use Rattle.std.specs.Prelude.{◌≡◌, [], IfOk, OnOk};
    ghost use Rattle.spg_opclass.specs.declared.query.Query.TheVariants.{Where};
    ghost use Rattle.spg_core.specs.Seen.{past_of};
    ghost use Rattle.spg_peek.specs.Peeking.{ReadsOver, HandsOut, handed};

    /// A search for the rows whose key meets each of the conditions. Nothing was handed out.
    pub fn open(alloc: Global, index: &Index<O>, conds: List<O::Cond>) -> Result<Reader<O>, Memory>
        ensures over { IfOk result (λ reader. ReadsOver O.meaning index.now reader) }
        ensures query { IfOk result (λ reader. reader.scan.query ≡ Where conds) }
        ensures none { IfOk result (λ reader. handed reader ≡ []) }
    {
        let scan = open_now(alloc, index.state(), conds)?;
        Ok(Reader {
            scan,
            found: Vec::new(alloc),
            told: 0,
        })
    }

    /// The next row: one that is live, whose key meets each of the conditions, and that was not handed out before. None
    /// where all such rows were. The index is the one of the opening, and only read since. After `Memory` the search is over.
    pub fn next(&mut self, alloc: Global, index: &Index<O>) -> Result<Option<Row>, Memory>
        requires over { ReadsOver O.meaning index.now self.old }
        ensures over { OnOk result (ReadsOver O.meaning index.now self.new) }
        ensures query { OnOk result (self.new.scan.query ≡ self.old.scan.query) }
        ensures row { IfOk result (λ came. HandsOut O.meaning (past_of index.now) self.old.scan.query (handed self.old) (handed self.new) came) }
    {
        let state = index.state();
        // The journal is legal.
        let _ = state.journal();
        let wanted = self.found.as_slice().len().min(self.told) + 1;
        read_to(alloc, state, &mut self.scan, wanted, &mut self.found)?;
        match self.found.get(self.told) {
            Some(row) => {
                self.told += 1;
                Ok(Some(*row))
            }
            None => Ok(None),
        }
    }
}
