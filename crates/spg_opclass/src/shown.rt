ghost use Rattle.std.specs.Prelude.{◌≡◌, IfOk};
ghost use Rattle.spg_opclass.specs.InPlace.{shown};

use crate::inner_ref::InnerRef;
use crate::labels_ref::LabelsRef;
use crate::view::InnerView;
use spg_base::{Bytes, Labels, Memory};
use std::alloc::Global;

impl<'a> InnerRef<'a> {
    /// A copy of what the class sees.
    pub fn to_view(&self, alloc: Global) -> Result<InnerView, Memory>
        ensures { IfOk result (λ view. view ≡ shown self.now) }
    {
        let prefix = Bytes::copy(alloc, self.prefix)?;
        let mut labels = Labels::new(alloc);
        for node in 0..self.labels.len() {
            labels.push(self.labels.at(node))?;
        }
        Ok(InnerView {
            all_same: self.all_same,
            prefix,
            labels,
        })
    }
}

impl InnerView {
    /// The tuple, read in place.
    pub fn in_place(&self) -> InnerRef<'_>
        ensures { shown result ≡ self.now }
    {
        InnerRef {
            all_same: self.all_same,
            prefix: self.prefix.as_slice(),
            labels: LabelsRef::Listed(self.labels.as_slice()),
        }
    }
}
