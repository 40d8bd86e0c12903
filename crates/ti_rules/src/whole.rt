//! Findings on an entry as a whole.

ghost use Rattle.std.specs.Prelude.{OnOk};
ghost use Rattle.ti_rules.specs.Whole.{whole_remarks};
ghost use Rattle.ti_rules.specs.inner.Growing.{GainsThese};

use crate::base::bases_differ;
use crate::finding::Finding;
use crate::layout::is_canonical;
use crate::report::Report;
use std::alloc::{AllocError, Allocator};

impl<'r, 'a, A: Allocator + Copy> Report<'r, 'a, A> {
    /// Adds the remarks on the whole of the entry.
    pub fn push_whole(&mut self) -> Result<(), AllocError>
        ensures { OnOk result
            (GainsThese (whole_remarks self.old.on.bytes self.old.on.entry) self.old self.new) }
    {
        let (bytes, entry) = (self.bytes(), self.entry());
        let canonical = is_canonical(self.allocator(), bytes, entry)?;
        let differ = bases_differ(bytes);
        self.push_colors()?;
        self.push_if(!canonical, Finding::Layout)?;
        self.push_if(differ, Finding::Base)?;
        Ok(())
    }
}
