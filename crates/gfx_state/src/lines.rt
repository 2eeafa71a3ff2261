//! The line parameters. A refusal leaves them as they were.
ghost use Rattle.std.specs.Prelude.{◌≡◌, ◌↔◌, Some, None, OnOk, OnErr, IsErrOf};
ghost use Rattle.gfx_state.specs.Graphics.{with_width, with_cap, with_join, with_miter, with_dash};
ghost use Rattle.gfx_state.specs.Lines.{dash_fault};

use crate::gfx::Gfx;
use crate::line_style::{DashFault, dash_array, dash_fault};
use geo_stroke::{Cap, Join};
use press_fault::{RangeCheck, UndefinedResult};
use press_nums::{Fix, Whole, Wide};

impl Gfx {
    /// Sets the line width in user space, taken without its sign; refused exactly where that is out
    /// of range.
    pub fn set_width(&mut self, width: Fix) -> Result<(), UndefinedResult>
        ensures ok { OnOk result (with_width self.old width ≡ Some self.new) }
        ensures out_of_range { OnErr result (with_width self.old width ≡ None) }
        ensures err { OnErr result (self.new ≡ self.old) }
    {
        let Some(magnitude) = width.magnitude() else {
            return Err(UndefinedResult);
        };
        self.state.line.width = magnitude;
        Ok(())
    }

    /// The line width in user space.
    pub fn width(&self) -> Fix
        ensures { result ≡ self.now.state.line.width }
    {
        self.state.line.width
    }

    /// Sets how open lines end, refused exactly where the number isn't 0, 1 or 2.
    pub fn set_cap(&mut self, number: Whole) -> Result<(), RangeCheck>
        ensures ok { OnOk result (with_cap self.old number ≡ Some self.new) }
        ensures range { OnErr result (with_cap self.old number ≡ None) }
        ensures err { OnErr result (self.new ≡ self.old) }
    {
        let Some(cap) = Cap::of(number) else {
            return Err(RangeCheck);
        };
        self.state.line.cap = cap;
        Ok(())
    }

    /// Sets how segments meet, refused exactly where the number isn't 0, 1 or 2.
    pub fn set_join(&mut self, number: Whole) -> Result<(), RangeCheck>
        ensures ok { OnOk result (with_join self.old number ≡ Some self.new) }
        ensures range { OnErr result (with_join self.old number ≡ None) }
        ensures err { OnErr result (self.new ≡ self.old) }
    {
        let Some(join) = Join::of(number) else {
            return Err(RangeCheck);
        };
        self.state.line.join = join;
        Ok(())
    }

    /// Sets the miter limit, refused exactly below 1.
    pub fn set_miter(&mut self, limit: Fix) -> Result<(), RangeCheck>
        ensures ok { OnOk result (with_miter self.old limit ≡ Some self.new) }
        ensures range { OnErr result (with_miter self.old limit ≡ None) }
        ensures err { OnErr result (self.new ≡ self.old) }
    {
        if limit.wide().is_below(Wide::of(65536)) {
            return Err(RangeCheck);
        }
        self.state.line.miter = limit;
        Ok(())
    }

    /// Sets the lengths of dashes and gaps in turn, and how far along them a line begins, in user
    /// space; no lengths for a solid line.
    pub fn set_dash(&mut self, dashes: &[Fix], offset: Fix) -> Result<(), DashFault>
        ensures ok { OnOk result (self.new ≡ with_dash self.old dashes.now offset) }
        ensures range { IsErrOf result DashFault.RangeCheck ↔ (dash_fault dashes.now ≡ Some DashFault.RangeCheck) }
        ensures limit { IsErrOf result DashFault.LimitCheck ↔ (dash_fault dashes.now ≡ Some DashFault.LimitCheck) }
        ensures err { OnErr result (self.new ≡ self.old) }
    {
        if let Some(fault) = dash_fault(dashes) {
            return Err(fault);
        }
        self.state.line.dashes = dash_array(self.alloc, dashes)?;
        self.state.line.offset = offset;
        Ok(())
    }
}
