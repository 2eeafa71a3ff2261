//! The line parameters of a graphics state.
ghost use Rattle.std.specs.Prelude.{◌≡◌, ◌<◌, [], length, IfOk};
ghost use Rattle.std.specs.Arc.{arc_value};
ghost use Rattle.std.specs.List.{list_any, list_all};
ghost use Rattle.gfx_state.specs.Lines.{initial_line, dashes_of, is_negative, is_zero, is_blank, dash_fault};
ghost use Rattle.gfx_state.specs.Lines.{IsDashArray};

use geo_stroke::{Cap, Join, MAX_DASHES};
use press_fault::{Mem, NoMemory};
use press_nums::{Fix, Wide};
use std::alloc::Global;
use std::marker::Model;
use std::sync::Arc;

/// Why `setdash` was refused: the first of these, in this order.
#[derive(Clone, Copy, Debug, PartialEq, Eq)]
pub enum DashFault {
    /// A length is below 0, or there are some and all are 0.
    RangeCheck,
    /// More than 32 lengths.
    LimitCheck,
    /// Out of memory.
    NoMemory,
}

impl From<NoMemory> for DashFault {
    ghost use Rattle.std.specs.Prelude.{◌≡◌};
    ghost use Rattle.gfx_state.specs.declared.line_style.DashFault.TheVariants.{NoMemory};

    ghost from_gives = { λ _ e. e ≡ NoMemory };

    fn from(_: press_fault::NoMemory) -> DashFault {
        DashFault::NoMemory
    }
}

/// The lengths of dashes and gaps in turn, a dash first, in user space: at most 32, none below 0.
#[derive(Drop)]
pub(crate) struct DashArray {
    lengths: Vec<Fix>,
}

impl Model for DashArray {
    ghost use Rattle.std.specs.Prelude.{List, ℤ};
    ghost use Rattle.gfx_state.specs.Lines.{IsDashArray};

    ghost Value = { List ℤ };

    ghost view = { λ d. d.lengths.items };

    ghost invariant = { λ d. IsDashArray d.lengths.items };
}

impl DashArray {
    fn of(alloc: Global, lengths: &[Fix]) -> Mem<DashArray>
        requires { IsDashArray lengths.now }
        ensures { IfOk result (λ dashes. dashes ≡ lengths.now) }
    {
        Ok(DashArray {
            lengths: Vec::from_slice(alloc, lengths)?,
        })
    }

    pub(crate) fn items(&self) -> &[Fix]
        ensures value { result.now ≡ self.now }
        ensures kept { IsDashArray result.now }
    {
        &self.lengths
    }
}

/// The line parameters. Their dash array is shared, so that a copy takes no more memory.
#[derive(Drop)]
pub(crate) struct LineStyle {
    /// The line's width in user space, without a sign.
    pub(crate) width: Fix,
    pub(crate) cap: Cap,
    pub(crate) join: Join,
    /// The miter limit, at least 1.
    pub(crate) miter: Fix,
    /// `None` for a solid line.
    pub(crate) dashes: Option<Arc<DashArray>>,
    /// How far along its dashes a line begins, in user space.
    pub(crate) offset: Fix,
}

impl Model for LineStyle {
    ghost use Rattle.gfx_state.specs.Lines.{LineStyleValue, IsLine, dashes_of};

    ghost Value = { LineStyleValue };

    ghost view = { λ s. record {
      width = s.width;
      cap = s.cap;
      join = s.join;
      miter = s.miter;
      dashes =
          dashes_of s.dashes;
      offset = s.offset;
    } };

    ghost invariant = { λ s. IsLine s.width s.miter };
}

impl LineStyle {
    /// What `initgraphics` sets.
    pub(crate) fn initial() -> LineStyle
        ensures { result ≡ initial_line }
    {
        LineStyle {
            width: Fix::of_int(1),
            cap: Cap::Butt,
            join: Join::Miter,
            miter: Fix::of_int(10),
            dashes: None,
            offset: Fix::of_int(0),
        }
    }

    /// The lengths of dashes and gaps; none for a solid line.
    pub(crate) fn lengths(&self) -> &[Fix]
        ensures value { result.now ≡ self.now.dashes }
        ensures kept { IsDashArray result.now }
    {
        match &self.dashes {
            Some(dashes) => dashes.items(),
            None => &[],
        }
    }

    pub(crate) fn copy(&self) -> Mem<LineStyle>
        ensures { IfOk result (λ copy. copy ≡ self.now) }
    {
        Ok(LineStyle {
            width: self.width,
            cap: self.cap,
            join: self.join,
            miter: self.miter,
            dashes: shared(&self.dashes)?,
            offset: self.offset,
        })
    }
}

/// Another owner of a dash array.
fn shared(dashes: &Option<Arc<DashArray>>) -> Mem<Option<Arc<DashArray>>>
    ensures { IfOk result (λ copy. dashes_of copy ≡ dashes_of dashes.now) }
{
    match dashes {
        Some(dashes) => Ok(Some(Arc::try_clone(dashes)?)),
        None => Ok(None),
    }
}

/// A dash array that copies of a state share.
pub(crate) fn dash_array(alloc: Global, lengths: &[Fix]) -> Mem<Option<Arc<DashArray>>>
    requires { IsDashArray lengths.now }
    ensures { IfOk result (λ dashes. dashes_of dashes ≡ lengths.now) }
{
    if lengths.is_empty() {
        return Ok(None);
    }
    Ok(Some(Arc::new(alloc, DashArray::of(alloc, lengths)?)?))
}

/// Why lengths are refused, if they are.
pub(crate) fn dash_fault(lengths: &[Fix]) -> Option<DashFault>
    ensures { result ≡ dash_fault lengths.now }
{
    if has_negative(lengths) || is_blank(lengths) {
        Some(DashFault::RangeCheck)
    } else if lengths.len() > MAX_DASHES {
        Some(DashFault::LimitCheck)
    } else {
        None
    }
}

/// Whether a length is below 0.
fn has_negative(lengths: &[Fix]) -> bool
    ensures { result ≡ list_any is_negative lengths.now }
{
    lengths
        .iter()
        .any(|length| length.wide().is_below(Wide::ZERO))
}

/// Whether there are lengths, and all of them are 0.
fn is_blank(lengths: &[Fix]) -> bool
    ensures { result ≡ is_blank lengths.now }
{
    !lengths.is_empty() && all_zero(lengths)
}

fn all_zero(lengths: &[Fix]) -> bool
    ensures { result ≡ list_all is_zero lengths.now }
{
    lengths.iter().all(|length| length.wide().is_zero())
}
