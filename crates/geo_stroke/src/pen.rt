//! The pen of a stroke: its width, caps, joins, miter limit and dashes.
ghost use Rattle.std.specs.Prelude.{◌≡◌, ◌≤◌, ◌<◌, ◌^◌, ℤ, pos, [], ◌∷◌, ◌++◌, length, OnOk, OnErr, IsErrOf, ◌↔◌, ◌≤ℤ◌};
ghost use Rattle.std.specs.Prelude.{unsigned_abs};
ghost use Rattle.geo_stroke.specs.Pen.{cap_of, join_of, is_solid, IsDash, IsPattern, IsPen};

use press_fault::Grow;
use press_nums::{Fix, Whole, Wide};
use std::alloc::Global;
use std::marker::Model;

/// How an open line ends.
#[derive(Clone, Copy, Debug, PartialEq, Eq)]
pub enum Cap {
    /// Cut off at the end.
    Butt,
    /// A disc round the end.
    Round,
    /// Half the line's width further.
    Square,
}

impl Cap {
    /// The cap of this number, 0, 1 or 2; `None` exactly for another one.
    pub fn of(n: Whole) -> Option<Cap>
        ensures { result ≡ cap_of n }
    {
        match n.get() {
            0 => Some(Cap::Butt),
            1 => Some(Cap::Round),
            2 => Some(Cap::Square),
            _ => None,
        }
    }
}

/// How two segments of a line meet.
#[derive(Clone, Copy, Debug, PartialEq, Eq)]
pub enum Join {
    /// The outer sides go on until they meet, within the miter limit.
    Miter,
    /// A disc round the corner.
    Round,
    /// A triangle between the outer sides.
    Bevel,
}

impl Join {
    /// The join of this number, 0, 1 or 2; `None` exactly for another one.
    pub fn of(n: Whole) -> Option<Join>
        ensures { result ≡ join_of n }
    {
        match n.get() {
            0 => Some(Join::Miter),
            1 => Some(Join::Round),
            2 => Some(Join::Bevel),
            _ => None,
        }
    }
}

/// How many dashes and gaps a pattern may have.
pub const MAX_DASHES: usize = 32;

/// The lengths of dashes and gaps in turn, a dash first, in 1/65536 of a dot, each below 2^62; at
/// most `MAX_DASHES`.
#[derive(Drop)]
pub struct Dashes {
    lengths: Vec<u64>,
}

impl Model for Dashes {
    ghost use Rattle.std.specs.Prelude.{List, ℕ};
    ghost use Rattle.geo_stroke.specs.Pen.{IsPattern};

    ghost Value = { List ℕ };

    ghost view = { λ d. d.lengths.items };

    ghost invariant = { λ d. IsPattern d.lengths.items };
}

impl Dashes {
    /// No dashes: a solid line.
    pub fn new(alloc: Global) -> Dashes
        ensures { result ≡ [] }
    {
        Dashes {
            lengths: Vec::new(alloc),
        }
    }

    /// Adds the length of a dash or a gap, in 1/65536 of a dot, at the end; a refusal, by the
    /// limit or out of memory, leaves the list as before.
    pub fn push(&mut self, dash: u64) -> Result<(), Grow>
        requires { IsDash dash }
        ensures ok { OnOk result (self.new ≡ self.old ++ dash ∷ []) }
        ensures limit { IsErrOf result Grow.LimitCheck ↔ (MAX_DASHES ≤ length self.old) }
        ensures err { OnErr result (self.new ≡ self.old) }
    {
        if self.lengths.len() >= MAX_DASHES {
            return Err(Grow::LimitCheck);
        }
        self.lengths.push(dash)?;
        Ok(())
    }

    /// Whether a line is solid: there are no lengths, or each is 0.
    pub fn is_solid(&self) -> bool
        ensures { result ≡ is_solid self.now }
    {
        self.lengths.iter().all(|dash| *dash == 0)
    }

    /// The lengths in 1/65536 of a dot, in order.
    pub fn items(&self) -> &[u64]
        ensures value { result.now ≡ self.now }
        ensures pattern { IsPattern result.now }
    {
        &self.lengths
    }
}

/// What a line is painted with.
#[derive(Drop)]
pub struct Pen {
    /// Half the line's width in sub-dots, from 128 to 2^30.
    pub half: i64,
    /// The ends of open lines.
    pub cap: Cap,
    /// The corners.
    pub join: Join,
    /// The miter limit, at least 1.
    pub miter: Fix,
    /// The dashes and gaps; without any, or where all are 0, the line is solid.
    pub dashes: Dashes,
    /// How far along the pattern a line begins, in 1/65536 of a dot, of a magnitude below 2^62.
    pub offset: i64,
}

impl Model for Pen {
    ghost use Rattle.geo_stroke.specs.Pen.{PenValue, IsPen};

    ghost Value = { PenValue };

    ghost view = { λ p. record {
      half = p.half;
      cap = p.cap;
      join = p.join;
      miter = p.miter;
      dashes = p.dashes;
      offset =
          p.offset;
    } };

    ghost invariant = { λ p. IsPen p.half p.miter p.offset };
}

impl Pen {
    /// Whether it paints solid lines: it has no dashes and gaps, or each is 0.
    pub fn is_solid(&self) -> bool
        ensures { result ≡ is_solid self.now.dashes }
    {
        self.dashes.is_solid()
    }

    /// Half the line's width in sub-dots, for sums and products.
    pub fn wide_half(&self) -> Wide
        ensures value { result ≡ self.now.half }
        ensures least { pos 128 ≤ℤ result }
        ensures bound { unsigned_abs result ≤ 2 ^ 30 }
    {
        Wide::of(self.half)
    }

    /// The miter limit in 1/65536, for products and comparisons.
    pub fn wide_miter(&self) -> Wide
        ensures value { result ≡ self.now.miter }
        ensures least { pos 65536 ≤ℤ result }
        ensures bound { unsigned_abs result ≤ 2 ^ 47 }
    {
        Wide::of(self.miter.raw())
    }

    /// How far along the pattern a line begins, in 1/65536 of a dot, for sums and remainders.
    pub fn wide_offset(&self) -> Wide
        ensures value { result ≡ self.now.offset }
        ensures bound { unsigned_abs result < 2 ^ 62 }
    {
        Wide::of(self.offset)
    }
}
