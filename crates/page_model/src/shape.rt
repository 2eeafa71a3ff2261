ghost use Rattle.std.specs.Prelude.{◌≡◌, ◌<◌, ◌^◌, [], ◌∷◌, ◌++◌, OnOk, OnErr, IfOk, MatchOption, pos};
ghost use Rattle.press_fault.specs.Plane.{IsWithin};

use crate::Rings;
use press_fault::{Mem, Point};
use press_nums::Wide;
use std::alloc::Global;
use std::marker::Model;
use std::sync::Arc;

/// The inside rule of a polygon (PostScript Language Reference, third edition, 4.5 Painting:
/// the nonzero winding number rule and the even-odd rule).
#[derive(Clone, Copy, Debug, PartialEq, Eq)]
pub enum Rule {
    Nonzero,
    EvenOdd,
}

/// A disc, by its centre and its radius, in sub-dots; the radius is below 2^44.
#[derive(Clone, Copy, Debug, PartialEq, Eq)]
pub struct Disc {
    pub x: i64,
    pub y: i64,
    pub r: u64,
}

impl Model for Disc {
    ghost use Rattle.page_model.specs.Disc.{DiscValue, IsDisc};

    ghost Value = { DiscValue };

    ghost view = { λ d. record { x = d.x; y = d.y; r = d.r } };

    ghost invariant = { λ d. IsDisc (record { x = d.x; y = d.y; r = d.r }) };

    ghost inverse = { λ v. record { x = v.x; y = v.y; r = v.r } };
}

impl Disc {
    /// The disc round a point, by its radius in sub-dots.
    pub fn new(centre: Point, r: u64) -> Disc
        requires { r < 2 ^ 44 }
        ensures { result ≡ record { x = centre.x; y = centre.y; r = r } }
    {
        Disc {
            x: centre.x,
            y: centre.y,
            r,
        }
    }

    /// The column of the centre, in sub-dots, for sums and products.
    pub fn wide_x(self) -> Wide
        ensures value { result ≡ self.x }
        ensures bound { IsWithin result }
    {
        Wide::of(self.x)
    }

    /// The height of the centre, in sub-dots down the page, for sums and products.
    pub fn wide_y(self) -> Wide
        ensures value { result ≡ self.y }
        ensures bound { IsWithin result }
    {
        Wide::of(self.y)
    }

    /// The radius in sub-dots, for sums and products.
    pub fn wide_r(self) -> Wide
        ensures value { result ≡ pos self.r }
        ensures bound { IsWithin result }
    {
        Wide::of_size(u128::from(self.r))
    }
}

/// A part of a mark: a polygon of closed rings, by the mark's inside rule, or a disc.
#[derive(Drop)]
pub enum Shape {
    Poly(Rings),
    Disc(Disc),
}

/// The shapes of a mark.
#[derive(Drop)]
pub struct Shapes {
    shapes: Vec<Shape>,
}

impl Model for Shapes {
    ghost use Rattle.std.specs.Prelude.{List};
    ghost use Rattle.page_model.specs.declared.shape.Shape.{Shape};

    ghost Value = { List Shape };

    ghost view = { λ s. s.shapes.items };
}

impl Shapes {
    /// An empty list.
    pub fn new(alloc: Global) -> Self
        ensures { result ≡ [] }
    {
        Shapes {
            shapes: Vec::new(alloc),
        }
    }

    /// No shapes yet, with room for so many, so that no memory is taken beyond it.
    pub fn with_room(alloc: Global, shapes: usize) -> Mem<Self>
        ensures { IfOk result (λ shapes. shapes ≡ []) }
    {
        Ok(Shapes {
            shapes: Vec::with_capacity(alloc, shapes)?,
        })
    }

    /// Adds one at the end. Out of memory leaves the list as before.
    pub fn push(&mut self, item: Shape) -> Mem<()>
        ensures ok { OnOk result (self.new ≡ self.old ++ item ∷ []) }
        ensures err { OnErr result (self.new ≡ self.old) }
    {
        self.shapes.push(item)?;
        Ok(())
    }

    /// Takes the last one away, if there is one.
    pub fn pop(&mut self) -> Option<Shape>
        ensures { MatchOption result ((self.old ≡ []) × (self.new ≡ []))
            (λ shape. self.old ≡ self.new ++ shape ∷ []) }
    {
        self.shapes.pop()
    }

    /// All of them, in order.
    pub fn items(&self) -> &[Shape]
        ensures { result.now ≡ self.now }
    {
        &self.shapes
    }
}

/// A part of a clip: closed rings and their inside rule. The rings are shared, so that a clip that is
/// cut once more has no copy of them.
#[derive(Drop)]
pub struct Region {
    pub rule: Rule,
    pub rings: Arc<Rings>,
}

impl Model for Region {
    ghost use Rattle.page_model.specs.Marking.{RegionValue};

    ghost Value = { RegionValue };

    ghost view = { λ r. record { rule = r.rule; rings = r.rings.value } };
}

impl Region {
    /// The same part of a clip, of the same rings.
    pub fn share(&self) -> Mem<Region>
        ensures { IfOk result (λ region. region ≡ self.now) }
    {
        Ok(Region {
            rule: self.rule,
            rings: Arc::try_clone(&self.rings)?,
        })
    }
}

/// The regions that a mark is cut to: a dot has to be in each of them.
#[derive(Drop)]
pub struct Clip {
    regions: Vec<Region>,
}

impl Model for Clip {
    ghost use Rattle.std.specs.Prelude.{List};
    ghost use Rattle.page_model.specs.Marking.{RegionValue};

    ghost Value = { List RegionValue };

    ghost view = { λ c. c.regions.items };
}

impl Clip {
    /// An empty list.
    pub fn new(alloc: Global) -> Self
        ensures { result ≡ [] }
    {
        Clip {
            regions: Vec::new(alloc),
        }
    }

    /// No regions yet, with room for so many, so that no memory is taken beyond it.
    pub fn with_room(alloc: Global, regions: usize) -> Mem<Self>
        ensures { IfOk result (λ clip. clip ≡ []) }
    {
        Ok(Clip {
            regions: Vec::with_capacity(alloc, regions)?,
        })
    }

    /// Adds one at the end. Out of memory leaves the list as before.
    pub fn push(&mut self, item: Region) -> Mem<()>
        ensures ok { OnOk result (self.new ≡ self.old ++ item ∷ []) }
        ensures err { OnErr result (self.new ≡ self.old) }
    {
        self.regions.push(item)?;
        Ok(())
    }

    /// All of them, in order.
    pub fn items(&self) -> &[Region]
        ensures { result.now ≡ self.now }
    {
        &self.regions
    }
}
