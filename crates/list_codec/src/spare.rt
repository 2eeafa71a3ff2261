//! Rings and shapes read into room that was used before.
ghost use Rattle.std.specs.Prelude.{◌≡◌, [], ◌∷◌, ◌<◌, IfOk, IfSome};
ghost use Rattle.list_codec.specs.Code.Reading.{Gives, point_at, points_at, ring_at, counted_at, many_at, shape_at};
ghost use Rattle.list_codec.specs.Code.Reading.{poly_at, round_at, region_at};
ghost use Rattle.list_codec.specs.Spelling.{origin};

use crate::misread::Misread;
use crate::number::{byte_at, number_at};
use crate::part::{disc_at, point_at, rule_at};
use page_model::{Clip, Region, Ring, Rings, Shape, Shapes};
use press_fault::{Mem, Point};
use std::alloc::Global;
use std::sync::Arc;

/// Polygons and rings whose room is used again; what they hold counts for nothing.
#[derive(Drop)]
pub struct Spare {
    alloc: Global,
    polygons: Vec<Rings>,
    rings: Vec<Ring>,
}

impl Spare {
    /// None yet.
    pub fn new(alloc: Global) -> Self {
        Spare {
            alloc,
            polygons: Vec::new(alloc),
            rings: Vec::new(alloc),
        }
    }

    /// Keeps the room of shapes, which are empty afterwards.
    pub fn keep(&mut self, shapes: &mut Shapes) -> Mem<()>
        ensures { IfOk result (λ _. shapes.new ≡ []) }
    {
        while let Some(shape) = shapes.pop() {
            self.keep_shape(shape)?;
        }
        Ok(())
    }

    fn keep_shape(&mut self, shape: Shape) -> Mem<()> {
        if let Shape::Poly(rings) = shape {
            self.polygons.push(rings)?;
        }
        Ok(())
    }

    /// An empty ring.
    fn take_ring(&mut self) -> Ring
        ensures { result ≡ [] }
    {
        match self.rings.pop() {
            Some(mut ring) => {
                ring.clear();
                ring
            }
            None => Ring::new(self.alloc),
        }
    }

    /// No rings.
    fn take_rings(&mut self) -> Mem<Rings>
        ensures { IfOk result (λ rings. rings ≡ []) }
    {
        match self.polygons.pop() {
            Some(polygon) => self.emptied(polygon),
            None => Ok(Rings::new(self.alloc)),
        }
    }

    /// A polygon without its rings, whose room is kept.
    fn emptied(&mut self, mut polygon: Rings) -> Mem<Rings>
        ensures { IfOk result (λ rings. rings ≡ []) }
    {
        while let Some(ring) = polygon.pop() {
            self.rings.push(ring)?;
        }
        Ok(polygon)
    }

    /// A clip, to be shared.
    pub fn clip_at<'b>(&mut self, bytes: &'b [u8]) -> Result<(Arc<Clip>, &'b [u8]), Misread>
        ensures { Gives (λ x. (x.0.value, x.1.now)) result (counted_at region_at bytes.now) }
    {
        let (clip, rest) = self.regions_at(bytes)?;
        Ok((Arc::new(self.alloc, clip)?, rest))
    }

    #[tactic(auto, unfolding(crate::specs::Code::Reading::counted_at))]
    fn regions_at<'b>(&mut self, bytes: &'b [u8]) -> Result<(Clip, &'b [u8]), Misread>
        ensures { Gives (λ x. (x.0, x.1.now)) result (counted_at region_at bytes.now) }
    {
        let Some((count, rest)) = number_at(bytes) else {
            return Err(Misread::NoCommand);
        };
        self.regions_in(count, rest)
    }

    fn regions_in<'b>(&mut self, count: u64, bytes: &'b [u8]) -> Result<(Clip, &'b [u8]), Misread>
        ensures { Gives (λ x. (x.0, x.1.now)) result (many_at region_at count bytes.now) }
    {
        let mut clip = Clip::new(self.alloc);
        let mut rest = bytes;
        for _ in 0..count {
            let (region, after) = self.region_at(rest)?;
            clip.push(region)?;
            rest = after;
        }
        Ok((clip, rest))
    }

    #[tactic(auto, unfolding(crate::specs::Code::Reading::region_at))]
    fn region_at<'b>(&mut self, bytes: &'b [u8]) -> Result<(Region, &'b [u8]), Misread>
        ensures { Gives (λ x. (x.0, x.1.now)) result (region_at bytes.now) }
    {
        let Some((rule, rest)) = rule_at(bytes) else {
            return Err(Misread::NoCommand);
        };
        let (rings, rest) = self.rings_at(rest)?;
        let rings = Arc::new(self.alloc, rings)?;
        Ok((Region { rule, rings }, rest))
    }

    /// Shapes, put into a list that is empty.
    #[tactic(auto, unfolding(crate::specs::Code::Reading::counted_at))]
    pub fn shapes_at<'b>(
        &mut self,
        shapes: &mut Shapes,
        bytes: &'b [u8],
    ) -> Result<&'b [u8], Misread>
        requires { shapes.old ≡ [] }
        ensures { Gives (λ rest. (shapes.new, rest.now)) result (counted_at shape_at bytes.now) }
    {
        let Some((count, rest)) = number_at(bytes) else {
            return Err(Misread::NoCommand);
        };
        self.shapes_in(count, shapes, rest)
    }

    fn shapes_in<'b>(
        &mut self,
        count: u64,
        shapes: &mut Shapes,
        bytes: &'b [u8],
    ) -> Result<&'b [u8], Misread>
        requires { shapes.old ≡ [] }
        ensures { Gives (λ rest. (shapes.new, rest.now)) result (many_at shape_at count bytes.now) }
    {
        let mut rest = bytes;
        for _ in 0..count {
            let (shape, after) = self.shape_at(rest)?;
            shapes.push(shape)?;
            rest = after;
        }
        Ok(rest)
    }

    /// A polygon or a disc.
    #[tactic(auto, unfolding(crate::specs::Code::Reading::shape_at, crate::specs::Code::Reading::poly_at, crate::specs::Code::Reading::round_at))]
    fn shape_at<'b>(&mut self, bytes: &'b [u8]) -> Result<(Shape, &'b [u8]), Misread>
        ensures { Gives (λ x. (x.0, x.1.now)) result (shape_at bytes.now) }
    {
        let Some((kind, rest)) = byte_at(bytes) else {
            return Err(Misread::NoCommand);
        };
        match kind {
            0 => {
                let (rings, rest) = self.rings_at(rest)?;
                Ok((Shape::Poly(rings), rest))
            }
            1 => match disc_at(rest) {
                Some((disc, rest)) => Ok((Shape::Disc(disc), rest)),
                None => Err(Misread::NoCommand),
            },
            _ => Err(Misread::NoCommand),
        }
    }

    #[tactic(auto, unfolding(crate::specs::Code::Reading::counted_at))]
    fn rings_at<'b>(&mut self, bytes: &'b [u8]) -> Result<(Rings, &'b [u8]), Misread>
        ensures { Gives (λ x. (x.0, x.1.now)) result (counted_at ring_at bytes.now) }
    {
        let Some((count, rest)) = number_at(bytes) else {
            return Err(Misread::NoCommand);
        };
        self.rings_in(count, rest)
    }

    fn rings_in<'b>(&mut self, count: u64, bytes: &'b [u8]) -> Result<(Rings, &'b [u8]), Misread>
        ensures { Gives (λ x. (x.0, x.1.now)) result (many_at ring_at count bytes.now) }
    {
        let mut rings = self.take_rings()?;
        let mut rest = bytes;
        for _ in 0..count {
            let (ring, after) = self.ring_at(rest)?;
            rings.push(ring)?;
            rest = after;
        }
        Ok((rings, rest))
    }

    #[tactic(auto, unfolding(crate::specs::Code::Reading::ring_at))]
    fn ring_at<'b>(&mut self, bytes: &'b [u8]) -> Result<(Ring, &'b [u8]), Misread>
        ensures { Gives (λ x. (x.0, x.1.now)) result (ring_at bytes.now) }
    {
        let Some((count, rest)) = number_at(bytes) else {
            return Err(Misread::NoCommand);
        };
        let mut ring = self.take_ring();
        let rest = points_at(count, &mut ring, rest)?;
        Ok((ring, rest))
    }
}

/// So many points, put into a ring that is empty.
fn points_at<'b>(count: u64, ring: &mut Ring, bytes: &'b [u8]) -> Result<&'b [u8], Misread>
    requires { ring.old ≡ [] }
    ensures { Gives (λ rest. (ring.new, rest.now)) result (points_at count origin bytes.now) }
{
    let mut before = Point { x: 0, y: 0 };
    let mut rest = bytes;
    for _ in 0..count {
        let Some((point, after)) = point_at(before, rest) else {
            return Err(Misread::NoCommand);
        };
        ring.push(point)?;
        before = point;
        rest = after;
    }
    Ok(rest)
}
