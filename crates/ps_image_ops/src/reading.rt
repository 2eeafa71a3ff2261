//! Images that are being read.
ghost use Rattle.std.specs.Prelude.{◌≡◌, ◌-◌, ◌==◌, ◌↔◌, Some, None, OnOk, OnErr, IfOk, IsErrOf, min, length};
ghost use Rattle.std.specs.Arc.{arc_value};
ghost use Rattle.ps_image_ops.specs.Parameters.{is_mask};
ghost use Rattle.ps_image_ops.specs.Reading.{lacks, read_on, read_over, image_of, placed};
ghost use Rattle.ps_image_ops.specs.Code.Kept.{IsReading};

use crate::extent::extent_of;
use crate::parameters::DataSource;
use geo_matrix::Matrix;
use gfx_state::Gfx;
use img_map::image_map;
use img_samples::Gather;
use page_model::Image;
use press_fault::{Grow, Mem};
use ps_store::ImageOp;
use std::alloc::Global;
use std::marker::Model;
use std::sync::Arc;

/// An image that is being read: its operator, the current matrix when that began and the image's own,
/// and what was delivered (PostScript Language Reference, third edition, 4.10 Images).
#[derive(Drop)]
pub struct Reading {
    op: ImageOp,
    current: Matrix,
    matrix: Matrix,
    gather: Gather,
}

impl Model for Reading {
    ghost use Rattle.ps_image_ops.specs.Reading.{ReadingValue};
    ghost use Rattle.ps_image_ops.specs.Code.Kept.{IsReading};

    ghost Value = { ReadingValue };

    ghost view = { λ r. record { op = r.op; current = r.current; matrix = r.matrix; gather = r.gather } };

    ghost invariant = { λ r. IsReading r.op r.current r.matrix r.gather.format };
}

/// An image that begins: how many operands it takes, where its data come from, and the image, of which
/// nothing was read.
#[derive(Drop)]
pub struct Begun {
    pub operands: usize,
    pub source: DataSource,
    pub reading: Reading,
}

impl Reading {
    /// An image of which nothing was read.
    pub(crate) fn new(op: ImageOp, current: Matrix, matrix: Matrix, gather: Gather) -> Reading
        requires { IsReading op current matrix gather.format }
        ensures { result ≡ record { op = op; current = current; matrix = matrix; gather = gather } }
    {
        Reading {
            op,
            current,
            matrix,
            gather,
        }
    }

    /// The operator, whose name is the command of what is refused later.
    pub fn op(&self) -> ImageOp
        ensures { result ≡ self.now.op }
    {
        self.op
    }

    /// Whether it takes no more bytes: all rows have come, or there are none.
    pub fn is_done(&self) -> bool
        ensures { result ≡ (lacks self.now == 0) }
    {
        self.gather.done()
    }

    /// Reads bytes, as many as it takes, and says how many. Out of memory leaves it as before.
    #[tactic(auto, using(crate::proofs::Over::taken))]
    pub fn read(&mut self, bytes: &[u8]) -> Mem<usize>
        ensures count { IfOk result (λ n. n ≡ min (length bytes.now) (lacks self.old)) }
        ensures ok { OnOk result (self.new ≡ read_on self.old bytes.now) }
        ensures left { IfOk result (λ n. lacks self.new ≡ lacks self.old - n) }
        ensures err { OnErr result (self.new ≡ self.old) }
    {
        self.gather.feed(bytes)
    }

    /// Reads the bytes of a string over and over, until it takes no more. An empty string gives nothing.
    pub fn read_over(&mut self, bytes: &[u8]) -> Mem<()>
        ensures { OnOk result (self.new ≡ read_over self.old bytes.now) }
    {
        read_over(self, bytes)
    }

    /// Adds what was read to the page, refused exactly where the page has no room for it; nothing where
    /// no row came whole. A refusal takes no memory and leaves the page as it was.
    pub fn place(self, alloc: Global, gfx: &mut Gfx) -> Result<(), Grow>
        ensures ok { OnOk result (placed self gfx.old ≡ Some gfx.new) }
        ensures limit { IsErrOf result Grow.LimitCheck ↔ (placed self gfx.old ≡ None) }
        ensures err { OnErr result (gfx.new ≡ gfx.old) }
    {
        if self.gather.rows() == 0 {
            return Ok(());
        }
        if !gfx.has_image_room(self.gather.codes() as u64) {
            return Err(Grow::LimitCheck);
        }
        let mask = is_mask(self.op);
        let image = self.shared_image(alloc)?;
        gfx.mark_image(image, mask)
    }

    /// The image, which marks share.
    fn shared_image(self, alloc: Global) -> Mem<Arc<Image>>
        ensures { IfOk result (λ image. arc_value image ≡ image_of self) }
    {
        Ok(Arc::new(alloc, self.image())?)
    }

    /// The image that the rows make which came whole.
    fn image(self) -> Image
        ensures { result ≡ image_of self }
    {
        let (width, rows) = (self.gather.width(), self.gather.rows());
        // That there are few codes is what the proof wants of this.
        let _codes = self.gather.codes();
        let extent = extent_of(&self.current, &self.matrix, width, rows);
        Image {
            width,
            rows,
            channels: self.gather.channels(),
            source: None,
            map: image_map(&self.current, &self.matrix),
            low: extent.low.narrow(),
            high: extent.high.narrow(),
            codes: self.gather.finish(),
        }
    }
}

/// Whether an operator paints a mask.
pub(crate) fn is_mask(op: ImageOp) -> bool
    ensures { result ≡ is_mask op }
{
    match op {
        ImageOp::Imagemask => true,
        ImageOp::Image => false,
        ImageOp::Colorimage => false,
    }
}

/// Reads the bytes of a string over and over, until no more are taken.
#[tactic(auto, using(crate::proofs::Over::of_empty))]
fn read_over(reading: &mut Reading, bytes: &[u8]) -> Mem<()>
    ensures { OnOk result (reading.new ≡ read_over reading.old bytes.now) }
{
    if bytes.is_empty() {
        return Ok(());
    }
    while !reading.is_done() {
        reading.read(bytes)?;
    }
    Ok(())
}
