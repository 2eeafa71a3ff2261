ghost use Rattle.std.specs.Prelude.{◌≡◌, [], ◌∷◌, ◌++◌, OnOk, OnErr, map};
ghost use Rattle.std.specs.Arc.{arc_value};

use page_model::{Depth, Image};
use press_fault::Mem;
use std::alloc::Global;
use std::marker::Model;
use std::sync::Arc;

/// The images of a page, in the order of its marks; a list of commands names one by its place.
#[derive(Drop)]
pub struct Images {
    images: Vec<Arc<Image>>,
}

impl Model for Images {
    ghost use Rattle.std.specs.Prelude.{List, map};
    ghost use Rattle.std.specs.Arc.{arc_value};
    ghost use Rattle.page_model.specs.Image.{ImageValue};

    ghost Value = { List ImageValue };

    ghost view = { λ i. map arc_value i.images.items };
}

impl Images {
    /// No images.
    pub fn new(alloc: Global) -> Self
        ensures { result ≡ [] }
    {
        Images {
            images: Vec::new(alloc),
        }
    }

    /// Adds an image at the end. Out of memory leaves the list as before.
    pub fn push(&mut self, item: Arc<Image>) -> Mem<()>
        ensures ok { OnOk result (self.new ≡ self.old ++ arc_value item ∷ []) }
        ensures err { OnErr result (self.new ≡ self.old) }
    {
        self.images.push(item)?;
        Ok(())
    }

    /// The images, by their places.
    pub fn items(&self) -> &[Arc<Image>]
        ensures { map arc_value result.now ≡ self.now }
    {
        &self.images
    }
}

/// What the bands of a page share: its size in dots, how many rows a band has, how many bits a dot's
/// red, green and blue have each, and its images. The last band may have fewer rows.
#[derive(Drop)]
pub struct PageParts {
    pub width: u32,
    pub height: u32,
    pub band: u32,
    pub depth: Depth,
    pub images: Images,
}

impl Model for PageParts {
    ghost use Rattle.band_writer.specs.Parts.{PagePartsValue};

    ghost Value = { PagePartsValue };

    ghost view = { λ p. record {
      width = p.width;
      height = p.height;
      band = p.band;
      depth = p.depth;
      images =
          p.images;
    } };
}
