//! Laws of the definitions, which later layers rest on.
//!
//! Each is the contract of a function that does nothing.
ghost use Rattle.std.specs.Prelude.{◌≡◌, ◌<◌, ◌*◌, ℕ, List, length, slice_index_or};
ghost use Rattle.page_model.specs.Image.{ImageValue};
ghost use Rattle.img_map.specs.declared.row.Pick.{Pick};
ghost use Rattle.img_map.specs.declared.row.Pick.TheVariants.{Outside, At};
ghost use Rattle.img_map.specs.Picks.{HaveSamples};

/// A sample that a dot has is one of the image's.
pub fn picks_are_of_the_image()
    ensures { (image : ImageValue) (row from k n : ℕ) (picks : List Pick) → HaveSamples image row from picks →
        k < length picks → slice_index_or picks k Outside ≡ At n → n < image.width * image.rows }
{}
