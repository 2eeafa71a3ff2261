//! Laws of what is written.
ghost use Rattle.std.specs.Prelude.{◌≡◌, ◌<◌, ℕ, List};
ghost use Rattle.press_fault.specs.Plane.{CodeValue};
ghost use Rattle.page_model.specs.Marking.{MarkValue};
ghost use Rattle.page_model.specs.declared.page.Depth.{Depth};
ghost use Rattle.page_model.specs.Pages.{page_text};
ghost use Rattle.list_player.specs.Playing.{BandDotsValue};
ghost use Rattle.page_output.specs.Sheet.{sheet, AreBandsOf};

use page_model::{Depth, bands_are_the_page};

/// The header and the bands of a page, in order, are the text of the page.
pub fn sheets_are_pages()
    ensures { (depth : Depth) (tint : ℕ → CodeValue → List ℕ) (width height band_rows : ℕ) (marks : List MarkValue)
        (bands : List BandDotsValue) → 0 < band_rows → AreBandsOf depth tint width height band_rows marks bands →
        sheet depth width height bands ≡ page_text depth tint width height marks }
{
    bands_are_the_page();
}
