//! Laws of the split: functions without code, whose contracts are the laws.
ghost use Rattle.std.specs.Prelude.{◌≡◌, ◌+◌, ◌*◌, ◌≤◌, ◌<◌, ℕ, List, false, min, map};
ghost use Rattle.press_fault.specs.Plane.{CodeValue};
ghost use Rattle.page_model.specs.Marking.{MarkValue};
ghost use Rattle.page_model.specs.Page.{PageValue, HaveNumberedClips};
ghost use Rattle.page_model.specs.Pages.{band_text, band_count};
ghost use Rattle.page_model.specs.Cover.{covers_dot};
ghost use Rattle.page_model.specs.declared.page.Depth.{Depth};
ghost use Rattle.band_writer.specs.Bands.{meets, band_marks};
ghost use Rattle.band_writer.specs.Said.{list_marks, without_number};
ghost use Rattle.band_writer.specs.Parts.{BandListsValue, IsSplit, band_cmds};

/// A mark that a band doesn't hold covers none of its dots.
pub fn marks_left_out_cover_nothing()
    ensures { (height band_rows band row col : ℕ) (mark : MarkValue) → meets height band_rows band mark ≡ false →
        band * band_rows ≤ row → row < min ((band + 1) * band_rows) height → covers_dot row col mark ≡ false }
{}

/// What the list of a band says is exactly the marks that the band holds, in order. A list doesn't say
/// the number of a clip, nor the inside rule of an image.
pub fn lists_say_their_marks()
    ensures { (page : PageValue) (band_rows band : ℕ) (split : BandListsValue) → HaveNumberedClips page.marks →
        IsSplit page band_rows split → list_marks split.parts.images (band_cmds page band_rows band)
        ≡ map without_number (band_marks page.height band_rows band page.marks) }
{}

/// The marks that a band's list says give each dot of the band its colour on the page.
pub fn lists_paint_the_page()
    ensures { (depth : Depth) (tint : ℕ → CodeValue → List ℕ) (page : PageValue) (band_rows band : ℕ)
        (split : BandListsValue) → HaveNumberedClips page.marks → IsSplit page band_rows split →
        band_text depth tint page.width page.height band_rows
        (list_marks split.parts.images (band_cmds page band_rows band)) band
        ≡ band_text depth tint page.width page.height band_rows page.marks band }
{}
