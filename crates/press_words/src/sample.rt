//! The text of a sample page.
ghost use Rattle.std.specs.Prelude.{◌≡◌, ◌≤◌, ◌<◌, ◌+◌, ◌^◌, OnOk, IfOk, codes};
ghost use Rattle.press_words.specs.Sample.{with_number, with_point, with_triangle, with_colour, with_rectangle};
ghost use Rattle.press_words.specs.Sample.{with_line, no_lines, lines_of, sample_text_of};

use itoa::Buffer;
use press_fault::Mem;
use rand_core::utils::NextWord;
use rand_pcg::Lcg64Xsh32;
use std::alloc::Global;
use std::marker::Model;

/// A text so far, and the generator of the numbers that come next.
#[derive(Drop)]
struct Draft {
    text: Vec<u8>,
    words: Lcg64Xsh32,
}

impl Model for Draft {
    ghost use Rattle.press_words.specs.Sample.{DraftValue};

    ghost Value = { DraftValue };

    ghost view = { λ d. record { text = d.text.items; words = d.words } };
}

/// The program of a sample page: 2,000 lines of coloured rectangles and triangles whose places are drawn from the
/// number, and one that shows the page. The words are those of PCG XSH RR 64/32 with the state `n` and the stream 1.
pub fn sample_text(alloc: Global, n: u32) -> Mem<Vec<u8>>
    ensures { IfOk result (λ text. text.items ≡ sample_text_of n) }
{
    let mut draft = draft_of(alloc, n, 2000)?;
    draft.text.extend_from_slice(b"showpage\n")?;
    Ok(draft.text)
}

/// So many lines.
fn draft_of(alloc: Global, n: u32, count: u32) -> Mem<Draft>
    ensures { IfOk result (λ draft. draft ≡ lines_of n count) }
{
    let mut draft = Draft::new(alloc, n);
    for i in 0..count {
        draft.add_line(i)?;
    }
    Ok(draft)
}

impl Draft {
    fn new(alloc: Global, n: u32) -> Draft
        ensures { result ≡ no_lines n }
    {
        Draft {
            text: Vec::new(alloc),
            words: Lcg64Xsh32::new(u64::from(n), 1),
        }
    }

    /// One line more; each tenth is a triangle.
    fn add_line(&mut self, i: u32) -> Mem<()>
        ensures { OnOk result (self.new ≡ with_line self.old i) }
    {
        if i % 10 == 9 {
            self.add_triangle()
        } else {
            self.add_rectangle()
        }
    }

    #[tactic(auto, unfolding(crate::specs::Sample::with_triangle))]
    fn add_triangle(&mut self) -> Mem<()>
        ensures { OnOk result (self.new ≡ with_triangle self.old) }
    {
        self.add_point(b" moveto ")?;
        self.add_point(b" lineto ")?;
        self.add_point(b" lineto fill\n")
    }

    /// A rectangle in a colour of its own; a side has 1 to 200 points.
    #[tactic(auto, unfolding(crate::specs::Sample::with_rectangle))]
    fn add_rectangle(&mut self) -> Mem<()>
        ensures { OnOk result (self.new ≡ with_rectangle self.old) }
    {
        self.add_colour()?;
        self.add_point(b" ")?;
        self.add_number(200, 1, b" ")?;
        self.add_number(200, 1, b" rectfill\n")
    }

    #[tactic(auto, unfolding(crate::specs::Sample::with_colour))]
    fn add_colour(&mut self) -> Mem<()>
        ensures { OnOk result (self.new ≡ with_colour self.old) }
    {
        self.add_number(256, 0, b" 255 div ")?;
        self.add_number(256, 0, b" 255 div ")?;
        self.add_number(256, 0, b" 255 div setrgbcolor ")
    }

    /// A point of the page, in points of 1/72 inch, and the text behind it.
    #[tactic(auto, unfolding(crate::specs::Sample::with_point))]
    fn add_point(&mut self, behind: &[u8]) -> Mem<()>
        ensures { OnOk result (self.new ≡ with_point behind.now self.old) }
    {
        self.add_number(612, 0, b" ")?;
        self.add_number(792, 0, behind)
    }

    /// One number more, in decimal, and the text behind it: the generator's next word modulo `below`, and `more`.
    #[tactic(auto, unfolding(crate::specs::Sample::with_number))]
    fn add_number(&mut self, below: u32, more: u32, behind: &[u8]) -> Mem<()>
        requires some { 0 < below }
        requires bound { below + more ≤ 2 ^ 32 }
        ensures { OnOk result (self.new ≡ with_number below more behind.now self.old) }
    {
        let number = self.words.next_word() % below + more;
        self.text
            .extend_from_slice(Buffer::new().format(number).as_bytes())?;
        self.text.extend_from_slice(behind)?;
        Ok(())
    }
}
