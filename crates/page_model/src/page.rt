use crate::Marks;
use std::marker::Model;

/// How many bits a dot's red, green and blue have each.
#[derive(Clone, Copy, Debug, PartialEq, Eq)]
pub enum Depth {
    Eight,
    Sixteen,
}

/// A page: its size in dots, how many source profiles its codes go by, and its marks.
///
/// A side has at most 16,384 dots and the page 67,108,864; there are at most 1,000,000 marks,
/// and each source number in a mark is below `sources`. Marks with the same clip number have the
/// same clip.
#[derive(Drop)]
pub struct Page {
    pub width: u32,
    pub height: u32,
    pub sources: u32,
    pub marks: Marks,
}

impl Model for Page {
    ghost use Rattle.page_model.specs.Page.{PageValue, IsPage};

    ghost Value = { PageValue };

    ghost view = { λ p. record { width = p.width; height = p.height; sources = p.sources; marks = p.marks } };

    ghost invariant = { λ p. IsPage p.width p.height p.sources p.marks };
}
