use page_model::Bytes;
use std::marker::Model;

/// The dots of a band: its number, counted from the top of the page, how many rows it has, and the values of its dots.
///
/// These stand row by row from the left, red, green and blue in turn: in one byte at a depth of 8 bits, and in two
/// at 16, the more significant first.
#[derive(Drop)]
pub struct BandDots {
    pub band: u32,
    pub rows: u32,
    pub dots: Bytes,
}

impl Model for BandDots {
    ghost use Rattle.list_player.specs.Playing.{BandDotsValue};

    ghost Value = { BandDotsValue };

    ghost view = { λ d. record { band = d.band; rows = d.rows; dots = d.dots } };
}
