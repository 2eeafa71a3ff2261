//! The dots of a band of a page, drawn from the band's list.
//!
//! Proved against `specs/Playing.antt`, which says what a list's commands draw, and `Painting.antt`, which has dots
//! painted over others. Start with `playing.rt`, then `drawing.rt` and `rows.rt`. Rows and columns count dots.
#![tactic(auto)]

mod clip;
mod colours;
mod dot;
mod dots;
mod drawing;
mod laws;
mod memo;
mod picture;
mod playing;
mod reach;
mod row;
mod rows;

pub use colours::{Colours, Lent};
pub use dots::BandDots;
pub use laws::bytes_say_their_marks_once;
pub use playing::{play, play_plain};
