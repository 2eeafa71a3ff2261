use page_model::{Clip, Ink, Rule, Shapes};
use std::sync::Arc;

/// One command of a band's list. A list begins with gray 0 as its ink, and with a clip without
/// regions, which cuts nothing.
#[derive(Drop)]
pub enum Cmd {
    /// The ink of the shapes and masks from here on.
    Flat(Ink),
    /// The clip of all that is painted from here on.
    Clip(Arc<Clip>),
    /// Paints shapes by an inside rule.
    Draw(Rule, Arc<Shapes>),
    /// Paints an image, by its place in the page's table.
    Image(u32),
    /// Paints through a mask, by its place in the page's table.
    Mask(u32),
}

/// A command whose shapes, if it has any, stand in a room that is used again.
#[derive(Drop)]
pub enum Brief {
    /// The ink of the shapes and masks from here on.
    Flat(Ink),
    /// The clip of all that is painted from here on.
    Clip(Arc<Clip>),
    /// Paints the shapes of the room by an inside rule.
    Draw(Rule),
    /// Paints an image, by its place in the page's table.
    Image(u32),
    /// Paints through a mask, by its place in the page's table.
    Mask(u32),
}
