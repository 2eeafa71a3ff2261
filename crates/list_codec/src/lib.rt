//! The commands of a band's list, as bytes: what is to be painted in a band of a page's rows.
//!
//! Proved against `specs/Spelling.antt`, which has the bytes of each command, and `Command.antt`,
//! which says what a command is. Start with `cmd.rt`, then `put.rt` and `room.rt`; `laws.rt` says
//! that no spelling is the front of another's.
//! Coordinates are sub-dots, 1/256 of a dot; y grows down the page.
#![tactic(auto)]

mod cmd;
mod laws;
mod misread;
mod number;
mod part;
mod put;
mod room;
mod spare;

pub use cmd::{Brief, Cmd};
pub use laws::{no_spelling_is_the_front_of_another, what_was_put_is_read};
pub use put::{put_clip, put_cmd, put_draw, put_flat, put_image, put_mask};
pub use room::{CmdRoom, read_cmd};
