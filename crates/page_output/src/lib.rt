//! Pages as portable pixmaps: the header, and the dots band by band (Netpbm, PPM, binary form P6).
//!
//! Nothing here takes memory, so a page that was drawn is written unless a write fails. What a sink takes is counted
//! and hashed as it is written.
#![tactic(auto)]

mod laws;
mod output;
mod tally;

pub use laws::sheets_are_pages;
pub use output::write_page;
pub use tally::{Taken, Tally, send_tallied};
