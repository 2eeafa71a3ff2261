//! Row spans of filled shapes: the columns of a row whose dot centres a shape, or a region of a
//! clip, holds.
//!
//! Proved against `specs/Spans.antt`; when a shape holds a centre is defined with the page
//! (`page_model/specs/Inside.antt` and `Cover.antt`). Start with `span.rt`, then `walk.rt`, which
//! goes from row to row, `edge.rt` and `row.rt`. Rows and columns count dots.
#![tactic(auto)]

mod crossing;
mod edge;
mod laws;
mod row;
mod span;
mod walk;

pub use laws::columns_have_one_list_of_spans;
pub use row::{region_spans, spans};
pub use span::{Span, Spans};
pub use walk::EdgeWalk;
