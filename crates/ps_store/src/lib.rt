//! Objects, the store that keeps strings, arrays and dictionaries, and the stacks of operands and of
//! dictionaries.
//!
//! Proved against `specs/Store.antt`, `specs/Keys.antt` and `specs/Dicts.antt`. What an operator
//! answers stands in `specs/Outcome.antt`. Start with `obj.rt`, then `store.rt`.
#![tactic(auto)]

mod composite;
mod copying;
mod dicts;
mod entries;
mod fault;
mod gathering;
mod key;
mod marks;
mod numbers;
mod obj;
mod oper;
mod sought;
mod stack;
mod store;
mod symbol;
mod symbols;
mod table;
mod turning;
mod type_names;

pub use composite::{Elements, StoredBytes};
pub use dicts::{Dicts, SYSTEMDICT, USERDICT};
pub use entries::{ENTRY_LIMIT, Entries};
pub use fault::OpFault;
pub use key::{Key, KeyFault};
pub use numbers::{byte_in, number, place_in};
pub use obj::{Obj, Part};
pub use oper::{DataOp, FlowOp, FontOp, GfxOp, ImageOp, Oper, PageOp, SpaceOp, StackOp};
pub use sought::Sought;
pub use stack::{MAX_OPERANDS, Stack};
pub use store::{Composite, Store};
pub use symbol::Symbol;
