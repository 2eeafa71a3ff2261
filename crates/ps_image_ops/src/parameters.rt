//! What an image operator is told, and what objects say of it.
ghost use Rattle.std.specs.Prelude.{◌≡◌, false};
ghost use Rattle.ps_image_ops.specs.Parameters.{size_of, integer_of, boolean_of, numbers_of, source_of};

use press_nums::Whole;
use ps_gfx_ops::are_numbers;
use ps_store::{Obj, Part, Store};

/// Where the data of an image come from (PostScript Language Reference, third edition, 4.10.2 Sample
/// Data Representation).
#[derive(Clone, Copy, Debug, PartialEq, Eq)]
pub enum DataSource {
    /// The bytes of a string, over and over.
    Bytes(Part),
    /// What the program's text has left.
    Program,
    /// The strings that a procedure leaves, one at each call.
    Procedure(Part),
}

/// What the least and the greatest sample of a channel stand for.
#[derive(Clone, Copy, Debug, PartialEq, Eq)]
pub(crate) enum Decode {
    /// From 0 to 1; of a mask, samples of 0 paint.
    Usual,
    /// Whether samples of 1 paint, of a mask.
    Polarity(bool),
    /// An array of two numbers a channel.
    Numbers(Part),
}

/// What an image operator is told, each value of the right type. `operands` is how many operands say so.
#[derive(Clone, Copy, Debug, PartialEq, Eq)]
pub(crate) struct Parameters {
    pub operands: usize,
    pub width: Whole,
    pub height: Whole,
    pub bits: Whole,
    pub channels: u8,
    pub matrix: Part,
    pub decode: Decode,
    pub source: DataSource,
}

/// An integer as a size, where it isn't below 0.
pub(crate) fn size(n: Whole) -> Option<u32>
    ensures { result ≡ size_of n }
{
    let n = n.get();
    if n < 0 { None } else { Some(n.unsigned_abs()) }
}

/// The integer that an object is.
pub(crate) fn integer(o: &Obj) -> Option<Whole>
    ensures { result ≡ integer_of o.now }
{
    match o {
        Obj::Int(n) => Some(*n),
        _ => None,
    }
}

/// The boolean that an object is.
pub(crate) fn boolean(o: &Obj) -> Option<bool>
    ensures { result ≡ boolean_of o.now }
{
    match o {
        Obj::Bool(b) => Some(*b),
        _ => None,
    }
}

/// The array of numbers that an object is.
pub(crate) fn numbers(store: &Store, o: &Obj) -> Option<Part>
    ensures { result ≡ numbers_of store.now o.now }
{
    match o {
        Obj::Array(p, _) => array_of_numbers(store, *p),
        _ => None,
    }
}

fn array_of_numbers(store: &Store, p: Part) -> Option<Part>
    ensures { result ≡ numbers_of store.now (Obj.Array p false) }
{
    if are_numbers(store.objects(p)) {
        Some(p)
    } else {
        None
    }
}

/// The data source that an object is.
pub(crate) fn source(o: &Obj) -> Option<DataSource>
    ensures { result ≡ source_of o.now }
{
    match o {
        Obj::Text(p) => Some(DataSource::Bytes(*p)),
        Obj::File => Some(DataSource::Program),
        Obj::Array(p, true) => Some(DataSource::Procedure(*p)),
        _ => None,
    }
}
