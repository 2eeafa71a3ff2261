//! What operators read off the numbers of a program.
ghost use Rattle.std.specs.Prelude.{◌≡◌, ◌<◌, IfSome};
ghost use Rattle.ps_store.specs.Numbers.{byte_of, place_of, raw_of};

use crate::obj::Obj;
use press_nums::{Fix, Whole};

/// The number of a byte, where it is one, and else 0.
pub fn byte_in(n: Whole) -> u8
    ensures { result ≡ byte_of n }
{
    let n = n.get();
    if 0 <= n && n <= 255 { n as u8 } else { 0 }
}

/// The place in so many that an integer is, `None` where it is none.
pub fn place_in(n: Whole, len: u32) -> Option<u32>
    ensures value { result ≡ place_of n len }
    ensures bound { IfSome result (λ at. at < len) }
{
    let n = n.get();
    if 0 <= n && n.unsigned_abs() < len {
        Some(n.unsigned_abs())
    } else {
        None
    }
}

/// The real number that an object is, an integer being one too; `None` where it is no number.
pub fn number(o: &Obj) -> Option<Fix>
    ensures { result ≡ raw_of o.now }
{
    match o {
        Obj::Int(n) => Some(Fix::of_whole(*n)),
        Obj::Real(raw) => Some(*raw),
        _ => None,
    }
}
