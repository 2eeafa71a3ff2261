//! A dot of a page, as it is kept until the band is done.
ghost use Rattle.std.specs.Prelude.{◌≡◌, ◌++◌, ◌*◌, ℕ, List, map, OnOk};
ghost use Rattle.std.specs.List.{flat_map};
ghost use Rattle.press_fault.specs.Plane.{CodeValue};
ghost use Rattle.page_model.specs.Cover.{plain_rgb, plain_at, white};
ghost use Rattle.page_model.specs.Pages.{two_bytes, dot_bytes};
ghost use Rattle.page_model.specs.declared.page.Depth.{Depth};
ghost use Rattle.page_model.specs.declared.page.Depth.TheVariants.{Eight, Sixteen};
ghost use Rattle.list_player.specs.Code.Steps.{lent_at};

use crate::Lent;
use page_model::plain_rule;
use press_fault::{Code, Mem};

/// A dot of one depth: the bytes of its red, green and blue.
pub(crate) trait Dot: Copy {
    /// How many bits its values have each.
    ghost depth: { Depth };

    /// The dot of a colour.
    ghost dot: { List ℕ → Self };

    /// Its bytes.
    ghost bytes: { Self → List ℕ };

    /// The bytes of a colour's dot.
    ghost bytes_of_dot: { (colour : List ℕ) → bytes (dot colour) ≡ dot_bytes depth colour };

    /// How many bytes it has.
    fn size() -> usize;

    /// The white dot.
    fn white() -> Self
        ensures { result ≡ dot (white depth) };

    /// The dot of a plain code.
    fn plain(code: Code) -> Self
        ensures { result ≡ dot (plain_at depth code) };

    /// The dot of a linked code.
    fn lent<L: Lent>(loan: &L, code: Code) -> Self
        requires { code.n ≡ L.channels loan.now }
        ensures { result ≡ dot (lent_at depth (L.colour loan.now) (L.wide loan.now) code) };

    /// Adds the bytes of dots at the end.
    fn put_all(to: &mut Vec<u8>, dots: &[Self]) -> Mem<()>
        ensures { OnOk result (to.new.items ≡ to.old.items ++ flat_map bytes dots.now) };
}

impl Dot for [u8; 3] {
    ghost depth = { Eight };

    ghost dot = { λ colour. colour };

    ghost bytes = { λ dot. dot };

    ghost use Rattle.std.specs.Prelude.{refl};

    ghost bytes_of_dot = { λ colour. refl };

    fn size() -> usize {
        3
    }

    fn white() -> [u8; 3] {
        [255, 255, 255]
    }

    fn plain(code: Code) -> [u8; 3] {
        plain_rule(code)
    }

    fn lent<L: Lent>(loan: &L, code: Code) -> [u8; 3] {
        loan.convert(code)
    }

    fn put_all(to: &mut Vec<u8>, dots: &[[u8; 3]]) -> Mem<()> {
        to.extend_from_slice(dots.as_flattened())?;
        Ok(())
    }
}

/// The two bytes of each of three values, the more significant first.
fn six_bytes(colour: [u16; 3]) -> [u8; 6]
    ensures { result ≡ flat_map two_bytes colour }
{
    let [red, green, blue] = colour;
    [
        (red / 256) as u8,
        (red % 256) as u8,
        (green / 256) as u8,
        (green % 256) as u8,
        (blue / 256) as u8,
        (blue % 256) as u8,
    ]
}

/// A value of 8 bits at 16 bits.
fn widened(colour: [u8; 3]) -> [u16; 3]
    ensures { result ≡ map (λ value. value * 257) colour }
{
    let [red, green, blue] = colour;
    [
        u16::from(red) * 257,
        u16::from(green) * 257,
        u16::from(blue) * 257,
    ]
}

impl Dot for [u8; 6] {
    ghost depth = { Sixteen };

    ghost dot = { λ colour. flat_map two_bytes colour };

    ghost bytes = { λ dot. dot };

    ghost use Rattle.std.specs.Prelude.{refl};

    ghost bytes_of_dot = { λ colour. refl };

    fn size() -> usize {
        6
    }

    fn white() -> [u8; 6] {
        [255, 255, 255, 255, 255, 255]
    }

    fn plain(code: Code) -> [u8; 6] {
        six_bytes(widened(plain_rule(code)))
    }

    fn lent<L: Lent>(loan: &L, code: Code) -> [u8; 6] {
        six_bytes(loan.convert_wide(code))
    }

    fn put_all(to: &mut Vec<u8>, dots: &[[u8; 6]]) -> Mem<()> {
        to.extend_from_slice(dots.as_flattened())?;
        Ok(())
    }
}
