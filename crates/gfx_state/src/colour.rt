//! Colour spaces, and the codes of colours.
ghost use Rattle.std.specs.Prelude.{◌≡◌, ◌≤◌, ◌<◌, ◌*◌, ◌⊎◌, pos, unsigned_abs, length};
ghost use Rattle.press_nums.specs.Rounding.{div_round};
ghost use Rattle.gfx_state.specs.Colour.{channels_of, in_unit, code_of, codes_of, first_colour, gray_of, weighed};

use press_fault::Code;
use press_nums::{Fix, Wide, fix_small};

/// A colour space.
#[derive(Clone, Copy, Debug, PartialEq, Eq)]
pub enum Space {
    /// DeviceGray: 0 is black, 1 is white.
    Gray,
    /// DeviceRGB: red, green and blue light.
    Rgb,
    /// DeviceCMYK: cyan, magenta, yellow and black ink.
    Cmyk,
}

impl Space {
    /// How many components a colour of the space has.
    pub fn channels(self) -> usize
        ensures value { result ≡ channels_of self }
        ensures few { result ≤ 4 }
    {
        match self {
            Space::Gray => 1,
            Space::Rgb => 3,
            Space::Cmyk => 4,
        }
    }

    /// The codes of the space's first colour, black.
    pub(crate) fn first_colour(self) -> Code
        ensures { result ≡ first_colour self }
    {
        match self {
            Space::Gray => Code::gray(0),
            Space::Rgb => Code::rgb(0, 0, 0),
            Space::Cmyk => Code {
                n: 4,
                c: [0, 0, 0, 255],
            },
        }
    }
}

/// A component, taken into 0 to 1.
fn unit(value: Fix) -> Wide
    ensures value { result ≡ in_unit value }
    ensures bound { unsigned_abs result ≤ 65536 }
{
    let raw = value.wide();
    if raw.is_below(Wide::ZERO) {
        Wide::ZERO
    } else if Wide::of(65536).is_below(raw) {
        Wide::of(65536)
    } else {
        raw
    }
}

/// The code of a component.
#[tactic(auto, unfolding(crate::specs::Colour::code_of))]
pub(crate) fn code(value: Fix) -> u8
    ensures { result ≡ code_of value }
{
    let code = unit(value).times(255).div_round(Wide::of(65536));
    code.narrow().unsigned_abs() as u8
}

/// The codes of a colour, one for each component.
pub(crate) fn codes(values: &[Fix]) -> Code
    requires { (length values.now ≡ 1) ⊎ (length values.now ≡ 3) ⊎ (length values.now ≡ 4) }
    ensures { result ≡ codes_of values.now }
{
    match values {
        [gray] => Code::gray(code(*gray)),
        [red, green, blue] => Code::rgb(code(*red), code(*green), code(*blue)),
        [cyan, magenta, yellow, black] => Code {
            n: 4,
            c: [code(*cyan), code(*magenta), code(*yellow), code(*black)],
        },
        _ => unreachable!(),
    }
}

/// Red, green and blue, or cyan, magenta and yellow, weighed as light.
fn weigh(first: u8, second: u8, third: u8) -> u32
    ensures value { result ≡ weighed first second third }
    ensures bound { result ≤ 25500 }
{
    30 * u32::from(first) + 59 * u32::from(second) + 11 * u32::from(third)
}

/// A share of so many in 65536, rounded.
fn share(part: u32, whole: u32) -> Fix
    requires part { part ≤ whole }
    requires some { 0 < whole }
    requires small { whole ≤ 25500 }
    ensures { result ≡ div_round (pos (part * 65536)) (pos whole) }
{
    fix_small(Wide::of_size(u128::from(part) * 65536).div_round(Wide::of_size(u128::from(whole))))
}

/// The gray of codes.
#[tactic(auto, unfolding(crate::specs::Colour::gray_of))]
pub(crate) fn gray(space: Space, code: Code) -> Fix
    ensures { result ≡ gray_of space code.c }
{
    let [first, second, third, black] = code.c;
    match space {
        Space::Gray => share(u32::from(first), 255),
        Space::Rgb => share(weigh(first, second, third), 25500),
        Space::Cmyk => {
            let ink = weigh(first, second, third) + 100 * u32::from(black);
            share(25500 - ink.min(25500), 25500)
        }
    }
}
