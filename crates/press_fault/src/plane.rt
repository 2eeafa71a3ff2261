ghost use Rattle.std.specs.Prelude.{◌≡◌, [], ◌∷◌};
ghost use Rattle.press_fault.specs.Plane.{IsWithin};

use press_nums::Wide;
use std::marker::Model;

/// A point of the page, in sub-dots (1/256 of a dot), y downwards. Each coordinate's magnitude is
/// below 2^44.
#[derive(Clone, Copy, Debug, PartialEq, Eq)]
pub struct Point {
    pub x: i64,
    pub y: i64,
}

impl Model for Point {
    ghost use Rattle.press_fault.specs.Plane.{PointValue, IsOnPlane};

    ghost Value = { PointValue };

    ghost view = { λ p. record { x = p.x; y = p.y } };

    ghost invariant = { λ p. IsOnPlane (record { x = p.x; y = p.y }) };

    ghost inverse = { λ s. record { x = s.x; y = s.y } };
}

impl Point {
    /// The point of two coordinates in sub-dots.
    pub fn new(x: i64, y: i64) -> Point
        requires x { IsWithin x }
        requires y { IsWithin y }
        ensures { result ≡ record { x = x; y = y } }
    {
        Point { x, y }
    }

    /// The point of two coordinates in sub-dots.
    pub fn of_wide(x: Wide, y: Wide) -> Point
        requires x { IsWithin x }
        requires y { IsWithin y }
        ensures { result ≡ record { x = x; y = y } }
    {
        Point {
            x: x.narrow(),
            y: y.narrow(),
        }
    }

    /// The x coordinate, in sub-dots, as a number to count with.
    pub fn wide_x(self) -> Wide
        ensures value { result ≡ self.x }
        ensures bound { IsWithin result }
    {
        Wide::of(self.x)
    }

    /// The y coordinate, in sub-dots, as a number to count with.
    pub fn wide_y(self) -> Wide
        ensures value { result ≡ self.y }
        ensures bound { IsWithin result }
    {
        Wide::of(self.y)
    }
}

/// A colour code: `n` channels and their values, from 0 to 255; unused places are 0. One
/// channel is gray, three are red, green and blue, four are cyan, magenta, yellow and black.
#[derive(Clone, Copy, Debug, PartialEq, Eq)]
pub struct Code {
    pub n: u8,
    pub c: [u8; 4],
}

impl Model for Code {
    ghost use Rattle.press_fault.specs.Plane.{CodeValue, IsCode};

    ghost Value = { CodeValue };

    ghost view = { λ code. record { n = code.n; c = code.c } };

    ghost invariant = { λ code. IsCode code.n code.c };

    ghost inverse = { λ v. record { n = v.n; c = v.c } };
}

impl Code {
    /// The code of red, green and blue, each from 0 to 255.
    pub fn rgb(red: u8, green: u8, blue: u8) -> Code
        ensures { result ≡ record { n = 3; c = red ∷ green ∷ blue ∷ 0 ∷ [] } }
    {
        Code {
            n: 3,
            c: [red, green, blue, 0],
        }
    }

    /// The code of a gray, from 0 for black to 255 for white.
    pub fn gray(value: u8) -> Code
        ensures { result ≡ record { n = 1; c = value ∷ 0 ∷ 0 ∷ 0 ∷ [] } }
    {
        Code {
            n: 1,
            c: [value, 0, 0, 0],
        }
    }
}
