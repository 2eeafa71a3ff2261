//! Numbers in a row.
ghost use Rattle.std.specs.Prelude.{◌<◌, ◌≤◌};

/// Numbers in a row, each by the one before.
#[derive(Drop)]
pub struct Numbers {
    state: u32,
}

impl Numbers {
    pub fn new(seed: u32) -> Numbers {
        Numbers { state: seed }
    }

    /// A number below another one.
    pub fn below(&mut self, end: u32) -> u32
        requires { 0 < end }
        ensures { result < end }
    {
        self.state = self.state.wrapping_mul(1664525).wrapping_add(1013904223);
        (self.state >> 8) % end
    }

    pub fn byte(&mut self) -> u8 {
        self.below(256) as u8
    }

    /// One of three bytes.
    pub fn tone(&mut self) -> u8 {
        match self.below(3) {
            0 => 0,
            1 => 128,
            _ => 255,
        }
    }

    /// A coordinate near a page of so many dots, in sub-dots.
    pub fn coordinate(&mut self, dots: u32) -> i32
        requires { dots ≤ 1000 }
    {
        self.below(dots * 256 + 2560) as i32 - 1280
    }
}
