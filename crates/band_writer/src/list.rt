ghost use Rattle.std.specs.Prelude.{◌≡◌};
ghost use Rattle.band_writer.specs.Parts.{AreSpellings};

use crate::commands::Commands;
use std::marker::Model;

/// The list of a band: the band's number, counted from the top of the page, and its commands, as bytes.
#[derive(Drop)]
pub struct BandList {
    band: u32,
    commands: Commands,
}

impl Model for BandList {
    ghost use Rattle.band_writer.specs.Parts.{BandListValue};

    ghost Value = { BandListValue };

    ghost view = { λ l. record { band = l.band; bytes = l.commands } };
}

impl BandList {
    /// The list of a band with these commands.
    pub(crate) fn of(band: u32, commands: Commands) -> BandList
        ensures { result ≡ record { band = band; bytes = commands } }
    {
        BandList { band, commands }
    }

    /// The number of the band.
    pub fn band(&self) -> u32
        ensures { result ≡ self.now.band }
    {
        self.band
    }

    /// The bytes of the commands.
    pub fn bytes(&self) -> &[u8]
        ensures value { result.now ≡ self.now.bytes }
        ensures spellings { AreSpellings self.now.bytes }
    {
        self.commands.bytes()
    }
}
