ghost use Rattle.std.specs.Prelude.{◌≡◌, ◌++◌, [], OnOk, OnErr};
ghost use Rattle.list_codec.specs.Command.{IsCmd, Inked, Clipped};
ghost use Rattle.list_codec.specs.Spelling.{cmd_bytes};
ghost use Rattle.band_writer.specs.Parts.{AreSpellings, IsSpelling};

use list_codec::{put_clip, put_flat};
use page_model::{Clip, Ink};
use press_fault::Mem;
use std::alloc::Global;
use std::marker::Model;

/// The commands of a list, as bytes: spellings of commands, one after the other.
#[derive(Drop)]
pub struct Commands {
    bytes: Vec<u8>,
}

impl Model for Commands {
    ghost use Rattle.std.specs.Prelude.{ℕ, List};
    ghost use Rattle.band_writer.specs.Parts.{AreSpellings};

    ghost Value = { List ℕ };

    ghost view = { λ l. l.bytes.items };

    ghost invariant = { λ l. AreSpellings l.bytes.items };
}

impl Commands {
    /// No commands.
    pub fn new(alloc: Global) -> Commands
        ensures { result ≡ [] }
    {
        Commands {
            bytes: Vec::new(alloc),
        }
    }

    /// Adds a `Flat`.
    pub fn put_ink(&mut self, ink: Ink) -> Mem<()>
        ensures ok { OnOk result (self.new ≡ self.old ++ cmd_bytes (Inked ink)) }
        ensures err { OnErr result (self.new ≡ self.old) }
        ensures command { IsCmd (Inked ink) }
    {
        put_flat(&mut self.bytes, ink)
    }

    /// Adds a `Clip`.
    pub fn put_clip(&mut self, clip: &Clip) -> Mem<()>
        ensures ok { OnOk result (self.new ≡ self.old ++ cmd_bytes (Clipped clip.now)) }
        ensures err { OnErr result (self.new ≡ self.old) }
        ensures command { OnOk result (IsCmd (Clipped clip.now)) }
    {
        put_clip(&mut self.bytes, clip)
    }

    /// Adds a command by its spelling.
    pub fn put(&mut self, spelling: &[u8]) -> Mem<()>
        requires { IsSpelling spelling.now }
        ensures ok { OnOk result (self.new ≡ self.old ++ spelling.now) }
        ensures err { OnErr result (self.new ≡ self.old) }
    {
        self.bytes.extend_from_slice(spelling)?;
        Ok(())
    }

    /// The bytes of the commands.
    pub fn bytes(&self) -> &[u8]
        ensures value { result.now ≡ self.now }
        ensures spellings { AreSpellings self.now }
    {
        &self.bytes
    }
}
