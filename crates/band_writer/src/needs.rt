ghost use Rattle.std.specs.Prelude.{◌≡◌, [], OnOk};
ghost use Rattle.band_writer.specs.Code.Drafts.{is_last, needs_after};

use press_fault::Mem;
use std::alloc::Global;
use std::marker::Model;

/// The numbers of the sources that a band needs, in order.
#[derive(Drop)]
pub struct Needs {
    sources: Vec<u32>,
}

impl Model for Needs {
    ghost use Rattle.std.specs.Prelude.{ℕ, List};

    ghost Value = { List ℕ };

    ghost view = { λ n. n.sources.items };
}

impl Needs {
    /// No sources.
    pub fn new(alloc: Global) -> Needs
        ensures { result ≡ [] }
    {
        Needs {
            sources: Vec::new(alloc),
        }
    }

    /// Adds a source, if there is one, unless it is the last of them.
    pub fn add(&mut self, source: Option<u32>) -> Mem<()>
        ensures { OnOk result (self.new ≡ needs_after self.old source) }
    {
        let Some(source) = source else {
            return Ok(());
        };
        if !is_last(&self.sources, source) {
            self.sources.push(source)?;
        }
        Ok(())
    }

    /// The numbers, in order.
    pub fn items(&self) -> &[u32]
        ensures { result.now ≡ self.now }
    {
        &self.sources
    }
}

/// Whether a source is the last of some.
fn is_last(sources: &[u32], source: u32) -> bool
    ensures { result ≡ is_last sources.now source }
{
    match sources.last() {
        Some(last) => *last == source,
        None => false,
    }
}
