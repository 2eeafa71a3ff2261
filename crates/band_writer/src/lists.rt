ghost use Rattle.std.specs.Prelude.{◌≡◌, ◌<◌, ◌^◌, [], IfOk, length, map, slice_index_or};
ghost use Rattle.band_writer.specs.Code.Drafts.{DraftValue, AreNumbered};

use crate::draft::Draft;
use crate::list::BandList;
use crate::needs::Needs;
use crate::parts::PageParts;
use page_model::Depth;
use press_fault::Mem;
use std::alloc::Global;
use std::marker::Model;

/// A page in bands: what they share, and for each band its list and its needs.
#[derive(Drop)]
pub struct BandLists {
    parts: PageParts,
    lists: Vec<BandList>,
    needs: Vec<Needs>,
}

impl Model for BandLists {
    ghost use Rattle.std.specs.Prelude.{◌≡◌, ◌<◌, ◌^◌, length};
    ghost use Rattle.band_writer.specs.Parts.{BandListsValue};

    ghost Value = { BandListsValue };

    ghost view = { λ s. record { parts = s.parts; lists = s.lists.items; needs = s.needs.items } };

    ghost invariant = { λ s. (length s.lists.items ≡ length s.needs.items) × (length s.lists.items < 2 ^ 32) };
}

impl BandLists {
    /// The lists and the needs of drafts.
    pub(crate) fn of(alloc: Global, parts: PageParts, drafts: Vec<Draft>) -> Mem<BandLists>
        requires { length drafts.items < 2 ^ 32 }
        ensures parts { IfOk result (λ lists. lists.parts ≡ parts) }
        ensures lists { IfOk result (λ lists. AreNumbered drafts.items lists.lists) }
        ensures needs { IfOk result (λ lists. lists.needs ≡ map (λ (draft : DraftValue). draft.needs) drafts.items) }
    {
        let mut lists = Vec::with_capacity(alloc, drafts.len())?;
        let mut needs = Vec::with_capacity(alloc, drafts.len())?;
        for draft in drafts {
            let (commands, sources) = draft.into_parts();
            let band = lists.len() as u32;
            lists.push(BandList::of(band, commands))?;
            needs.push(sources)?;
        }
        Ok(BandLists {
            parts,
            lists,
            needs,
        })
    }

    /// How many bands there are.
    pub fn bands(&self) -> u32
        ensures { result ≡ length self.now.lists }
    {
        self.lists.len() as u32
    }

    /// What the bands share.
    pub fn parts(&self) -> &PageParts
        ensures { result.now ≡ self.now.parts }
    {
        &self.parts
    }

    /// The list of a band.
    pub fn list(&self, band: u32) -> &BandList
        requires { band < length self.now.lists }
        ensures { result.now ≡ slice_index_or self.now.lists band (record { band = band; bytes = [] }) }
    {
        &self.lists[band as usize]
    }

    /// The sources that a band needs, in order: each that isn't the one before it.
    pub fn needs(&self, band: u32) -> &[u32]
        requires { band < length self.now.lists }
        ensures { result.now ≡ slice_index_or self.now.needs band [] }
    {
        self.needs[band as usize].items()
    }

    /// Changes how many bits a dot's red, green and blue have each, and nothing else.
    pub fn set_depth(&mut self, depth: Depth)
        ensures { self.new ≡ record self.old { parts = record self.old.parts { depth = depth } } }
    {
        self.parts.depth = depth;
    }
}
