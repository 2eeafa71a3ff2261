//! The list of a band while it is written.
ghost use Rattle.std.specs.Prelude.{◌≡◌, OnOk, Some};
ghost use Rattle.std.specs.List.{AllByRecursion};
ghost use Rattle.page_model.specs.Page.{ink_source};
ghost use Rattle.list_codec.specs.Command.{IsCmd};
ghost use Rattle.band_writer.specs.Bands.{mark_source};
ghost use Rattle.band_writer.specs.Listing.{same_ink, same_code, is_clip_told, has_regions, needed_ink, ink_cmds};
ghost use Rattle.band_writer.specs.Listing.{clip_cmds, change_cmds, with_ink, with_clip};
ghost use Rattle.band_writer.specs.Parts.{IsSpelling};
ghost use Rattle.band_writer.specs.Code.Drafts.{empty_draft, draft_after, with_said};

use crate::commands::Commands;
use crate::needs::Needs;
use page_model::{ClipNumber, Ink, Mark, Paint};
use press_fault::{Code, Mem};
use std::alloc::Global;
use std::marker::Model;

/// A band's list and needs so far, and what the list said last.
#[derive(Drop)]
pub struct Draft {
    list: Commands,
    needs: Needs,
    ink: Ink,
    clip_number: ClipNumber,
    /// Whether the clip that was said last has regions.
    cuts: bool,
}

impl Model for Draft {
    ghost use Rattle.band_writer.specs.Code.Drafts.{DraftValue};

    ghost Value = { DraftValue };

    ghost view = { λ d. record {
      list = d.list;
      needs = d.needs;
      told = record { ink = d.ink; number = d.clip_number; cuts = d.cuts };
    } };
}

impl Draft {
    /// A list without commands: its ink is gray 0, and its clip cuts nothing.
    pub fn new(alloc: Global) -> Self
        ensures { result ≡ empty_draft }
    {
        Draft {
            list: Commands::new(alloc),
            needs: Needs::new(alloc),
            ink: Ink::Plain(Code::gray(0)),
            clip_number: ClipNumber::none(),
            cuts: false,
        }
    }

    /// Adds a mark: its ink and its clip where they change, and the command that paints it, which is
    /// spelled already.
    pub fn add(&mut self, mark: &Mark, painted: &[u8]) -> Mem<()>
        requires { IsSpelling painted.now }
        ensures value { OnOk result (self.new ≡ draft_after mark.now painted.now self.old) }
        ensures commands { OnOk result (AllByRecursion IsCmd (change_cmds self.old.told mark.now)) }
    {
        self.say_ink(ink_of(mark))?;
        self.say_clip(mark)?;
        self.list.put(painted)?;
        self.needs.add(source_of(mark))
    }

    /// Says an ink, if one is needed, unless the list said it last.
    fn say_ink(&mut self, ink: Option<Ink>) -> Mem<()>
        ensures value { OnOk result
            (self.new ≡ with_said self.old (ink_cmds self.old.told.ink ink) (with_ink self.old.told ink)) }
        ensures commands { OnOk result (AllByRecursion IsCmd (ink_cmds self.old.told.ink ink)) }
    {
        let Some(ink) = ink else {
            return Ok(());
        };
        self.say_needed(ink)
    }

    fn say_needed(&mut self, ink: Ink) -> Mem<()>
        ensures value { OnOk result (self.new
            ≡ with_said self.old (ink_cmds self.old.told.ink (Some ink)) (with_ink self.old.told (Some ink))) }
        ensures commands { OnOk result (AllByRecursion IsCmd (ink_cmds self.old.told.ink (Some ink))) }
    {
        if is_same_ink(&self.ink, &ink) {
            return Ok(());
        }
        self.list.put_ink(ink)?;
        self.ink = ink;
        Ok(())
    }

    /// Says the clip of a mark, unless the list said it last.
    fn say_clip(&mut self, mark: &Mark) -> Mem<()>
        ensures value { OnOk result
            (self.new ≡ with_said self.old (clip_cmds self.old.told mark.now) (with_clip self.old.told mark.now)) }
        ensures commands { OnOk result (AllByRecursion IsCmd (clip_cmds self.old.told mark.now)) }
    {
        if self.is_clip_said(mark) {
            return Ok(());
        }
        self.list.put_clip(&mark.clip)?;
        self.clip_number = mark.clip_number;
        self.cuts = has_regions(mark);
        Ok(())
    }

    /// Whether the clip of a mark was said last: neither cuts anything, or they have one number.
    fn is_clip_said(&self, mark: &Mark) -> bool
        ensures { result ≡ is_clip_told self.now.told mark.now }
    {
        if !self.cuts && !has_regions(mark) {
            return true;
        }
        match (self.clip_number.get(), mark.clip_number.get()) {
            (Some(said), Some(number)) => said == number,
            _ => false,
        }
    }

    /// The list and the needs.
    pub fn into_parts(self) -> (Commands, Needs)
        ensures list { result.0 ≡ self.list }
        ensures needs { result.1 ≡ self.needs }
    {
        (self.list, self.needs)
    }
}

/// Whether two inks are one.
fn is_same_ink(a: &Ink, b: &Ink) -> bool
    ensures { result ≡ same_ink a.now b.now }
{
    match a {
        Ink::Plain(code) => is_plain(code, b),
        Ink::Linked { source, code } => is_linked(*source, code, b),
    }
}

/// Whether an ink is plain with this code.
fn is_plain(code: &Code, ink: &Ink) -> bool
    ensures { result ≡ same_ink (Ink.Plain code.now) ink.now }
{
    match ink {
        Ink::Plain(other) => is_same_code(code, other),
        Ink::Linked { .. } => false,
    }
}

/// Whether an ink goes by this source with this code.
fn is_linked(source: u32, code: &Code, ink: &Ink) -> bool
    ensures { result ≡ same_ink (Ink.Linked source code.now) ink.now }
{
    match ink {
        Ink::Plain(_) => false,
        Ink::Linked {
            source: other_source,
            code: other,
        } => source == *other_source && is_same_code(code, other),
    }
}

fn is_same_code(a: &Code, b: &Code) -> bool
    ensures { result ≡ same_code a.now b.now }
{
    a.n == b.n && a.c == b.c
}

/// Whether the clip of a mark has regions.
fn has_regions(mark: &Mark) -> bool
    ensures { result ≡ has_regions mark.now.clip }
{
    !mark.clip.items().is_empty()
}

/// The ink that a mark needs, if it needs one.
fn ink_of(mark: &Mark) -> Option<Ink>
    ensures { result ≡ needed_ink mark.now.paint }
{
    match &mark.paint {
        Paint::Flat(ink) => Some(*ink),
        Paint::Image(_) => None,
        Paint::Mask(_, ink) => Some(*ink),
    }
}

/// The source by which a mark's colours go, if it has one.
fn source_of(mark: &Mark) -> Option<u32>
    ensures { result ≡ mark_source mark.now }
{
    match &mark.paint {
        Paint::Flat(ink) => source_of_ink(*ink),
        Paint::Image(image) => image.source,
        Paint::Mask(_, ink) => source_of_ink(*ink),
    }
}

fn source_of_ink(ink: Ink) -> Option<u32>
    ensures { result ≡ ink_source ink }
{
    match ink {
        Ink::Plain(_) => None,
        Ink::Linked { source, .. } => Some(source),
    }
}
