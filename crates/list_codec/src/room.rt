//! Reading a command.
ghost use Rattle.std.specs.Prelude.{◌≡◌, ◌≢◌, List, IfOk, OnErr, IfSome, IfNone, []};
ghost use Rattle.page_model.specs.declared.shape.Shape.{Shape as AnyShape};
ghost use Rattle.list_codec.specs.Command.{cmd_value, brief_value};
ghost use Rattle.list_codec.specs.Lists.{IsFront, HasNoFront, TellsParts};
ghost use Rattle.list_codec.specs.Code.Reading.{Gives, cmd_at, inked_at, clipped_at, drawn_at, pictured_at};
ghost use Rattle.list_codec.specs.Code.Reading.{masked_at, IsDraw};

use crate::cmd::{Brief, Cmd};
use crate::misread::Misread;
use crate::number::byte_at;
use crate::part::{index_at, ink_at, rule_at};
use crate::spare::Spare;
use page_model::{Shape, Shapes};
use press_fault::{Mem, NoMemory};
use std::alloc::Global;
use std::marker::Model;
use std::sync::Arc;

/// Shapes that commands are read into, one command after the other. Once it has grown, a command
/// other than `Clip` takes no memory.
#[derive(Drop)]
pub struct CmdRoom {
    shapes: Shapes,
    spare: Spare,
}

impl Model for CmdRoom {
    ghost use Rattle.std.specs.Prelude.{List};
    ghost use Rattle.page_model.specs.declared.shape.Shape.{Shape};

    ghost Value = { List Shape };

    ghost view = { λ r. r.shapes };
}

impl CmdRoom {
    /// A room without shapes.
    pub fn new(alloc: Global) -> Self
        ensures { result ≡ [] }
    {
        CmdRoom {
            shapes: Shapes::new(alloc),
            spare: Spare::new(alloc),
        }
    }

    /// The shapes of the command that was read last, if it was a `Draw`.
    pub fn shapes(&self) -> &[Shape]
        ensures { result.now ≡ self.now }
    {
        self.shapes.items()
    }

    /// The command whose spelling is the front of the bytes, and how many bytes that has; `None`
    /// exactly where no spelling is. Its shapes are those of the room then. After `None` and where
    /// memory runs out the room is only good for the next command.
    pub fn read(&mut self, bytes: &[u8]) -> Mem<Option<(Brief, usize)>>
        ensures found { IfOk result (λ read. IfSome read (λ found.
            IsFront bytes.now (brief_value found.0 self.new) found.1)) }
        ensures none { IfOk result (λ read. IfNone read (HasNoFront bytes.now)) }
        ensures memory { OnErr result (TellsParts bytes.now) }
    {
        match read_brief(&mut self.spare, &mut self.shapes, bytes) {
            Ok((brief, rest)) => Ok(Some((brief, bytes.len() - rest.len()))),
            Err(Misread::NoCommand) => Ok(None),
            Err(Misread::NoMemory) => Err(NoMemory),
        }
    }

    /// The shapes alone; takes no memory.
    fn into_shapes(self) -> Shapes
        ensures { result ≡ self }
    {
        self.shapes
    }
}

/// The command whose spelling is the front of the bytes, and how many bytes that has; `None` exactly
/// where no spelling is.
pub fn read_cmd(alloc: Global, bytes: &[u8]) -> Mem<Option<(Cmd, usize)>>
    ensures found { IfOk result (λ read. IfSome read (λ found.
        IsFront bytes.now (cmd_value found.0) found.1)) }
    ensures none { IfOk result (λ read. IfNone read (HasNoFront bytes.now)) }
    ensures memory { OnErr result (TellsParts bytes.now) }
{
    let mut room = CmdRoom::new(alloc);
    let Some((brief, count)) = room.read(bytes)? else {
        return Ok(None);
    };
    Ok(Some((whole(alloc, brief, room)?, count)))
}

/// A command with the shapes of a room.
fn whole(alloc: Global, brief: Brief, room: CmdRoom) -> Mem<Cmd>
    ensures value { IfOk result (λ cmd. cmd_value cmd ≡ brief_value brief room) }
    ensures memory { OnErr result (IsDraw brief) }
{
    Ok(match brief {
        Brief::Flat(ink) => Cmd::Flat(ink),
        Brief::Clip(clip) => Cmd::Clip(clip),
        Brief::Draw(rule) => Cmd::Draw(rule, Arc::new(alloc, room.into_shapes())?),
        Brief::Image(index) => Cmd::Image(index),
        Brief::Mask(index) => Cmd::Mask(index),
    })
}

/// A command; its shapes are put in place of those in the list.
#[tactic(auto, unfolding(crate::specs::Code::Reading::cmd_at))]
fn read_brief<'b>(
    spare: &mut Spare,
    shapes: &mut Shapes,
    bytes: &'b [u8],
) -> Result<(Brief, &'b [u8]), Misread>
    ensures value { Gives (λ x. (brief_value x.0 shapes.new, x.1.now)) result (cmd_at bytes.now) }
    ensures memory { result ≡ Err Misread.NoMemory → TellsParts bytes.now }
{
    let Some((tag, rest)) = byte_at(bytes) else {
        return Err(Misread::NoCommand);
    };
    match tag {
        1 => flat_at(rest),
        2 => clip_at(spare, rest),
        3 => draw_at(spare, shapes, rest),
        4 => image_at(rest),
        5 => mask_at(rest),
        _ => Err(Misread::NoCommand),
    }
}

#[tactic(auto, unfolding(crate::specs::Code::Reading::inked_at))]
fn flat_at(bytes: &[u8]) -> Result<(Brief, &[u8]), Misread>
    ensures value { (shapes : List AnyShape) →
        Gives (λ x. (brief_value x.0 shapes, x.1.now)) result (inked_at bytes.now) }
    ensures memory { result ≢ Err Misread.NoMemory }
{
    match ink_at(bytes) {
        Some((ink, rest)) => Ok((Brief::Flat(ink), rest)),
        None => Err(Misread::NoCommand),
    }
}

#[tactic(auto, unfolding(crate::specs::Code::Reading::clipped_at))]
fn clip_at<'b>(spare: &mut Spare, bytes: &'b [u8]) -> Result<(Brief, &'b [u8]), Misread>
    ensures { (shapes : List AnyShape) →
        Gives (λ x. (brief_value x.0 shapes, x.1.now)) result (clipped_at bytes.now) }
{
    let (clip, rest) = spare.clip_at(bytes)?;
    Ok((Brief::Clip(clip), rest))
}

#[tactic(auto, unfolding(crate::specs::Code::Reading::drawn_at))]
fn draw_at<'b>(
    spare: &mut Spare,
    shapes: &mut Shapes,
    bytes: &'b [u8],
) -> Result<(Brief, &'b [u8]), Misread>
    ensures { Gives (λ x. (brief_value x.0 shapes.new, x.1.now)) result (drawn_at bytes.now) }
{
    let Some((rule, rest)) = rule_at(bytes) else {
        return Err(Misread::NoCommand);
    };
    spare.keep(shapes)?;
    let rest = spare.shapes_at(shapes, rest)?;
    Ok((Brief::Draw(rule), rest))
}

#[tactic(auto, unfolding(crate::specs::Code::Reading::pictured_at))]
fn image_at(bytes: &[u8]) -> Result<(Brief, &[u8]), Misread>
    ensures value { (shapes : List AnyShape) →
        Gives (λ x. (brief_value x.0 shapes, x.1.now)) result (pictured_at bytes.now) }
    ensures memory { result ≢ Err Misread.NoMemory }
{
    match index_at(bytes) {
        Some((index, rest)) => Ok((Brief::Image(index), rest)),
        None => Err(Misread::NoCommand),
    }
}

#[tactic(auto, unfolding(crate::specs::Code::Reading::masked_at))]
fn mask_at(bytes: &[u8]) -> Result<(Brief, &[u8]), Misread>
    ensures value { (shapes : List AnyShape) →
        Gives (λ x. (brief_value x.0 shapes, x.1.now)) result (masked_at bytes.now) }
    ensures memory { result ≢ Err Misread.NoMemory }
{
    match index_at(bytes) {
        Some((index, rest)) => Ok((Brief::Mask(index), rest)),
        None => Err(Misread::NoCommand),
    }
}
