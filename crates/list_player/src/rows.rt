//! The dots of a band, row by row.
ghost use Rattle.std.specs.Prelude.{◌≡◌, ◌+◌, ◌-◌, ◌<◌, ◌≤◌, ◌^◌, ◌&&◌, length, replicate, OnOk, IfOk, Some};
ghost use Rattle.std.specs.List.{list_any};
ghost use Rattle.page_model.specs.Cover.{shape_holds};
ghost use Rattle.geo_fill.specs.Walk.{Walks};
ghost use Rattle.geo_clip.specs.Mask.{is_open};
ghost use Rattle.list_player.specs.Painting.{given_where, ArePainted, IsBand};
ghost use Rattle.list_player.specs.Code.Reach.{IsReached};

use crate::clip::BandClip;
use crate::reach::{Rows, rows_reached};
use crate::row::{DotRow, InkRow};
use geo_fill::{EdgeWalk, Spans};
use page_model::{Rule, Shape};
use press_fault::Mem;
use std::alloc::Global;

/// What painting works in, kept from one shape to the next: a walk over a shape, and the spans of its row.
#[derive(Drop)]
pub(crate) struct PaintRoom {
    walk: EdgeWalk,
    spans: Spans,
}

impl PaintRoom {
    /// A room that takes no memory yet.
    pub(crate) fn new(alloc: Global) -> PaintRoom {
        PaintRoom {
            walk: EdgeWalk::idle(alloc),
            spans: Spans::new(alloc),
        }
    }
}

/// So many rows of so many dots of one kind.
pub(crate) fn rows_of<T: Copy>(alloc: Global, dot: T, width: u32, count: u32) -> Mem<Vec<DotRow<T>>>
    ensures { IfOk result (λ rows. rows.items ≡ replicate count (replicate width dot)) }
{
    let mut rows = Vec::new(alloc);
    for _row in 0..count {
        rows.push(DotRow::of(alloc, dot, width)?)?;
    }
    Ok(rows)
}

/// Paints shapes over the rows of a band, where its clip leaves dots open.
pub(crate) fn put_shapes<T: Copy>(
    rows: &mut Vec<DotRow<T>>,
    room: &mut PaintRoom,
    shapes: &[Shape],
    rule: Rule,
    clip: &BandClip,
    ink: &mut InkRow<T>,
) -> Mem<()>
    requires { IsBand clip.now rows.old.items }
    ensures ok { OnOk result (ArePainted clip.now.first clip.now.rows (λ row col. given_where (Some ink.old)
        (list_any (shape_holds rule row col) shapes.now && is_open clip.now.regions row col))
        rows.old.items rows.new.items) }
    ensures same { ink.new ≡ ink.old }
{
    for shape in shapes {
        put_shape(rows, room, shape, rule, clip, ink)?;
    }
    Ok(())
}

/// Paints one shape over the rows of a band.
fn put_shape<T: Copy>(
    rows: &mut Vec<DotRow<T>>,
    room: &mut PaintRoom,
    shape: &Shape,
    rule: Rule,
    clip: &BandClip,
    ink: &mut InkRow<T>,
) -> Mem<()>
    requires { IsBand clip.now rows.old.items }
    ensures ok { OnOk result (ArePainted clip.now.first clip.now.rows (λ row col. given_where (Some ink.old)
        (shape_holds rule row col shape.now && is_open clip.now.regions row col)) rows.old.items rows.new.items) }
    ensures same { ink.new ≡ ink.old }
{
    let first = clip.first();
    let reached = rows_reached(shape, first, clip.rows());
    if reached.skip == reached.end {
        return Ok(());
    }
    room.walk.restart(
        shape,
        rule,
        first + reached.skip,
        reached.end - reached.skip,
    )?;
    put_walk(
        rows,
        &mut room.walk,
        &mut room.spans,
        shape,
        rule,
        clip,
        clip.width(),
        first,
        reached,
        ink,
    )
}

/// Paints one shape along a walk over the rows that it reaches.
fn put_walk<T: Copy>(
    rows: &mut Vec<DotRow<T>>,
    walk: &mut EdgeWalk,
    spans: &mut Spans,
    shape: &Shape,
    rule: Rule,
    clip: &BandClip,
    width: u32,
    first: u32,
    reached: Rows,
    ink: &mut InkRow<T>,
) -> Mem<()>
    requires band { IsBand clip.now rows.old.items }
    requires width { clip.now.width ≡ width }
    requires first { clip.now.first ≡ first }
    requires order { reached.skip ≤ reached.end }
    requires within { reached.end ≤ clip.now.rows }
    requires outside { IsReached shape.now first clip.now.rows reached.skip reached.end }
    requires walks { Walks shape.now rule (first + reached.skip) (reached.end - reached.skip) walk.old }
    ensures ok { OnOk result (ArePainted first clip.now.rows (λ row col. given_where (Some ink.old)
        (shape_holds rule row col shape.now && is_open clip.now.regions row col)) rows.old.items rows.new.items) }
    ensures same { ink.new ≡ ink.old }
{
    for i in reached.skip..reached.end {
        walk.next_row(0, width, spans)?;
        let row = &mut rows[i as usize];
        clip.put(row, spans.items(), first + i, ink)?;
    }
    Ok(())
}
