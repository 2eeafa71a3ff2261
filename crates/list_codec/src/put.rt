//! Spelling commands at the end of bytes.
ghost use Rattle.std.specs.Prelude.{◌≡◌, ◌<◌, ◌≤◌, ◌^◌, ◌++◌, ◌∷◌, [], length, take, OnOk, OnErr, unsigned_abs};
ghost use Rattle.std.specs.Arc.{arc_value};
ghost use Rattle.press_fault.specs.Plane.{IsOnPlane};
ghost use Rattle.page_model.specs.Disc.{IsDisc};
ghost use Rattle.list_codec.specs.Command.{cmd_value, Inked, Clipped, Drawn, Pictured, Masked, IsCmd};
ghost use Rattle.list_codec.specs.Command.{AreFew, IsRing, IsShape, IsRegion};
ghost use Rattle.list_codec.specs.Spelling.{cmd_bytes, number_bytes, signed_bytes, zigzag, point_bytes, points_bytes};
ghost use Rattle.list_codec.specs.Spelling.{ring_bytes, rings_bytes, disc_bytes, shape_bytes, shapes_bytes};
ghost use Rattle.list_codec.specs.Spelling.{region_bytes};
ghost use Rattle.list_codec.specs.Spelling.{regions_bytes, rule_byte, ink_bytes, ink_code, source_place, origin};
ghost use Rattle.list_codec.specs.Code.Appending.{Appends};

use crate::cmd::Cmd;
use page_model::{Clip, Disc, Ink, Region, Ring, Rule, Shape, Shapes};
use press_fault::{Code, Mem, Point};
use press_nums::Wide;

/// Puts the spelling of a command at the end. Out of memory leaves the bytes as before.
pub fn put_cmd(to: &mut Vec<u8>, cmd: &Cmd) -> Mem<()>
    ensures ok { OnOk result (to.new.items ≡ to.old.items ++ cmd_bytes (cmd_value cmd.now)) }
    ensures err { OnErr result (to.new.items ≡ to.old.items) }
    ensures command { OnOk result (IsCmd (cmd_value cmd.now)) }
{
    match cmd {
        Cmd::Flat(ink) => put_flat(to, *ink),
        Cmd::Clip(clip) => put_clip(to, clip),
        Cmd::Draw(rule, shapes) => put_draw(to, *rule, shapes),
        Cmd::Image(index) => put_image(to, *index),
        Cmd::Mask(index) => put_mask(to, *index),
    }
}

/// Puts a `Flat` at the end, as `put_cmd` does.
pub fn put_flat(to: &mut Vec<u8>, ink: Ink) -> Mem<()>
    ensures ok { OnOk result (to.new.items ≡ to.old.items ++ cmd_bytes (Inked ink)) }
    ensures err { OnErr result (to.new.items ≡ to.old.items) }
    ensures command { IsCmd (Inked ink) }
{
    let kept = to.len();
    let put = spell_flat(to, ink);
    settle(to, kept, put)
}

/// Puts a `Clip` at the end, as `put_cmd` does.
pub fn put_clip(to: &mut Vec<u8>, clip: &Clip) -> Mem<()>
    ensures ok { OnOk result (to.new.items ≡ to.old.items ++ cmd_bytes (Clipped clip.now)) }
    ensures err { OnErr result (to.new.items ≡ to.old.items) }
    ensures command { OnOk result (IsCmd (Clipped clip.now)) }
{
    let kept = to.len();
    let put = spell_clip(to, clip.items());
    settle(to, kept, put)
}

/// Puts a `Draw` at the end, as `put_cmd` does.
pub fn put_draw(to: &mut Vec<u8>, rule: Rule, shapes: &Shapes) -> Mem<()>
    ensures ok { OnOk result (to.new.items ≡ to.old.items ++ cmd_bytes (Drawn rule shapes.now)) }
    ensures err { OnErr result (to.new.items ≡ to.old.items) }
    ensures command { OnOk result (IsCmd (Drawn rule shapes.now)) }
{
    let kept = to.len();
    let put = spell_draw(to, rule, shapes.items());
    settle(to, kept, put)
}

/// Puts an `Image` at the end, as `put_cmd` does.
pub fn put_image(to: &mut Vec<u8>, index: u32) -> Mem<()>
    ensures ok { OnOk result (to.new.items ≡ to.old.items ++ cmd_bytes (Pictured index)) }
    ensures err { OnErr result (to.new.items ≡ to.old.items) }
    ensures command { IsCmd (Pictured index) }
{
    let kept = to.len();
    let put = spell_image(to, index);
    settle(to, kept, put)
}

/// Puts a `Mask` at the end, as `put_cmd` does.
pub fn put_mask(to: &mut Vec<u8>, index: u32) -> Mem<()>
    ensures ok { OnOk result (to.new.items ≡ to.old.items ++ cmd_bytes (Masked index)) }
    ensures err { OnErr result (to.new.items ≡ to.old.items) }
    ensures command { IsCmd (Masked index) }
{
    let kept = to.len();
    let put = spell_mask(to, index);
    settle(to, kept, put)
}

/// Takes away what was put behind so many bytes, where memory ran out.
fn settle(to: &mut Vec<u8>, kept: usize, put: Mem<()>) -> Mem<()>
    ensures same { result ≡ put }
    ensures ok { OnOk put (to.new.items ≡ to.old.items) }
    ensures err { OnErr put (to.new.items ≡ take kept to.old.items) }
{
    if put.is_err() {
        to.truncate(kept);
    }
    put
}

#[tactic(auto, unfolding(crate::specs::Spelling::cmd_bytes))]
fn spell_flat(to: &mut Vec<u8>, ink: Ink) -> Mem<()>
    ensures { Appends result to.old.items (cmd_bytes (Inked ink)) to.new.items }
{
    to.push(1)?;
    put_ink(to, ink)
}

#[tactic(auto, unfolding(crate::specs::Spelling::cmd_bytes))]
fn spell_clip(to: &mut Vec<u8>, regions: &[Region]) -> Mem<()>
    ensures text { Appends result to.old.items (cmd_bytes (Clipped regions.now)) to.new.items }
    ensures fits { OnOk result (AreFew IsRegion regions.now) }
{
    to.push(2)?;
    put_regions(to, regions)
}

#[tactic(auto, unfolding(crate::specs::Spelling::cmd_bytes))]
fn spell_draw(to: &mut Vec<u8>, rule: Rule, shapes: &[Shape]) -> Mem<()>
    ensures text { Appends result to.old.items (cmd_bytes (Drawn rule shapes.now)) to.new.items }
    ensures fits { OnOk result (AreFew IsShape shapes.now) }
{
    to.push(3)?;
    to.push(rule_byte(rule))?;
    put_shapes(to, shapes)
}

#[tactic(auto, unfolding(crate::specs::Spelling::cmd_bytes))]
fn spell_image(to: &mut Vec<u8>, index: u32) -> Mem<()>
    ensures { Appends result to.old.items (cmd_bytes (Pictured index)) to.new.items }
{
    to.push(4)?;
    put_number(to, u64::from(index))
}

#[tactic(auto, unfolding(crate::specs::Spelling::cmd_bytes))]
fn spell_mask(to: &mut Vec<u8>, index: u32) -> Mem<()>
    ensures { Appends result to.old.items (cmd_bytes (Masked index)) to.new.items }
{
    to.push(5)?;
    put_number(to, u64::from(index))
}

fn rule_byte(rule: Rule) -> u8
    ensures { result ≡ rule_byte rule }
{
    match rule {
        Rule::Nonzero => 0,
        Rule::EvenOdd => 1,
    }
}

#[tactic(auto, unfolding(crate::specs::Spelling::ink_bytes))]
fn put_ink(to: &mut Vec<u8>, ink: Ink) -> Mem<()>
    ensures { Appends result to.old.items (ink_bytes ink) to.new.items }
{
    match ink {
        Ink::Plain(code) => put_code(to, 0, code),
        Ink::Linked { source, code } => put_code(to, u64::from(source) + 1, code),
    }
}

/// Puts a code with the place of its source, 0 for none.
fn put_code(to: &mut Vec<u8>, place: u64, code: Code) -> Mem<()>
    requires { place < 2 ^ 63 }
    ensures { Appends result to.old.items
        (code.n ∷ (number_bytes place ++ take code.n code.c)) to.new.items }
{
    to.push(code.n)?;
    put_number(to, place)?;
    let (values, _) = code.c.split_at(usize::from(code.n));
    to.extend_from_slice(values)?;
    Ok(())
}

#[tactic(auto, unfolding(crate::specs::Spelling::regions_bytes))]
fn put_regions(to: &mut Vec<u8>, regions: &[Region]) -> Mem<()>
    ensures text { Appends result to.old.items (regions_bytes regions.now) to.new.items }
    ensures fits { OnOk result (AreFew IsRegion regions.now) }
{
    put_number(to, regions.len() as u64)?;
    for region in regions {
        put_region(to, region)?;
    }
    Ok(())
}

#[tactic(auto, unfolding(crate::specs::Spelling::region_bytes))]
fn put_region(to: &mut Vec<u8>, region: &Region) -> Mem<()>
    ensures text { Appends result to.old.items (region_bytes region.now) to.new.items }
    ensures fits { OnOk result (IsRegion region.now) }
{
    to.push(rule_byte(region.rule))?;
    put_rings(to, region.rings.items())
}

#[tactic(auto, unfolding(crate::specs::Spelling::shapes_bytes))]
fn put_shapes(to: &mut Vec<u8>, shapes: &[Shape]) -> Mem<()>
    ensures text { Appends result to.old.items (shapes_bytes shapes.now) to.new.items }
    ensures fits { OnOk result (AreFew IsShape shapes.now) }
{
    put_number(to, shapes.len() as u64)?;
    for shape in shapes {
        put_shape(to, shape)?;
    }
    Ok(())
}

#[tactic(auto, unfolding(crate::specs::Spelling::shape_bytes))]
fn put_shape(to: &mut Vec<u8>, shape: &Shape) -> Mem<()>
    ensures text { Appends result to.old.items (shape_bytes shape.now) to.new.items }
    ensures fits { OnOk result (IsShape shape.now) }
{
    match shape {
        Shape::Poly(rings) => {
            to.push(0)?;
            put_rings(to, rings.items())
        }
        Shape::Disc(disc) => {
            to.push(1)?;
            put_disc(to, *disc)
        }
    }
}

#[tactic(auto, unfolding(crate::specs::Spelling::disc_bytes))]
fn put_disc(to: &mut Vec<u8>, disc: Disc) -> Mem<()>
    ensures text { Appends result to.old.items (disc_bytes disc) to.new.items }
    ensures fits { OnOk result (IsDisc disc) }
{
    put_signed(to, disc.wide_x())?;
    put_signed(to, disc.wide_y())?;
    put_number(to, disc.r)
}

#[tactic(auto, unfolding(crate::specs::Spelling::rings_bytes))]
fn put_rings(to: &mut Vec<u8>, rings: &[Ring]) -> Mem<()>
    ensures text { Appends result to.old.items (rings_bytes rings.now) to.new.items }
    ensures fits { OnOk result (AreFew IsRing rings.now) }
{
    put_number(to, rings.len() as u64)?;
    for ring in rings {
        put_ring(to, ring.items())?;
    }
    Ok(())
}

#[tactic(auto, unfolding(crate::specs::Spelling::ring_bytes))]
fn put_ring(to: &mut Vec<u8>, ring: &[Point]) -> Mem<()>
    ensures text { Appends result to.old.items (ring_bytes ring.now) to.new.items }
    ensures fits { OnOk result (IsRing ring.now) }
{
    put_number(to, ring.len() as u64)?;
    put_points(to, ring)
}

/// Puts the points of a ring, each by how far it lies from the one before.
fn put_points(to: &mut Vec<u8>, ring: &[Point]) -> Mem<()>
    ensures text { Appends result to.old.items (points_bytes origin ring.now) to.new.items }
    ensures fits { OnOk result (IsRing ring.now) }
{
    let mut before = Point { x: 0, y: 0 };
    for point in ring {
        put_point(to, &before, point)?;
        before = *point;
    }
    Ok(())
}

#[tactic(auto, unfolding(crate::specs::Spelling::point_bytes))]
fn put_point(to: &mut Vec<u8>, before: &Point, point: &Point) -> Mem<()>
    ensures text { Appends result to.old.items (point_bytes before.now point.now) to.new.items }
    ensures fits { OnOk result (IsOnPlane point.now) }
{
    put_signed(to, point.wide_x() - before.wide_x())?;
    put_signed(to, point.wide_y() - before.wide_y())
}

#[tactic(auto, unfolding(crate::specs::Spelling::signed_bytes))]
fn put_signed(to: &mut Vec<u8>, z: Wide) -> Mem<()>
    requires { unsigned_abs z < 2 ^ 62 }
    ensures { Appends result to.old.items (signed_bytes z) to.new.items }
{
    put_number(to, zigzag(z))
}

/// The number that stands for a whole number: 2v, or -2v - 1 where it is negative.
fn zigzag(z: Wide) -> u64
    requires { unsigned_abs z < 2 ^ 62 }
    ensures value { result ≡ zigzag z }
    ensures bound { result < 2 ^ 63 }
{
    let twice = 2 * z.size();
    if z.is_below(Wide::ZERO) {
        (twice - 1) as u64
    } else {
        twice as u64
    }
}

/// Puts a number in groups of seven bits, the lowest first.
fn put_number(to: &mut Vec<u8>, n: u64) -> Mem<()>
    requires { n < 2 ^ 63 }
    ensures { Appends result to.old.items (number_bytes n) to.new.items }
{
    let mut left = n;
    while left >= 128 {
        to.push((left % 128 + 128) as u8)?;
        left /= 128;
    }
    to.push(left as u8)?;
    Ok(())
}
