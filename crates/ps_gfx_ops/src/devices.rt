//! `setpagedevice`: pages of another size.
ghost use Rattle.std.specs.Prelude.{◌≡◌, ◌≢◌, ◌≤◌, Err, IfOk, OnOk, length, codes};
ghost use Rattle.ps_store.specs.declared.key.Key.TheVariants.{Named};
ghost use Rattle.gfx_state.specs.Graphics.{PageSize};
ghost use Rattle.gfx_state.specs.Keeping.{IsPageSize};
ghost use Rattle.ps_gfx_ops.specs.Devices.{side_of, page_or_configuration, dots_of_sides, sides_of, size_in, one_size};
ghost use Rattle.ps_gfx_ops.specs.Devices.{setpagedevice_row};
ghost use Rattle.ps_gfx_ops.specs.Calls.{GraphicsAnswers};

use crate::matrices::are_numbers;
use crate::points::point_of;
use geo_matrix::RealPoint;
use gfx_state::Gfx;
use press_fault::{Name, PsName};
use press_nums::{Fix, Wide};
use ps_store::{Obj, OpFault, Sought, Stack, Store};

/// The size of a page in dots.
#[derive(Clone, Copy, Debug, PartialEq, Eq)]
pub(crate) struct PageDots {
    pub width: u32,
    pub height: u32,
}

/// `setpagedevice`: a blank page, of the dictionary's PageSize where it has one.
pub(crate) fn setpagedevice(stack: &mut Stack, store: &Store, gfx: &mut Gfx) -> Result<(), OpFault>
    ensures answers { GraphicsAnswers (setpagedevice_row stack.old store.now gfx.old)
        result stack.old gfx.old stack.new gfx.new }
    ensures never { result ≢ Err OpFault.NoMemory }
{
    let dots = one_size(gfx, stack, store)?;
    gfx.set_page(dots.width, dots.height);
    stack.drop_top(1);
    Ok(())
}

/// The size that the top operand asks for.
fn one_size(gfx: &Gfx, stack: &Stack, store: &Store) -> Result<PageDots, PsName>
    ensures value { result ≡ one_size gfx.now.size stack.now store.now }
    ensures fits { IfOk result (λ dots. IsPageSize dots.width dots.height gfx.now.size.res) }
    ensures enough { OnOk result (1 ≤ length stack.now) }
{
    let Some(top) = stack.top() else {
        return Err(PsName::StackUnderflow);
    };
    let Obj::Dict(dict) = top else {
        return Err(PsName::TypeCheck);
    };
    let (width, height, res) = gfx.size();
    match store.look_up(*dict, &page_size_key(store)) {
        Some(o) => size_in(res, store, o),
        None => Ok(PageDots { width, height }),
    }
}

/// The key of a page's size.
fn page_size_key(store: &Store) -> Sought
    ensures { result ≡ Named (codes "PageSize") }
{
    match Name::of(b"PageSize") {
        Some(name) => store.named(name),
        None => unreachable!(),
    }
}

/// The size that an object is as a PageSize, at so many dots an inch.
fn size_in(res: u32, store: &Store, o: &Obj) -> Result<PageDots, PsName>
    requires some { 1 ≤ res }
    requires most { res ≤ 2400 }
    ensures value { result ≡ size_in res store.now o.now }
    ensures fits { IfOk result (λ dots. IsPageSize dots.width dots.height res) }
{
    match o {
        Obj::Array(span, _) => dots_of_sides(res, sides(store.objects(*span))?),
        _ => Err(PsName::TypeCheck),
    }
}

/// The two sides that objects are.
fn sides(objects: &[Obj]) -> Result<RealPoint, PsName>
    ensures { result ≡ sides_of objects.now }
{
    if !are_numbers(objects) {
        return Err(PsName::TypeCheck);
    }
    match objects {
        [width, height] => point_of(width, height),
        _ => Err(PsName::RangeCheck),
    }
}

/// The size in dots of a page with sides of so many points.
fn dots_of_sides(res: u32, sides: RealPoint) -> Result<PageDots, PsName>
    requires some { 1 ≤ res }
    requires most { res ≤ 2400 }
    ensures value { result ≡ dots_of_sides res sides }
    ensures fits { IfOk result (λ dots. IsPageSize dots.width dots.height res) }
{
    if !Wide::ZERO.is_below(sides.x.wide()) || !Wide::ZERO.is_below(sides.y.wide()) {
        return Err(PsName::ConfigurationError);
    }
    within_limits(res, side(res, sides.x), side(res, sides.y))
}

/// The size of so many dots, where it is one of a page.
fn within_limits(res: u32, width: u128, height: u128) -> Result<PageDots, PsName>
    requires some { 1 ≤ res }
    requires most { res ≤ 2400 }
    ensures value { result ≡ page_or_configuration width height }
    ensures fits { IfOk result (λ dots. IsPageSize dots.width dots.height res) }
{
    if width <= 16_384 && height <= 16_384 && width * height <= 67_108_864 {
        Ok(PageDots {
            width: width as u32,
            height: height as u32,
        })
    } else {
        Err(PsName::ConfigurationError)
    }
}

/// The dots of a side of so many points, one at least.
fn side(res: u32, points: Fix) -> u128
    requires { res ≤ 2400 }
    ensures { result ≡ side_of res points }
{
    points
        .wide()
        .times(res)
        .div_round(Wide::of(4_718_592))
        .size()
        .max(1)
}
