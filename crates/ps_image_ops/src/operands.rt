//! What an image operator is told by operands.
ghost use Rattle.std.specs.Prelude.{◌≡◌, ◌≤◌, ◌⊎◌, IfOk, IfSome, length};
ghost use Rattle.gfx_state.specs.Colour.{channels_of};
ghost use Rattle.ps_image_ops.specs.Parameters.{integer_at, boolean_at, numbers_at, source_at, gray_image};
ghost use Rattle.ps_image_ops.specs.Parameters.{operand_mask, components_of, channels_told, components_image};
ghost use Rattle.ps_image_ops.specs.Parameters.{colour_image};
ghost use Rattle.ps_image_ops.specs.Parameters.{dictionary_on_top, image_told, imagemask_told, colorimage_told, told};

use crate::dictionary::dictionary_image;
use crate::parameters::{DataSource, Decode, Parameters, boolean, integer, numbers, size, source};
use gfx_state::{Gfx, Space};
use press_fault::PsName;
use press_nums::Whole;
use ps_store::{ImageOp, Obj, Part, Stack, Store};

/// What an image operator is told.
#[tactic(auto, unfolding(crate::specs::Parameters::told))]
pub(crate) fn told(
    op: ImageOp,
    stack: &Stack,
    store: &Store,
    gfx: &Gfx,
) -> Result<Parameters, PsName>
    ensures value { result ≡ told op stack.now store.now gfx.now }
    ensures enough { IfOk result (λ told. told.operands ≤ length stack.now) }
    ensures channels { IfOk result (λ told. (told.channels ≡ 1) ⊎ (told.channels ≡ 3) ⊎ (told.channels ≡ 4)) }
{
    match op {
        ImageOp::Image => image_told(stack, store, gfx),
        ImageOp::Imagemask => imagemask_told(stack, store),
        ImageOp::Colorimage => colorimage_told(stack, store),
    }
}

/// The dictionary that the top operand is.
fn dictionary_on_top(stack: &Stack) -> Option<u32>
    ensures value { result ≡ dictionary_on_top stack.now }
    ensures enough { IfSome result (λ dict. 1 ≤ length stack.now) }
{
    match stack.at(0) {
        Some(o) => match o {
            Obj::Dict(dict) => Some(*dict),
            _ => None,
        },
        None => None,
    }
}

fn image_told(stack: &Stack, store: &Store, gfx: &Gfx) -> Result<Parameters, PsName>
    ensures value { result ≡ image_told (dictionary_on_top stack.now) stack.now store.now gfx.now }
    ensures enough { IfOk result (λ told. told.operands ≤ length stack.now) }
    ensures channels { IfOk result (λ told. (told.channels ≡ 1) ⊎ (told.channels ≡ 3) ⊎ (told.channels ≡ 4)) }
{
    if let Some(dict) = dictionary_on_top(stack) {
        return dictionary_image(false, space_channels(gfx), store, dict);
    }
    if stack.len() < 5 {
        return Err(PsName::StackUnderflow);
    }
    gray_image(
        integer_at(stack, 4),
        integer_at(stack, 3),
        integer_at(stack, 2),
        numbers_at(stack, store, 1),
        source_at(stack, 0),
    )
}

fn imagemask_told(stack: &Stack, store: &Store) -> Result<Parameters, PsName>
    ensures value { result ≡ imagemask_told (dictionary_on_top stack.now) stack.now store.now }
    ensures enough { IfOk result (λ told. told.operands ≤ length stack.now) }
    ensures channels { IfOk result (λ told. (told.channels ≡ 1) ⊎ (told.channels ≡ 3) ⊎ (told.channels ≡ 4)) }
{
    if let Some(dict) = dictionary_on_top(stack) {
        return dictionary_image(true, 1, store, dict);
    }
    if stack.len() < 5 {
        return Err(PsName::StackUnderflow);
    }
    operand_mask(
        integer_at(stack, 4),
        integer_at(stack, 3),
        boolean_at(stack, 2),
        numbers_at(stack, store, 1),
        source_at(stack, 0),
    )
}

fn colorimage_told(stack: &Stack, store: &Store) -> Result<Parameters, PsName>
    ensures value { result ≡ colorimage_told stack.now store.now }
    ensures enough { IfOk result (λ told. told.operands ≤ length stack.now) }
    ensures channels { IfOk result (λ told. (told.channels ≡ 1) ⊎ (told.channels ≡ 3) ⊎ (told.channels ≡ 4)) }
{
    if stack.len() < 7 {
        return Err(PsName::StackUnderflow);
    }
    colour_image(
        integer_at(stack, 6),
        integer_at(stack, 5),
        integer_at(stack, 4),
        numbers_at(stack, store, 3),
        source_at(stack, 2),
        boolean_at(stack, 1),
        integer_at(stack, 0),
    )
}

/// The channels of the current colour space.
fn space_channels(gfx: &Gfx) -> u8
    ensures value { result ≡ channels_of gfx.now.state.space }
    ensures channels { (result ≡ 1) ⊎ (result ≡ 3) ⊎ (result ≡ 4) }
{
    match gfx.space() {
        Space::Gray => 1,
        Space::Rgb => 3,
        Space::Cmyk => 4,
    }
}

/// The operand below so many others as an integer.
fn integer_at(stack: &Stack, depth: usize) -> Option<Whole>
    ensures { result ≡ integer_at stack.now depth }
{
    match stack.at(depth) {
        Some(o) => integer(o),
        None => None,
    }
}

fn boolean_at(stack: &Stack, depth: usize) -> Option<bool>
    ensures { result ≡ boolean_at stack.now depth }
{
    match stack.at(depth) {
        Some(o) => boolean(o),
        None => None,
    }
}

fn numbers_at(stack: &Stack, store: &Store, depth: usize) -> Option<Part>
    ensures { result ≡ numbers_at store.now stack.now depth }
{
    match stack.at(depth) {
        Some(o) => numbers(store, o),
        None => None,
    }
}

fn source_at(stack: &Stack, depth: usize) -> Option<DataSource>
    ensures { result ≡ source_at stack.now depth }
{
    match stack.at(depth) {
        Some(o) => source(o),
        None => None,
    }
}

/// An image of one gray channel, by the values of its operands.
fn gray_image(
    width: Option<Whole>,
    height: Option<Whole>,
    bits: Option<Whole>,
    matrix: Option<Part>,
    source: Option<DataSource>,
) -> Result<Parameters, PsName>
    ensures value { result ≡ gray_image width height bits matrix source }
    ensures form { IfOk result (λ told. (told.operands ≡ 5) × (told.channels ≡ 1)) }
{
    let (Some(width), Some(height), Some(bits), Some(matrix), Some(source)) = (
        width, height, bits, matrix, source,
    ) else {
        return Err(PsName::TypeCheck);
    };
    Ok(Parameters {
        operands: 5,
        width,
        height,
        bits,
        channels: 1,
        matrix,
        decode: Decode::Usual,
        source,
    })
}

/// A mask by the values of its operands.
fn operand_mask(
    width: Option<Whole>,
    height: Option<Whole>,
    ones: Option<bool>,
    matrix: Option<Part>,
    source: Option<DataSource>,
) -> Result<Parameters, PsName>
    ensures value { result ≡ operand_mask width height ones matrix source }
    ensures form { IfOk result (λ told. (told.operands ≡ 5) × (told.channels ≡ 1)) }
{
    let (Some(width), Some(height), Some(ones), Some(matrix), Some(source)) = (
        width, height, ones, matrix, source,
    ) else {
        return Err(PsName::TypeCheck);
    };
    Ok(Parameters {
        operands: 5,
        width,
        height,
        bits: Whole::of(1),
        channels: 1,
        matrix,
        decode: Decode::Polarity(ones),
        source,
    })
}

/// The channels that a number of components says.
fn channels_told(n: Whole) -> Option<u8>
    ensures value { result ≡ channels_told n }
    ensures channels { IfSome result (λ channels. (channels ≡ 1) ⊎ (channels ≡ 3) ⊎ (channels ≡ 4)) }
{
    match size(n) {
        Some(n) => components_of(n),
        None => None,
    }
}

/// A number of components, where a device space has so many.
fn components_of(n: u32) -> Option<u8>
    ensures value { result ≡ components_of n }
    ensures channels { IfSome result (λ channels. (channels ≡ 1) ⊎ (channels ≡ 3) ⊎ (channels ≡ 4)) }
{
    if n == 1 {
        Some(1)
    } else if n == 3 {
        Some(3)
    } else if n == 4 {
        Some(4)
    } else {
        None
    }
}

/// An image by the values of the seven operands of `colorimage`.
fn colour_image(
    width: Option<Whole>,
    height: Option<Whole>,
    bits: Option<Whole>,
    matrix: Option<Part>,
    source: Option<DataSource>,
    apart: Option<bool>,
    components: Option<Whole>,
) -> Result<Parameters, PsName>
    ensures value { result ≡ colour_image width height bits matrix source apart components }
    ensures operands { IfOk result (λ told. told.operands ≡ 7) }
    ensures channels { IfOk result (λ told. (told.channels ≡ 1) ⊎ (told.channels ≡ 3) ⊎ (told.channels ≡ 4)) }
{
    let (
        Some(width),
        Some(height),
        Some(bits),
        Some(matrix),
        Some(source),
        Some(apart),
        Some(components),
    ) = (width, height, bits, matrix, source, apart, components) else {
        return Err(PsName::TypeCheck);
    };
    if apart {
        return Err(PsName::RangeCheck);
    }
    let Some(channels) = channels_told(components) else {
        return Err(PsName::RangeCheck);
    };
    Ok(Parameters {
        operands: 7,
        width,
        height,
        bits,
        channels,
        matrix,
        decode: Decode::Usual,
        source,
    })
}
