//! What an image operator is told by an image dictionary.
ghost use Rattle.std.specs.Prelude.{◌≡◌, ◌≤◌, IfOk, codes, length};
ghost use Rattle.std.specs.Option.{option_copied, option_and_then};
ghost use Rattle.ps_store.specs.declared.key.Key.TheVariants.{Named};
ghost use Rattle.ps_image_ops.specs.Parameters.{value_in, has_key, integer_in, numbers_of, source_of, bits_by};
ghost use Rattle.ps_image_ops.specs.Parameters.{decode_by, has_keys, is_type_one, of_type, described, dictionary_image};

use crate::parameters::{DataSource, Decode, Parameters, integer, numbers, size, source};
use press_fault::{Name, PsName};
use press_nums::Whole;
use ps_store::{Obj, Part, Sought, Store};

/// The key of these bytes.
fn key(store: &Store, bytes: &[u8]) -> Sought
    requires { length bytes.now ≤ 127 }
    ensures { result ≡ Named bytes.now }
{
    match Name::of(bytes) {
        Some(name) => store.named(name),
        None => unreachable!(),
    }
}

/// The value of a key.
fn value_in<'a>(store: &'a Store, dict: u32, bytes: &[u8]) -> Option<&'a Obj>
    requires { length bytes.now ≤ 127 }
    ensures { option_copied result ≡ value_in store.now dict bytes.now }
{
    store.look_up(dict, &key(store, bytes))
}

/// Whether the dictionary has a key.
fn has_key(store: &Store, dict: u32, bytes: &[u8]) -> bool
    requires { length bytes.now ≤ 127 }
    ensures { result ≡ has_key store.now dict bytes.now }
{
    store.has(dict, &key(store, bytes))
}

/// Whether the dictionary has each key that has to be there.
fn has_keys(mask: bool, store: &Store, dict: u32) -> bool
    ensures { result ≡ has_keys mask store.now dict }
{
    has_key(store, dict, b"ImageType")
        && has_key(store, dict, b"Width")
        && has_key(store, dict, b"Height")
        && (mask || has_key(store, dict, b"BitsPerComponent"))
        && has_key(store, dict, b"ImageMatrix")
        && has_key(store, dict, b"DataSource")
}

/// The value of a key as an integer.
fn integer_in(store: &Store, dict: u32, bytes: &[u8]) -> Option<Whole>
    requires { length bytes.now ≤ 127 }
    ensures { result ≡ integer_in store.now dict bytes.now }
{
    match value_in(store, dict, bytes) {
        Some(o) => integer(o),
        None => None,
    }
}

/// The value of a key as an array of numbers.
fn numbers_in(store: &Store, dict: u32, bytes: &[u8]) -> Option<Part>
    requires { length bytes.now ≤ 127 }
    ensures { result ≡ option_and_then (numbers_of store.now) (value_in store.now dict bytes.now) }
{
    match value_in(store, dict, bytes) {
        Some(o) => numbers(store, o),
        None => None,
    }
}

/// The value of a key as a data source.
fn source_in(store: &Store, dict: u32, bytes: &[u8]) -> Option<DataSource>
    requires { length bytes.now ≤ 127 }
    ensures { result ≡ option_and_then source_of (value_in store.now dict bytes.now) }
{
    match value_in(store, dict, bytes) {
        Some(o) => source(o),
        None => None,
    }
}

/// The bits of a sample, which of a mask may be left out.
fn bits_in(mask: bool, store: &Store, dict: u32) -> Option<Whole>
    ensures { result ≡ bits_by mask (value_in store.now dict (codes "BitsPerComponent")) }
{
    match value_in(store, dict, b"BitsPerComponent") {
        Some(o) => integer(o),
        None => { if mask { Some(Whole::of(1)) } else { None } }
    }
}

/// Decode, where it is left out or an array of numbers.
fn decode_in(store: &Store, dict: u32) -> Option<Decode>
    ensures { result ≡ decode_by store.now (value_in store.now dict (codes "Decode")) }
{
    match value_in(store, dict, b"Decode") {
        Some(o) => match numbers(store, o) {
            Some(p) => Some(Decode::Numbers(p)),
            None => None,
        },
        None => Some(Decode::Usual),
    }
}

/// An image or a mask of so many channels by a dictionary.
pub(crate) fn dictionary_image(
    mask: bool,
    channels: u8,
    store: &Store,
    dict: u32,
) -> Result<Parameters, PsName>
    ensures value { result ≡ dictionary_image mask channels store.now dict }
    ensures form { IfOk result (λ told. (told.operands ≡ 1) × (told.channels ≡ channels)) }
{
    if !has_keys(mask, store, dict) {
        return Err(PsName::Undefined);
    }
    described(
        channels,
        integer_in(store, dict, b"ImageType"),
        integer_in(store, dict, b"Width"),
        integer_in(store, dict, b"Height"),
        bits_in(mask, store, dict),
        numbers_in(store, dict, b"ImageMatrix"),
        decode_in(store, dict),
        source_in(store, dict, b"DataSource"),
    )
}

/// Whether an ImageType is 1, the one that there is.
fn is_type_one(n: Whole) -> bool
    ensures { result ≡ is_type_one n }
{
    match size(n) {
        Some(n) => n == 1,
        None => false,
    }
}

/// An image or a mask by the values of a dictionary.
fn described(
    channels: u8,
    image_type: Option<Whole>,
    width: Option<Whole>,
    height: Option<Whole>,
    bits: Option<Whole>,
    matrix: Option<Part>,
    decode: Option<Decode>,
    source: Option<DataSource>,
) -> Result<Parameters, PsName>
    ensures value { result ≡ described channels image_type width height bits matrix decode source }
    ensures form { IfOk result (λ told. (told.operands ≡ 1) × (told.channels ≡ channels)) }
{
    let (
        Some(image_type),
        Some(width),
        Some(height),
        Some(bits),
        Some(matrix),
        Some(decode),
        Some(source),
    ) = (image_type, width, height, bits, matrix, decode, source) else {
        return Err(PsName::TypeCheck);
    };
    if !is_type_one(image_type) {
        return Err(PsName::RangeCheck);
    }
    Ok(Parameters {
        operands: 1,
        width,
        height,
        bits,
        channels,
        matrix,
        decode,
        source,
    })
}
