//! Reading from the program's own text.
ghost use Rattle.std.specs.Prelude.{◌≡◌, ◌≤◌, ◌∷◌, ◌==◌, length, take, drop};
ghost use Rattle.ps_store.specs.Outcome.{Answers, TellsRefusal};
ghost use Rattle.ps_store.specs.Gathering.{with_elements, integers};
ghost use Rattle.ps_data_ops.specs.Composites.{part_of};
ghost use Rattle.ps_data_ops.specs.Reading.{readstring_row, readhexstring_row};

use crate::intervals::part;
use press_fault::PsName;
use ps_scan::Scanner;
use ps_store::{Obj, OpFault, Part, Stack, Store};

/// `readstring`: bytes behind the last token into a string.
pub(crate) fn readstring(
    stack: &mut Stack,
    store: &mut Store,
    file: &mut Scanner,
) -> Result<(), OpFault>
    ensures answers { Answers (readstring_row stack.old store.old file.old) result
        (record { operands = stack.old; store = store.old; file = file.old })
        (record { operands = stack.new; store = store.new; file = file.new }) }
    ensures refused { TellsRefusal (readstring_row stack.old store.old file.old) result }
{
    let Some((text, source)) = stack.top_two() else {
        return Err(OpFault::Ps(PsName::StackUnderflow));
    };
    let (Obj::Text(span), Obj::File) = (text, source) else {
        return Err(OpFault::Ps(PsName::TypeCheck));
    };
    let span = *span;
    if span.len == 0 {
        return Err(OpFault::Ps(PsName::RangeCheck));
    }
    let mut bytes = store.zeros(span.len)?;
    let count = file.take(span.len as usize, &mut bytes);
    keep(stack, store, span, count, &bytes);
    Ok(())
}

/// `readhexstring`: the bytes of hexadecimal digits behind the last token into a string.
pub(crate) fn readhexstring(
    stack: &mut Stack,
    store: &mut Store,
    file: &mut Scanner,
) -> Result<(), OpFault>
    ensures answers { Answers (readhexstring_row stack.old store.old file.old) result
        (record { operands = stack.old; store = store.old; file = file.old })
        (record { operands = stack.new; store = store.new; file = file.new }) }
    ensures refused { TellsRefusal (readhexstring_row stack.old store.old file.old) result }
{
    let Some((text, source)) = stack.top_two() else {
        return Err(OpFault::Ps(PsName::StackUnderflow));
    };
    let (Obj::Text(span), Obj::File) = (text, source) else {
        return Err(OpFault::Ps(PsName::TypeCheck));
    };
    let span = *span;
    if span.len == 0 {
        return Err(OpFault::Ps(PsName::RangeCheck));
    }
    let mut bytes = store.zeros(span.len)?;
    let count = file.take_hex(&mut bytes);
    keep(stack, store, span, count, &bytes);
    Ok(())
}

/// Puts the first `count` of the bytes that were read into the string, and on the operands the part
/// that they fill and whether this is all of it.
fn keep(stack: &mut Stack, store: &mut Store, span: Part, count: usize, bytes: &[u8])
    requires operands { 2 ≤ length stack.old }
    requires count { count ≤ span.len }
    requires bytes { length bytes.now ≡ span.len }
    ensures operands { stack.new ≡ Obj.Bool (count == span.len) ∷ Obj.Text (part_of span 0 count) ∷ drop 2 stack.old }
    ensures store { store.new ≡ with_elements store.old span 0 (integers (take count bytes.now)) }
{
    let (front, _) = bytes.split_at(count);
    store.put_bytes(span, front);
    let filled = part(span, 0, count as u32);
    stack.replace_two(Obj::Text(filled), Obj::Bool(count == span.len as usize));
}
