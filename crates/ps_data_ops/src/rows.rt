//! The call that does a data operator.
ghost use Rattle.std.specs.Prelude.{◌≡◌, ◌≢◌, true, Err};
ghost use Rattle.ps_store.specs.Outcome.{TellsRefusal};
ghost use Rattle.ps_data_ops.specs.Dictionaries.{TellsRefusalBut};
ghost use Rattle.ps_data_ops.specs.Rows.{data_row, takes_memory};
ghost use Rattle.ps_data_ops.specs.Calls.{data_state, DataAnswers};

use crate::composites::{aload, array, astore, close_array, dict, string};
use crate::dictionaries::{begin, currentdict, def, end, known, load, where_};
use crate::elements::{get, length, put};
use crate::intervals::{getinterval, putinterval};
use crate::pairs::close_dict;
use crate::reading::{readhexstring, readstring};
use crate::values::{cvlit, cvn, cvx, push, type_, xcheck};
use press_fault::PsName;
use ps_scan::Scanner;
use ps_store::{DataOp, Dicts, Obj, OpFault, SYSTEMDICT, Stack, Store, USERDICT};

/// Does a data operator, exactly as its row says (PostScript Language Reference, third edition,
/// 8.2 Operator Details). A refusal by an error of the language leaves the operands, the store,
/// the dictionary stack and the place in the program as they were; after out of memory nothing
/// is said of them. Out of memory comes only of an operator that makes a composite or a name, gives a
/// key a value or reads, and never in place of a refusal, but that `>>` puts its entries together
/// before it finds its limit.
#[tactic(auto, using(crate::proofs::Within::answers_within, crate::proofs::Within::told, crate::proofs::Within::told_within), unfolding(crate::specs::Rows::data_row))]
pub fn run_data(
    op: DataOp,
    stack: &mut Stack,
    store: &mut Store,
    dicts: &mut Dicts,
    file: &mut Scanner,
) -> Result<(), OpFault>
    ensures answers { DataAnswers (data_row op)
        result stack.old store.old dicts.old file.old stack.new store.new dicts.new file.new }
    ensures refused { op ≢ DataOp.CloseDict →
        TellsRefusal (data_row op (data_state stack.old store.old dicts.old file.old)) result }
    ensures refused_but_limit { TellsRefusalBut PsName.LimitCheck
        (data_row op (data_state stack.old store.old dicts.old file.old)) result }
    ensures memory { result ≡ Err OpFault.NoMemory → takes_memory op ≡ true }
{
    match op {
        DataOp::True => push(stack, Obj::Bool(true)),
        DataOp::False => push(stack, Obj::Bool(false)),
        DataOp::Null => push(stack, Obj::Null),
        DataOp::Array => array(stack, store),
        DataOp::String => string(stack, store),
        DataOp::Dict => dict(stack, store),
        DataOp::CloseArray => close_array(stack, store),
        DataOp::CloseDict => close_dict(stack, store),
        DataOp::Length => length(stack, store),
        DataOp::Get => get(stack, store),
        DataOp::Put => put(stack, store),
        DataOp::Getinterval => getinterval(stack),
        DataOp::Putinterval => putinterval(stack, store),
        DataOp::Aload => aload(stack, store),
        DataOp::Astore => astore(stack, store),
        DataOp::Begin => begin(stack, dicts),
        DataOp::End => end(dicts),
        DataOp::Def => def(stack, store, dicts),
        DataOp::Load => load(stack, store, dicts),
        DataOp::Known => known(stack, store),
        DataOp::Where => where_(stack, store, dicts),
        DataOp::Currentdict => currentdict(stack, dicts),
        DataOp::Systemdict => push(stack, Obj::Dict(SYSTEMDICT)),
        DataOp::Userdict => push(stack, Obj::Dict(USERDICT)),
        DataOp::Cvn => cvn(stack, store),
        DataOp::Cvx => cvx(stack),
        DataOp::Cvlit => cvlit(stack),
        DataOp::Xcheck => xcheck(stack),
        DataOp::Type => type_(stack, store),
        DataOp::Currentfile => push(stack, Obj::File),
        DataOp::Readstring => readstring(stack, store, file),
        DataOp::Readhexstring => readhexstring(stack, store, file),
    }
}
