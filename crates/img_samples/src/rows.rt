//! The rows of an image that were delivered.
ghost use Rattle.std.specs.Prelude.{◌≡◌, ◌+◌, ◌*◌, ◌-◌, ◌/◌, ◌%◌, ◌<◌, ◌≤◌, ◌^◌, ◌⊎◌, ◌++◌, length, vec_len};
ghost use Rattle.std.specs.Prelude.{vec_capacity, min, [], IsTrue, OnOk, OnErr};
ghost use Rattle.img_samples.specs.Rows.{packed_sample, row_code, row_codes, row_bytes};
ghost use Rattle.img_samples.specs.Gathering.{IsGather, missing, fed};
ghost use Rattle.img_samples.specs.Code.Tables.{IsTableOf};
ghost use Rattle.img_samples.specs.Code.Steps.{seen, row_size};

use crate::SampleFormat;
use crate::table::CodeTable;
use press_fault::Mem;

/// How many rows came whole, their codes, and the bytes of the next one that came.
#[derive(Drop)]
pub(crate) struct Rows {
    pub(crate) count: u32,
    pub(crate) codes: Vec<u8>,
    pub(crate) part: Vec<u8>,
}

/// Adds bytes of which the image lacks each. Out of memory leaves the rows as before.
pub(crate) fn add(
    rows: &mut Rows,
    format: &SampleFormat,
    table: &CodeTable,
    bytes: &[u8],
) -> Mem<()>
    requires table { IsTableOf format.now table.now }
    requires gather { IsGather (seen format.now rows.old) }
    requires some { 0 < length bytes.now }
    requires few { length bytes.now ≤ missing (seen format.now rows.old) }
    ensures gather { IsGather (seen format.now rows.new) }
    ensures ok { OnOk result (seen format.now rows.new ≡ fed (seen format.now rows.old) bytes.now) }
    ensures left { OnOk result
        (missing (seen format.now rows.new) + length bytes.now ≡ missing (seen format.now rows.old)) }
    ensures err { OnErr result (seen format.now rows.new ≡ seen format.now rows.old) }
{
    let height = format.rows();
    let total = rows.part.len() + bytes.len();
    let ends = row_ends(format, total, height - rows.count);
    make_room(rows, format, bytes.len(), ends)?;
    add_bytes(rows, format, table, bytes, ends as u32);
    Ok(())
}

/// How many rows end with bytes, of which so many came in all since the last row that ended.
fn row_ends(format: &SampleFormat, total: usize, left: u32) -> usize
    requires some { 0 < total }
    requires fits { total ≤ row_bytes format.now * left }
    ensures value { result ≡ total / row_bytes format.now }
    ensures fit { result ≤ left }
    ensures some { 0 < row_bytes format.now }
{
    let size = format.row_bytes();
    total / size
}

/// Makes room for more bytes, and for the codes of so many rows more.
pub(crate) fn make_room(
    rows: &mut Rows,
    format: &SampleFormat,
    bytes: usize,
    ends: usize,
) -> Mem<()>
    requires { row_size format.now * ends ≤ 67108864 }
    ensures same { seen format.now rows.new ≡ seen format.now rows.old }
    ensures codes { rows.new.codes.items ≡ rows.old.codes.items }
    ensures part { rows.new.part.items ≡ rows.old.part.items }
    ensures len { vec_len rows.new.codes ≡ vec_len rows.old.codes }
    ensures part_len { vec_len rows.new.part ≡ vec_len rows.old.part }
    ensures count { rows.new.count ≡ rows.old.count }
    ensures room { OnOk result (vec_len rows.new.codes + row_size format.now * ends ≤ vec_capacity rows.new.codes) }
    ensures part_room { OnOk result (vec_len rows.new.part + min bytes (row_bytes format.now)
        ≤ vec_capacity rows.new.part) }
{
    rows.codes.reserve(format.row_size() * ends)?;
    rows.part.reserve(bytes.min(format.row_bytes()))?;
    Ok(())
}

/// The codes of a row of data, at the end of others.
pub(crate) fn add_row(codes: &mut Vec<u8>, format: &SampleFormat, table: &CodeTable, row: &[u8])
    requires table { IsTableOf format.now table.now }
    requires whole { length row.now ≡ row_bytes format.now }
    requires room { vec_len codes.old + row_size format.now ≤ vec_capacity codes.old }
    ensures items { codes.new.items ≡ codes.old.items ++ row_codes format.now row.now }
    ensures len { vec_len codes.new ≡ vec_len codes.old + row_size format.now }
    ensures capacity { vec_capacity codes.old ≤ vec_capacity codes.new }
{
    if table.copies {
        copy_row(codes, format, table, row);
    } else {
        add_samples(codes, format, table, row);
    }
}

/// The codes of a row of data that has its codes as they are.
fn copy_row(codes: &mut Vec<u8>, format: &SampleFormat, table: &CodeTable, row: &[u8])
    requires table { IsTableOf format.now table.now }
    requires copies { IsTrue table.now.copies }
    requires whole { length row.now ≡ row_bytes format.now }
    requires room { vec_len codes.old + row_size format.now ≤ vec_capacity codes.old }
    ensures items { codes.new.items ≡ codes.old.items ++ row_codes format.now row.now }
    ensures len { vec_len codes.new ≡ vec_len codes.old + row_size format.now }
    ensures capacity { vec_capacity codes.old ≤ vec_capacity codes.new }
{
    append(codes, row);
}

/// Adds bytes for which there is room.
fn append(to: &mut Vec<u8>, bytes: &[u8])
    requires { vec_len to.old + length bytes.now ≤ vec_capacity to.old }
    ensures items { to.new.items ≡ to.old.items ++ bytes.now }
    ensures len { vec_len to.new ≡ vec_len to.old + length bytes.now }
    ensures capacity { vec_capacity to.old ≤ vec_capacity to.new }
{
    match to.extend_from_slice(bytes) {
        Ok(()) => {}
        Err(_) => unreachable!(),
    }
}

/// The codes of a row of data, at the end of others, sample by sample.
fn add_samples(codes: &mut Vec<u8>, format: &SampleFormat, table: &CodeTable, row: &[u8])
    requires table { IsTableOf format.now table.now }
    requires whole { length row.now ≡ row_bytes format.now }
    requires room { vec_len codes.old + row_size format.now ≤ vec_capacity codes.old }
    ensures items { codes.new.items ≡ codes.old.items ++ row_codes format.now row.now }
    ensures len { vec_len codes.new ≡ vec_len codes.old + row_size format.now }
    ensures capacity { vec_capacity codes.old ≤ vec_capacity codes.new }
{
    let mut channel = 0;
    for k in 0..format.row_size() {
        codes.push_reserved(code_at(format, table, row, k, channel));
        channel = next_channel(format, k, channel);
    }
}

/// The code at a place of a row, which is one of this channel.
#[tactic(auto, unfolding(crate::specs::Rows::row_code))]
fn code_at(format: &SampleFormat, table: &CodeTable, row: &[u8], k: usize, channel: usize) -> u8
    requires table { IsTableOf format.now table.now }
    requires whole { length row.now ≡ row_bytes format.now }
    requires inside { k < row_size format.now }
    requires k { k < 2 ^ 40 }
    requires channel { channel ≡ k % format.now.channels }
    ensures { result ≡ row_code format.now row.now k }
{
    let sample = packed_sample(format.bits, row, k);
    table.code(format, channel, sample)
}

/// The channel of the place behind one of a row.
fn next_channel(format: &SampleFormat, k: usize, channel: usize) -> usize
    requires channel { channel ≡ k % format.now.channels }
    requires k { k < 2 ^ 40 }
    ensures { result ≡ (k + 1) % format.now.channels }
{
    if channel + 1 == usize::from(format.channels) {
        0
    } else {
        channel + 1
    }
}

/// The sample at a place of a row.
#[tactic(auto, using(crate::proofs::Packed::moves_less), unfolding(crate::specs::Rows::packed_sample))]
fn packed_sample(bits: u8, row: &[u8], k: usize) -> usize
    requires bits { (bits ≡ 1) ⊎ (bits ≡ 2) ⊎ (bits ≡ 4) ⊎ (bits ≡ 8) }
    requires inside { k * bits / 8 < length row.now }
    requires k { k < 2 ^ 40 }
    ensures value { result ≡ packed_sample bits row.now k }
    ensures bound { result < 2 ^ bits }
{
    let at = k * usize::from(bits);
    let moved = usize::from(row[at / 8]) >> (8 - usize::from(bits) - at % 8);
    // A quotient by a number that the compiler knows costs nothing.
    match bits {
        1 => moved % 2,
        2 => moved % 4,
        4 => moved % 16,
        _ => moved % 256,
    }
}

/// Adds the bytes that the row lacks and that stand first, and so the row's codes; answers the
/// bytes behind them.
fn end_row<'a>(
    rows: &mut Rows,
    format: &SampleFormat,
    table: &CodeTable,
    bytes: &'a [u8],
) -> &'a [u8]
    requires table { IsTableOf format.now table.now }
    requires part { vec_len rows.old.part < row_bytes format.now }
    requires whole { row_bytes format.now ≤ vec_len rows.old.part + length bytes.now }
    requires count { rows.old.count + 1 < 2 ^ 32 }
    requires room { vec_len rows.old.codes + row_size format.now ≤ vec_capacity rows.old.codes }
    requires part_room { row_bytes format.now ≤ vec_capacity rows.old.part }
    ensures state { fed (seen format.now rows.new) result.now ≡ fed (seen format.now rows.old) bytes.now }
    ensures rest { length result.now + row_bytes format.now ≡ vec_len rows.old.part + length bytes.now }
    ensures part { vec_len rows.new.part ≡ 0 }
    ensures count { rows.new.count ≡ rows.old.count + 1 }
    ensures codes { vec_len rows.new.codes ≡ vec_len rows.old.codes + row_size format.now }
    ensures room { vec_capacity rows.old.codes ≤ vec_capacity rows.new.codes }
    ensures part_room { vec_capacity rows.old.part ≤ vec_capacity rows.new.part }
{
    let (first, rest) = bytes.split_at(format.row_bytes() - rows.part.len());
    add_whole(&mut rows.codes, &mut rows.part, format, table, first);
    rows.count += 1;
    rest
}

/// Adds the codes of a row of which one part is kept and the other one is given.
#[tactic(auto, using(crate::proofs::Feeding::nothing_before))]
fn add_whole(
    codes: &mut Vec<u8>,
    part: &mut Vec<u8>,
    format: &SampleFormat,
    table: &CodeTable,
    first: &[u8],
)
    requires table { IsTableOf format.now table.now }
    requires whole { vec_len part.old + length first.now ≡ row_bytes format.now }
    requires room { vec_len codes.old + row_size format.now ≤ vec_capacity codes.old }
    requires part_room { row_bytes format.now ≤ vec_capacity part.old }
    ensures items { codes.new.items ≡ codes.old.items ++ row_codes format.now (part.old.items ++ first.now) }
    ensures len { vec_len codes.new ≡ vec_len codes.old + row_size format.now }
    ensures room { vec_capacity codes.old ≤ vec_capacity codes.new }
    ensures part { part.new.items ≡ [] }
    ensures part_len { vec_len part.new ≡ 0 }
    ensures part_room { vec_capacity part.old ≤ vec_capacity part.new }
{
    if part.is_empty() {
        // The row stands in the data as a whole, so it isn't copied first.
        add_row(codes, format, table, first);
    } else {
        append(part, first);
        add_row(codes, format, table, part);
        part.clear();
    }
}

/// Adds bytes with which so many rows end.
fn add_bytes(rows: &mut Rows, format: &SampleFormat, table: &CodeTable, bytes: &[u8], ends: u32)
    requires table { IsTableOf format.now table.now }
    requires part { vec_len rows.old.part < row_bytes format.now }
    requires ends { ends ≡ (vec_len rows.old.part + length bytes.now) / row_bytes format.now }
    requires count { rows.old.count + ends < 2 ^ 32 }
    requires room { vec_len rows.old.codes + row_size format.now * ends ≤ vec_capacity rows.old.codes }
    requires part_room { vec_len rows.old.part + min (length bytes.now) (row_bytes format.now)
        ≤ vec_capacity rows.old.part }
    ensures state { seen format.now rows.new ≡ fed (seen format.now rows.old) bytes.now }
    ensures part { vec_len rows.new.part + row_bytes format.now * ends ≡ vec_len rows.old.part + length bytes.now }
    ensures count { rows.new.count ≡ rows.old.count + ends }
    ensures codes { vec_len rows.new.codes ≡ vec_len rows.old.codes + row_size format.now * ends }
{
    let mut rest = bytes;
    for _end in 0..ends {
        rest = end_row(rows, format, table, rest);
    }
    keep_part(rows, format, rest);
}

/// Adds bytes with which no row ends.
fn keep_part(rows: &mut Rows, format: &SampleFormat, bytes: &[u8])
    requires less { vec_len rows.old.part + length bytes.now < row_bytes format.now }
    requires room { vec_len rows.old.part + length bytes.now ≤ vec_capacity rows.old.part }
    ensures state { seen format.now rows.new ≡ fed (seen format.now rows.old) bytes.now }
    ensures len { vec_len rows.new.part ≡ vec_len rows.old.part + length bytes.now }
    ensures count { rows.new.count ≡ rows.old.count }
    ensures codes { vec_len rows.new.codes ≡ vec_len rows.old.codes }
{
    append(&mut rows.part, bytes);
}
