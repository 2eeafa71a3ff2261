//! A lut as a source: the values of its input tables for each code.
ghost use Rattle.std.specs.Prelude.{◌≡◌, ◌≢◌, ◌≤◌, ◌<◌, ◌+◌, ◌*◌, IfOk, length, take, slice_index};
ghost use Rattle.icc_tables.specs.Lattice.{lut_value, top_of};
ghost use Rattle.icc_model.specs.Direct.{entered};
ghost use Rattle.link_build.specs.Code.Entries.{IsTableOf, IsEntriesOf};

use crate::mixture::see_bytes;
use icc_model::{Lut, entered};
use icc_tables::{before, of_point};
use press_fault::{Code, Mem};
use std::alloc::Global;
use std::marker::Model;

/// The values of the input tables for the 256 codes of each channel; of three channels the fourth
/// is that of the third.
#[derive(Drop)]
pub(crate) struct Entries {
    first: Vec<u16>,
    second: Vec<u16>,
    third: Vec<u16>,
    fourth: Vec<u16>,
}

impl Model for Entries {
    ghost use Rattle.std.specs.Prelude.{◌≡◌, length};
    ghost use Rattle.link_build.specs.Code.Entries.{EntriesValue};

    ghost Value = { EntriesValue };

    ghost view = { λ e. record {
      first = e.first.items;
      second = e.second.items;
      third = e.third.items;
      fourth = e.fourth.items;
    } };

    ghost invariant = { λ e. (length e.first.items ≡ 256) × (length e.second.items ≡ 256)
        × (length e.third.items ≡ 256) × (length e.fourth.items ≡ 256) };
}

impl Entries {
    /// The values of a lut of three or four channels.
    pub(crate) fn of(alloc: Global, lut: &Lut) -> Mem<Entries>
        requires { 3 ≤ lut.now.inputs }
        ensures { IfOk result (IsEntriesOf lut.now) }
    {
        let last = lut.inputs - 1;
        Ok(Entries {
            first: table_of(alloc, lut, 0)?,
            second: table_of(alloc, lut, 1)?,
            third: table_of(alloc, lut, 2)?,
            fourth: table_of(alloc, lut, last)?,
        })
    }

    /// The three values that the lut gives a code.
    pub(crate) fn values(&self, lut: &Lut, code: Code) -> [u16; 3]
        requires inputs { lut.now.inputs ≡ code.n }
        requires some { 3 ≤ code.n }
        requires entries { IsEntriesOf lut.now self.now }
        ensures value { result ≡ lut_value lut.now (entered lut.now.wide (take code.n code.c)) }
    {
        let [a, b, c, d] = code.c;
        let first = entry_at(&self.first, a);
        let second = entry_at(&self.second, b);
        let third = entry_at(&self.third, c);
        if code.n == 3 {
            of_point(lut, &[first, second, third])
        } else {
            see_four(code);
            see_bytes(code);
            of_point(lut, &[first, second, third, entry_at(&self.fourth, d)])
        }
    }
}

/// A code of more than three channels has four.
fn see_four(code: Code)
    requires some { 3 ≤ code.n }
    requires more { code.n ≢ 3 }
    ensures four { code.n ≡ 4 }
    ensures places { length code.c ≡ 4 }
{}

/// The values of one channel's input table.
#[tactic(auto, using(crate::proofs::Tables::table_more))]
fn table_of(alloc: Global, lut: &Lut, channel: u8) -> Mem<Vec<u16>>
    requires { channel < lut.now.inputs }
    ensures { IfOk result (λ table. IsTableOf lut.now channel 256 table.items) }
{
    let mut table = Vec::with_capacity(alloc, 256)?;
    for code in 0..256u16 {
        table.push(before(lut, channel, entered(lut, code as u8)))?;
    }
    Ok(table)
}

/// The value of a code.
fn entry_at(table: &[u16], code: u8) -> u16
    requires { length table.now ≡ 256 }
    ensures { result ≡ slice_index table.now code }
{
    table[usize::from(code)]
}
