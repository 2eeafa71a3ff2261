//! A lut as a whole, without its matrix: input tables, lattice, output tables.
ghost use Rattle.std.specs.Prelude.{◌≡◌, ◌≤◌, ◌<◌, ◌*◌, ◌+◌, length, [], ◌∷◌, slice_index};
ghost use Rattle.icc_tables.specs.Curves.{table_value};
ghost use Rattle.icc_tables.specs.Lattice.{LutValue, IsCount, AreAtMost, IsPoint, top_of, entry_at, through_tables};
ghost use Rattle.icc_tables.specs.Lattice.{lattice_at, lut_value};

use crate::curve::table_at;
use crate::lattice::{Lut, values_at};

/// The value of the table of one channel, of those that stand one after another.
fn entry_at(wide: bool, entries: &[u16], count: u16, channel: u8, v: u16) -> u16
    requires count { IsCount wide count }
    requires channel { channel ≤ 3 }
    requires inside { channel * count + count ≤ length entries.now }
    requires v { v ≤ top_of wide }
    requires most { AreAtMost (top_of wide) entries.now }
    ensures value { result ≡ entry_at wide entries.now count channel v }
    ensures bound { result ≤ top_of wide }
{
    let from = usize::from(channel) * usize::from(count);
    if wide {
        interpolated(entries, from, usize::from(count), v)
    } else {
        entries[from + usize::from(v)]
    }
}

/// The value of a table of 16 bits.
#[tactic(auto, using(crate::proofs::Tables::table_most))]
fn interpolated(entries: &[u16], from: usize, count: usize, v: u16) -> u16
    requires some { 2 ≤ count }
    requires few { count ≤ 65536 }
    requires inside { from + count ≤ length entries.now }
    requires most { AreAtMost 65535 entries.now }
    ensures value { result ≡ table_value entries.now from count v }
    ensures bound { result ≤ 65535 }
{
    table_at(entries, from, count, v)
}

/// A value through the input table of its channel.
pub fn before(lut: &Lut, channel: u8, v: u16) -> u16
    requires channel { channel < lut.now.inputs }
    requires v { v ≤ top_of lut.now.wide }
    ensures value { result ≡ entry_at lut.now.wide lut.now.before lut.now.before_count channel v }
    ensures bound { result ≤ top_of lut.now.wide }
{
    entry_at(lut.wide, lut.before.items(), lut.before_count, channel, v)
}

/// A value through the output table of its channel.
fn after(lut: &Lut, channel: u8, v: u16) -> u16
    requires channel { channel < 3 }
    requires v { v ≤ top_of lut.now.wide }
    ensures value { result ≡ entry_at lut.now.wide lut.now.after lut.now.after_count channel v }
    ensures bound { result ≤ top_of lut.now.wide }
{
    entry_at(lut.wide, lut.after.items(), lut.after_count, channel, v)
}

/// The values of the lattice through the output tables.
fn finished(lut: &Lut, values: [u16; 3]) -> [u16; 3]
    requires point { IsPoint (top_of lut.now.wide) values }
    ensures value { result ≡ through_tables lut.now.wide lut.now.after lut.now.after_count 0 values }
    ensures point { IsPoint (top_of lut.now.wide) result }
{
    let [first, second, third] = values;
    [
        after(lut, 0, first),
        after(lut, 1, second),
        after(lut, 2, third),
    ]
}

/// A lut from the point on that its input tables give.
pub fn of_point(lut: &Lut, at: &[u16]) -> [u16; 3]
    requires channels { length at.now ≡ lut.now.inputs }
    requires point { IsPoint (top_of lut.now.wide) at.now }
    ensures value { result ≡ through_tables lut.now.wide lut.now.after lut.now.after_count 0
        (lattice_at lut.now at.now) }
    ensures point { IsPoint (top_of lut.now.wide) result }
{
    finished(lut, values_at(lut, at))
}

/// A lut of one channel.
pub fn of_one(lut: &Lut, a: u16) -> [u16; 3]
    requires inputs { lut.now.inputs ≡ 1 }
    requires a { a ≤ top_of lut.now.wide }
    ensures value { result ≡ lut_value lut.now (a ∷ []) }
    ensures point { IsPoint (top_of lut.now.wide) result }
{
    finished(lut, values_at(lut, &[before(lut, 0, a)]))
}

/// A lut of three channels.
pub fn of_three(lut: &Lut, a: u16, b: u16, c: u16) -> [u16; 3]
    requires inputs { lut.now.inputs ≡ 3 }
    requires a { a ≤ top_of lut.now.wide }
    requires b { b ≤ top_of lut.now.wide }
    requires c { c ≤ top_of lut.now.wide }
    ensures value { result ≡ lut_value lut.now (a ∷ b ∷ c ∷ []) }
    ensures point { IsPoint (top_of lut.now.wide) result }
{
    finished(
        lut,
        values_at(
            lut,
            &[before(lut, 0, a), before(lut, 1, b), before(lut, 2, c)],
        ),
    )
}

/// A lut of four channels.
pub fn of_four(lut: &Lut, a: u16, b: u16, c: u16, d: u16) -> [u16; 3]
    requires inputs { lut.now.inputs ≡ 4 }
    requires a { a ≤ top_of lut.now.wide }
    requires b { b ≤ top_of lut.now.wide }
    requires c { c ≤ top_of lut.now.wide }
    requires d { d ≤ top_of lut.now.wide }
    ensures value { result ≡ lut_value lut.now (a ∷ b ∷ c ∷ d ∷ []) }
    ensures point { IsPoint (top_of lut.now.wide) result }
{
    finished(
        lut,
        values_at(
            lut,
            &[
                before(lut, 0, a),
                before(lut, 1, b),
                before(lut, 2, c),
                before(lut, 3, d),
            ],
        ),
    )
}
