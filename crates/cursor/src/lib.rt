// A cursor over the sets of the list, each met once, in the order that suits the search. Powers of x and the period belong to a
// generator and a length: they are prepared once and serve every syndrome. The positions of the set at hand stand in front of a
// lent slice.
#![tactic(auto)]

ghost use Rattle.std.specs.Prelude.{◌≡◌, ◌≤◌, length, take};
ghost use Rattle.poly.specs.Fit.{Fit};
ghost use Rattle.tables.specs.Tables.{power, values};
ghost use Rattle.cursor.specs.Cursors.{FirstMet, InFront, NextMet, Prepared, RightTables, ServedBy};

use placing::Powers;
use poly::Generator;
use tables::Tables;

// What the sets of a syndrome are sought by.
#[derive(Clone, Copy)]
pub struct Cursor<'a> {
    pub generator: Generator,
    pub powers: Powers<'a>,
    pub syndrome: u64,
}

// The powers of x below the slice's length, by their remainders.
pub fn fill_powers(g: Generator, room: &mut [u32])
    requires { Fit g }
    ensures { room.new ≡ values (power g.degree g.coefficients) (length room.old) 0 }
{
    let mut t: u64 = 1;
    for power in room.iter_mut() {
        *power = t as u32;
        t = poly::times_x(g, t);
    }
}

// Fills in a power for each of `bits` bits, and lends them with the first positions and the period, from tables that are right.
pub fn prepare<'a>(g: Generator, bits: usize, tables: Tables<'a>, room: &'a mut [u32]) -> Powers<'a>
    requires { RightTables g tables.steps.now tables.firsts.now × (bits ≤ 4096) × (bits ≤ length room.old) }
    ensures { ServedBy g bits result }
{
    fill_powers(g, &mut room[..bits]);
    Powers {
        powers: &room[..bits],
        firsts: tables.firsts,
        period: tables::period_of(g, tables) as usize,
    }
}

// The first set that is met.
#[tactic(auto, using(crate::proofs::LookupLaws::odd_ones))]
pub fn meet_first(cursor: Cursor, pos: &mut [u16]) -> Option<usize>
    requires { Prepared cursor }
    ensures { FirstMet cursor.entry (length pos.old) result pos.new }
{
    let g = cursor.generator.coefficients;
    search::search_first(g, cursor.powers, cursor.syndrome as usize, pos)
}

// The first set that is met after the one in front of `pos`, which need not be met itself.
#[tactic(auto, using(crate::proofs::LookupLaws::odd_ones))]
pub fn meet_next(cursor: Cursor, pos: &mut [u16], count: usize) -> Option<usize>
    requires { Prepared cursor × InFront (length cursor.powers.powers.now) count pos.old }
    ensures { NextMet cursor.entry (length pos.old) (take count pos.old) result pos.new }
{
    let g = cursor.generator.coefficients;
    search::search_next(g, cursor.powers, cursor.syndrome as usize, pos, count)
}
