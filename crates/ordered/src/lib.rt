// The sets whose powers have a given sum, in the list's order: the first, and the first that follows a set, count by count. Counts that
// parity rules out are skipped. Contracts hold for any powers that the tables describe. What is found is left in
// `pos`, as in placing.
#![tactic(auto)]

ghost use Rattle.std.specs.Prelude.{◌≤◌, length, take};
ghost use Rattle.base.specs.Lists.{Ascending};
ghost use Rattle.placing.specs.Placing.{ReadyFor};
ghost use Rattle.search.specs.Search.{CountWithin, OddOnes};
ghost use Rattle.widening.specs.Widening.{FirstOfCount, NextOfCount};
ghost use Rattle.ordered.specs.Ordered.{FirstAmong, NextAmong};

use placing::Powers;

// The first set of as many positions as `pos` has room for, unless their count is ruled out.
fn first_or_skip(generator: u64, powers: Powers, u: usize, pos: &mut [u16]) -> bool
    requires { ReadyFor powers 0 u × OddOnes generator powers.powers.now }
    ensures { FirstOfCount powers.entry (length pos.old) u result pos.new }
{
    !search::ruled_out(generator, pos.len(), u) && widening::first_of_count(powers, u, pos)
}

// The first set of as many positions that follows the one in `pos`, unless their count is ruled out.
fn next_or_skip(generator: u64, powers: Powers, u: usize, pos: &mut [u16]) -> bool
    requires { ReadyFor powers 0 u × Ascending (length powers.powers.now) 0 pos.old × OddOnes generator powers.powers.now }
    ensures { NextOfCount powers.entry u pos.old result pos.new }
{
    !search::ruled_out(generator, pos.len(), u) && widening::next_of_count(powers, u, pos)
}

// The first set of at most as many positions as `pos` has room for: its count, and its positions in front.
pub fn order_first(
    generator: u64,
    powers: Powers,
    syndrome: usize,
    pos: &mut [u16],
) -> Option<usize>
    requires { ReadyFor powers 0 syndrome × OddOnes generator powers.powers.now }
    ensures counted { CountWithin (length pos.old) result }
    ensures first { FirstAmong powers.entry 0 (length pos.old) syndrome result pos.new }
{
    let step = |front: &mut [u16]| first_or_skip(generator, powers, syndrome, front);
    search::rise(0, pos, step)
}

// The first that follows the set in front of `pos`, which need not have the sum.
pub fn order_next(
    generator: u64,
    powers: Powers,
    syndrome: usize,
    pos: &mut [u16],
    count: usize,
) -> Option<usize>
    requires { ReadyFor powers 0 syndrome × (count ≤ length pos.old) × Ascending (length powers.powers.now) 0 (take count pos.old) × OddOnes generator powers.powers.now }
    ensures counted { CountWithin (length pos.old) result }
    ensures next { NextAmong powers.entry (length pos.old) syndrome (take count pos.old) result pos.new }
{
    if next_or_skip(generator, powers, syndrome, &mut pos[..count]) {
        return Some(count);
    }
    let step = |front: &mut [u16]| first_or_skip(generator, powers, syndrome, front);
    search::rise(count + 1, pos, step)
}
