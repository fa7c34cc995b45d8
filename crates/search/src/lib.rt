// The search for the first set that is met, and for the first after one: count by count, and within a count by the
// placing of positions. Counts that parity rules out are skipped; of the generator only its number of ones is asked. Contracts hold
// for any powers that the two tables describe. What is found is left in `pos`, as in placing.
#![tactic(auto)]

ghost use Rattle.std.specs.Prelude.{◌≡◌, ℕ, ◌+◌, ◌-◌, ◌≤◌, length, take};
ghost use Rattle.base.specs.Lists.{Ascending};
ghost use Rattle.placing.specs.Placing.{Describes, head_of, Placed, ReadyFor, Resumed, summing};
ghost use Rattle.search.specs.Search.{
  CountWithin,
  FirstTold,
  found,
  NextTold,
  OddOnes,
  Risen,
  Steps,
  rising,
  ruled_out,
};

use placing::Powers;

// Whether parity rules out sets of `count` positions with the sum `u`: it tells of generators with an even number of ones,
// and of no other. The generator's ones are counted last: after a listed pattern, if their number is even, the first test
// has answered.
#[tactic(auto, unfolding(crate::specs::Search::ruled_out))]
pub fn ruled_out(generator: u64, count: usize, u: usize) -> bool
    ensures { result ≡ ruled_out generator count u }
{
    count % 2 != usize::count_ones(u) as usize % 2 && u64::count_ones(generator) % 2 == 0
}

// Places as many positions as `pos` has room for, from the first one on, unless their count is ruled out.
fn place_or_skip(generator: u64, powers: Powers, u: usize, pos: &mut [u16]) -> bool
    requires { ReadyFor powers 0 u × OddOnes generator powers.powers.now }
    ensures { Placed powers.entry (length pos.old) 0 u result pos.new }
{
    !ruled_out(generator, pos.len(), u) && powers.place(0, u, pos)
}

// Goes on from the positions in `pos`, unless their count is ruled out: the set in `pos` is then not listed either.
fn resume_or_skip(generator: u64, powers: Powers, u: usize, pos: &mut [u16]) -> bool
    requires { ReadyFor powers 0 u × Ascending (length powers.powers.now) 0 pos.old × OddOnes generator powers.powers.now }
    ensures { Resumed powers.entry u pos.old result pos.new }
{
    if ruled_out(generator, pos.len(), u) {
        return false; // nor is the set in `pos` then listed
    }
    if pos.len() == 2 {
        return powers.resume_pair(u, pos);
    }
    powers.resume(u, pos)
}

// Rises through the counts from `count` to the length of `pos`: `step` looks for a set of as many positions as it is lent room for.
pub fn rise<F: Fn(&mut [u16]) -> bool>(count: usize, pos: &mut [u16], step: F) -> Option<usize>
    requires { F.IsAlwaysCallable step }
    ensures { Risen (Steps F.Fn step) count (length pos.old) result pos.new }
{
    for k in count..=pos.len() {
        if step(&mut pos[..k]) {
            return Some(k);
        }
    }
    None
}

// The first set that is met, of at most as many positions as `pos` has room for: its count, and its positions in front.
pub fn search_first(
    generator: u64,
    powers: Powers,
    syndrome: usize,
    pos: &mut [u16],
) -> Option<usize>
    requires { ReadyFor powers 0 syndrome × OddOnes generator powers.powers.now }
    ensures { FirstTold powers.entry syndrome (length pos.old) result pos.new }
{
    let step = |front: &mut [u16]| place_or_skip(generator, powers, syndrome, front);
    rise(0, pos, step)
}

// The first that is met after the one in front of `pos`, which need not be met itself.
pub fn search_next(
    generator: u64,
    powers: Powers,
    syndrome: usize,
    pos: &mut [u16],
    count: usize,
) -> Option<usize>
    requires { ReadyFor powers 0 syndrome × (count ≤ length pos.old) × Ascending (length powers.powers.now) 0 (take count pos.old) × OddOnes generator powers.powers.now }
    ensures { NextTold powers.entry syndrome (length pos.old) (take count pos.old) result pos.new }
{
    if resume_or_skip(generator, powers, syndrome, &mut pos[..count]) {
        return Some(count);
    }
    let step = |front: &mut [u16]| place_or_skip(generator, powers, syndrome, front);
    rise(count + 1, pos, step)
}
