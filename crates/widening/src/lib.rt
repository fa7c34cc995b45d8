// The sets of one count whose powers have a given sum, in the list's order: the first, and the first that follows a set. Sets of two
// positions or more go by their spans, the narrowest first. Contracts hold for any powers that the tables describe.
// What is found is left in `pos`, and a flag says whether anything is, as in placing.
#![tactic(auto)]

ghost use Rattle.std.specs.Prelude.{ℕ, ◌-◌, ◌≤◌, length};
ghost use Rattle.base.specs.Lists.{Ascending};
ghost use Rattle.placing.specs.Placing.{Describes, ReadyFor};
ghost use Rattle.widening.specs.Widening.{FirstFromSpan, FirstOfCount, NextOfCount, Spanless};

use placing::Powers;

// A span from `span` on, before which no set has one: of pairs the least that some pair has, and of larger sets `span` itself. Most spans
// have no pair, and to try each would be slow. So one pass finds the nearest partner of each position, and it ends early where that is
// at the distance `span` itself. Where none is left the answer is the length, a span that no set has.
fn next_span(powers: Powers, span: usize, u: usize, count: usize) -> usize
    requires { ReadyFor powers 0 u × (2 ≤ count) × (span ≤ length powers.powers.now) }
    ensures bounds { (span ≤ result) × (result ≤ length powers.entry.powers.now) }
    ensures none { (power : ℕ → ℕ) → Describes power powers.entry → Spanless power (length powers.entry.powers.now) (count - 2) u span result }
{
    if count != 2 {
        return span;
    }
    let l = powers.powers.len();
    let mut best = l;
    for a in 0..l - span {
        if let Some(b) = powers.nearest(a + span, u ^ (powers.powers[a] as usize)) {
            if b <= a + span {
                return span;
            }
            best = best.min(b - a);
        }
    }
    best
}

// The first set of two positions or more of the span `span` or a greater one.
fn from_span(powers: Powers, span: usize, u: usize, pos: &mut [u16]) -> bool
    requires { ReadyFor powers 0 u × (2 ≤ length pos.old) × (1 ≤ span) }
    ensures { FirstFromSpan powers.entry (length pos.old - 2) u span result pos.new }
{
    let mut d = span;
    // Spans that no set has are left out, so `d` is no counter.
    while d < powers.powers.len() {
        let e = next_span(powers, d, u, pos.len());
        if spans::of_span(powers, e, 0, u, pos) {
            return true;
        }
        d = e + 1;
    }
    false
}

// Goes on from two positions or more: between the same ends, then past the smallest with the same span, then with greater spans.
fn beyond(powers: Powers, u: usize, pos: &mut [u16]) -> bool
    requires { ReadyFor powers 0 u × (2 ≤ length pos.old) × Ascending (length powers.powers.now) 0 pos.old }
    ensures { NextOfCount powers.entry u pos.old result pos.new }
{
    let a = pos[0] as usize;
    let b = pos[pos.len() - 1] as usize;
    spans::between(powers, u, pos)
        || spans::of_span(powers, b - a, a + 1, u, pos)
        || from_span(powers, b - a + 1, u, pos)
}

// The first set of as many positions as `pos` has room for.
#[tactic(auto, using(crate::proofs::WidenLaws::all_spans, crate::proofs::FewLaws::few_finds))]
pub fn first_of_count(powers: Powers, u: usize, pos: &mut [u16]) -> bool
    requires { ReadyFor powers 0 u }
    ensures { FirstOfCount powers.entry (length pos.old) u result pos.new }
{
    if 1 < pos.len() {
        return from_span(powers, 1, u, pos);
    }
    powers.place(0, u, pos)
}

// The first set of as many positions that follows the one in `pos`, which need not have the sum `u`.
#[tactic(auto, using(crate::proofs::FewLaws::few_after))]
pub fn next_of_count(powers: Powers, u: usize, pos: &mut [u16]) -> bool
    requires { ReadyFor powers 0 u × Ascending (length powers.powers.now) 0 pos.old }
    ensures { NextOfCount powers.entry u pos.old result pos.new }
{
    if pos.len() < 2 {
        return powers.resume(u, pos);
    }
    beyond(powers, u, pos)
}
