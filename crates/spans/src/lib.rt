// Sets of two positions or more whose powers have a given sum, by their ends: the first of one span, and the first that follows a set
// between the same ends. The ends are gone through, and the positions between them are placed. Contracts hold for any powers that
// the tables describe. What is found is left in `pos`, and a flag says whether anything is, as in placing.
#![tactic(auto)]

ghost use Rattle.std.specs.Prelude.{◌≡◌, ◌-◌, ◌<◌, ◌≤◌, length};
ghost use Rattle.base.specs.Lists.{Ascending};
ghost use Rattle.placing.specs.Placing.{ReadyFor};
ghost use Rattle.spans.specs.Spans.{FirstOfSpan, Left, NextBetween};

use placing::Powers;

// What is left of the sum `u` without the powers at `a` and `b`.
fn left(powers: Powers, u: usize, a: usize, b: usize) -> usize
    requires { ReadyFor powers 0 u × (a < length powers.powers.now) × (b < length powers.powers.now) }
    ensures { Left powers.entry u a b result }
{
    u ^ (powers.powers[a] ^ powers.powers[b]) as usize
}

// Two positions of one span, the smallest from `from` on.
fn two_of_span(powers: Powers, span: usize, from: usize, u: usize, pos: &mut [u16]) -> bool
    requires { ReadyFor powers 0 u × (length pos.old ≡ 2) × (1 ≤ span) × (span ≤ length powers.powers.now) × (from ≤ length powers.powers.now) }
    ensures { FirstOfSpan powers.entry 0 u span from result pos.new }
{
    for a in from..powers.powers.len() - span {
        let b = a + span;
        if left(powers, u, a, b) == 0 {
            pos[0] = a as u16;
            pos[1] = b as u16;
            return true;
        }
    }
    false
}

// Three positions of one span: the one between the ends is looked up, in this loop, for a list at limit 3 spends its time here.
fn three_of_span(powers: Powers, span: usize, from: usize, u: usize, pos: &mut [u16]) -> bool
    requires { ReadyFor powers 0 u × (length pos.old ≡ 3) × (1 ≤ span) × (span ≤ length powers.powers.now) × (from ≤ length powers.powers.now) }
    ensures { FirstOfSpan powers.entry 1 u span from result pos.new }
{
    for b in from + span..powers.powers.len() {
        let a = b - span;
        let v = left(powers, u, a, b);
        if let Some(c) = powers.seldom_below(a + 1, b, v) {
            pos[0] = a as u16;
            pos[1] = c as u16;
            pos[2] = b as u16;
            return true;
        }
    }
    false
}

// Positions of one span, as many as `pos` has room for: those between the ends are placed.
fn more_of_span(powers: Powers, span: usize, from: usize, u: usize, pos: &mut [u16]) -> bool
    requires { ReadyFor powers 0 u × (2 ≤ length pos.old) × (1 ≤ span) × (span ≤ length powers.powers.now) × (from ≤ length powers.powers.now) }
    ensures { FirstOfSpan powers.entry (length pos.old - 2) u span from result pos.new }
{
    let n = pos.len();
    for a in from..powers.powers.len() - span {
        let b = a + span;
        let v = left(powers, u, a, b);
        if powers.below(b).place(a + 1, v, &mut pos[1..n - 1]) {
            pos[0] = a as u16;
            pos[n - 1] = b as u16;
            return true;
        }
    }
    false
}

// The first set of one span, its smallest position from `from` on, of as many positions as `pos` has room for.
pub fn of_span(powers: Powers, span: usize, from: usize, u: usize, pos: &mut [u16]) -> bool
    requires { ReadyFor powers 0 u × (2 ≤ length pos.old) × (1 ≤ span) × (span ≤ length powers.powers.now) × (from ≤ length powers.powers.now) }
    ensures { FirstOfSpan powers.entry (length pos.old - 2) u span from result pos.new }
{
    match pos.len() {
        2 => two_of_span(powers, span, from, u, pos),
        3 => three_of_span(powers, span, from, u, pos),
        _ => more_of_span(powers, span, from, u, pos),
    }
}

// Goes on from three positions, the ends kept: the one between them is looked up. It is `more_between` for three, and spelt out since
// a page does it for each record.
fn one_between(powers: Powers, u: usize, pos: &mut [u16]) -> bool
    requires { ReadyFor powers 0 u × (length pos.old ≡ 3) × Ascending (length powers.powers.now) 0 pos.old }
    ensures { NextBetween powers.entry 1 u pos.old result pos.new }
{
    let a = pos[0] as usize;
    let m = pos[1] as usize;
    let b = pos[2] as usize;
    let v = left(powers, u, a, b);
    if let Some(c) = powers.nearest_below(m + 1, b, v) {
        pos[1] = c as u16;
        return true;
    }
    false
}

// Goes on from two positions or more, the ends kept.
fn more_between(powers: Powers, u: usize, pos: &mut [u16]) -> bool
    requires { ReadyFor powers 0 u × (2 ≤ length pos.old) × Ascending (length powers.powers.now) 0 pos.old }
    ensures { NextBetween powers.entry (length pos.old - 2) u pos.old result pos.new }
{
    let n = pos.len();
    let a = pos[0] as usize;
    let b = pos[n - 1] as usize;
    let v = left(powers, u, a, b);
    powers.below(b).resume(v, &mut pos[1..n - 1])
}

// The first set with the same ends that follows the one in `pos`, which need not have the sum `u`.
pub fn between(powers: Powers, u: usize, pos: &mut [u16]) -> bool
    requires { ReadyFor powers 0 u × (2 ≤ length pos.old) × Ascending (length powers.powers.now) 0 pos.old }
    ensures { NextBetween powers.entry (length pos.old - 2) u pos.old result pos.new }
{
    if pos.len() == 3 {
        return one_between(powers, u, pos);
    }
    more_between(powers, u, pos)
}
