// Error patterns, marks, and a pattern as a slice of its positions.
#![tactic(auto)]

ghost use Rattle.std.specs.Prelude.{◌≡◌, ℕ, List, ◌++◌, ◌≤◌, length, take, drop};
ghost use Rattle.poly.specs.Fit.{Fit};
ghost use Rattle.patterns.specs.Patterns.{most_positions, positions, point_of};
ghost use Rattle.patterns.specs.Order.{span, lower, before};
ghost use Rattle.patterns.specs.Listing.{ascending, unfit_limit, unfit_syndrome};
ghost use Rattle.patterns.specs.Marks.{unfit_pattern, unfit_mark};
ghost use Rattle.patterns.specs.Slices.{spread_out};

use poly::Generator;
use std::marker::Model;

// The most positions of a pattern.
pub const MOST_POSITIONS: usize = 4;

// A set of positions, by their count, in ascending order.
#[derive(Clone, Copy)]
pub enum Pattern {
    Empty,
    One(u16),
    Two(u16, u16),
    Three(u16, u16, u16),
    Four(u16, u16, u16, u16),
}

// Where a page takes up the list.
#[derive(Clone, Copy)]
pub enum Mark {
    Start,
    Ended,
    After(Pattern),
}

// The pattern of a slice's first positions, as many as a pattern holds.
pub fn from_positions(pos: &[u16]) -> Pattern
    ensures { positions result ≡ take most_positions pos.now }
{
    match pos {
        [] => Pattern::Empty,
        [a] => Pattern::One(*a),
        [a, b] => Pattern::Two(*a, *b),
        [a, b, c] => Pattern::Three(*a, *b, *c),
        [a, b, c, d, ..] => Pattern::Four(*a, *b, *c, *d),
    }
}

pub fn count_of(p: Pattern) -> usize
    ensures { result ≡ length (positions p) }
{
    match p {
        Pattern::Empty => 0,
        Pattern::One(_) => 1,
        Pattern::Two(_, _) => 2,
        Pattern::Three(_, _, _) => 3,
        Pattern::Four(_, _, _, _) => 4,
    }
}

// Its positions in an array, with zeros behind them.
pub fn spread(p: Pattern) -> [u16; MOST_POSITIONS]
    ensures { result ≡ spread_out (positions p) }
{
    match p {
        Pattern::Empty => [0, 0, 0, 0],
        Pattern::One(a) => [a, 0, 0, 0],
        Pattern::Two(a, b) => [a, b, 0, 0],
        Pattern::Three(a, b, c) => [a, b, c, 0],
        Pattern::Four(a, b, c, d) => [a, b, c, d],
    }
}

// A pattern's positions, to be lent as a slice.
#[derive(Drop)]
pub struct Positions {
    held: [u16; MOST_POSITIONS],
    count: usize,
}

// A contract sees them as a list.
impl Model for Positions {
    ghost Value = { List ℕ };

    ghost view = { λ s. take s.count s.held };

    ghost invariant = { λ s. s.count ≤ most_positions };
}

impl Positions {
    pub fn of(p: Pattern) -> Positions
        ensures { result ≡ positions p }
    {
        Positions {
            held: spread(p),
            count: count_of(p),
        }
    }

    pub fn as_slice(&self) -> &[u16]
        ensures { result.now ≡ self.now }
    {
        &self.held[..self.count]
    }
}

// Its positions, into the front of a slice; the answer is how many they are.
pub fn put_positions(p: Pattern, pos: &mut [u16]) -> usize
    requires { length (positions p) ≤ length pos.old }
    ensures placed { pos.new ≡ positions p ++ drop (length (positions p)) pos.old }
    ensures count { result ≡ length (positions p) }
{
    let held = Positions::of(p);
    let all = held.as_slice();
    pos[..all.len()].copy_from_slice(all);
    all.len()
}

// The largest of ascending positions minus the smallest, and 0 for one or none. Nothing asks that they ascend.
#[tactic(auto, using(crate::proofs::CompareLaws::span_few, crate::proofs::CompareLaws::span_ends))]
fn span_of(pos: &[u16]) -> u16
    ensures { result ≡ span pos.now }
{
    match pos {
        [low, .., high] => high.saturating_sub(*low),
        _ => 0,
    }
}

// Do the positions `p` come before `q` in the order of the list?
fn in_order(p: &[u16], q: &[u16]) -> bool
    ensures { result ≡ before p.now q.now }
{
    (p.len(), span_of(p), p) < (q.len(), span_of(q), q)
}

// The same of positions and a pattern.
pub fn is_before(pos: &[u16], p: Pattern) -> bool
    ensures { result ≡ before pos.now (positions p) }
{
    let held = Positions::of(p);
    in_order(pos, held.as_slice())
}

// Condition 3.
#[tactic(auto, unfolding(crate::specs::Listing::unfit_limit))]
pub fn unfit_limit(limit: usize) -> bool
    ensures { result ≡ unfit_limit limit }
{
    limit == 0 || MOST_POSITIONS < limit
}

// Condition 4.
#[tactic(auto, using(poly::proofs::GeneratorLaws::shift_one), unfolding(crate::specs::Listing::unfit_syndrome))]
pub fn unfit_syndrome(g: Generator, syndrome: u64) -> bool
    requires { Fit g }
    ensures { result ≡ unfit_syndrome g.degree syndrome }
{
    1u64 << g.degree <= syndrome
}

// Are these strictly ascending positions below l?
#[tactic(auto, using(crate::proofs::PositionLaws::ascending_below, crate::proofs::PositionLaws::ascending_beyond, crate::proofs::PositionLaws::ascending_step, crate::proofs::PositionLaws::ascending_end))]
fn ascends(pos: &[u16], l: usize) -> bool
    ensures { result ≡ ascending l 0 pos.now }
{
    let mut from: usize = 0;
    for x in pos {
        let p = *x as usize;
        if p < from || l <= p {
            return false;
        }
        from = p + 1;
    }
    true
}

#[tactic(auto, using(crate::proofs::MarkLaws::many_unfit, crate::proofs::MarkLaws::few_unfit))]
fn unfit_pattern(p: Pattern, l: usize, limit: usize) -> bool
    ensures { result ≡ unfit_pattern l limit (positions p) }
{
    let held = Positions::of(p);
    let all = held.as_slice();
    limit < all.len() || !ascends(all, l)
}

// Condition 7, for packets of l bits and patterns of at most so many positions.
pub fn unfit_mark(m: Mark, l: usize, limit: usize) -> bool
    ensures { result ≡ unfit_mark l limit (point_of m) }
{
    match m {
        Mark::Start | Mark::Ended => false,
        Mark::After(p) => unfit_pattern(p, l, limit),
    }
}
