// The verification of tables that are lent.
#![tactic(auto)]

ghost use Rattle.std.specs.Prelude.{◌≡◌, ◌/◌, ◌↔◌, IsTrue};
ghost use Rattle.tables.specs.Tables.{step_table, first_table, same, right_tables};
ghost use Rattle.tables.specs.Lent.{Lent};
ghost use Rattle.verifying.specs.Rule.{later, EvenRuled, OddRuled};

use poly::Generator;
use tables::{ABSENT, Tables};

// Whether every step is right. Mismatches are gathered, so that no entry waits for another.
fn right_steps(g: Generator, steps: &[u16]) -> bool
    requires { Lent g steps.now }
    ensures { result ≡ same steps.now (step_table g.degree g.coefficients) }
{
    let half = (g.coefficients / 2) as u16;
    let mut wrong = 0;
    for (k, pair) in steps.chunks_exact(2).enumerate() {
        let t = k as u16;
        wrong |= (pair[0] ^ t) | (pair[1] ^ (t ^ half));
    }
    wrong == 0
}

// One position later, and absent if absent, without a branch.
fn later(p: u16) -> u16
    ensures { result ≡ later p }
{
    p + (1 - p / ABSENT)
}

// Whether each entry at an even place is one position after the entry at its half. By index: a zip of halves and pairs takes
// seven times as long, since it is not done several entries at once.
fn right_evens(firsts: &[u16]) -> bool
    ensures { IsTrue result ↔ EvenRuled firsts.now }
{
    let mut wrong = 0;
    for k in 0..firsts.len() / 2 {
        wrong |= firsts[k * 2] ^ later(firsts[k]);
    }
    wrong == 0
}

// The same for the odd places above 1, whose step is their half plus that of the generator. By index too: the other entry
// stands at `k ^ half`, and chunks were no faster.
fn right_odds(g: Generator, firsts: &[u16]) -> bool
    requires { Lent g firsts.now }
    ensures { IsTrue result ↔ OddRuled (g.coefficients / 2) firsts.now }
{
    let half = (g.coefficients / 2) as usize;
    let mut wrong = 0;
    for k in 1..firsts.len() / 2 {
        wrong |= firsts[k * 2 + 1] ^ later(firsts[k ^ half]);
    }
    wrong == 0
}

// Whether every first position is right: each is one after that at its step, and that of 1 is 0.
fn right_firsts(g: Generator, firsts: &[u16]) -> bool
    requires { Lent g firsts.now }
    ensures { result ≡ same firsts.now (first_table g.degree g.coefficients) }
{
    if firsts[1] != 0 {
        return false;
    }
    right_evens(firsts) && right_odds(g, firsts)
}

// Whether both tables are right, whatever they hold: the test of condition 6.
#[tactic(auto, unfolding(tables::specs::Tables::right_tables))]
pub fn verify(g: Generator, tables: Tables) -> bool
    requires { Lent g tables.steps.now × Lent g tables.firsts.now }
    ensures { result ≡ right_tables g.degree g.coefficients tables.entry.steps.now tables.entry.firsts.now }
{
    right_steps(g, tables.steps) && right_firsts(g, tables.firsts)
}
