// The two tables of a generator and its period.
#![tactic(auto)]

ghost use Rattle.std.specs.Prelude.{◌≡◌, ◌^◌, replicate};
ghost use Rattle.base.specs.Answers.{outcome};
ghost use Rattle.base.specs.Judged.{judged};
ghost use Rattle.poly.specs.Fit.{Fit};
ghost use Rattle.tables.specs.Tables.{period, step_table, first_table, unfit_tables};
ghost use Rattle.tables.specs.Lent.{Lent};
ghost use Rattle.tables.specs.Calls.{
  tables_conditions,
  tables_call,
  steps_after,
  firsts_after,
};

mod lent;

use base::Refusal;
pub use lent::Tables;
use poly::Generator;

// The entry of a remainder that no power of x leaves: a number, since callers keep the tables as numbers.
pub const ABSENT: u16 = 65535;

fn fill_steps(g: Generator, steps: &mut [u16])
    requires { Lent g steps.old }
    ensures { steps.new ≡ step_table g.degree g.coefficients }
{
    for (s, step) in steps.iter_mut().enumerate() {
        *step = poly::back(g, s as u64) as u16;
    }
}

// Walks the powers of x until remainder 1 returns, and yields the period.
fn walk(g: Generator, firsts: &mut [u16]) -> u64
    requires { Lent g firsts.old × (firsts.old ≡ replicate (2 ^ g.degree) 65535) }
    ensures value { result ≡ period g.degree g.coefficients }
    ensures firsts_after { firsts.new ≡ first_table g.degree g.coefficients }
{
    let mut t: u64 = 1;
    let mut p: u64 = 0;
    // A `for` would name an end that is never reached: it is remainder 1 that ends the walk.
    loop {
        firsts[t as usize] = p as u16;
        t = poly::times_x(g, t);
        p += 1;
        if t == 1 {
            break p;
        }
    }
}

// Condition 5, by the numbers of entries.
#[tactic(auto, using(poly::proofs::GeneratorLaws::shift_one), unfolding(crate::specs::Tables::unfit_tables))]
pub fn unfit_tables(g: Generator, steps: usize, firsts: usize) -> bool
    requires { Fit g }
    ensures { result ≡ unfit_tables g.degree steps firsts }
{
    let size = 1usize << g.degree;
    steps != size || firsts != size
}

// The period, in two look-ups, of tables that are right.
pub fn period_of(g: Generator, tables: Tables) -> u64
    requires lent { Lent g tables.steps.now }
    requires right { (tables.steps.now ≡ step_table g.degree g.coefficients)
        × (tables.firsts.now ≡ first_table g.degree g.coefficients) }
    ensures { result ≡ period g.degree g.coefficients }
{
    let t = tables.steps[1] as usize;
    tables.firsts[t] as u64 + 1
}

// Fills both tables, and yields the period. They are two slices here, since `Tables` only lends them to read.
fn build(g: Generator, steps: &mut [u16], firsts: &mut [u16]) -> u64
    requires { Lent g steps.old × Lent g firsts.old }
    ensures value { result ≡ period g.degree g.coefficients }
    ensures steps_after { steps.new ≡ step_table g.degree g.coefficients }
    ensures firsts_after { firsts.new ≡ first_table g.degree g.coefficients }
{
    fill_steps(g, steps);
    firsts.fill(ABSENT);
    walk(g, firsts)
}

// The conditions of the call, in their order, for tables of this many entries.
fn judge_tables(generator: u64, steps: usize, firsts: usize) -> Result<(), Refusal>
    ensures { outcome result ≡ judged (tables_conditions generator steps firsts) }
{
    let g = Generator::new(generator)?;
    if unfit_tables(g, steps, firsts) {
        return Err(Refusal::TableLength);
    }
    Ok(())
}

// Builds both tables and answers the period.
pub fn tables(generator: u64, steps: &mut [u16], firsts: &mut [u16]) -> Result<u64, Refusal>
    ensures answer { outcome result ≡ tables_call generator steps.old firsts.old }
    ensures steps { steps.new ≡ steps_after generator steps.old firsts.old }
    ensures firsts { firsts.new ≡ firsts_after generator steps.old firsts.old }
{
    judge_tables(generator, steps.len(), firsts.len())?;
    Ok(build(Generator::of(generator), steps, firsts))
}
