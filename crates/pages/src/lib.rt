// The page call: its conditions, and the page behind them.
#![tactic(auto)]

ghost use Rattle.std.specs.Prelude.{◌≡◌};
ghost use Rattle.base.specs.Answers.{answered, outcome};
ghost use Rattle.base.specs.Judged.{judged};
ghost use Rattle.patterns.specs.Patterns.{point_of};
ghost use Rattle.pages.specs.Conditions.{page_request_by, unfit_output, page_conditions};
ghost use Rattle.paging.specs.Results.{page_result};
ghost use Rattle.pages.specs.Calls.{page_call, page_left};

use base::Refusal;
use paging::{PageResult, Query};
use patterns::Mark;
use poly::Generator;
use records::LONGEST_RECORD;
use tables::Tables;

// Condition 8 of a page.
#[tactic(auto, unfolding(crate::specs::Conditions::unfit_output))]
fn unfit_output(room: usize) -> bool
    ensures { result ≡ unfit_output room }
{
    room < LONGEST_RECORD
}

// The conditions of a page, in their order.
#[tactic(auto, using(tables::proofs::TableLaws::not_wrong))]
fn judge_page(query: Query, tables: Tables, mark: Mark, output: &[u8]) -> Result<(), Refusal>
    ensures { outcome result ≡ judged (page_conditions (page_request_by query tables.entry output.now) (point_of mark)) }
{
    let g = Generator::new(query.generator)?;
    if packet::unfit_bits(g, query.bits) {
        return Err(Refusal::Length);
    }
    if patterns::unfit_limit(query.limit) {
        return Err(Refusal::Limit);
    }
    if patterns::unfit_syndrome(g, query.syndrome) {
        return Err(Refusal::Syndrome);
    }
    if tables::unfit_tables(g, tables.steps.len(), tables.firsts.len()) {
        return Err(Refusal::TableLength);
    }
    if !verifying::verify(g, tables) {
        return Err(Refusal::TableEntry);
    }
    if patterns::unfit_mark(mark, query.bits, query.limit) {
        return Err(Refusal::Mark);
    }
    if unfit_output(output.len()) {
        return Err(Refusal::Output);
    }
    Ok(())
}

// One page of the list: the records of the listed patterns that follow the mark, as many as fit.
pub fn page(
    query: Query,
    tables: Tables,
    mark: Mark,
    output: &mut [u8],
) -> Result<PageResult, Refusal>
    ensures answer { answered page_result result ≡ page_call (page_request_by query tables.entry output.old) (point_of mark) }
    ensures bytes { output.new ≡ page_left (page_request_by query tables.entry output.old) (point_of mark) }
{
    judge_page(query, tables, mark, output)?;
    Ok(paging::list_page(query, tables, mark, output))
}
