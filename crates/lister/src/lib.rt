// The listing program's work: a line of input is judged, and what is to be printed is written turn by turn.
#![tactic(auto)]

ghost use Rattle.std.specs.Prelude.{◌≡◌, false, List, ℕ, ◌^◌, ◌<◌, ◌≤◌, length};
ghost use Rattle.base.specs.Answers.{outcome};
ghost use Rattle.base.specs.Judged.{judged};
ghost use Rattle.poly.specs.Polynomial.{degree};
ghost use Rattle.patterns.specs.Patterns.{point_of};
ghost use Rattle.lister.specs.declared.Due.TheVariants.{Listing};
ghost use Rattle.lister.specs.Printed.{unfit_listed, list_conditions, printed_for};
ghost use Rattle.lister.specs.Turns.{
  longest_line,
  WasRead,
  NotEnded,
  printed,
  text_due,
  Going,
  Sound,
  entries_for,
  most_entries,
  Tabled,
  HasRoom,
  Turned,
};

use base::Refusal;
use paging::Query;
use patterns::Mark;
use poly::Generator;
use tables::Tables;

// The greatest degree that is listed, and the entries of its tables.
pub const GREATEST_LISTED: u32 = 14;

pub const MOST_ENTRIES: usize = 1 << GREATEST_LISTED;

// What is due to be printed: a line, or what follows a mark of the list, after so many of its patterns.
#[derive(Clone, Copy)]
pub enum Due {
    Bad,
    Refused(Refusal),
    Listing(Query, Mark, u64),
}

// So many bytes of text; they are the last, or something else is due after them. Two cases, for the program asks which.
#[derive(Clone, Copy)]
pub enum Turn {
    Last(usize),
    More(usize, Due),
}

// Condition 1 of the program.
#[tactic(auto, unfolding(crate::specs::Printed::unfit_listed))]
fn unfit_listed(generator: u64) -> bool
    ensures { result ≡ unfit_listed generator }
{
    poly::unfit_generator(generator) || GREATEST_LISTED < Generator::of(generator).degree
}

// The conditions of the program, in their order.
fn judge_list(query: Query) -> Result<(), Refusal>
    ensures { outcome result ≡ judged (list_conditions query.generator query.bits query.limit query.syndrome) }
{
    if unfit_listed(query.generator) {
        return Err(Refusal::Generator);
    }
    let g = Generator::of(query.generator);
    if packet::unfit_bits(g, query.bits) {
        return Err(Refusal::Length);
    }
    if patterns::unfit_limit(query.limit) {
        return Err(Refusal::Limit);
    }
    if patterns::unfit_syndrome(g, query.syndrome) {
        return Err(Refusal::Syndrome);
    }
    Ok(())
}

// What the numbers of a line come to.
fn ask(query: Query) -> Due
    ensures text { text_due result ≡ printed_for query.generator query.bits query.limit query.syndrome }
    ensures sound { Sound result }
{
    match judge_list(query) {
        Err(r) => Due::Refused(r),
        Ok(()) => Due::Listing(query, Mark::Start, 0),
    }
}

// What the whole input comes to.
fn judge_input(input: &[u8]) -> Due
    ensures text { text_due result ≡ printed input.now }
    ensures sound { Sound result }
{
    let mut numbers = [0u64; 4];
    if !parsing::parse(input, &mut numbers) {
        return Due::Bad;
    }
    let [generator, bits, limit, syndrome] = numbers;
    ask(Query {
        generator,
        bits: bits as usize,
        limit: limit as usize,
        syndrome,
    })
}

// What an input comes to, by the first n bytes of a buffer into which it was read. A buffer with room for more than the longest
// line is enough, since a longer input is a bad line.
pub fn begin(buffer: &[u8], n: usize) -> Due
    requires { (longest_line < length buffer.now) × (n ≤ length buffer.now) }
    ensures text { (input : List ℕ) → WasRead buffer.now n input → text_due result ≡ printed input }
    ensures sound { Sound result }
{
    judge_input(&buffer[..n])
}

// The entries of a table of a generator that is listed.
fn table_size(generator: u64) -> usize
    requires { unfit_listed generator ≡ false }
    ensures size { result ≡ 2 ^ degree generator }
    ensures most { result ≤ most_entries }
{
    1 << Generator::of(generator).degree
}

// The entries of each of the tables that the work needs.
pub fn entries(due: Due) -> usize
    requires { Sound due }
    ensures size { result ≡ entries_for due }
    ensures most { result ≤ most_entries }
{
    match due {
        Due::Bad | Due::Refused(_) => 0,
        Due::Listing(query, _, _) => table_size(query.generator),
    }
}

// Builds the tables that the work needs.
pub fn build(due: Due, steps: &mut [u16], firsts: &mut [u16])
    requires { Sound due × (length steps.old ≡ entries_for due) × (length firsts.old ≡ entries_for due) }
    ensures { Tabled due steps.new firsts.new }
{
    if let Due::Listing(query, _, _) = due {
        // Nothing of it is unfit, so the answer says nothing new.
        let _ = tables::tables(query.generator, steps, firsts);
    }
}

// The next page of a list, as text.
fn page_turn(
    query: Query,
    mark: Mark,
    count: u64,
    tables: Tables,
    page: &mut [u8],
    text: &mut [u8],
) -> Turn
    requires { NotEnded (point_of mark) × Going query (point_of mark) count × Tabled (Listing query mark count) tables.steps.now tables.firsts.now × HasRoom page.old text.old }
    ensures { Turned (Listing query mark count) tables.entry.steps.now tables.entry.firsts.now text.new result }
{
    let Ok(p) = pages::page(query, tables, mark, page) else {
        // Nothing of it is unfit, so this is never said.
        return Turn::Last(0);
    };
    let total = count + p.written;
    let length = lines::page_text(&page[..p.used], text);
    Turn::More(length, Due::Listing(query, p.next, total))
}

// One turn of a list: a page of it, or the line that closes it.
fn list_turn(
    query: Query,
    mark: Mark,
    count: u64,
    tables: Tables,
    page: &mut [u8],
    text: &mut [u8],
) -> Turn
    requires { Going query (point_of mark) count × Tabled (Listing query mark count) tables.steps.now tables.firsts.now × HasRoom page.old text.old }
    ensures { Turned (Listing query mark count) tables.entry.steps.now tables.entry.firsts.now text.new result }
{
    match mark {
        Mark::Ended => Turn::Last(lines::end_line(count, text)),
        _ => page_turn(query, mark, count, tables, page, text),
    }
}

// Writes text that is due, from the start of `text` on.
pub fn write_next(due: Due, tables: Tables, page: &mut [u8], text: &mut [u8]) -> Turn
    requires { Sound due × Tabled due tables.steps.now tables.firsts.now × HasRoom page.old text.old }
    ensures { Turned due tables.entry.steps.now tables.entry.firsts.now text.new result }
{
    match due {
        Due::Bad => Turn::Last(lines::bad_line(text)),
        Due::Refused(r) => Turn::Last(lines::refused_line(r, text)),
        Due::Listing(query, mark, count) => { list_turn(query, mark, count, tables, page, text) }
    }
}
