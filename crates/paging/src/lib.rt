// What a page does behind its conditions: the records of the listed patterns that follow a mark, as many as fit.
#![tactic(auto)]

ghost use Rattle.std.specs.Prelude.{◌≡◌, ◌≤◌, length};
ghost use Rattle.patterns.specs.Patterns.{most_positions, point_of};
ghost use Rattle.patterns.specs.Order.{before};
ghost use Rattle.patterns.specs.Marks.{remaining};
ghost use Rattle.records.specs.Pages.{page_of, page_bytes};
ghost use Rattle.cursor.specs.Cursors.{Prepared, FoundFits, ahead_of};
ghost use Rattle.listing.specs.Listings.{Marked, listed_by};
ghost use Rattle.paging.specs.Queries.{Listable, list_of};
ghost use Rattle.paging.specs.Results.{page_result};

use cursor::Cursor;
use packet::MOST_BITS;
use patterns::{MOST_POSITIONS, Mark, Pattern};
use poly::Generator;
use tables::Tables;

// What a list is asked for by.
#[derive(Clone, Copy)]
pub struct Query {
    pub generator: u64,
    pub bits: usize,
    pub limit: usize,
    pub syndrome: u64,
}

#[derive(Clone, Copy)]
pub struct PageResult {
    pub used: usize,
    pub written: u64,
    pub next: Mark,
}

// Writes the records from the pattern found on, as many as fit.
fn fill(cursor: Cursor, found: Option<usize>, pos: &mut [u16], output: &mut [u8]) -> PageResult
    requires { Prepared cursor × FoundFits (length cursor.powers.powers.now) found pos.old × (length pos.old ≤ most_positions) }
    ensures page { page_result result ≡ page_of (ahead_of before (listed_by cursor.entry (length pos.old)) found pos.old) (length output.old) }
    ensures bytes { output.new ≡ page_bytes (ahead_of before (listed_by cursor.entry (length pos.old)) found pos.old) output.old }
{
    let mut ahead = found;
    let mut last = Pattern::Empty;
    let mut used: usize = 0;
    let mut written: u64 = 0;
    while let Some(k) = ahead {
        if output.len() - used < 1 + 2 * k {
            return PageResult {
                used,
                written,
                next: Mark::After(last),
            };
        }
        last = patterns::from_positions(&pos[..k]);
        used = records::put_record(&pos[..k], output, used);
        written += 1;
        ahead = listing::advance(cursor, pos, k);
    }
    PageResult {
        used,
        written,
        next: Mark::Ended,
    }
}

// The page after a mark, by a cursor that is prepared: `pos` has room for as many positions as the limit.
fn page_by(cursor: Cursor, mark: Mark, pos: &mut [u16], output: &mut [u8]) -> PageResult
    requires { Prepared cursor × Marked (length cursor.powers.powers.now) (length pos.old) (point_of mark) × (length pos.old ≤ most_positions) }
    ensures page { page_result result ≡ page_of (remaining (listed_by cursor.entry (length pos.old)) (point_of mark)) (length output.old) }
    ensures bytes { output.new ≡ page_bytes (remaining (listed_by cursor.entry (length pos.old)) (point_of mark)) output.old }
{
    let found = listing::begin(cursor, mark, pos);
    fill(cursor, found, pos, output)
}

// The same by tables that are right: `room` is for a power at each bit.
fn page_in(
    query: Query,
    tables: Tables,
    mark: Mark,
    room: &mut [u32],
    output: &mut [u8],
) -> PageResult
    requires { Listable query tables (point_of mark) × (query.bits ≤ length room.old) }
    ensures page { page_result result ≡ page_of (remaining (list_of query) (point_of mark)) (length output.old) }
    ensures bytes { output.new ≡ page_bytes (remaining (list_of query) (point_of mark)) output.old }
{
    let generator = Generator::of(query.generator);
    let cursor = Cursor {
        generator,
        powers: cursor::prepare(generator, query.bits, tables, room),
        syndrome: query.syndrome,
    };
    let mut pos = [0u16; MOST_POSITIONS];
    page_by(cursor, mark, &mut pos[..query.limit], output)
}

// The same with room for the powers.
pub fn list_page(query: Query, tables: Tables, mark: Mark, output: &mut [u8]) -> PageResult
    requires { Listable query tables (point_of mark) }
    ensures page { page_result result ≡ page_of (remaining (list_of query) (point_of mark)) (length output.old) }
    ensures bytes { output.new ≡ page_bytes (remaining (list_of query) (point_of mark)) output.old }
{
    let mut room = [0u32; MOST_BITS];
    page_in(query, tables, mark, &mut room, output)
}
