// Marks and verdicts as bytes, as the C functions take and write them.
#![tactic(auto)]

ghost use Rattle.std.specs.Prelude.{◌≡◌, [], ◌∷◌, ◌≤◌, length, drop};
ghost use Rattle.patterns.specs.Patterns.{most_positions, positions, point_of};
ghost use Rattle.records.specs.Records.{record_of, longest_record, positions_in};
ghost use Rattle.verdicts.specs.Verdicts.{said};
ghost use Rattle.codec.specs.Marks.{point_of_bytes, malformed, padded, mark_bytes};
ghost use Rattle.codec.specs.Verdicts.{verdict_length, laid, verdict_bytes, publish_code};

use patterns::{MOST_POSITIONS, Mark, Pattern, Positions};
use records::LONGEST_RECORD;
use verdicts::Verdict;

// A mark's bytes: how many, and the first of them where it has no pattern.
const MARK_BYTES: usize = LONGEST_RECORD;

const START: u8 = 0xFE;

const ENDED: u8 = 0xFF;

// A verdict's bytes: how many, and the first of them.
pub const VERDICT_BYTES: usize = 9 + LONGEST_RECORD;

const INTACT: u8 = 0;

const REPAIRED: u8 = 1;

const SEVERAL: u8 = 2;

const NONE: u8 = 3;

// What to publish from: numbers of the C interface, as the kinds above are its bytes, so an enum would only name them twice.
const RECEIVED: u32 = 0;

const COPY: u32 = 1;

const NOTHING: u32 = 2;

// A mark that no length and no limit makes fit: what bytes that are no mark are taken for. It is a mark and not an absent one,
// since a page refuses it by condition 7, in its place among the conditions.
fn no_mark() -> Mark
    ensures { point_of result ≡ malformed }
{
    Mark::After(Pattern::Two(0, 0))
}

// The pattern whose record stands in a mark's bytes.
fn read_pattern(bytes: &[u8], count: u8) -> Pattern
    requires { (length bytes.now ≡ longest_record) × (count ≤ most_positions) }
    ensures { positions result ≡ positions_in count (drop 1 bytes.now) }
{
    let mut held = [0u16; MOST_POSITIONS];
    let pos = &mut held[..usize::from(count)];
    records::get_positions(&bytes[1..], pos);
    patterns::from_positions(pos)
}

#[tactic(auto, using(base::proofs::Cases::tests), unfolding(crate::specs::Marks::point_of_bytes))]
pub fn read_mark(bytes: &[u8]) -> Mark
    ensures { point_of result ≡ point_of_bytes bytes.now }
{
    if bytes.len() != MARK_BYTES {
        return no_mark();
    }
    match bytes[0] {
        START => Mark::Start,
        ENDED => Mark::Ended,
        count if usize::from(count) <= MOST_POSITIONS => Mark::After(read_pattern(bytes, count)),
        _ => no_mark(),
    }
}

// The record of a pattern, with zeros behind it.
fn put_pattern(p: Pattern, bytes: &mut [u8])
    requires { length bytes.old ≡ longest_record }
    ensures { bytes.new ≡ padded (record_of (positions p)) }
{
    bytes.fill(0);
    records::put_record(Positions::of(p).as_slice(), bytes, 0);
}

// A mark of one byte.
fn put_kind(kind: u8, bytes: &mut [u8])
    requires { length bytes.old ≡ longest_record }
    ensures { bytes.new ≡ padded (kind ∷ []) }
{
    bytes.fill(0);
    bytes[0] = kind;
}

#[tactic(auto, unfolding(crate::specs::Marks::mark_bytes))]
pub fn put_mark(m: Mark, bytes: &mut [u8])
    requires { length bytes.old ≡ longest_record }
    ensures { bytes.new ≡ mark_bytes (point_of m) }
{
    match m {
        Mark::Start => put_kind(START, bytes),
        Mark::Ended => put_kind(ENDED, bytes),
        Mark::After(p) => put_pattern(p, bytes),
    }
}

// A verdict's kind, the number of patterns that pass, and the record of one.
fn put_parts(kind: u8, count: u64, p: Pattern, bytes: &mut [u8])
    requires { length bytes.old ≡ verdict_length }
    ensures { bytes.new ≡ laid kind count (positions p) }
{
    bytes[0] = kind;
    bytes[1..9].copy_from_slice(&count.to_be_bytes());
    put_pattern(p, &mut bytes[9..]);
}

#[tactic(auto, unfolding(crate::specs::Verdicts::verdict_bytes))]
pub fn put_verdict(v: Verdict, bytes: &mut [u8])
    requires { length bytes.old ≡ verdict_length }
    ensures { bytes.new ≡ verdict_bytes (said v) }
{
    match v {
        Verdict::Intact => put_parts(INTACT, 0, Pattern::Empty, bytes),
        Verdict::Repaired(p) => put_parts(REPAIRED, 1, p, bytes),
        Verdict::Several(k, p) => put_parts(SEVERAL, k, p, bytes),
        Verdict::None => put_parts(NONE, 0, Pattern::Empty, bytes),
    }
}

// What to publish from, by a verdict's bytes.
#[tactic(auto, using(base::proofs::Cases::tests), unfolding(crate::specs::Verdicts::publish_code))]
pub fn publish_code(verdict: &[u8]) -> u32
    ensures { result ≡ publish_code verdict.now }
{
    if verdict.len() != VERDICT_BYTES {
        return NOTHING;
    }
    match verdict[0] {
        INTACT => RECEIVED,
        REPAIRED => COPY,
        _ => NOTHING,
    }
}
