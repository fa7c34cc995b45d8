// Text that the programs write: lines of patterns and refusals.
#![tactic(auto)]

ghost use Rattle.std.specs.Prelude.{◌≡◌, [], ◌∷◌, ◌++◌, ◌+◌, ◌*◌, ◌/◌, ◌<◌, ◌≤◌, length, slice_index};
ghost use Rattle.base.specs.Refusals.{number};
ghost use Rattle.records.specs.Records.{positions_in, patterns_in};
ghost use Rattle.lines.specs.Decimal.{decimal};
ghost use Rattle.lines.specs.Text.{spaced, line_of, text_of, end_line, refused_line, bad_line};
ghost use Rattle.lines.specs.Writing.{Stored, Front, line_room};

use base::Refusal;

// Writes a text from `to` on, and answers the place after it.
fn text_at(text: &[u8], out: &mut [u8], to: usize) -> usize
    requires { to + length text.now ≤ length out.old }
    ensures { Stored out.old to text.now result out.new }
{
    let end = to + text.len();
    out[to..end].copy_from_slice(text);
    end
}

// Writes v in decimal from `to` on, and answers the place after it. It is written digit by digit, since std formats to a handle or into
// a heap, and no other library is trusted.
fn decimal_at(v: u64, out: &mut [u8], to: usize) -> usize
    requires { to + length (decimal v) ≤ length out.old }
    ensures { Stored out.old to (decimal v) result out.new }
{
    if v < 10 {
        out[to] = b'0' + v as u8;
        return to + 1;
    }
    let last = decimal_at(v / 10, out, to);
    out[last] = b'0' + (v % 10) as u8;
    last + 1
}

// The position that two bytes give.
fn position_of(pair: &[u8]) -> u16
    requires { length pair.now ≡ 2 }
    ensures { result ≡ slice_index pair.now 0 * 256 + slice_index pair.now 1 }
{
    u16::from_be_bytes([pair[0], pair[1]])
}

// Writes positions of two bytes, each with a blank before it.
fn positions_at(bytes: &[u8], out: &mut [u8], to: usize) -> usize
    requires { to + 3 * length bytes.now ≤ length out.old }
    ensures text { Stored out.old to (spaced (positions_in (length bytes.now / 2) bytes.now)) result out.new }
    ensures short { result ≤ to + 3 * length bytes.now }
{
    let mut next = to;
    for pair in bytes.chunks_exact(2) {
        out[next] = b' ';
        next = decimal_at(u64::from(position_of(pair)), out, next + 1);
    }
    next
}

// Writes the line of the pattern with these `count` positions.
#[tactic(auto, using(crate::proofs::DecimalLaws::digits_u8))]
fn line_at(count: u8, positions: &[u8], out: &mut [u8], to: usize) -> usize
    requires { (length positions.now ≡ 2 * count) × (to + (4 + 6 * count) ≤ length out.old) }
    ensures text { Stored out.old to (line_of (positions_in count positions.now)) result out.new }
    ensures short { result ≤ to + (4 + 6 * count) }
{
    let middle = decimal_at(u64::from(count), out, to);
    let end = positions_at(positions, out, middle);
    text_at(b"\n", out, end)
}

// The records of a page as lines of text, up to the first record that is not whole; the answer is the text's length.
pub fn page_text(page: &[u8], out: &mut [u8]) -> usize
    requires { 4 * length page.now ≤ length out.old }
    ensures text { Stored out.old 0 (text_of (patterns_in page.now)) result out.new }
    ensures front { Front result out.new }
{
    let mut rest = page;
    let mut to = 0;
    while let Some((count, after)) = rest.split_first() {
        let Some((positions, following)) = after.split_at_checked(2 * usize::from(*count)) else {
            return to;
        };
        to = line_at(*count, positions, out, to);
        rest = following;
    }
    to
}

// Writes v in decimal and a line feed from `to` on, and answers the place after it.
#[tactic(auto, using(crate::proofs::DecimalLaws::digits_u64))]
fn number_line_at(v: u64, out: &mut [u8], to: usize) -> usize
    requires { to + 21 ≤ length out.old }
    ensures text { Stored out.old to (decimal v ++ (10 ∷ [])) result out.new }
    ensures short { result ≤ to + 21 }
{
    let end = decimal_at(v, out, to);
    text_at(b"\n", out, end)
}

// Writes the line that closes a list of `count` patterns, and answers its length.
pub fn end_line(count: u64, out: &mut [u8]) -> usize
    requires { line_room ≤ length out.old }
    ensures text { Stored out.old 0 (end_line count) result out.new }
    ensures front { Front result out.new }
{
    let to = text_at(b"end ", out, 0);
    number_line_at(count, out, to)
}

// Writes the line of a refusal, and answers its length.
pub fn refused_line(refusal: Refusal, out: &mut [u8]) -> usize
    requires { line_room ≤ length out.old }
    ensures text { Stored out.old 0 (refused_line (number refusal)) result out.new }
    ensures front { Front result out.new }
{
    let to = text_at(b"refused ", out, 0);
    number_line_at(u64::from(u32::from(refusal)), out, to)
}

// Writes the line for any other input, and answers its length.
#[tactic(auto, unfolding(crate::specs::Text::bad_line))]
pub fn bad_line(out: &mut [u8]) -> usize
    requires { line_room ≤ length out.old }
    ensures text { Stored out.old 0 bad_line result out.new }
    ensures front { Front result out.new }
{
    text_at(b"bad line\n", out, 0)
}
