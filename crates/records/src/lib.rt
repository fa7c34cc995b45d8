// Records of patterns as bytes, both ways.
#![tactic(auto)]

ghost use Rattle.std.specs.Prelude.{◌≡◌, ◌+◌, ◌*◌, ◌<◌, ◌≤◌, length};
ghost use Rattle.records.specs.Records.{positions_in};
ghost use Rattle.records.specs.Slices.{RecordPut};

use patterns::MOST_POSITIONS;

// The bytes of the longest record.
pub const LONGEST_RECORD: usize = 1 + 2 * MOST_POSITIONS;

// The record of some positions, into an output from the byte `at` on; the answer is the place behind it. The place is
// counted, since of bytes written through chunks a proof knows nothing.
pub fn put_record(pos: &[u16], out: &mut [u8], at: usize) -> usize
    requires { (length pos.now < 256) × (at + (1 + 2 * length pos.now) ≤ length out.old) }
    ensures { RecordPut pos.now out.old at out.new result }
{
    out[at] = pos.len() as u8;
    let mut to = at + 1;
    for p in pos {
        let [high, low] = p.to_be_bytes();
        out[to] = high;
        out[to + 1] = low;
        to += 2;
    }
    to
}

// As many positions as `pos` has room for, read from the start of some bytes.
#[tactic(auto, using(crate::proofs::RecordLaws::positions_by_entries))]
pub fn get_positions(bytes: &[u8], pos: &mut [u16])
    requires { 2 * length pos.old ≤ length bytes.now }
    ensures { pos.new ≡ positions_in (length pos.old) bytes.now }
{
    for (i, p) in pos.iter_mut().enumerate() {
        *p = u16::from_be_bytes([bytes[2 * i], bytes[2 * i + 1]]);
    }
}
