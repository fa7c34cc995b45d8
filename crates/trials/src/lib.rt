// Trials: a packet is made, bits of it flip, and what a repair says of it is counted, in an array of rows that is passed on by value.
#![tactic(auto)]

ghost use Rattle.std.specs.Prelude.{◌≡◌, List, ℕ, suc, ◌*◌, ◌<◌, ◌≤◌, length};
ghost use Rattle.base.specs.Lists.{Ascending};
ghost use Rattle.packet.specs.Packet.{Bytes, bits, flips};
ghost use Rattle.patterns.specs.Patterns.{most_positions, positions};
ghost use Rattle.maker.specs.Stream.{state_after};
ghost use Rattle.maker.specs.Calls.{made};
ghost use Rattle.channel.specs.Channel.{drawn};
ghost use Rattle.cursor.specs.Cursors.{Serves};
ghost use Rattle.verdicts.specs.Verdicts.{said, verdict, output_for};
ghost use Rattle.trials.specs.Trials.{
  most_flips,
  column,
  counted,
  joined_rows,
  counts_length,
  received,
  trial,
  trials,
  rows_of,
};
ghost use Rattle.trials.specs.Running.{Usable, Runnable, place, column_by, tried, Within};

use checksum::Check;
use packet::Crc;
use patterns::Positions;
use placing::Powers;
use verdicts::{Settings, Verdict};

// The most flips of a trial.
pub const MOST_FLIPS: usize = 8;

// A row of counts for each number of flips, and in it one count for each column.
pub const ROWS: usize = MOST_FLIPS + 1;

pub const COLUMNS: usize = 5;

pub const COUNTS: usize = ROWS * COLUMNS;

pub type Rows = [[u32; COLUMNS]; ROWS];

// What a trial is counted as, by its place in a row: intact, repaired to the packet made or otherwise, several repairs, or none.
#[derive(Clone, Copy)]
enum Column {
    Intact = 0,
    Restored = 1,
    FalseRepair = 2,
    Several = 3,
    None = 4,
}

impl Column {
    fn place(self) -> usize
        ensures { (result ≡ place self) × (result < 5) }
    {
        self as usize
    }
}

// The column of a verdict. The packet made comes back where the pattern named is what was flipped, and only there.
#[tactic(auto, using(crate::proofs::SameLaws::pointwise_same))]
fn column_of(verdict: Verdict, flipped: &[u16]) -> Column
    ensures { place result ≡ column_by (said verdict) flipped.now }
{
    match verdict {
        Verdict::Intact => Column::Intact,
        Verdict::Repaired(p) if Positions::of(p).as_slice() == flipped => Column::Restored,
        Verdict::Repaired(_) => Column::FalseRepair,
        Verdict::Several(_, _) => Column::Several,
        Verdict::None => Column::None,
    }
}

// Makes a packet and flips as many bits of it as there is room for positions. The answer is the state after the last draw.
#[tactic(auto, unfolding(crate::specs::Trials::received))]
fn receive(crc: Crc, check: Check, seed: u32, packet: &mut [u8], flipped: &mut [u16]) -> u32
    requires { Usable crc check (length packet.old) × (length flipped.old ≤ most_flips) }
    ensures state { result ≡ state_after (length flipped.old) (state_after (length packet.old) seed) }
    ensures packet { packet.new ≡ received crc check (length packet.old) (length flipped.old) seed }
    ensures made { Bytes (made crc seed check (length packet.old)) × (length (made crc seed check (length packet.old)) ≡ length packet.old) }
    ensures flipped { flipped.new ≡ drawn (bits packet.old) (length flipped.old) (state_after (length packet.old) seed) }
{
    let made = maker::make_accepted(crc, seed, check, packet);
    let state = channel::draw(made, 8 * packet.len(), flipped);
    packet::flip_bits(packet, flipped);
    state
}

// The column that a received packet is counted in, by what was flipped, and its repair where there is one.
fn conclude_trial(
    settings: Settings,
    powers: Powers,
    packet: &[u8],
    flipped: &[u16],
    output: &mut [u8],
) -> Column
    requires { Runnable settings powers (length packet.now) (length output.old) }
    ensures column { (t : List ℕ) → Bytes t → Ascending (bits t) 0 flipped.now → packet.now ≡ flips t flipped.now → place result ≡ column (verdict settings.crc settings.check settings.limit packet.now) packet.now t }
    ensures output { output.new ≡ output_for settings.crc settings.check settings.limit packet.now output.old }
{
    let verdict = verdicts::conclude(settings, powers, packet, output);
    column_of(verdict, flipped)
}

// One trial from a state, with as many flips as there is room for positions. The state runs on.
fn run_trial(
    settings: Settings,
    powers: Powers,
    state: &mut u32,
    flipped: &mut [u16],
    packet: &mut [u8],
    output: &mut [u8],
) -> Column
    requires { Runnable settings powers (length packet.old) (length output.old) × (length flipped.old ≤ most_flips) }
    ensures { (counts : List (List ℕ)) → tried state.new packet.new output.new (counted (length flipped.old) (place result) counts) ≡ trial settings.crc settings.check settings.limit (length flipped.old) (tried state.old packet.old output.old counts) }
{
    let seed = *state;
    let after = receive(settings.crc, settings.check, seed, packet, flipped);
    *state = after;
    conclude_trial(settings, powers, packet, flipped, output)
}

// One count more, in a row and a column.
#[tactic(auto, unfolding(crate::specs::Trials::counted))]
fn count_in(rows: Rows, row: usize, column: Column) -> Rows
    requires { (row < 9) × Within rows 4294967294 }
    ensures { result ≡ counted row (place column) rows }
{
    let mut next = rows;
    next[row][column.place()] += 1;
    next
}

// So many trials with as many flips as there is room for positions. The state runs on.
fn run_row(
    settings: Settings,
    powers: Powers,
    count: u64,
    before: Rows,
    state: &mut u32,
    flipped: &mut [u16],
    packet: &mut [u8],
    output: &mut [u8],
) -> Rows
    requires { Runnable settings powers (length packet.old) (length output.old) × (length flipped.old ≤ most_flips) × (count ≤ 65535) × Within before (length flipped.old * count) }
    ensures trials { tried state.new packet.new output.new result ≡ trials settings.crc settings.check settings.limit (length flipped.old) count (tried state.old packet.old output.old before) }
    ensures within { Within result (suc (length flipped.old) * count) }
{
    let mut rows = before;
    for _ in 0..count {
        let column = run_trial(settings, powers, state, flipped, packet, output);
        let next = count_in(rows, flipped.len(), column);
        rows = next;
    }
    rows
}

// So many trials with each number of flips, from none on; `pos` has room for the most.
pub fn run_rows(
    settings: Settings,
    powers: Powers,
    count: u64,
    before: Rows,
    state: &mut u32,
    pos: &mut [u16],
    packet: &mut [u8],
    output: &mut [u8],
) -> Rows
    requires { Runnable settings powers (length packet.old) (length output.old) × (length pos.old ≡ most_flips) × (count ≤ 65535) × Within before 0 }
    ensures { tried state.new packet.new output.new result ≡ rows_of settings.crc settings.check settings.limit count (suc most_flips) 0 (tried state.old packet.old output.old before) }
{
    let mut rows = before;
    for flips in 0..ROWS {
        let next = run_row(
            settings,
            powers,
            count,
            rows,
            state,
            &mut pos[..flips],
            packet,
            output,
        );
        rows = next;
    }
    rows
}

// The counts of all rows, one behind the other.
pub fn put_rows(rows: Rows, counts: &mut [u32])
    requires { length counts.old ≡ counts_length }
    ensures { counts.new ≡ joined_rows rows }
{
    counts.copy_from_slice(rows.as_flattened());
}
