// The simulation's call: its conditions, and the trials behind them.
#![tactic(auto)]

ghost use Rattle.std.specs.Prelude.{◌≡◌, ℕ, ◌≤◌, length};
ghost use Rattle.base.specs.Answers.{outcome};
ghost use Rattle.base.specs.Judged.{judged};
ghost use Rattle.patterns.specs.Patterns.{most_positions};
ghost use Rattle.cursor.specs.Cursors.{RightTables};
ghost use Rattle.trials.specs.Trials.{most_flips, joined_rows, counts_length, simulated};
ghost use Rattle.trials.specs.Running.{Usable};
ghost use Rattle.simulation.specs.Calls.{
  simulation_by,
  unfit_room,
  unfit_trials,
  simulate_conditions,
  simulate_call,
  simulate_packet,
  simulate_output,
  simulate_counts,
};

use base::Refusal;
use checksum::Check;
use packet::{Crc, CrcNumbers, MOST_BITS};
use poly::Generator;
use tables::Tables;
use trials::{COLUMNS, COUNTS, MOST_FLIPS, ROWS};
use verdicts::Settings;

// The most trials with one number of flips.
const MOST_TRIALS: u64 = 65535;

// Are these no trials, or too many?
#[tactic(auto, unfolding(crate::specs::Calls::unfit_trials))]
fn unfit_trials(count: u64) -> bool
    ensures { result ≡ unfit_trials count }
{
    count == 0 || MOST_TRIALS < count
}

// Is an output not as long as the packet, or the place for the counts not of their number?
#[tactic(auto, unfolding(crate::specs::Calls::unfit_room, repair::specs::Calls::unfit_copy))]
fn unfit_room(output: usize, packet: usize, counts: usize) -> bool
    ensures { result ≡ unfit_room output packet counts }
{
    output != packet || counts != COUNTS
}

// The conditions of a simulation, in their order.
fn judge_simulate(
    numbers: CrcNumbers,
    check: Check,
    limit: usize,
    count: u64,
    tables: Tables,
    packet: &[u8],
    output: &[u8],
    counts: &[u32],
) -> Result<(), Refusal>
    ensures { (seed : ℕ) → outcome result ≡ judged (simulate_conditions (simulation_by numbers seed check limit count tables.entry packet.now output.now counts.now)) }
{
    repair::judge_settings(numbers, limit, tables, packet.len())?;
    if unfit_room(output.len(), packet.len(), counts.len()) {
        return Err(Refusal::Output);
    }
    if checksum::unfit_range(Generator::of(numbers.generator), packet.len(), check) {
        return Err(Refusal::Range);
    }
    if checksum::unfit_field(check) {
        return Err(Refusal::Field);
    }
    if unfit_trials(count) {
        return Err(Refusal::Trials);
    }
    Ok(())
}

// All trials, by tables that are right. The powers and the period are made once. The answer is the state after the last draw.
fn simulate_by(
    settings: Settings,
    count: u64,
    seed: u32,
    tables: Tables,
    packet: &mut [u8],
    output: &mut [u8],
    counts: &mut [u32],
) -> u32
    requires { Usable settings.crc settings.check (length packet.old) × (settings.limit ≤ most_positions) × RightTables settings.crc.generator tables.steps.now tables.firsts.now × (length output.old ≡ length packet.old) × (length counts.old ≡ counts_length) × (count ≤ 65535) }
    ensures state { result ≡ (simulated settings.crc settings.check settings.limit count seed packet.old output.old).state }
    ensures packet { packet.new ≡ (simulated settings.crc settings.check settings.limit count seed packet.old output.old).packet }
    ensures output { output.new ≡ (simulated settings.crc settings.check settings.limit count seed packet.old output.old).output }
    ensures counts { counts.new ≡ joined_rows (simulated settings.crc settings.check settings.limit count seed packet.old output.old).counts }
{
    let mut room = [0u32; MOST_BITS];
    let mut pos = [0u16; MOST_FLIPS];
    let before = [[0u32; COLUMNS]; ROWS];
    let mut state = seed;
    let powers = cursor::prepare(settings.crc.generator, 8 * packet.len(), tables, &mut room);
    let rows = trials::run_rows(
        settings, powers, count, before, &mut state, &mut pos, packet, output,
    );
    trials::put_rows(rows, counts);
    state
}

// Tries settings on packets that are made from a seed: so many trials with each number of flipped bits, from none on. The answer is the
// state after the last draw.
pub fn simulate(
    numbers: CrcNumbers,
    seed: u32,
    check: Check,
    limit: usize,
    count: u64,
    tables: Tables,
    packet: &mut [u8],
    output: &mut [u8],
    counts: &mut [u32],
) -> Result<u32, Refusal>
    ensures answer { outcome result ≡ simulate_call (simulation_by numbers seed check limit count tables.entry packet.old output.old counts.old) }
    ensures packet { packet.new ≡ simulate_packet (simulation_by numbers seed check limit count tables.entry packet.old output.old counts.old) }
    ensures output { output.new ≡ simulate_output (simulation_by numbers seed check limit count tables.entry packet.old output.old counts.old) }
    ensures counts { counts.new ≡ simulate_counts (simulation_by numbers seed check limit count tables.entry packet.old output.old counts.old) }
{
    judge_simulate(numbers, check, limit, count, tables, packet, output, counts)?;
    let crc = Crc::from(numbers);
    let settings = Settings { crc, check, limit };
    Ok(simulate_by(settings, count, seed, tables, packet, output, counts))
}
