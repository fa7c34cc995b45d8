// The repair call, and the handing back of the packet to publish from.
#![tactic(auto)]

ghost use Rattle.std.specs.Prelude.{◌≡◌, ◌*◌, ◌≤◌, length};
ghost use Rattle.base.specs.Answers.{answered, outcome};
ghost use Rattle.base.specs.Judged.{judged};
ghost use Rattle.packet.specs.Packet.{bits, crc_of};
ghost use Rattle.cursor.specs.Cursors.{RightTables};
ghost use Rattle.verdicts.specs.Verdicts.{said, verdict, output_for};
ghost use Rattle.verdicts.specs.Settling.{Settleable};
ghost use Rattle.repair.specs.Settings.{setting_conditions};
ghost use Rattle.repair.specs.Calls.{
  repair_request_by,
  unfit_check_field,
  repair_conditions,
  repair_call,
  repair_output,
  handed_back,
  HandedItself,
};

use base::Refusal;
use checksum::Check;
use packet::{Crc, CrcNumbers, MOST_BITS};
use poly::Generator;
use tables::Tables;
use verdicts::{Settings, Verdict};

// Condition 10 of a repair, for any numbers.
#[tactic(auto, unfolding(crate::specs::Calls::unfit_check_field))]
fn unfit_check_field(check: Check) -> bool
    ensures { result ≡ unfit_check_field check }
{
    check.from < check.to && checksum::unfit_field(check)
}

// The conditions on CRC, length, limit and tables, in their order; a repair begins with these.
#[tactic(auto, using(tables::proofs::TableLaws::not_wrong))]
pub fn judge_settings(
    numbers: CrcNumbers,
    limit: usize,
    tables: Tables,
    len: usize,
) -> Result<(), Refusal>
    ensures { outcome result ≡ judged (setting_conditions (crc_of numbers.generator numbers.init numbers.xorout) limit tables.entry.steps.now tables.entry.firsts.now (8 * len)) }
{
    crc::judge_packet(numbers, len)?;
    let g = Generator::of(numbers.generator);
    if patterns::unfit_limit(limit) {
        return Err(Refusal::Limit);
    }
    if tables::unfit_tables(g, tables.steps.len(), tables.firsts.len()) {
        return Err(Refusal::TableLength);
    }
    if !verifying::verify(g, tables) {
        return Err(Refusal::TableEntry);
    }
    Ok(())
}

// The conditions of a repair, in their order.
#[tactic(auto, using(crate::proofs::ConditionLaws::copy_unfit, crate::proofs::ConditionLaws::copy_fit))]
fn judge_repair(
    numbers: CrcNumbers,
    check: Check,
    limit: usize,
    tables: Tables,
    packet: &[u8],
    output: &[u8],
) -> Result<(), Refusal>
    ensures { outcome result ≡ judged (repair_conditions (repair_request_by numbers check limit tables.entry packet.now output.now)) }
{
    judge_settings(numbers, limit, tables, packet.len())?;
    if output.len() != packet.len() {
        return Err(Refusal::Output);
    }
    if checksum::unfit_range(Generator::of(numbers.generator), packet.len(), check) {
        return Err(Refusal::Range);
    }
    if unfit_check_field(check) {
        return Err(Refusal::Field);
    }
    Ok(())
}

// The verdict by tables that are right, and the repair where there is one.
fn repair_by(settings: Settings, tables: Tables, packet: &[u8], output: &mut [u8]) -> Verdict
    requires { Settleable settings.crc settings.check settings.limit packet.now × RightTables settings.crc.generator tables.steps.now tables.firsts.now × (length output.old ≡ length packet.now) }
    ensures verdict { said result ≡ verdict settings.crc settings.check settings.limit packet.now }
    ensures bytes { output.new ≡ output_for settings.crc settings.check settings.limit packet.now output.old }
{
    let mut room = [0u32; MOST_BITS];
    let powers = cursor::prepare(settings.crc.generator, 8 * packet.len(), tables, &mut room);
    verdicts::conclude(settings, powers, packet, output)
}

// The verdict on a received packet, and its repair where there is one.
pub fn repair(
    numbers: CrcNumbers,
    check: Check,
    limit: usize,
    tables: Tables,
    packet: &[u8],
    output: &mut [u8],
) -> Result<Verdict, Refusal>
    ensures answer { answered said result ≡ repair_call (repair_request_by numbers check limit tables.entry packet.now output.old) }
    ensures bytes { output.new ≡ repair_output (repair_request_by numbers check limit tables.entry packet.now output.old) }
{
    judge_repair(numbers, check, limit, tables, packet, output)?;
    let crc = Crc::from(numbers);
    let settings = Settings { crc, check, limit };
    Ok(repair_by(settings, tables, packet, output))
}

// The packet to publish from: what was received, its repaired copy, or an empty part of what was received.
pub fn hand_back<'a>(received: &'a [u8], copy: &'a [u8], verdict: Verdict) -> &'a [u8]
    ensures bytes { result.now ≡ handed_back (said verdict) received.now copy.now }
    ensures itself { HandedItself (said verdict) result received.entry copy.entry }
{
    match verdict {
        Verdict::Intact => received,
        Verdict::Repaired(_) => copy,
        Verdict::Several(_, _) => &received[..0],
        Verdict::None => &received[..0],
    }
}
