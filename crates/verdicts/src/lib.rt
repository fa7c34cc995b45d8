// What a repair does behind its conditions: the verdict on a packet, from powers of x, first positions and a period that are lent,
// and the mended packet.
#![tactic(auto)]

ghost use Rattle.std.specs.Prelude.{◌≡◌, ◌&&◌, List, eqb, ℕ, ◌<◌, length};
ghost use Rattle.base.specs.Lists.{All};
ghost use Rattle.packet.specs.Packet.{bits, flips};
ghost use Rattle.checksum.specs.Checksum.{passes};
ghost use Rattle.weighing.specs.Totals.{Weighs};
ghost use Rattle.patterns.specs.Patterns.{positions};
ghost use Rattle.cursor.specs.Cursors.{ServedBy};
ghost use Rattle.tallies.specs.Tallies.{Tallied};
ghost use Rattle.verdicts.specs.Verdicts.{said, settled, verdict, output_for};
ghost use Rattle.verdicts.specs.Settling.{Settleable};

use checksum::Check;
use cursor::Cursor;
use packet::Crc;
use patterns::{Pattern, Positions};
use placing::Powers;
use tallies::Tally;
use weighing::Weighed;

#[derive(Clone, Copy)]
pub enum Verdict {
    Intact,
    Repaired(Pattern),
    Several(u64, Pattern),
    None,
}

// What the verdict on a packet is taken by: its two checks, and the most positions of a pattern.
#[derive(Clone, Copy)]
pub struct Settings {
    pub crc: Crc,
    pub check: Check,
    pub limit: usize,
}

// The verdict by a tally.
impl From<Tally> for Verdict {
    fn from(tally: Tally) -> Verdict
        ensures { (kept : List (List ℕ)) → Tallied kept tally → said result ≡ settled kept }
    {
        match tally.earliest {
            None => Verdict::None,
            Some(p) if tally.count == 1 => Verdict::Repaired(p),
            Some(p) => Verdict::Several(tally.count, p),
        }
    }
}

// Whether a packet passes both checks, by its remainder and the second check.
fn both_pass(syndrome: u64, weighed: Weighed) -> bool
    requires { Weighs weighed }
    ensures { result ≡ (eqb syndrome 0 && passes weighed.entry.check weighed.entry.packet.now) }
{
    syndrome == 0 && weighed.passes_received()
}

// The verdict on a packet, by powers that serve its generator and length.
fn settle(settings: Settings, powers: Powers, packet: &[u8]) -> Verdict
    requires { Settleable settings.crc settings.check settings.limit packet.now × ServedBy settings.crc.generator (bits packet.now) powers }
    ensures { said result ≡ verdict settings.crc settings.check settings.limit packet.now }
{
    let Settings { crc, check, limit } = settings;
    let syndrome = remainders::remainder_of(crc, packet);
    let weighed = weighing::weigh(check, packet);
    if both_pass(syndrome, weighed) {
        return Verdict::Intact;
    }
    let cursor = Cursor {
        generator: crc.generator,
        powers,
        syndrome,
    };
    Verdict::from(tallies::tally_all(cursor, limit, weighed))
}

// Copies a packet, byte by byte: the library's `copy_from_slice` would have an archive for C ask for memmove.
fn copy_to(packet: &[u8], output: &mut [u8])
    requires { length output.old ≡ length packet.now }
    ensures { output.new ≡ packet.now }
{
    for i in 0..packet.len() {
        output[i] = packet[i];
    }
}

// Writes the packet with a pattern's bits flipped.
fn mend(packet: &[u8], p: Pattern, output: &mut [u8])
    requires { (length output.old ≡ length packet.now) × All (λ (q : ℕ). q < bits packet.now) (positions p) }
    ensures { output.new ≡ flips packet.now (positions p) }
{
    copy_to(packet, output);
    let held = Positions::of(p);
    packet::flip_bits(output, held.as_slice());
}

// The verdict on a packet, with the mended packet in the output where one pattern passes.
pub fn conclude(settings: Settings, powers: Powers, packet: &[u8], output: &mut [u8]) -> Verdict
    requires { Settleable settings.crc settings.check settings.limit packet.now × ServedBy settings.crc.generator (bits packet.now) powers × (length output.old ≡ length packet.now) }
    ensures verdict { said result ≡ verdict settings.crc settings.check settings.limit packet.now }
    ensures bytes { output.new ≡ output_for settings.crc settings.check settings.limit packet.now output.old }
{
    let v = settle(settings, powers, packet);
    if let Verdict::Repaired(p) = v {
        mend(packet, p, output);
    }
    v
}
