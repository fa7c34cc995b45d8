// The checksum of RFC 1071: sums of bytes, the range and field of the second check, and the stamp, with what RFC 768 says of a field
// of zero.
#![tactic(auto)]

ghost use Rattle.std.specs.Prelude.{◌≡◌, ◌+◌, ◌*◌, ◌≤◌, ◌<◌, length, get_or};
ghost use Rattle.base.specs.Answers.{outcome};
ghost use Rattle.base.specs.Judged.{judged};
ghost use Rattle.checksum.specs.Checksum.{
  folded,
  check_of,
  unfit_range,
  unfit_field,
  with_field,
  as_written,
  stamped,
};
ghost use Rattle.checksum.specs.Calls.{
  sum_call,
  stamp_conditions,
  stamp_call,
  stamp_packet,
};

use base::Refusal;
use poly::Generator;

// What the second check is taken by: the bytes of the packet from `from` on and before `to`, and the field, whose first byte
// is at `field`. Where `from` and `to` are equal there is no second check, and `field` is not looked at: the calls
// take three numbers, which conditions 9 and 10 are about, and no Option.
#[derive(Clone, Copy)]
pub struct Check {
    pub from: usize,
    pub to: usize,
    pub field: usize,
}

// What the second check is taken by, from the numbers given, whether they are accepted or not.
pub fn check_of(from: usize, to: usize, field: usize) -> Check
    ensures { result ≡ check_of from to field }
{
    Check { from, to, field }
}

// The word that bytes begin with, high byte first. One byte alone gets a zero byte behind it, and no bytes are 0.
// Words are gone through by this and `step_by(2)`, in the sum and in weighing's total: no shorter with the step as a closure.
pub fn word_of(s: &[u8]) -> u16
    ensures { result ≡ get_or s.now 0 0 * 256 + get_or s.now 1 0 }
{
    match s {
        [high, low, ..] => u16::from_be_bytes([*high, *low]),
        [high] => u16::from_be_bytes([*high, 0]),
        [] => 0,
    }
}

// The sum with one more word, its carry added back in.
#[tactic(auto, unfolding(crate::specs::Checksum::folded))]
fn add_word(sum: u16, word: u16) -> u16
    ensures { result ≡ folded (sum + word) }
{
    let (t, carry) = sum.overflowing_add(word);
    t + u16::from(carry)
}

// The sum of bytes, in one pass over their words, by their places: chunks of two take longer.
#[tactic(auto, using(crate::proofs::SumLaws::sum_start, crate::proofs::SumLaws::sum_turn, crate::proofs::SumLaws::sum_past))]
pub fn sum(s: &[u8]) -> u16
    ensures { result ≡ sum_call s.now }
{
    let mut r: u16 = 0;
    for i in (0..s.len()).step_by(2) {
        r = add_word(r, word_of(&s[i..]));
    }
    r
}

// Condition 9, for a packet of `len` bytes, of any number.
#[tactic(auto, unfolding(crate::specs::Checksum::unfit_range))]
pub fn unfit_range(g: Generator, len: usize, check: Check) -> bool
    ensures { result ≡ unfit_range g.degree (8 * len) check }
{
    let Check { from, to, .. } = check;
    to < from || len < to || len - to < (g.degree as usize + 7) / 8
}

// Condition 10, for any numbers.
#[tactic(auto, unfolding(crate::specs::Checksum::unfit_field))]
pub fn unfit_field(check: Check) -> bool
    ensures { result ≡ unfit_field check }
{
    let Check { from, to, field } = check;
    field < from || to <= field || to - field < 2 || (field - from) % 2 == 1
}

// Writes a number into the two bytes of the field, high byte first.
#[tactic(auto, unfolding(crate::specs::Checksum::with_field))]
fn write_field(packet: &mut [u8], field: usize, value: u16)
    requires { field + 1 < length packet.old }
    ensures { packet.new ≡ with_field field value packet.old }
{
    let [high, low] = value.to_be_bytes();
    packet[field] = high;
    packet[field + 1] = low;
}

// What is written for a number computed: FFFFh for 0.
#[tactic(auto, using(crate::proofs::StampLaws::written_for_zero, crate::proofs::StampLaws::written_as_is))]
fn as_written(value: u16) -> u16
    ensures { result ≡ as_written value }
{
    match value {
        0 => u16::MAX,
        v => v,
    }
}

// Writes what the sum of the range, the field taken as zero, lacks to FFFFh, or FFFFh where it lacks nothing, into the field.
pub fn fill_field(packet: &mut [u8], check: Check)
    requires { (check.from ≤ check.field) × (check.field + 2 ≤ check.to) × (check.to ≤ length packet.old) }
    ensures { packet.new ≡ stamped check packet.old }
{
    let Check { from, to, field } = check;
    write_field(packet, field, 0);
    let rest = sum(&packet[from..to]);
    write_field(packet, field, as_written(u16::MAX - rest));
}

// The conditions of stamp, in their order.
fn judge_stamp(generator: u64, check: Check, len: usize) -> Result<(), Refusal>
    ensures { outcome result ≡ judged (stamp_conditions generator (8 * len) check) }
{
    let g = Generator::new(generator)?;
    if packet::unfit_bytes(g, len) {
        return Err(Refusal::Length);
    }
    if unfit_range(g, len, check) {
        return Err(Refusal::Range);
    }
    if unfit_field(check) {
        return Err(Refusal::Field);
    }
    Ok(())
}

// Gives the range of a packet the sum FFFFh, by the field in it.
pub fn stamp(generator: u64, check: Check, packet: &mut [u8]) -> Result<(), Refusal>
    ensures answer { outcome result ≡ stamp_call generator check packet.old }
    ensures bytes { packet.new ≡ stamp_packet generator check packet.old }
{
    judge_stamp(generator, check, packet.len())?;
    fill_field(packet, check);
    Ok(())
}
