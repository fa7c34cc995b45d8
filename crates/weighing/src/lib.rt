// The second check of a packet with flipped bits, from the total of its range and the weights of the bits.
#![tactic(auto)]

ghost use Rattle.std.specs.Prelude.{◌≡◌, ◌≢◌, ◌+◌, ◌≤◌, ◌<◌, length};
ghost use Rattle.base.specs.Lists.{Ascending};
ghost use Rattle.packet.specs.Packet.{bits, flips};
ghost use Rattle.checksum.specs.Checksum.{total, range, passes};
ghost use Rattle.checksum.specs.Shares.{multiple, share};
ghost use Rattle.weighing.specs.Totals.{weight, Changes, Totalled, in_field, weighed, Weighs};

use checksum::{Check, word_of};
use packet::bit_of;

// A packet with its second check, the plain total of the check's range in it, and the number that is in the check's field there.
#[derive(Clone, Copy)]
pub struct Weighed<'a> {
    pub packet: &'a [u8],
    pub check: Check,
    pub total: u64,
    pub in_field: u64,
}

// What a flip adds to a total, and what it takes away.
#[derive(Clone, Copy)]
struct Change {
    plus: u64,
    minus: u64,
}

// The bytes of a packet from `from` on and before `to`.
#[derive(Clone, Copy)]
struct Part<'a> {
    packet: &'a [u8],
    from: usize,
    to: usize,
}

// The plain total of the words of bytes, with no carry folded, by their places as `checksum::sum`.
#[tactic(auto, using(checksum::proofs::SumLaws::total_turn, checksum::proofs::SumLaws::total_past))]
fn total_of(s: &[u8]) -> u64
    requires { length s.now ≤ 512 }
    ensures { result ≡ total s.now }
{
    let mut t: u64 = 0;
    for i in (0..s.len()).step_by(2) {
        t += word_of(&s[i..]) as u64;
    }
    t
}

// The number in the field. Where there is no second check, the place is not looked at.
fn number_in_field(check: Check, packet: &[u8]) -> u64
    requires { check.from ≢ check.to → check.field < length packet.now }
    ensures { result ≡ in_field check packet.now }
{
    let from = check.from;
    let to = check.to;
    if to == from {
        return 0;
    }
    word_of(&packet[check.field..]) as u64
}

// Whether a range of this plain total has the sum FFFFh.
#[tactic(auto, unfolding(checksum::specs::Shares::multiple))]
fn decide(t: u64) -> bool
    ensures { result ≡ multiple t }
{
    0 < t && t % 65535 == 0
}

impl<'a> Part<'a> {
    // What byte i counts in the total.
    #[tactic(auto, using(checksum::proofs::RangeLaws::share_below, checksum::proofs::RangeLaws::share_above, checksum::proofs::RangeLaws::share_within, checksum::proofs::RangeLaws::word_weight_even, checksum::proofs::RangeLaws::word_weight_odd))]
    fn share(self, i: usize) -> u64
        ensures { (result ≡ share self.entry.from self.entry.to i) × (result ≤ 256) }
    {
        if i < self.from || self.to <= i {
            return 0;
        }
        if (i - self.from) % 2 == 0 { 256 } else { 1 }
    }

    // What the bit at a position counts in the total.
    fn weight(self, p: usize) -> u64
        requires { p < bits self.packet.now }
        ensures { (result ≡ weight self.entry.from self.entry.to self.entry.packet.now p) × (result ≤ 32768) }
    {
        let share = self.share(self.packet.len() - 1 - p / 8);
        share << (p % 8)
    }

    // What the flip of one position adds to the total, and what it takes away. A bit that counts nothing is not looked at.
    fn change(self, p: usize) -> Change
        requires { p < bits self.packet.now }
        ensures { Changes result self.entry.from self.entry.to self.entry.packet.now p }
    {
        let weight = self.weight(p);
        if weight == 0 {
            return Change { plus: 0, minus: 0 };
        }
        let b = bit_of(self.packet, p);
        Change {
            plus: (1 - b) * weight,
            minus: b * weight,
        }
    }

    // The total once the positions are flipped, from the total before.
    fn flipped_total(self, before: u64, pos: &[u16]) -> u64
        requires { Totalled self.from self.to before self.packet.now × Ascending (bits self.packet.now) 0 pos.now }
        ensures { result ≡ total (range self.entry.from self.entry.to (flips self.entry.packet.now pos.now)) }
    {
        let mut plus: u64 = 0;
        let mut minus: u64 = 0;
        for p in pos {
            let change = self.change(*p as usize);
            plus += change.plus;
            minus += change.minus;
        }
        before + plus - minus
    }
}

// What the check of one packet's candidates needs, taken once.
#[tactic(auto, unfolding(checksum::specs::Checksum::range))]
pub fn weigh<'a>(check: Check, packet: &'a [u8]) -> Weighed<'a>
    requires { (length packet.now ≤ 512) × (check.from ≤ check.to) × (check.to ≤ length packet.now) × (check.from ≢ check.to → check.field + 2 ≤ check.to) }
    ensures { result ≡ weighed check packet.entry }
{
    Weighed {
        packet,
        check,
        total: total_of(&packet[check.from..check.to]),
        in_field: number_in_field(check, packet),
    }
}

impl<'a> Weighed<'a> {
    // The total of some bytes once the positions are flipped, from the total before.
    fn flipped(self, from: usize, to: usize, before: u64, pos: &[u16]) -> u64
        requires { Totalled from to before self.packet.now × Ascending (bits self.packet.now) 0 pos.now }
        ensures { result ≡ total (range from to (flips self.entry.packet.now pos.now)) }
    {
        Part {
            packet: self.packet,
            from,
            to,
        }
        .flipped_total(before, pos)
    }

    // Whether the packet passes the second check once the positions are flipped. Where there is none, nothing is weighed; else the
    // field's number is told by the bits that fall into it, since it is the total of the field's two bytes.
    #[tactic(auto, using(checksum::proofs::RangeLaws::no_check_passes, crate::proofs::WeighedLaws::flipped_zero, crate::proofs::WeighedLaws::flipped_decides))]
    pub fn passes_flipped(self, pos: &[u16]) -> bool
        requires { Weighs self × Ascending (bits self.packet.now) 0 pos.now }
        ensures { result ≡ passes self.entry.check (flips self.entry.packet.now pos.now) }
    {
        let Check { from, to, field } = self.check;
        from == to
            || self.flipped(field, field + 2, self.in_field, pos) == 0
            || decide(self.flipped(from, to, self.total, pos))
    }

    // The same of the packet as it stands.
    #[tactic(auto, using(packet::proofs::FlipLaws::flips_nil, base::specs::Lists::ends))]
    pub fn passes_received(self) -> bool
        requires { Weighs self }
        ensures { result ≡ passes self.entry.check self.entry.packet.now }
    {
        self.passes_flipped(&[])
    }
}
