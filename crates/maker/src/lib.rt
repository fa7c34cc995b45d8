// The packet maker: a few numbers, and from them the same packet every time.
#![tactic(auto)]

ghost use Rattle.std.specs.Prelude.{◌≡◌, ◌+◌, ◌*◌, ◌%◌, ◌^◌, ◌≤◌, length};
ghost use Rattle.base.specs.Answers.{outcome};
ghost use Rattle.base.specs.Judged.{judged};
ghost use Rattle.packet.specs.Packet.{crc_of};
ghost use Rattle.packet.specs.Reading.{Readable};
ghost use Rattle.maker.specs.Stream.{next_state, byte_of, yielded, state_after};
ghost use Rattle.maker.specs.Calls.{made, make_conditions, make_call, make_packet};

use base::Refusal;
use checksum::Check;
use packet::{Crc, CrcNumbers};
use poly::Generator;

// The numbers of the stream's rule.
const MULTIPLIER: u32 = 1664525;

const INCREMENT: u32 = 1013904223;

// a * b, modulo 2^32.
fn wrapping_mul(a: u32, b: u32) -> u32
    ensures { result ≡ a * b % 2 ^ 32 }
{
    (a as u64 * b as u64 % 4294967296) as u32
}

// The state after this one.
#[tactic(auto, unfolding(crate::specs::Stream::next_state))]
pub fn next_state(state: u32) -> u32
    ensures { result ≡ next_state state }
{
    wrapping_mul(MULTIPLIER, state).wrapping_add(INCREMENT)
}

// The byte that a state yields: its top eight bits.
#[tactic(auto, unfolding(crate::specs::Stream::byte_of))]
fn byte_of(state: u32) -> u8
    ensures { result ≡ byte_of state }
{
    (state >> 24) as u8
}

// Fills a slice with the bytes of the stream, from its first byte on, and tells the state that it has come to.
pub fn fill(packet: &mut [u8], seed: u32) -> u32
    ensures state { result ≡ state_after (length packet.old) seed }
    ensures bytes { packet.new ≡ yielded (length packet.old) seed }
{
    let mut state = seed;
    for b in packet.iter_mut() {
        state = next_state(state);
        *b = byte_of(state);
    }
    state
}

// Makes a packet from a seed, by numbers that are known to be accepted: bytes of the stream, stamped and then sealed. The answer is the
// final state.
#[tactic(auto, unfolding(crate::specs::Calls::made))]
pub fn make_accepted(crc: Crc, seed: u32, check: Check, packet: &mut [u8]) -> u32
    requires { Readable crc packet.old × (check.from ≤ check.field) × (check.field + 2 ≤ check.to) × (check.to ≤ length packet.old) }
    ensures state { result ≡ state_after (length packet.old) seed }
    ensures bytes { packet.new ≡ made crc seed check (length packet.old) }
{
    let state = fill(packet, seed);
    checksum::fill_field(packet, check);
    crc::fill_crc(packet, crc);
    state
}

// The conditions of the maker, in their order.
fn judge_make(numbers: CrcNumbers, check: Check, len: usize) -> Result<(), Refusal>
    ensures { outcome result ≡ judged (make_conditions (crc_of numbers.generator numbers.init numbers.xorout) (8 * len) check) }
{
    crc::judge_packet(numbers, len)?;
    let g = Generator::of(numbers.generator);
    if checksum::unfit_range(g, len, check) {
        return Err(Refusal::Range);
    }
    if checksum::unfit_field(check) {
        return Err(Refusal::Field);
    }
    Ok(())
}

// Makes a packet from a seed. The answer is the final state.
pub fn make(numbers: CrcNumbers, seed: u32, check: Check, packet: &mut [u8]) -> Result<u32, Refusal>
    ensures answer { outcome result ≡ make_call (crc_of numbers.generator numbers.init numbers.xorout) seed check packet.old }
    ensures bytes { packet.new ≡ make_packet (crc_of numbers.generator numbers.init numbers.xorout) seed check packet.old }
{
    judge_make(numbers, check, packet.len())?;
    let state = make_accepted(Crc::from(numbers), seed, check, packet);
    Ok(state)
}
