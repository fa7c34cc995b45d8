// A packet: what its CRC is taken by, the conditions on its length and on these values, and bits that flip.
#![tactic(auto)]

ghost use Rattle.std.specs.Prelude.{◌≡◌, ℕ, ◌*◌, ◌<◌};
ghost use Rattle.base.specs.Lists.{All};
ghost use Rattle.poly.specs.Fit.{Fit};
ghost use Rattle.packet.specs.Packet.{
  bits,
  unfit_length,
  unfit_values,
  crc_of,
  bit_at,
  flip,
  flips,
};

use poly::Generator;

// What a CRC is taken by.
#[derive(Clone, Copy)]
pub struct Crc {
    pub generator: Generator,
    pub init: u64,
    pub xorout: u64,
}

// The three numbers that a call gives its CRC by, whether they are accepted or not.
#[derive(Clone, Copy)]
pub struct CrcNumbers {
    pub generator: u64,
    pub init: u64,
    pub xorout: u64,
}

impl From<CrcNumbers> for Crc {
    fn from(n: CrcNumbers) -> Crc
        ensures { result ≡ crc_of n.generator n.init n.xorout }
    {
        Crc {
            generator: Generator::of(n.generator),
            init: n.init,
            xorout: n.xorout,
        }
    }
}

// The longest packet, in bytes; the definitions count its bits.
pub const MOST_BYTES: usize = 512;

pub const MOST_BITS: usize = 8 * MOST_BYTES;

// Condition 2, for `bits` bits.
#[tactic(auto, using(crate::proofs::PacketLaws::short_unfit, crate::proofs::PacketLaws::longer_unfit))]
pub fn unfit_bits(g: Generator, bits: usize) -> bool
    ensures { result ≡ unfit_length g.degree bits }
{
    bits <= g.degree as usize || MOST_BITS < bits
}

// The same for a packet of `len` bytes, of any number.
#[tactic(auto, using(crate::proofs::PacketLaws::long_unfit))]
pub fn unfit_bytes(g: Generator, len: usize) -> bool
    ensures { result ≡ unfit_length g.degree (8 * len) }
{
    MOST_BYTES < len || unfit_bits(g, 8 * len)
}

// Condition 11.
#[tactic(auto, using(crate::proofs::PacketLaws::init_unfit, crate::proofs::PacketLaws::xorout_unfit, poly::proofs::GeneratorLaws::shift_one))]
pub fn unfit_values(g: Generator, init: u64, xorout: u64) -> bool
    requires { Fit g }
    ensures { result ≡ unfit_values g.degree init xorout }
{
    let above = 1u64 << g.degree;
    above <= init || above <= xorout
}

// The bit at a position.
#[tactic(auto, unfolding(crate::specs::Packet::bit_at))]
pub fn bit_of(packet: &[u8], p: usize) -> u64
    requires { p < bits packet.now }
    ensures { (result ≡ bit_at packet.now p) × (result < 2) }
{
    let b = packet[packet.len() - 1 - p / 8] as u64;
    (b >> (p % 8)) % 2
}

// Flips the bit at a position.
fn flip_bit(packet: &mut [u8], p: usize)
    requires { p < bits packet.old }
    ensures { packet.new ≡ flip packet.old p }
{
    let i = packet.len() - 1 - p / 8;
    packet[i] ^= 1u8 << (p % 8);
}

// Flips the bits at the given positions.
pub fn flip_bits(packet: &mut [u8], pos: &[u16])
    requires { All (λ (p : ℕ). p < bits packet.old) pos.now }
    ensures { packet.new ≡ flips packet.old pos.now }
{
    for p in pos {
        flip_bit(packet, *p as usize);
    }
}
