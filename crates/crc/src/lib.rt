// The calls remainder and seal.
#![tactic(auto)]

ghost use Rattle.std.specs.Prelude.{◌≡◌, ◌*◌, length};
ghost use Rattle.std.specs.Int.Bits.{bit_xor};
ghost use Rattle.base.specs.Answers.{outcome};
ghost use Rattle.base.specs.Judged.{judged};
ghost use Rattle.packet.specs.Packet.{Bytes, polynomial, bytes_of, crc_of};
ghost use Rattle.packet.specs.Reading.{Readable};
ghost use Rattle.crc.specs.Calls.{
  packet_conditions,
  remainder_call,
  sealed,
  seal_call,
  seal_packet,
};

use base::Refusal;
use packet::{Crc, CrcNumbers};
use poly::Generator;
use remainders::remainder_of;

// XORs a number into the packet's last bytes. By index: of bytes written through `iter_mut` from the back a proof knows nothing.
fn add_low(packet: &mut [u8], value: u64)
    requires { Bytes packet.old }
    ensures { packet.new ≡ bytes_of (length packet.old) (bit_xor (polynomial packet.old) value) }
{
    let mut left = value;
    for i in (0..packet.len()).rev() {
        if left == 0 {
            return;
        }
        packet[i] ^= (left % 256) as u8;
        left /= 256;
    }
}

// Sets the packet's last bits so that its remainder is 0.
pub fn fill_crc(packet: &mut [u8], crc: Crc)
    requires { Readable crc packet.old }
    ensures { packet.new ≡ sealed crc packet.old }
{
    let r = remainder_of(crc, packet);
    add_low(packet, r);
}

// The conditions of remainder and seal, in their order; others begin with these.
pub fn judge_packet(numbers: CrcNumbers, len: usize) -> Result<(), Refusal>
    ensures { outcome result ≡ judged (packet_conditions (crc_of numbers.generator numbers.init numbers.xorout) (8 * len)) }
{
    let g = Generator::new(numbers.generator)?;
    if packet::unfit_bytes(g, len) {
        return Err(Refusal::Length);
    }
    if packet::unfit_values(g, numbers.init, numbers.xorout) {
        return Err(Refusal::Values);
    }
    Ok(())
}

pub fn remainder(numbers: CrcNumbers, packet: &[u8]) -> Result<u64, Refusal>
    ensures { outcome result ≡ remainder_call (crc_of numbers.generator numbers.init numbers.xorout) packet.now }
{
    judge_packet(numbers, packet.len())?;
    Ok(remainder_of(Crc::from(numbers), packet))
}

pub fn seal(numbers: CrcNumbers, packet: &mut [u8]) -> Result<(), Refusal>
    ensures answer { outcome result ≡ seal_call (crc_of numbers.generator numbers.init numbers.xorout) packet.old }
    ensures bytes { packet.new ≡ seal_packet (crc_of numbers.generator numbers.init numbers.xorout) packet.old }
{
    judge_packet(numbers, packet.len())?;
    fill_crc(packet, Crc::from(numbers));
    Ok(())
}
