// Taking the remainder of a packet: bit by bit by any generator, and with one look-up a byte by ccitt.
#![tactic(auto)]

ghost use Rattle.std.specs.Prelude.{◌≡◌, suc, ◌+◌, ◌*◌, ◌^◌, ◌≤◌, ◌<◌, length, take};
ghost use Rattle.poly.specs.Fit.{Fit};
ghost use Rattle.poly.specs.Generators.{ccitt};
ghost use Rattle.poly.specs.Polynomial.{rem};
ghost use Rattle.packet.specs.Packet.{polynomial_after, polynomial, remainder};
ghost use Rattle.packet.specs.Reading.{Readable};
ghost use Rattle.remainders.specs.Cancelling.{Cancelled};

use packet::Crc;
use poly::Generator;

// Takes x^(n + j) out of v, where it is there: v less x^j times the generator.
fn cancel(g: Generator, v: u64, j: u32) -> u64
    requires { Fit g × ((j < 8) × (v < 2 ^ (g.degree + suc j))) }
    ensures { Cancelled g.degree g.coefficients v j result }
{
    if v >> (g.degree + j) == 0 {
        v
    } else {
        v ^ (g.coefficients << j)
    }
}

// The remainder of r * x^8 + b.
fn append(g: Generator, r: u64, b: u8) -> u64
    requires { Fit g × (r < 2 ^ g.degree) }
    ensures { result ≡ rem g.degree g.coefficients (r * 256 + b) }
{
    let mut v = r * 256 + b as u64;
    for j in (0..8).rev() {
        v = cancel(g, v, j);
    }
    v
}

// The remainder that times x^n leaves the initial value.
fn register_of(g: Generator, init: u64) -> u64
    requires { Fit g × (init < 2 ^ g.degree) }
    ensures { (result < 2 ^ g.degree) × (rem g.degree g.coefficients (result * 2 ^ g.degree) ≡ init) }
{
    let mut r = init;
    for _ in 0..g.degree {
        r = poly::back(g, r);
    }
    r
}

// The remainder that the generator leaves of the bytes with a register before them.
fn divide(g: Generator, register: u64, packet: &[u8]) -> u64
    requires { Fit g × (register < 2 ^ g.degree) }
    ensures { result ≡ rem g.degree g.coefficients (polynomial_after register packet.now) }
{
    let mut r = register;
    for b in packet {
        r = append(g, r, *b);
    }
    r
}

// The same by ccitt, with one look-up a byte. A loop of its own: the step takes a narrower register, and asks nothing of it.
fn divide_by_ccitt(register: u16, packet: &[u8]) -> u16
    ensures { result ≡ rem ccitt.degree ccitt.coefficients (polynomial_after register packet.now) }
{
    let mut r = register;
    for b in packet {
        r = ccitt::append(r, *b);
    }
    r
}

// The first two bytes of a packet as a number.
fn first_two(packet: &[u8]) -> u16
    requires { 2 ≤ length packet.now }
    ensures { result ≡ polynomial (take 2 packet.now) }
{
    u16::from_be_bytes([packet[0], packet[1]])
}

// The remainder of a packet by ccitt: the register starts with the first 16 bits, the initial value added to them.
fn remainder_by_ccitt(crc: Crc, packet: &[u8]) -> u64
    requires { (crc.generator ≡ ccitt) × Readable crc packet.now }
    ensures { result ≡ remainder crc packet.now }
{
    let first = first_two(packet);
    let register = first ^ crc.init as u16;
    divide_by_ccitt(register, &packet[2..]) as u64 ^ crc.xorout
}

// The remainder of a packet. But for ccitt, the register starts so that the initial value is added at the first n bits.
pub fn remainder_of(crc: Crc, packet: &[u8]) -> u64
    requires { Readable crc packet.now }
    ensures { result ≡ remainder crc packet.now }
{
    let g = crc.generator;
    if g.coefficients == Generator::CCITT.coefficients {
        return remainder_by_ccitt(crc, packet);
    }
    divide(g, register_of(g, crc.init), packet) ^ crc.xorout
}
