// Compares sum and stamp with vectors that were worked by other code (see stdout).
#![tactic(auto)]

use checksum::{Check, check_of};
use packet::CrcNumbers;
use poly::Generator;
use std::io;

// Arguments for a, e and the field: those about a packet of six bytes, and some whose sums or products wrap.
const PLACES: [usize; 12] = [
    0,
    1,
    2,
    3,
    4,
    5,
    6,
    7,
    2305843009213693952,
    9223372036854775807,
    18446744073709551614,
    18446744073709551615,
];

fn show_sum(rt: &impl Print, s: &[u8]) -> io::Result<()> {
    let sum = checksum::sum(s);
    println!(rt; "{sum:04x}")
}

fn show_bytes(rt: &impl Print, s: &[u8]) -> io::Result<()> {
    for b in s {
        print!(rt; "{b:02x}")?;
    }
    Ok(())
}

// Sums of every beginning of the bytes, the empty one first.
fn show_beginnings(rt: &impl Print, s: &[u8]) -> io::Result<()> {
    for n in 0..=s.len() {
        show_sum(rt, &s[..n])?;
    }
    Ok(())
}

// The answer and the bytes that the packet then holds.
fn show_stamp(rt: &impl Print, generator: u64, check: Check, packet: &mut [u8]) -> io::Result<()> {
    let code = testkit::code(checksum::stamp(generator, check, packet));
    print!(rt; "{code:x} ")?;
    show_bytes(rt, packet)?;
    println!(rt; "")
}

// The answer of one stamp, and the packet where it changed.
fn show_place(rt: &impl Print, generator: u64, check: Check) -> io::Result<()> {
    let packet = [0xe1u8, 0x23, 0xab, 0xcd, 0x9f, 0x07];
    let mut copy = packet;
    let code = testkit::code(checksum::stamp(generator, check, &mut copy));
    print!(rt; "{code:x}")?;
    if packet != copy {
        print!(rt; "[")?;
        show_bytes(rt, &copy)?;
        print!(rt; "]")?;
    }
    Ok(())
}

// The same packet stamped with every a, e and field; a line for each range.
fn show_places(rt: &impl Print, generator: u64) -> io::Result<()> {
    for from in PLACES {
        for to in PLACES {
            for field in PLACES {
                show_place(rt, generator, check_of(from, to, field))?;
            }
            println!(rt; "")?;
        }
    }
    Ok(())
}

// Stamped and then sealed: the remainder, and the sum of the range.
fn show_both(rt: &impl Print, generator: u64, check: Check, packet: &mut [u8]) -> io::Result<()> {
    let code = testkit::code(checksum::stamp(generator, check, packet));
    let numbers = CrcNumbers {
        generator,
        init: 0,
        xorout: 0,
    };
    let _ = crc::seal(numbers, packet);
    match crc::remainder(numbers, packet) {
        Ok(r) => print!(rt; "{code:x} {r:x} ")?,
        Err(_) => print!(rt; "{code:x} refused ")?,
    }
    if let Some(range) = packet.get(check.from..check.to) {
        show_sum(rt, range)?;
    }
    Ok(())
}
// RFC 1071's own example with every beginning of it, odd and even lengths, zeros and ones, carries, and long runs.
fn show_sums(rt: &impl Print) -> io::Result<()> {
    show_beginnings(rt, b"\x00\x01\xf2\x03\xf4\xf5\xf6\xf7")?;
    show_beginnings(rt, b"\x00\x00\x00\x00\x00")?;
    show_beginnings(rt, b"\xff\xff\xff\xff\xff")?;
    show_beginnings(rt, b"\xff\xfe\x00\x02\x80\x00\x7f\xff\x01")?;
    show_sum(rt, &[0u8; 1021])?;
    show_sum(rt, &[255u8; 1021])?;
    show_sum(rt, &[255u8; 65536])?;
    let mut long = [0u8; 65535];
    testkit::fill(&mut long, 8);
    show_sum(rt, &long)
}

// Refusals by 1 before 2, and by 2 before 9 and 10.
fn show_first_refusals(rt: &impl Print) -> io::Result<()> {
    let mut none = [0u8; 0];
    show_stamp(rt, 8, check_of(3, 2, 9), &mut none)?;
    show_stamp(rt, 53, check_of(0, 2, 0), &mut none)?;
    let mut two = [1u8, 2];
    show_stamp(rt, 7, check_of(0, 2, 0), &mut two)?;
    show_stamp(rt, 131073, check_of(0, 2, 0), &mut two)?;
    show_stamp(rt, 0, check_of(0, 2, 0), &mut two)?;
    show_stamp(rt, 0x11021, check_of(3, 2, 9), &mut two)?;
    show_stamp(rt, 53, check_of(3, 2, 9), &mut two)?;
    let mut above = [0u8; 513];
    let code = testkit::code(checksum::stamp(53, check_of(0, 2, 0), &mut above));
    println!(rt; "{code:x}")
}

// Ranges whose sum without the field is FFFFh, so that 0 is computed: the field at their start, at their end and between, the last two
// with an odd number of bytes.
fn show_computed_zeros(rt: &impl Print) -> io::Result<()> {
    show_stamp(
        rt,
        53,
        check_of(0, 4, 2),
        &mut [0xffu8, 0xff, 0x12, 0x34, 0],
    )?;
    show_stamp(rt, 53, check_of(0, 4, 0), &mut [0u8, 0, 0xff, 0xff, 0])?;
    show_stamp(
        rt,
        53,
        check_of(1, 7, 3),
        &mut [9u8, 0x12, 0x34, 0xff, 0xff, 0xed, 0xcb, 0],
    )?;
    show_stamp(
        rt,
        53,
        check_of(0, 5, 2),
        &mut [0xfeu8, 0xff, 0, 0, 1, 0x80],
    )?;
    show_stamp(
        rt,
        53,
        check_of(1, 6, 1),
        &mut [0xffu8, 0x12, 0x34, 0, 0xff, 0xff, 0],
    )
}

fn show_sealed(rt: &impl Print) -> io::Result<()> {
    let mut most = [0u8; 512];
    testkit::fill(&mut most, 9);
    show_both(rt, 53, check_of(0, 511, 508), &mut most)?;
    show_both(rt, 0x11021, check_of(1, 510, 507), &mut most)?;
    let mut nine = [0u8; 9];
    testkit::fill(&mut nine, 10);
    show_both(rt, 0x11021, check_of(3, 6, 3), &mut nine)?;
    show_both(rt, 9, check_of(0, 8, 6), &mut nine)?;
    show_bytes(rt, &nine)?;
    println!(rt; "")
}

fn main(rt: HostRuntime) -> io::Result<()> {
    show_sums(&rt)?;
    show_first_refusals(&rt)?;
    let five = Generator::five();
    let ccitt = Generator::ccitt();
    show_places(&rt, five.coefficients)?;
    show_places(&rt, ccitt.coefficients)?;
    show_computed_zeros(&rt)?;
    show_sealed(&rt)
}
