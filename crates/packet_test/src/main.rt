// Reads packets and what their CRCs are taken by from standard input and prints what remainder and seal answer.
//
// The input: the number of cases, then for each the high and low 32 bits of the generator, of the initial
// and of the final value, the packet's length in bytes, and its bytes as testkit::Input::packet takes them.
#![tactic(auto)]

use packet::CrcNumbers;
use std::io;
use testkit::{Answer, Input};

// A line for a packet: its remainder, the answer of seal, the bytes' hash and the remainder after it.
fn ask(rt: &impl Print, numbers: CrcNumbers, packet: &mut [u8]) -> io::Result<()> {
    let before = Answer(crc::remainder(numbers, packet));
    let sealed = Answer(crc::seal(numbers, packet).map(|()| "sealed"));
    let hash = testkit::hash(packet);
    let after = Answer(crc::remainder(numbers, packet));
    println!(rt; "{before} {sealed} {hash} {after}")
}

fn case(rt: &impl Print, input: &mut Input) -> io::Result<()> {
    let numbers = input.crc_numbers();
    let mut space = [0u8; 1024];
    let packet = input.part(&mut space);
    input.packet(packet);
    ask(rt, numbers, packet)
}

fn main(rt: HostRuntime) -> io::Result<()> {
    let mut text = [0u8; 131072];
    let n = streams::read_full(&mut rt.reader(), &mut text)?;
    let mut input = Input::new(&text[..n]);
    for _ in 0..input.number() {
        case(&rt, &mut input)?;
    }
    Ok(())
}
