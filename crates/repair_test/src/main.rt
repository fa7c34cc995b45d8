// Reads packets and tables from standard input, and prints the verdict on each packet, its output and what is handed back.
//
// The input: the groups of testkit::each_case. A case: generator, initial and final value, range, field and limit of the calls, each
// by its high and low 32 bits; the packet's length and its bytes as testkit::Input::packet takes them; the room for the output; a
// first position, and how many from there on are flipped in turn, each alone, after a call with none.
#![tactic(auto)]

use checksum::Check;
use packet::CrcNumbers;
use std::io;
use tables::Tables;
use testkit::Input;
use verdicts::Verdict;

// What every call of a case is given.
#[derive(Clone, Copy)]
struct Setting<'a> {
    numbers: CrcNumbers,
    check: Check,
    limit: usize,
    tables: Tables<'a>,
}

// Flips the bit at a position of the packet; another position changes nothing.
fn flip(packet: &mut [u8], p: usize) {
    if p / 8 < packet.len() {
        let i = packet.len() - 1 - p / 8;
        packet[i] ^= 1 << (p % 8);
    }
}

fn print_verdict(rt: &impl Print, verdict: Verdict) -> io::Result<()> {
    match verdict {
        Verdict::Intact => print!(rt; "intact "),
        Verdict::Repaired(p) => {
            print!(rt; "repaired ")?;
            testkit::print_pattern(rt, p)
        }
        Verdict::Several(k, p) => {
            print!(rt; "several {k} ")?;
            testkit::print_pattern(rt, p)
        }
        Verdict::None => print!(rt; "none "),
    }
}

// One repair call, and a line for it: the verdict, the hash of the output, and the length and the hash of the packet to publish from.
fn ask(rt: &impl Print, set: Setting, packet: &[u8], out: &mut [u8]) -> io::Result<()> {
    testkit::fill(out, 1);
    match repair::repair(set.numbers, set.check, set.limit, set.tables, packet, out) {
        Ok(verdict) => {
            print_verdict(rt, verdict)?;
            let published = repair::hand_back(packet, out, verdict);
            print!(rt; "{} {} ", testkit::hash(out), published.len())?;
            println!(rt; "{}", testkit::hash(published))
        }
        Err(refusal) => { println!(rt; "refused {} {}", u32::from(refusal), testkit::hash(out)) }
    }
}

fn case(rt: &impl Print, input: &mut Input, tables: Tables) -> io::Result<()> {
    let set = Setting {
        numbers: input.crc_numbers(),
        check: input.check(),
        limit: input.wide() as usize,
        tables,
    };
    let mut received = [0u8; 1024];
    let mut mended = [0u8; 1024];
    let packet = input.part(&mut received);
    input.packet(packet);
    let out = input.part(&mut mended);
    ask(rt, set, packet, out)?;
    let first = u64::from(input.number());
    for i in 0..u64::from(input.number()) {
        let p = (first + i) as usize;
        flip(packet, p);
        ask(rt, set, packet, out)?;
        flip(packet, p);
    }
    Ok(())
}

fn main(rt: HostRuntime) -> io::Result<()> {
    let mut text = [0u8; 196608];
    let n = streams::read_full(&mut rt.reader(), &mut text)?;
    testkit::each_case(&text[..n], |input, tables| case(&rt, input, tables))
}
