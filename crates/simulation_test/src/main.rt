// Reads settings and tables from standard input, and prints what a simulation by each setting answers and leaves.
//
// The input: the groups of testkit::each_case. A case: generator, initial and final value, range, field, limit and trials of the call,
// each by its high and low 32 bits; then its seed, the lengths of packet, output and counts, and the seed from which these three are
// filled before the call.
#![tactic(auto)]

use checksum::Check;
use packet::CrcNumbers;
use std::io;
use tables::Tables;
use testkit::{Answer, Input};

// Numbers of the stream: each state after the seed.
fn fill_counts(counts: &mut [u32], seed: u32) {
    let mut state = seed;
    for count in counts {
        state = maker::next_state(state);
        *count = state;
    }
}

// What a call is given, apart from what is lent to it.
#[derive(Clone, Copy)]
struct Setting {
    numbers: CrcNumbers,
    check: Check,
    limit: usize,
    trials: u64,
    seed: u32,
}

// One simulation, and a line for it: the answer, the hashes of packet and output, and the counts, or their hash if it was refused.
fn ask(
    rt: &impl Print,
    set: Setting,
    tables: Tables,
    packet: &mut [u8],
    output: &mut [u8],
    counts: &mut [u32],
) -> io::Result<()> {
    let answer = simulation::simulate(
        set.numbers,
        set.seed,
        set.check,
        set.limit,
        set.trials,
        tables,
        packet,
        output,
        counts,
    );
    let refused = answer.is_err();
    print!(rt; "{} ", Answer(answer))?;
    print!(rt; "{} {} ", testkit::hash(packet), testkit::hash(output))?;
    if refused {
        println!(rt; "{}", testkit::hash(counts))
    } else {
        testkit::print_numbers(rt, counts)?;
        println!(rt; "")
    }
}

fn case(rt: &impl Print, input: &mut Input, tables: Tables) -> io::Result<()> {
    let set = Setting {
        numbers: input.crc_numbers(),
        check: input.check(),
        limit: input.wide() as usize,
        trials: input.wide(),
        seed: input.number(),
    };
    let mut packet = [0u8; 1024];
    let mut output = [0u8; 1024];
    let mut counts = [0u32; 64];
    let packet = input.part(&mut packet);
    let output = input.part(&mut output);
    let counts = input.part(&mut counts);
    let before = input.number();
    testkit::fill(packet, before);
    testkit::fill(output, maker::next_state(before));
    fill_counts(counts, before);
    ask(rt, set, tables, packet, output, counts)
}

fn main(rt: HostRuntime) -> io::Result<()> {
    let mut text = [0u8; 196608];
    let n = streams::read_full(&mut rt.reader(), &mut text)?;
    testkit::each_case(&text[..n], |input, tables| case(&rt, input, tables))
}
