// Compares the packet maker and its stream with numbers and packets that were made by other code (see stdout).
#![tactic(auto)]

use checksum::Check;
use packet::CrcNumbers;
use std::io;

// From 65871 eight bytes come for which a checksum of zero is computed.
const SEEDS: [u32; 7] = [0, 1, 65871, 65536, 2147483648, 4294967294, 4294967295];

// What packets are made by: numbers that fit, and numbers that do not.
const GENERATORS: [u64; 5] = [9, 53, 69665, 131071, 131073];

const VALUES: [u64; 4] = [0, 6, 65535, 65536];

const LENGTHS: [usize; 6] = [0, 3, 8, 64, 512, 513];

// Ranges and fields: some for each length, then an empty range, an odd distance, a field past the end, one before the start, and
// numbers whose sums wrap.
const CHECKS: [(usize, usize, usize); 10] = [
    (0, 2, 0),
    (0, 6, 4),
    (1, 6, 3),
    (0, 62, 30),
    (0, 510, 508),
    (2, 2, 2),
    (0, 6, 1),
    (0, 6, 6),
    (4, 6, 2),
    (
        18446744073709551614,
        18446744073709551615,
        18446744073709551615,
    ),
];

// The first states after a seed.
fn show_states(rt: &impl Print, seed: u32) -> io::Result<()> {
    let mut state = seed;
    for _ in 0..11 {
        state = maker::next_state(state);
        print!(rt; "{state} ")?;
    }
    println!(rt; "")
}

// One call in a packet of a length: a refusal as `r` and its number, a state as `s` and the state. The hash goes on over the packet.
fn show_call(
    rt: &impl Print,
    numbers: CrcNumbers,
    seed: u32,
    check: Check,
    length: usize,
    hash: &mut u32,
) -> io::Result<()> {
    let mut space = [170u8; 513];
    let n = length.min(space.len());
    let packet = &mut space[..n];
    match maker::make(numbers, seed, check, packet) {
        Ok(state) => print!(rt; "s{state} ")?,
        Err(refusal) => {
            let number = u32::from(refusal);
            print!(rt; "r{number} ")?
        }
    }
    *hash = testkit::mix(*hash, packet);
    Ok(())
}

// Every generator with every length, every two values and every range; a line for each initial value.
fn show_calls(rt: &impl Print) -> io::Result<()> {
    let mut hash = testkit::UNMIXED;
    let mut seeds = SEEDS.iter().cycle();
    for generator in GENERATORS {
        for length in LENGTHS {
            for init in VALUES {
                for xorout in VALUES {
                    let numbers = CrcNumbers {
                        generator,
                        init,
                        xorout,
                    };
                    for ((from, to, field), seed) in CHECKS.iter().zip(seeds.by_ref()) {
                        let check = checksum::check_of(*from, *to, *field);
                        show_call(rt, numbers, *seed, check, length, &mut hash)?;
                    }
                }
                println!(rt; "{hash}")?;
            }
        }
    }
    Ok(())
}

fn main(rt: HostRuntime) -> io::Result<()> {
    for seed in SEEDS {
        show_states(&rt, seed)?;
    }
    show_calls(&rt)
}
