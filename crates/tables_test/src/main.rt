// Builds tables, breaks them entry by entry, and prints what the calls answer.
//
// The expected output was not made by this code. Five's first positions are those of tables 2 and 3 of Boussard and others
// (docs/RULES.md, sources), with 65535 for their -1; its steps were found by trying every t. The periods of the catalogue's
// generators are the least exponents whose powers, by squaring, leave 1.
#![tactic(auto)]

ghost use Rattle.std.specs.Prelude.{◌≤◌};

use poly::Generator;
use std::io;
use tables::Tables;

// What the slices hold before a call that is refused.
const MARK: u16 = 7777;

// Calls with both slices as they are, and prints the answer.
fn build(rt: &impl Print, generator: u64, steps: &mut [u16], firsts: &mut [u16]) -> io::Result<()> {
    match tables::tables(generator, steps, firsts) {
        Ok(period) => println!(rt; "period {period}"),
        Err(refusal) => println!(rt; "refused {}", u32::from(refusal)),
    }
}

// A line for each remainder: the remainder, its step and its first position.
fn print_tables(rt: &impl Print, tables: Tables) -> io::Result<()> {
    for (s, (step, first)) in tables.steps.iter().zip(tables.firsts).enumerate() {
        println!(rt; "{s} {step} {first}")?;
    }
    Ok(())
}

// Are the generator and both tables' lengths fit, and every entry right?
fn is_right(generator: u64, tables: Tables) -> bool {
    match Generator::new(generator) {
        Ok(g) => {
            !tables::unfit_tables(g, tables.steps.len(), tables.firsts.len())
                && verifying::verify(g, tables)
        }
        Err(_) => false,
    }
}

// How many of the sixteen entries that differ from the right one in a bit are found, at one place of a table.
fn found<F: Fn(&[u16]) -> bool>(table: &mut [u16], place: usize, is_right: F) -> u32
    requires { F.IsAlwaysCallable is_right }
{
    let mut count = 0;
    for bit in 0..16 {
        flip(table, place, bit);
        if !is_right(table) {
            count += 1;
        }
        flip(table, place, bit);
    }
    count
}

fn flip(table: &mut [u16], place: usize, bit: u32)
    requires { bit ≤ 15 }
{
    if let Some(entry) = table.get_mut(place) {
        *entry ^= 1 << bit;
    }
}

// A line for each place from 0 on, so many apart: the place, and the wrong entries found there in each table.
fn places(
    rt: &impl Print,
    generator: u64,
    steps: &mut [u16],
    firsts: &mut [u16],
    apart: usize,
) -> io::Result<()>
    requires { (1 ≤ apart) × (apart ≤ 65536) }
{
    for s in (0..steps.len()).step_by(apart) {
        let wrong_steps = found(
            steps,
            s,
            |steps| is_right(generator, Tables { steps, firsts }),
        );
        let wrong_firsts = found(
            firsts,
            s,
            |firsts| is_right(generator, Tables { steps, firsts }),
        );
        println!(rt; "{s} {wrong_steps} {wrong_firsts}")?;
    }
    Ok(())
}

// The tables of a generator before and after every place was broken and mended: 1 if they are right, else 0.
fn breakage(
    rt: &impl Print,
    generator: u64,
    steps: &mut [u16],
    firsts: &mut [u16],
    apart: usize,
) -> io::Result<()>
    requires { (1 ≤ apart) × (apart ≤ 65536) }
{
    build(rt, generator, steps, firsts)?;
    println!(rt;
        "{}",
        u8::from(is_right(generator, Tables { steps, firsts }))
    )?;
    places(rt, generator, steps, firsts, apart)?;
    println!(rt;
        "{}",
        u8::from(is_right(generator, Tables { steps, firsts }))
    )
}

// How many entries still hold the mark.
fn kept(s: &[u16]) -> usize {
    s.iter().filter(|x| **x == MARK).count()
}

// A call that is refused, of so many entries: its answer, and how much of each slice is as it was.
fn turn_down<const N: usize, const M: usize>(rt: &impl Print, generator: u64) -> io::Result<()>
    requires { (N ≤ 65536) × (M ≤ 65536) }
{
    let mut steps = [MARK; N];
    let mut firsts = [MARK; M];
    build(rt, generator, &mut steps, &mut firsts)?;
    println!(rt; "{} {}", kept(&steps), kept(&firsts))
}

// A line for each generator: the generator, and the answer with tables of so many entries.
fn periods<const N: usize>(rt: &impl Print, generators: &[u64]) -> io::Result<()>
    requires { N ≤ 65536 }
{
    let mut steps = [0u16; N];
    let mut firsts = [0u16; N];
    for generator in generators {
        print!(rt; "{generator} ")?;
        build(rt, *generator, &mut steps, &mut firsts)?;
    }
    Ok(())
}

// The catalogue's generators of degree 3 to 16, with 2^n for each degree.
fn catalogue(rt: &impl Print) -> io::Result<()> {
    periods::<8>(rt, &[11])?;
    periods::<16>(rt, &[19])?;
    periods::<32>(rt, &[41, 53, 37])?;
    periods::<64>(rt, &[103, 71, 89, 67, 111])?;
    periods::<128>(rt, &[137, 207, 197])?;
    periods::<256>(rt, &[303, 423, 411, 313, 469, 285, 329, 263, 305])?;
    periods::<1024>(rt, &[1587, 2009, 1397])?;
    periods::<2048>(rt, &[2949, 2823])?;
    periods::<4096>(rt, &[7955, 6159, 7473])?;
    periods::<8192>(rt, &[15605])?;
    periods::<16384>(rt, &[18437, 24621])?;
    periods::<32768>(rt, &[50585, 59413])?;
    periods::<65536>(rt, &[98309, 116839, 66953, 81253, 69665, 94051])?;
    periods::<65536>(rt, &[67595, 88373, 95579, 73167, 101303, 106647])
}

fn small(rt: &impl Print) -> io::Result<()> {
    let mut steps = [0u16; 32];
    let mut firsts = [0u16; 32];
    let generator = Generator::five().coefficients;
    build(rt, generator, &mut steps, &mut firsts)?;
    print_tables(
        rt,
        Tables {
            steps: &steps,
            firsts: &firsts,
        },
    )?;
    breakage(rt, generator, &mut steps, &mut firsts, 1)
}

fn large(rt: &impl Print) -> io::Result<()> {
    let mut steps = [0u16; 65536];
    let mut firsts = [0u16; 65536];
    breakage(
        rt,
        Generator::ccitt().coefficients,
        &mut steps,
        &mut firsts,
        4099,
    )
}

fn main(rt: HostRuntime) -> io::Result<()> {
    small(&rt)?;
    catalogue(&rt)?;
    large(&rt)?;
    turn_down::<31, 32>(&rt, 8)?;
    turn_down::<8, 8>(&rt, 7)?;
    turn_down::<32, 32>(&rt, 131073)?;
    turn_down::<1, 1>(&rt, 0)?;
    turn_down::<32, 32>(&rt, 18446744073709551615)?;
    turn_down::<31, 32>(&rt, 53)?;
    turn_down::<32, 31>(&rt, 53)?;
    turn_down::<33, 32>(&rt, 53)?;
    turn_down::<0, 0>(&rt, 53)?;
    turn_down::<32, 32>(&rt, 53)
}
