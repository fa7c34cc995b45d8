// What the test programs share: numbers of a text, bytes from a seed, a hash, tables with a change, and printing.
#![tactic(auto)]

use base::Refusal;
use checksum::Check;
pub use maker::fill;
use packet::CrcNumbers;
use patterns::{Pattern, Positions};
use std::fmt::Display;
use std::{fmt, io};
use tables::Tables;

// A text of numbers, as far as it is still to be read.
#[derive(Drop)]
pub struct Input<'a> {
    rest: &'a [u8],
}

impl<'a> Input<'a> {
    pub fn new(text: &'a [u8]) -> Input<'a> {
        Input { rest: text }
    }

    // The next decimal number, modulo 2^32; 0 where the text has no more digits.
    pub fn number(&mut self) -> u32 {
        let start = self.rest.iter().position(|b| b.is_ascii_digit());
        let text = &self.rest[start.unwrap_or(self.rest.len())..];
        let mut value: u32 = 0;
        for (i, b) in text.iter().enumerate() {
            if !b.is_ascii_digit() {
                self.rest = &text[i..];
                return value;
            }
            value = value.wrapping_mul(10).wrapping_add(u32::from(*b - b'0'));
        }
        self.rest = &[];
        value
    }

    // A number given by its high and low 32 bits.
    pub fn wide(&mut self) -> u64 {
        let high = u64::from(self.number());
        let low = u64::from(self.number());
        high << 32 | low
    }

    // The numbers that a CRC is taken by.
    pub fn crc_numbers(&mut self) -> CrcNumbers {
        CrcNumbers {
            generator: self.wide(),
            init: self.wide(),
            xorout: self.wide(),
        }
    }

    // The range and the field of a second check.
    pub fn check(&mut self) -> Check {
        Check {
            from: self.wide() as usize,
            to: self.wide() as usize,
            field: self.wide() as usize,
        }
    }

    // As many elements of a slice as the next number says, or all where there are fewer.
    pub fn part<'b, T>(&mut self, space: &'b mut [T]) -> &'b mut [T] {
        let n = space.len().min(self.number() as usize);
        &mut space[..n]
    }

    // A packet's bytes: 0 and a seed, or another number and the bytes themselves.
    pub fn packet(&mut self, packet: &mut [u8]) {
        if self.number() == 0 {
            fill(packet, self.number());
            return;
        }
        for b in packet {
            *b = (self.number() % 256) as u8;
        }
    }
}

// The 32-bit FNV-1a hash, carried on from the bytes or numbers before: each is XORed in, then the product with an odd prime is
// taken modulo 2^32. Both steps can be undone, so what differs in one place never hashes alike.
pub fn mix<T: Copy + Into<u32>>(before: u32, xs: &[T]) -> u32 {
    let mut h = before;
    for x in xs {
        h = (h ^ (*x).into()).wrapping_mul(16777619);
    }
    h
}

// The hash before the first byte.
pub const UNMIXED: u32 = 2166136261;

pub fn hash<T: Copy + Into<u32>>(xs: &[T]) -> u32 {
    mix(UNMIXED, xs)
}

fn change(table: &mut [u16], place: usize, by: u16) {
    if let Some(entry) = table.get_mut(place) {
        *entry ^= by;
    }
}

// Builds the tables of a generator, of a number of entries in both slices.
fn build(generator: u64, size: usize, steps: &mut [u16], firsts: &mut [u16]) {
    if size <= steps.len() && size <= firsts.len() {
        let _ = tables::tables(generator, &mut steps[..size], &mut firsts[..size]);
    }
}

// Tables as the text has them: the generator and the number of entries, a change (0 for the steps or another number for the firsts,
// the place, and what is XORed in), and how many entries of each are lent.
pub fn prepare<'a>(input: &mut Input, steps: &'a mut [u16], firsts: &'a mut [u16]) -> Tables<'a> {
    build(input.wide(), input.number() as usize, steps, firsts);
    let which = input.number();
    let place = input.number() as usize;
    let by = (input.number() % 65536) as u16;
    if which == 0 {
        change(steps, place, by);
    } else {
        change(firsts, place, by);
    }
    let n = steps.len().min(input.number() as usize);
    let m = firsts.len().min(input.number() as usize);
    Tables {
        steps: &steps[..n],
        firsts: &firsts[..m],
    }
}

// Each case of each group, with the tables of its group. The text has the number of groups first, then for each its tables, the number
// of its cases, and the cases.
pub fn each_case<F: Fn(&mut Input, Tables) -> io::Result<()>>(
    text: &[u8],
    case: F,
) -> io::Result<()>
    requires { F.IsAlwaysCallable case }
{
    let mut steps = [0u16; 65536];
    let mut firsts = [0u16; 65536];
    let mut input = Input::new(text);
    for _ in 0..input.number() {
        let tables = prepare(&mut input, &mut steps, &mut firsts);
        for _ in 0..input.number() {
            case(&mut input, tables)?;
        }
    }
    Ok(())
}

// The number of a refusal, or 0.
pub fn code(answer: Result<(), Refusal>) -> u32 {
    match answer {
        Ok(()) => 0,
        Err(refusal) => u32::from(refusal),
    }
}

// An answer as it is printed: its value, or "refused" and the number of the refusal.
#[derive(Drop)]
pub struct Answer<T>(pub Result<T, Refusal>);

impl<T: Display> Display for Answer<T> {
    fn fmt<W: fmt::Write>(&self, f: &mut fmt::Formatter<W>) -> fmt::Result {
        match &self.0 {
            Ok(value) => write!(f, "{value}"),
            Err(refusal) => {
                let number = u32::from(*refusal);
                write!(f, "refused {number}")
            }
        }
    }
}

// Prints numbers, each with a blank behind it.
pub fn print_numbers<T: Display>(rt: &impl Print, numbers: &[T]) -> io::Result<()> {
    for n in numbers {
        print!(rt; "{n} ")?;
    }
    Ok(())
}

// Prints the positions of a pattern, each with a blank behind it.
pub fn print_pattern(rt: &impl Print, p: Pattern) -> io::Result<()> {
    print_numbers(rt, Positions::of(p).as_slice())
}
