// Prints what is read of lines that are right or wrong at one place, and the text of a few records.
#![tactic(auto)]

ghost use Rattle.std.specs.Prelude.{◌*◌, ◌≤◌, length};

use base::Refusal;
use std::io;

// Reads N numbers of each input, and prints as many as there is room for, and whether the input is a line of so many.
fn read<const N: usize>(rt: &impl Print, inputs: &[&str]) -> io::Result<()>
    requires { N ≤ 4 }
{
    for input in inputs {
        let mut numbers = [7u64; N];
        let whole = parsing::parse(input.as_bytes(), &mut numbers);
        testkit::print_numbers(rt, &numbers)?;
        println!(rt; "{}", if whole { "line" } else { "bad" })?;
    }
    Ok(())
}

// The text of some records, with the number of its bytes.
fn print_page(rt: &impl Print, page: &[u8]) -> io::Result<()>
    requires { 4 * length page.now ≤ 64 }
{
    let mut out = [b'.'; 64];
    let n = lines::page_text(page, &mut out);
    println!(rt; "{n}")?;
    rt.write_all(&out)?;
    println!(rt; "")
}

// A line with the number of its bytes in front.
fn print_line(rt: &impl Print, line: &[u8]) -> io::Result<()> {
    print!(rt; "{} ", line.len())?;
    rt.write_all(line)
}

fn print_end(rt: &impl Print, count: u64) -> io::Result<()> {
    let mut out = [b'.'; 32];
    let n = lines::end_line(count, &mut out);
    print_line(rt, &out[..n])
}

fn print_refused(rt: &impl Print, refusal: Refusal) -> io::Result<()> {
    let mut out = [b'.'; 32];
    let n = lines::refused_line(refusal, &mut out);
    print_line(rt, &out[..n])
}

fn print_bad(rt: &impl Print) -> io::Result<()> {
    let mut out = [b'.'; 32];
    let n = lines::bad_line(&mut out);
    print_line(rt, &out[..n])
}

const RIGHT_LINES: [&str; 5] = [
    "53 8 2 3\n",
    "000000053 8 2 3\n",
    "0 0 0 0\n",
    "999999999 999999999 999999999 999999999\n",
    "1 02 003 000000004\n",
];

const WRONG_BLANKS: [&str; 6] = [
    "53  8 2 3\n",
    " 53 8 2 3\n",
    "53 8 2 3 \n",
    "53\t8 2 3\n",
    "53 82 3\n",
    "53 8 2 3 4\n",
];

const WRONG_ENDS: [&str; 8] = [
    "",
    "\n",
    "53 8 2 3",
    "53 8 2 3\r\n",
    "53 8 2 3\n\n",
    "53 8 2 3\n5",
    "53 8 2 \n",
    "53 8\n2 3\n",
];

const WRONG_DIGITS: [&str; 8] = [
    "0000000053 8 2 3\n",
    "53 8 2 1000000000\n",
    "+53 8 2 3\n",
    "53 8 2 -3\n",
    "53 8 2 3h\n",
    "5: 8 2 3\n",
    "5/ 8 2 3\n",
    "five 8 2 3\n",
];

const THREE_NUMBERS: [&str; 4] = ["53 8 2\n", "53 8 2 3\n", "53 8\n", "53 8 2"];

fn main(rt: HostRuntime) -> io::Result<()> {
    read::<4>(&rt, &RIGHT_LINES)?;
    println!(rt; "blanks")?;
    read::<4>(&rt, &WRONG_BLANKS)?;
    println!(rt; "ends")?;
    read::<4>(&rt, &WRONG_ENDS)?;
    println!(rt; "digits")?;
    read::<4>(&rt, &WRONG_DIGITS)?;
    println!(rt; "three numbers")?;
    read::<3>(&rt, &THREE_NUMBERS)?;
    println!(rt; "pages")?;
    print_page(&rt, b"")?;
    print_page(&rt, b"\x00")?;
    print_page(&rt, b"\x02\x00\x00\x00\x01")?;
    print_page(&rt, b"\x01\x0f\xff\x00\x01\x00\x0a")?;
    print_page(&rt, b"\x01\xff\xff\x02\x00\x01\x00")?;
    print_page(&rt, b"\x00\x00\x00\x00\x00\x00\x00\x00\x00")?;
    println!(rt; "closing lines")?;
    print_end(&rt, 0)?;
    print_end(&rt, 2)?;
    print_end(&rt, u64::MAX)?;
    print_refused(&rt, Refusal::Generator)?;
    print_refused(&rt, Refusal::Field)?;
    print_bad(&rt)
}
