// Reads shapes and lengths from standard input, scatters and gathers bytes, and prints what the calls answer and leave.
//
// The input: the number of cases. A case: rows and columns, each by its high and low 32 bits; how many bytes the input has, and how
// many the output; the seed of the input's bytes.
#![tactic(auto)]

use std::io;
use testkit::Input;

// Both ways, each into an output with the same bytes in it: the number of a refusal, or 0, and the hash of what is in the output.
fn both_ways(
    rt: &impl Print,
    rows: usize,
    columns: usize,
    input: &[u8],
    output: &mut [u8],
) -> io::Result<()> {
    testkit::fill(output, 1);
    let scattered = testkit::code(scatter::scatter(rows, columns, input, output));
    print!(rt; "{scattered} {} ", testkit::hash(output))?;
    testkit::fill(output, 1);
    let gathered = testkit::code(scatter::gather(rows, columns, input, output));
    println!(rt; "{gathered} {} ", testkit::hash(output))
}

// One case, in room for 65 times 65 bytes, the most that a case has.
fn case(rt: &impl Print, text: &mut Input) -> io::Result<()> {
    let rows = text.wide() as usize;
    let columns = text.wide() as usize;
    let mut input = [0u8; 4225];
    let mut output = [0u8; 4225];
    let input = text.part(&mut input);
    let output = text.part(&mut output);
    testkit::fill(input, text.number());
    both_ways(rt, rows, columns, input, output)
}

fn main(rt: HostRuntime) -> io::Result<()> {
    let mut text = [0u8; 65536];
    let n = streams::read_full(&mut rt.reader(), &mut text)?;
    let mut text = Input::new(&text[..n]);
    for _ in 0..text.number() {
        case(&rt, &mut text)?;
    }
    Ok(())
}
