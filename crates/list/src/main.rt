// Lists the error patterns that one line of input asks for, "generator L N syndrome". What is printed for an input is the
// definition `Prints` of the crate lister; here bytes are moved, and nothing else is done.
#![tactic(auto)]

ghost use Rattle.std.specs.Prelude.{◌≡◌, ◌<◌, ◌≤◌, length, IfOk, OnOk, OnErr, IfSome};
ghost use Rattle.std.specs.Io.KnownBytes.{Appends};
ghost use Rattle.lister.specs.Turns.{longest_line, printed, text_due, Sound, entries_for, Tabled, HasRoom};
ghost use Rattle.streams.specs.Streams.{ReadSome, WroteSome};
ghost use Rattle.list.specs.Moved.{Listed, ListedSome};

use lister::{Due, MOST_ENTRIES, Turn};
use std::io;
use std::io::{Read, Write};
use tables::Tables;

// The bytes of a page, and of its text.
const PAGE_BYTES: usize = 16384;

const TEXT_BYTES: usize = 4 * PAGE_BYTES;

// Prints what is due, turn by turn.
fn print_due<W: Write>(
    out: &mut W,
    due: Due,
    tables: Tables,
    page: &mut [u8],
    text: &mut [u8],
) -> io::Result<()>
    requires { Sound due × Tabled due tables.steps.now tables.firsts.now × HasRoom page.old text.old }
    ensures ok { OnOk result (Appends (W.contents out.old) (W.contents out.new) (text_due due)) }
    ensures err { OnErr result (WroteSome (W.contents out.old) (W.contents out.new) (text_due due)) }
{
    let mut next = due;
    loop {
        match lister::write_next(next, tables, page, text) {
            Turn::Last(n) => return streams::write_all(out, &text[..n]),
            Turn::More(n, rest) => {
                streams::write_all(out, &text[..n])?;
                next = rest;
            }
        }
    }
}

// The same with tables that are first built, of just the entries that are needed.
fn print_by<W: Write>(
    out: &mut W,
    due: Due,
    steps: &mut [u16],
    firsts: &mut [u16],
) -> io::Result<()>
    requires { Sound due × (length steps.old ≡ entries_for due) × (length firsts.old ≡ entries_for due) }
    ensures ok { OnOk result (Appends (W.contents out.old) (W.contents out.new) (text_due due)) }
    ensures err { OnErr result (WroteSome (W.contents out.old) (W.contents out.new) (text_due due)) }
{
    lister::build(due, steps, firsts);
    let mut page = [0u8; PAGE_BYTES];
    let mut text = [0u8; TEXT_BYTES];
    print_due(out, due, Tables { steps, firsts }, &mut page, &mut text)
}

// Reads the input until it ends or the buffer is full, and judges it.
fn read_input<R: Read>(input: &mut R, buffer: &mut [u8]) -> io::Result<Due>
    requires { longest_line < length buffer.old }
    ensures text { IfOk result (λ due. IfSome (R.remaining input.old) (λ bytes. text_due due ≡ printed bytes)) }
    ensures sound { IfOk result (λ due. Sound due) }
    ensures err { OnErr result (ReadSome (R.remaining input.old) (R.remaining input.new) buffer.new) }
{
    let n = streams::read_full(input, buffer)?;
    Ok(lister::begin(buffer, n))
}

// Reads the whole input, and prints what is due for it.
fn list<R: Read, W: Write>(input: &mut R, out: &mut W) -> io::Result<()>
    ensures ok { OnOk result (IfSome (R.remaining input.old) (λ bytes. Listed bytes (W.contents out.old) (W.contents out.new))) }
    ensures err { OnErr result (IfSome (R.remaining input.old) (λ bytes. ListedSome bytes (W.contents out.old) (W.contents out.new))) }
{
    let mut line = [0u8; 64];
    let due = read_input(input, &mut line)?;
    let size = lister::entries(due);
    let mut steps = [0u16; MOST_ENTRIES];
    let mut firsts = [0u16; MOST_ENTRIES];
    print_by(out, due, &mut steps[..size], &mut firsts[..size])
}

fn main(rt: HostRuntime) -> io::Result<()> {
    let mut input = rt.reader();
    let mut out = io::writer(&rt);
    list(&mut input, &mut out)
}
