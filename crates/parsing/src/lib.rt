// A line of numbers, read.
#![tactic(auto)]

ghost use Rattle.std.specs.Prelude.{◌≡◌, ◌-◌, length, MatchOption, SomeIff};
ghost use Rattle.std.proofs.lemmas.List.Edits.{sets};
ghost use Rattle.parsing.specs.Input.{Digit, closing};
ghost use Rattle.parsing.specs.Parsing.{read, numbers_in, whole_line};

const MOST_DIGITS: usize = 9;

// The byte behind a number that so many more follow.
fn closing_byte(more: usize) -> u8
    ensures { result ≡ closing more }
{
    if more == 0 { b'\n' } else { b' ' }
}

// What a decimal digit is worth.
fn digit(c: u8) -> Option<u64>
    ensures { SomeIff result (Digit c) (c - 48) }
{
    if c.is_ascii_digit() {
        Some(u64::from(c - b'0'))
    } else {
        None
    }
}

// A number of one to nine digits with the byte `close` behind it, and what follows.
#[tactic(auto, using(crate::proofs::ReadLaws::reading))]
fn number(input: &[u8], close: u8) -> Option<(u64, &[u8])>
    ensures { MatchOption result (read close input.entry.now ≡ None) (λ p. read close input.entry.now ≡ Some (p.0, p.1.now)) }
{
    let (first, rest) = input.split_first()?;
    let mut value = digit(*first)?;
    for (i, c) in rest.iter().enumerate() {
        if *c == close {
            return Some((value, &rest[i + 1..]));
        }
        if i + 1 == MOST_DIGITS {
            return None;
        }
        value = value * 10 + digit(*c)?;
    }
    None
}

// The whole input as a line of as many numbers as there is room for. They are stored, up to the first that is missing, so that
// a caller has them of any line: the answer is a flag for this reason.
pub fn parse(input: &[u8], out: &mut [u64]) -> bool
    ensures answer { result ≡ whole_line (length out.old) input.now }
    ensures numbers { out.new ≡ sets out.old 0 (numbers_in (length out.old) input.now) }
{
    let count = out.len();
    let mut rest = input;
    for (i, place) in out.iter_mut().enumerate() {
        let Some((value, after)) = number(rest, closing_byte(count - i - 1)) else {
            return false;
        };
        *place = value;
        rest = after;
    }
    rest.is_empty()
}
