// Reads settings of the page call from standard input, pages through each, and prints what the pages hold.
//
// The input: the groups of testkit::each_case. A case: generator, length, limit and syndrome of the calls; over how many syndromes
// from that one on; the first mark (its count, 5 Start, 6 Ended; four positions); the least room, of how many sizes in turn, and at
// most how many calls. Generators, lengths, limits and syndromes are given by their high and low 32 bits.
#![tactic(auto)]

use paging::Query;
use patterns::{MOST_POSITIONS, Mark};
use std::io;
use tables::Tables;
use testkit::Input;

// The least room of a call, of how many sizes its room is in turn, and at most how many calls.
#[derive(Clone, Copy)]
struct Plan {
    least: u32,
    sizes: u32,
    calls: u32,
}

impl Plan {
    fn room(self, call: u32) -> usize {
        self.least as usize + call.checked_rem(self.sizes).unwrap_or(0) as usize
    }
}

// What a sequence has come to: the mark reached, hashes of the bytes used and of those beyond, and sums.
#[derive(Clone, Copy)]
struct Run {
    mark: Mark,
    used: u32,
    beyond: u32,
    records: u64,
    calls: u32,
    refusals: u32,
    ended: u32,
}

impl Run {
    // One page call at the mark reached. A refused call leaves the mark, and its whole output stays.
    fn call(&mut self, query: Query, tables: Tables, out: &mut [u8]) {
        testkit::fill(out, 1);
        self.calls = self.calls.wrapping_add(1);
        match pages::page(query, tables, self.mark, out) {
            Ok(page) => {
                let n = page.used.min(out.len());
                self.mark = page.next;
                self.used = testkit::mix(self.used, &out[..n]);
                self.beyond = testkit::mix(self.beyond, &out[n..]);
                self.records = self.records.wrapping_add(page.written);
            }
            Err(refusal) => {
                self.beyond = testkit::mix(self.beyond, out);
                self.refusals = self.refusals.wrapping_add(u32::from(refusal));
            }
        }
    }

    // Calls until the list has ended, each at the mark that the one before left.
    fn sequence(&mut self, query: Query, tables: Tables, plan: Plan, space: &mut [u8]) {
        for call in 0..plan.calls {
            let n = plan.room(call).min(space.len());
            self.call(query, tables, &mut space[..n]);
            if matches!(self.mark, Mark::Ended) {
                self.ended = self.ended.wrapping_add(1);
                return;
            }
        }
    }
}

fn read_mark(input: &mut Input) -> Mark {
    let kind = input.number() as usize;
    let mut positions = [0u16; MOST_POSITIONS];
    for p in &mut positions {
        *p = (input.number() % 65536) as u16;
    }
    match positions.get(..kind) {
        Some(positions) => Mark::After(patterns::from_positions(positions)),
        None if kind == 5 => Mark::Start,
        None => Mark::Ended,
    }
}

fn print_mark(rt: &impl Print, mark: Mark) -> io::Result<()> {
    match mark {
        Mark::Start => println!(rt; "start"),
        Mark::Ended => println!(rt; "ended"),
        Mark::After(p) => {
            print!(rt; "after ")?;
            testkit::print_pattern(rt, p)?;
            println!(rt; "")
        }
    }
}

fn print_run(rt: &impl Print, run: Run) -> io::Result<()> {
    print!(rt; "{} {} {} ", run.used, run.beyond, run.records)?;
    print!(rt; "{} {} {} ", run.calls, run.refusals, run.ended)?;
    print_mark(rt, run.mark)
}

// A sequence from the same mark for each of several syndromes, with the hashes and sums carried on.
fn case(rt: &impl Print, input: &mut Input, tables: Tables) -> io::Result<()> {
    let query = Query {
        generator: input.wide(),
        bits: input.wide() as usize,
        limit: input.wide() as usize,
        syndrome: input.wide(),
    };
    let syndromes = u64::from(input.number());
    let mark = read_mark(input);
    let plan = Plan {
        least: input.number(),
        sizes: input.number(),
        calls: input.number(),
    };
    let mut run = Run {
        mark,
        used: testkit::UNMIXED,
        beyond: testkit::UNMIXED,
        records: 0,
        calls: 0,
        refusals: 0,
        ended: 0,
    };
    let mut space = [0u8; 4096];
    for k in 0..syndromes {
        let syndrome = query.syndrome.wrapping_add(k);
        run.mark = mark;
        run.sequence(Query { syndrome, ..query }, tables, plan, &mut space);
    }
    print_run(rt, run)
}

fn main(rt: HostRuntime) -> io::Result<()> {
    let mut text = [0u8; 65536];
    let n = streams::read_full(&mut rt.reader(), &mut text)?;
    testkit::each_case(&text[..n], |input, tables| case(&rt, input, tables))
}
