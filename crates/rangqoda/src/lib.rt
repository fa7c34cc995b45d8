// The library as C functions, which include/rangqoda.h documents. Each calls one call of the layers below and takes its
// answer apart: a number is returned, and what else there is to tell goes into lent memory.
#![tactic(auto)]

ghost use Rattle.std.specs.Prelude.{◌≡◌, eqb};
ghost use Rattle.base.specs.Outcome.{pick};
ghost use Rattle.base.specs.Answers.{outcome};
ghost use Rattle.packet.specs.Packet.{crc_of};
ghost use Rattle.crc.specs.Calls.{remainder_call, seal_call, seal_packet};
ghost use Rattle.checksum.specs.Checksum.{check_of};
ghost use Rattle.checksum.specs.Calls.{sum_call, stamp_call, stamp_packet};
ghost use Rattle.maker.specs.Calls.{make_call, make_packet};
ghost use Rattle.tables.specs.Calls.{tables_call, steps_after, firsts_after};
ghost use Rattle.pages.specs.Conditions.{page_request};
ghost use Rattle.pages.specs.Calls.{page_call, page_left};
ghost use Rattle.repair.specs.Calls.{repair_call};
ghost use Rattle.simulation.specs.Calls.{
  simulation,
  simulate_call,
  simulate_packet,
  simulate_output,
  simulate_counts,
};
ghost use Rattle.scatter.specs.Calls.{block_call, scatter_output, gather_output};
ghost use Rattle.codec.specs.Marks.{point_of_bytes};
ghost use Rattle.codec.specs.Verdicts.{verdict_length, publish_code};
ghost use Rattle.rangqoda.specs.Codes.{code, changed};
ghost use Rattle.rangqoda.specs.Pages.{mark_after, used_after, written_after};
ghost use Rattle.rangqoda.specs.Repairs.{handed, verdict_after, output_after};

use base::Refusal;
use codec::VERDICT_BYTES;
use packet::CrcNumbers;
use paging::Query;
use tables::Tables;

// The number that a call of this answer returns.
fn code<T: Copy>(answer: Result<T, Refusal>) -> u32
    ensures { result ≡ code (outcome answer) }
{
    match answer {
        Ok(_) => 0,
        Err(refusal) => u32::from(refusal),
    }
}

// The same, with the value of an accepted call stored.
fn store<T: Copy>(answer: Result<T, Refusal>, place: &mut T) -> u32
    ensures answer { result ≡ code (outcome answer) }
    ensures place { place.new ≡ changed place.old (λ v. v) (outcome answer) }
{
    match answer {
        Ok(value) => {
            *place = value;
            0
        }
        Err(refusal) => u32::from(refusal),
    }
}

#[unsafe(no_mangle)]
pub extern "C" fn rangqoda_remainder(
    generator: u64,
    init: u64,
    xorout: u64,
    packet: &[u8],
    remainder: &mut u64,
) -> u32
    ensures answer { result ≡ code (remainder_call (crc_of generator init xorout) packet.now) }
    ensures remainder { remainder.new ≡ changed remainder.old (λ v. v) (remainder_call (crc_of generator init xorout) packet.now) }
{
    let numbers = CrcNumbers {
        generator,
        init,
        xorout,
    };
    store(crc::remainder(numbers, packet), remainder)
}

#[unsafe(no_mangle)]
pub extern "C" fn rangqoda_seal(generator: u64, init: u64, xorout: u64, packet: &mut [u8]) -> u32
    ensures answer { result ≡ code (seal_call (crc_of generator init xorout) packet.old) }
    ensures packet { packet.new ≡ seal_packet (crc_of generator init xorout) packet.old }
{
    let numbers = CrcNumbers {
        generator,
        init,
        xorout,
    };
    code(crc::seal(numbers, packet))
}

#[unsafe(no_mangle)]
pub extern "C" fn rangqoda_sum(bytes: &[u8]) -> u16
    ensures { result ≡ sum_call bytes.now }
{
    checksum::sum(bytes)
}

#[unsafe(no_mangle)]
pub extern "C" fn rangqoda_stamp(
    generator: u64,
    start: usize,
    end: usize,
    field: usize,
    packet: &mut [u8],
) -> u32
    ensures answer { result ≡ code (stamp_call generator (check_of start end field) packet.old) }
    ensures packet { packet.new ≡ stamp_packet generator (check_of start end field) packet.old }
{
    let check = checksum::check_of(start, end, field);
    code(checksum::stamp(generator, check, packet))
}

#[unsafe(no_mangle)]
pub extern "C" fn rangqoda_make(
    generator: u64,
    init: u64,
    xorout: u64,
    seed: u32,
    start: usize,
    end: usize,
    field: usize,
    packet: &mut [u8],
    state: &mut u32,
) -> u32
    ensures answer { result ≡ code (make_call (crc_of generator init xorout) seed (check_of start end field) packet.old) }
    ensures packet { packet.new ≡ make_packet (crc_of generator init xorout) seed (check_of start end field) packet.old }
    ensures state { state.new ≡ changed state.old (λ v. v) (make_call (crc_of generator init xorout) seed (check_of start end field) packet.old) }
{
    let check = checksum::check_of(start, end, field);
    let numbers = CrcNumbers {
        generator,
        init,
        xorout,
    };
    store(maker::make(numbers, seed, check, packet), state)
}

#[unsafe(no_mangle)]
pub extern "C" fn rangqoda_tables(
    generator: u64,
    step: &mut [u16],
    first: &mut [u16],
    period: &mut u64,
) -> u32
    ensures answer { result ≡ code (tables_call generator step.old first.old) }
    ensures step { step.new ≡ steps_after generator step.old first.old }
    ensures first { first.new ≡ firsts_after generator step.old first.old }
    ensures period { period.new ≡ changed period.old (λ v. v) (tables_call generator step.old first.old) }
{
    store(tables::tables(generator, step, first), period)
}

#[unsafe(no_mangle)]
pub extern "C" fn rangqoda_scatter(
    rows: usize,
    columns: usize,
    input: &[u8],
    output: &mut [u8],
) -> u32
    ensures answer { result ≡ code (block_call rows columns input.now output.old) }
    ensures output { output.new ≡ scatter_output rows columns input.now output.old }
{
    code(scatter::scatter(rows, columns, input, output))
}

#[unsafe(no_mangle)]
pub extern "C" fn rangqoda_gather(
    rows: usize,
    columns: usize,
    input: &[u8],
    output: &mut [u8],
) -> u32
    ensures answer { result ≡ code (block_call rows columns input.now output.old) }
    ensures output { output.new ≡ gather_output rows columns input.now output.old }
{
    code(scatter::gather(rows, columns, input, output))
}

#[unsafe(no_mangle)]
pub extern "C" fn rangqoda_page(
    generator: u64,
    bits: usize,
    limit: usize,
    syndrome: u64,
    step: &[u16],
    first: &[u16],
    mark: &mut [u8],
    output: &mut [u8],
    used: &mut usize,
    written: &mut u64,
) -> u32
    ensures answer { result ≡ code (page_call (page_request generator bits limit syndrome step.now first.now output.old) (point_of_bytes mark.old)) }
    ensures mark { mark.new ≡ mark_after mark.old (page_call (page_request generator bits limit syndrome step.now first.now output.old) (point_of_bytes mark.old)) }
    ensures output { output.new ≡ page_left (page_request generator bits limit syndrome step.now first.now output.old) (point_of_bytes mark.old) }
    ensures used { used.new ≡ used_after used.old (page_call (page_request generator bits limit syndrome step.now first.now output.old) (point_of_bytes mark.old)) }
    ensures written { written.new ≡ written_after written.old (page_call (page_request generator bits limit syndrome step.now first.now output.old) (point_of_bytes mark.old)) }
{
    let at = codec::read_mark(mark);
    let query = Query {
        generator,
        bits,
        limit,
        syndrome,
    };
    let tables = Tables {
        steps: step,
        firsts: first,
    };
    match pages::page(query, tables, at, output) {
        Ok(page) => {
            *used = page.used;
            *written = page.written;
            codec::put_mark(page.next, mark);
            0
        }
        Err(refusal) => u32::from(refusal),
    }
}

// How much of an output may be written, by the place that there is for the verdict: none without it, so that the repair refuses by
// condition 8, in its place among the conditions.
fn room_for(verdict: usize, output: usize) -> usize
    ensures { result ≡ pick (eqb verdict verdict_length) output 0 }
{
    if verdict == VERDICT_BYTES { output } else { 0 }
}

#[unsafe(no_mangle)]
pub extern "C" fn rangqoda_repair(
    generator: u64,
    init: u64,
    xorout: u64,
    start: usize,
    end: usize,
    field: usize,
    limit: usize,
    step: &[u16],
    first: &[u16],
    packet: &[u8],
    output: &mut [u8],
    verdict: &mut [u8],
) -> u32
    ensures answer { result ≡ code (repair_call (handed (crc_of generator init xorout) (check_of start end field) limit step.now first.now packet.now output.old verdict.old)) }
    ensures verdict { verdict.new ≡ verdict_after verdict.old (repair_call (handed (crc_of generator init xorout) (check_of start end field) limit step.now first.now packet.now output.old verdict.old)) }
    ensures output { output.new ≡ output_after (handed (crc_of generator init xorout) (check_of start end field) limit step.now first.now packet.now output.old verdict.old) output.old verdict.old }
{
    let room = room_for(verdict.len(), output.len());
    let numbers = CrcNumbers {
        generator,
        init,
        xorout,
    };
    let check = checksum::check_of(start, end, field);
    let tables = Tables {
        steps: step,
        firsts: first,
    };
    match repair::repair(numbers, check, limit, tables, packet, &mut output[..room]) {
        Ok(decided) => {
            codec::put_verdict(decided, verdict);
            0
        }
        Err(refusal) => u32::from(refusal),
    }
}

#[unsafe(no_mangle)]
pub extern "C" fn rangqoda_simulate(
    generator: u64,
    init: u64,
    xorout: u64,
    seed: u32,
    start: usize,
    end: usize,
    field: usize,
    limit: usize,
    trials: u64,
    step: &[u16],
    first: &[u16],
    packet: &mut [u8],
    output: &mut [u8],
    counts: &mut [u32],
    state: &mut u32,
) -> u32
    ensures answer { result ≡ code (simulate_call (simulation (crc_of generator init xorout) seed (check_of start end field) limit trials step.now first.now packet.old output.old counts.old)) }
    ensures packet { packet.new ≡ simulate_packet (simulation (crc_of generator init xorout) seed (check_of start end field) limit trials step.now first.now packet.old output.old counts.old) }
    ensures output { output.new ≡ simulate_output (simulation (crc_of generator init xorout) seed (check_of start end field) limit trials step.now first.now packet.old output.old counts.old) }
    ensures counts { counts.new ≡ simulate_counts (simulation (crc_of generator init xorout) seed (check_of start end field) limit trials step.now first.now packet.old output.old counts.old) }
    ensures state { state.new ≡ changed state.old (λ v. v) (simulate_call (simulation (crc_of generator init xorout) seed (check_of start end field) limit trials step.now first.now packet.old output.old counts.old)) }
{
    let check = checksum::check_of(start, end, field);
    let numbers = CrcNumbers {
        generator,
        init,
        xorout,
    };
    let tables = Tables {
        steps: step,
        firsts: first,
    };
    let answer = simulation::simulate(
        numbers, seed, check, limit, trials, tables, packet, output, counts,
    );
    store(answer, state)
}

#[unsafe(no_mangle)]
pub extern "C" fn rangqoda_publish(verdict: &[u8]) -> u32
    ensures { result ≡ publish_code verdict.now }
{
    codec::publish_code(verdict)
}
