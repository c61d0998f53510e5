// The C entries, all of them. A slice is a pointer and a length in elements; include/quabnester.h says each promise in words.
#![tactic(auto)]

ghost use Rattle.std.specs.Prelude.{◌≡◌};
ghost use Rattle.meaning.specs.Lent.{lent_of};
ghost use Rattle.meaning.specs.Says.{given, said};
ghost use Rattle.meaning.specs.Judges.{judged};
ghost use Rattle.meaning.specs.Answers.{answer_numbers};
ghost use Rattle.meaning.specs.Certificates.{verdict_of};
ghost use Rattle.meaning.specs.Host.{refusal_number, value_or_place, first_number, second_number, SolvedHost, SolvedFullHost, WritesHost, QuickHost};
ghost use Rattle.meaning.specs.Quick.{quick_job};

use meaning::{Answer, Fault, Quick, Refusal};

// ---- the numbers of a verdict and of an answer

// 0 for accepted, or the refusal number.
fn verdict_refusal(verdict: Result<u32, Fault>) -> u32
    ensures { result ≡ refusal_number (judged verdict) }
{
    match verdict {
        Ok(_) => 0,
        Err(fault) => fault.refusal.number(),
    }
}

// The value, or the place.
fn verdict_detail(verdict: Result<u32, Fault>) -> u64
    ensures { result ≡ value_or_place (judged verdict) }
{
    match verdict {
        Ok(value) => value as u64,
        Err(fault) => fault.place,
    }
}

// The value, yes as 1, the blocks, the ways, the spare or kind 8's weight.
fn first_number(answer: Answer) -> u64
    ensures { result ≡ first_number (answer_numbers (given answer)) }
{
    match answer {
        Answer::Knapsack { value, weight: _ } => value as u64,
        Answer::Sums { yes, totals: _ } => yes as u64,
        Answer::Blocks(blocks) => blocks as u64,
        Answer::Ways(ways) => ways,
        Answer::Shares(spare) => spare as u64,
        Answer::Weight(weight) => weight as u64,
    }
}

// The weight beside a value, or the totals.
fn second_number(answer: Answer) -> u64
    ensures { result ≡ second_number (answer_numbers (given answer)) }
{
    match answer {
        Answer::Knapsack { value: _, weight } => weight as u64,
        Answer::Sums { yes: _, totals } => totals as u64,
        _ => 0,
    }
}

// Gives an answer as numbers: 0 or the refusal number, and two in first and second, 0 on a refusal.
fn give(answer: Result<Answer, Refusal>, first: &mut u64, second: &mut u64) -> u32
    ensures { (result ≡ (answer_numbers (said answer)).refusal) × ((first.new ≡ first_number (answer_numbers (said answer)))
        × (second.new ≡ second_number (answer_numbers (said answer)))) }
{
    match answer {
        Ok(answer) => {
            *first = first_number(answer);
            *second = second_number(answer);
            0
        }
        Err(refusal) => {
            *first = 0;
            *second = 0;
            refusal.number()
        }
    }
}

// ---- the entries

// 0 for accepted, or the refusal number.
#[unsafe(no_mangle)]
pub extern "C" fn quabnester_check(job: &[u8], certificate: &[u8]) -> u32
    ensures { result ≡ refusal_number (verdict_of job.now certificate.now) }
{
    verdict_refusal(certificate::check(job, certificate))
}

// The value, or the place that the refusal names.
#[unsafe(no_mangle)]
pub extern "C" fn quabnester_check_detail(job: &[u8], certificate: &[u8]) -> u64
    ensures { result ≡ value_or_place (verdict_of job.now certificate.now) }
{
    verdict_detail(certificate::check(job, certificate))
}

// 0 or the refusal number; the answer's numbers in first and second.
#[unsafe(no_mangle)]
pub extern "C" fn quabnester_solve(
    job: &[u8],
    cells: &mut [u32],
    words: &mut [u64],
    picks: &mut [u32],
    first: &mut u64,
    second: &mut u64,
) -> u32
    ensures { SolvedHost job.now (lent_of cells.old words.old picks.old)
        result first.new second.new (lent_of cells.new words.new picks.new) }
{
    give(
        planner::solve_bytes(job, cells, words, picks),
        first,
        second,
    )
}

// The same, kind 1 with the full table.
#[unsafe(no_mangle)]
pub extern "C" fn quabnester_solve_full(
    job: &[u8],
    cells: &mut [u32],
    words: &mut [u64],
    picks: &mut [u32],
    first: &mut u64,
    second: &mut u64,
) -> u32
    ensures { SolvedFullHost job.now (lent_of cells.old words.old picks.old)
        result first.new second.new (lent_of cells.new words.new picks.new) }
{
    give(
        planner::solve_full_bytes(job, cells, words, picks),
        first,
        second,
    )
}

// 0 or the refusal number; how many bytes were written in `written`, 0 on a refusal.
#[unsafe(no_mangle)]
pub extern "C" fn quabnester_write(
    job: &[u8],
    picks: &[u32],
    cells: &[u32],
    out: &mut [u8],
    written: &mut u64,
) -> u32
    ensures { WritesHost job.now picks.now cells.now out.old
        result written.new out.new }
{
    match certificate::write_bytes(job, picks, cells, out) {
        Ok(count) => {
            *written = count;
            0
        }
        Err(refusal) => {
            *written = 0;
            refusal.number()
        }
    }
}

// 0 or the refusal number; which list is the worthier in `which`, 1 or 2, and what it is worth in `value`, both 0 on a refusal.
#[unsafe(no_mangle)]
pub extern "C" fn quabnester_quick(
    budget: u32,
    weights: &[u32],
    values: &[u32],
    first: &mut [u32],
    second: &mut [u32],
    which: &mut u32,
    value: &mut u64,
) -> u32
    ensures { QuickHost (quick_job budget weights.now values.now) first.old second.old
        result which.new value.new first.new second.new }
{
    match quick::fill(budget, weights, values, first, second) {
        Err(refusal) => {
            *which = 0;
            *value = 0;
            refusal.number()
        }
        Ok(Quick::First(worth)) => {
            *which = 1;
            *value = worth;
            0
        }
        Ok(Quick::Second(worth)) => {
            *which = 2;
            *value = worth;
            0
        }
    }
}
