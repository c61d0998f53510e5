// The planner's doors, on lists and on bytes, by either way. A job is its numbers as job bytes have them: kinds, budgets, weights, values and copies, each list after its count. A list
// more says how many cells, words and picks are lent: all, where it is empty.
ghost use Rattle.std.specs.Prelude.{◌≤◌, length};

use crate::lines;
use meaning::{Answer, Refusal, Way};
use std::io;

// Where the budgets' count stands.
const BUDGETS: usize = 2;

// How many cells, words and picks are lent where a job says nothing of it, and how many bytes a job may have: as many as any of the list needs that
// keeps its bounds, or more.
const CELLS: usize = 131_072;

const WORDS: usize = 65_536;

pub const PICKS: usize = 4_096;

const BYTES: usize = 65_536;

// The number at a place.
pub fn at(numbers: &[u32], place: usize) -> u32 {
    numbers.get(place).copied().unwrap_or(0)
}

// The place after the list whose count stands at a place.
pub fn after(numbers: &[u32], place: usize) -> usize {
    let count = at(numbers, place) as usize;
    place.wrapping_add(count).wrapping_add(1)
}

// The list whose count stands at a place.
pub fn list(numbers: &[u32], place: usize) -> &[u32] {
    let end = after(numbers, place).min(numbers.len());
    let start = place.wrapping_add(1).min(end);
    &numbers[start..end]
}

// Where the weights' count stands.
pub fn weights_place(numbers: &[u32]) -> usize {
    after(numbers, BUDGETS)
}

// The place after the copies.
fn end_of_job(numbers: &[u32]) -> usize {
    after(
        numbers,
        after(numbers, after(numbers, weights_place(numbers))),
    )
}

// How many cells, words or picks are lent, of so many: the first, second or third number of the list after the copies.
pub fn lent(numbers: &[u32], which: usize, most: usize) -> usize
    ensures { result ≤ most }
{
    let place = end_of_job(numbers);
    if at(numbers, place) == 0 {
        return most;
    }
    let count = at(numbers, place.wrapping_add(which)) as usize;
    count.min(most)
}

// Shows an answer with the picks of its labels.
fn show(
    rt: &impl Print,
    numbers: &[u32],
    answer: Result<Answer, Refusal>,
    picks: [u32; PICKS],
    whole: bool,
) -> io::Result<()> {
    let labels = at(numbers, weights_place(numbers)) as usize;
    let n = labels.min(PICKS);
    lines::show(rt, at(numbers, 1), answer, &picks[..n], whole)
}

// The planner's answer to job bytes.
fn solve_bytes(
    way: Way,
    job: &[u8],
    cells: &mut [u32],
    words: &mut [u64],
    picks: &mut [u32],
) -> Result<Answer, Refusal> {
    match way {
        Way::Light => planner::solve_bytes(job, cells, words, picks),
        Way::Full => planner::solve_full_bytes(job, cells, words, picks),
    }
}

// Its answer to lists. q is the second budget, and 0 where there is none.
fn solve_lists(
    way: Way,
    numbers: &[u32],
    cells: &mut [u32],
    words: &mut [u64],
    picks: &mut [u32],
) -> Result<Answer, Refusal> {
    let kind = at(numbers, 1);
    let budgets = list(numbers, BUDGETS);
    let budget = at(budgets, 0);
    let q = at(budgets, 1);
    let start = weights_place(numbers);
    let place = after(numbers, start);
    let weights = list(numbers, start);
    let values = list(numbers, place);
    let copies = list(numbers, after(numbers, place));
    match way {
        Way::Light => planner::solve(
            kind, budget, q, weights, values, copies, cells, words, picks,
        ),
        Way::Full => planner::solve_full(
            kind, budget, q, weights, values, copies, cells, words, picks,
        ),
    }
}

// Its answer to job bytes where there are some, or else to lists.
fn solve(
    way: Way,
    numbers: &[u32],
    job: Option<&[u8]>,
    cells: &mut [u32],
    words: &mut [u64],
    picks: &mut [u32],
) -> Result<Answer, Refusal> {
    match job {
        Some(bytes) => solve_bytes(way, bytes, cells, words, picks),
        None => solve_lists(way, numbers, cells, words, picks),
    }
}

// Its answer on what is lent, which held something else before.
fn solve_and_show(
    rt: &impl Print,
    way: Way,
    numbers: &[u32],
    job: Option<&[u8]>,
    whole: bool,
) -> io::Result<()> {
    let c = lent(numbers, 1, CELLS);
    let w = lent(numbers, 2, WORDS);
    let p = lent(numbers, 3, PICKS);
    let mut cells = [7u32; CELLS];
    let mut words = [7u64; WORDS];
    let mut picks = [9u32; PICKS];
    let answer = solve(
        way,
        numbers,
        job,
        &mut cells[..c],
        &mut words[..w],
        &mut picks[..p],
    );
    show(rt, numbers, answer, picks, whole)
}

// Puts numbers as bytes, four of each, lowest first. Answers how many bytes they are.
fn put_bytes(numbers: &[u32], bytes: &mut [u8]) -> usize
    ensures { result ≤ length bytes.old }
{
    for (four, number) in bytes.chunks_exact_mut(4).zip(numbers) {
        four.copy_from_slice(&number.to_le_bytes());
    }
    numbers.len().min(bytes.len() / 4) * 4
}

// Its answer to the job as bytes, after how many they are.
fn by_bytes(rt: &impl Print, way: Way, numbers: &[u32], whole: bool) -> io::Result<()> {
    let end = end_of_job(numbers).min(numbers.len());
    let mut bytes = [0u8; BYTES];
    let size = put_bytes(&numbers[..end], &mut bytes);
    lines::size(rt, size)?;
    solve_and_show(rt, way, numbers, Some(&bytes[..size]), whole)
}

// Its answer by one of the doors.
pub fn answer(
    rt: &impl Print,
    way: Way,
    numbers: &[u32],
    as_bytes: bool,
    whole: bool,
) -> io::Result<()> {
    if as_bytes {
        return by_bytes(rt, way, numbers, whole);
    }
    solve_and_show(rt, way, numbers, None, whole)
}
