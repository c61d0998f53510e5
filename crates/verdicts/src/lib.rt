// Claims, whoever made them: a keep list and a table of cells are judged, with refusals 12 to 15 or the picks' value. Reading the job and the
// certificate, and refusals 1 to 11, come before, in `certificate`; whether a row of claims is at fault is told by `faults`.
#![tactic(auto)]

ghost use Rattle.std.specs.Prelude.{◌≡◌, ℕ, ◌+◌, ◌-◌, ◌<◌, ◌≤◌, length};
ghost use Rattle.meaning.specs.Judges.{judged};
ghost use Rattle.meaning.specs.Lists.{if, total};
ghost use Rattle.meaning.specs.Job.{limited};
ghost use Rattle.meaning.specs.Bytes.{numbers_in};
ghost use Rattle.meaning.specs.Certificates.{low_cell, low_for_one, most_picks, over_picked, some_of, too_low, verdict_on_cells};
ghost use Rattle.verdicts.specs.Searching.{place_of};
ghost use Rattle.verdicts.specs.Asked.{certified, knapsack_in, FewPicks, CellsRead, Run};

use meaning::{Fault, Refusal};
use numbers::{Job, Numbers};

// How many cells of a single row are passed at once for each label, so that the row at fault is searched in few of them.
const STRETCH: usize = 2_048;

// A fault of the certificate, at a place.
fn fault_at(refusal: Refusal, place: usize) -> Fault
    ensures { (result.refusal ≡ refusal) × (result.place ≡ place) }
{
    Fault {
        refusal,
        place: place as u64,
    }
}

// ---- the picks

// The most picks that label i may have.
fn most_picks(job: &Job, i: usize) -> u32
    requires { knapsack_in job.now.kind ≡ limited → i < length job.now.copies }
    ensures { result ≡ most_picks (knapsack_in job.now.kind) (certified job.now) i }
{
    match job.kind {
        1 => 1,
        3 => rules::most_of_one(),
        _ => job.copies.at(i),
    }
}

// 12: the first label that has more picks than it may.
fn over_picked(job: &Job, picks: &Numbers) -> Option<usize>
    requires { (knapsack_in job.now.kind ≡ limited → length job.now.copies ≡ length picks.now) × (length job.now.weights ≡ length picks.now) }
    ensures { place_of result ≡ over_picked (knapsack_in job.now.kind) (certified job.now) picks.now }
{
    for i in 0..picks.len() {
        if most_picks(job, i) < picks.at(i) {
            return Some(i);
        }
    }
    None
}

// What the picks weigh, or are worth, by what each label weighs or is worth.
fn picked(each: &Numbers, picks: &Numbers) -> u64
    requires { FewPicks each.now picks.now }
    ensures { result ≡ total each.now picks.now }
{
    let mut sum: u64 = 0;
    for i in 0..picks.len() {
        let x = each.at(i) as u64;
        let count = picks.at(i) as u64;
        sum += x * count;
    }
    sum
}

// ---- the cells

// Whether some label is at fault in a single row, at a cell from `from` on and below `end`.
fn stretch_is_low(job: &Job, cells: &[u8], from: usize, end: usize) -> bool
    requires values_len { length job.now.values ≡ length job.now.weights }
    requires end_bound { (end ≤ 65_536) × (end ≤ length (numbers_in cells.now)) }
    ensures { result ≡ some_of (λ (m : ℕ). low_for_one (certified job.now) (numbers_in cells.now) (from + m)) (end - from) }
{
    for i in 0..job.weights.len() {
        let w = job.weights.at(i);
        let v = job.values.at(i);
        if faults::stretch_breaks(cells, from, end, w, v) {
            return true;
        }
    }
    false
}

// Whether rule 14 is broken at a cell from `from` on and below `end`. In a table these are the first cells of a row.
fn is_low(job: &Job, cells: &[u8], from: usize, end: usize) -> bool
    requires cells_read { CellsRead (knapsack_in job.now.kind) (certified job.now) (numbers_in cells.now) }
    requires run { Run (knapsack_in job.now.kind) (certified job.now) from end }
    ensures { result ≡ some_of (λ (m : ℕ). too_low (knapsack_in job.now.kind) (certified job.now) (numbers_in cells.now) (from + m)) (end - from) }
{
    if job.kind == 3 {
        return stretch_is_low(job, cells, from, end);
    }
    let width = job.budget as usize + 1;
    if from < width {
        return false;
    }
    let i = from / width - 1;
    let w = job.weights.at(i);
    let v = job.values.at(i);
    let most = most_picks(job, i);
    faults::row_breaks(cells, from, width, end - from, w, v, most)
}

// From which cell on those up to `end` have to be searched: from the first, or from `end` on where they keep rule 14.
fn search_from(job: &Job, cells: &[u8], from: usize, end: usize) -> usize
    requires cells_read { CellsRead (knapsack_in job.now.kind) (certified job.now) (numbers_in cells.now) }
    requires run { Run (knapsack_in job.now.kind) (certified job.now) from end }
    ensures { result ≡ if (some_of (λ (m : ℕ). too_low (knapsack_in job.now.kind) (certified job.now) (numbers_in cells.now) (from + m)) (end - from)) from end }
{
    if is_low(job, cells, from, end) {
        return from;
    }
    end
}

// How many cells are passed at once: a row of a table, or a stretch of a single row.
fn run_length(job: &Job) -> usize
    ensures { (¬ (job.now.kind ≡ 3) → result ≡ job.now.budget + 1) × ((1 ≤ result) × (result ≤ 4_294_967_296)) }
{
    if job.kind == 3 {
        return STRETCH;
    }
    job.budget as usize + 1
}

// 14: the first cell at which its rule is broken. Rows that keep it are not searched, and one that doesn't is searched by halves. Nested loops, left by the
// label of the outer one, are the form that document 01 names for this place; a step of the inner one goes by what was found.
fn low_cell(job: &Job, cells: &[u8]) -> Option<usize>
    requires { CellsRead (knapsack_in job.now.kind) (certified job.now) (numbers_in cells.now) }
    ensures { place_of result ≡ low_cell (knapsack_in job.now.kind) (certified job.now)
        (numbers_in cells.now) }
{
    let count = cells.len() / 4;
    let run = run_length(job);
    let mut found = None;
    'rows: for from in (0..count).step_by(run) {
        let last = usize::min(from + run, count);
        let mut kept = search_from(job, cells, from, last);
        let mut end = last;
        'budgets: while kept < end {
            if end - kept == 1 {
                found = Some(kept);
                break 'rows;
            }
            let middle = kept + (end - kept) / 2;
            if is_low(job, cells, from, middle) {
                end = middle;
            } else {
                kept = middle;
            }
        }
    }
    found
}

// ---- the verdict

// 12 to 15, in this order, or else the picks' value.
pub fn judge_cells(job: &Job, picks: &Numbers, cells: &[u8]) -> Result<u32, Fault>
    requires cells_read { CellsRead (knapsack_in job.now.kind) (certified job.now) (numbers_in cells.now) }
    requires picks_len { length picks.now ≡ length job.now.weights }
    ensures { judged result ≡ verdict_on_cells (knapsack_in job.now.kind) (certified job.now)
        picks.now (numbers_in cells.now) }
{
    if let Some(label) = over_picked(job, picks) {
        return Err(fault_at(Refusal::Pick, label));
    }
    if (job.budget as u64) < picked(&job.weights, picks) {
        return Err(fault_at(Refusal::Weight, 0));
    }
    if let Some(cell) = low_cell(job, cells) {
        return Err(fault_at(Refusal::Cell, cell));
    }
    let value = numbers::number_in(cells, cells.len() / 4 - 1);
    if value as u64 != picked(&job.values, picks) {
        return Err(fault_at(Refusal::Value, 0));
    }
    Ok(value)
}
