// Kinds 1 to 3: the table of best values within a budget, and the picks that it leads to; kind 1 the full way.
#![tactic(auto)]

ghost use Rattle.std.specs.Prelude.{◌≡◌, [], ◌∷◌, ℕ, suc, ◌+◌, ◌-◌, ◌*◌, ◌<◌, length};
ghost use Rattle.meaning.specs.Lists.{at};
ghost use Rattle.meaning.specs.declared.Way.TheVariants.{Full};
ghost use Rattle.meaning.specs.Job.{job_of, packing, free};
ghost use Rattle.meaning.specs.Lent.{lent_of};
ghost use Rattle.meaning.specs.Says.{given};
ghost use Rattle.meaning.specs.Solved.{UnrefusedBy};
ghost use Rattle.meaning.specs.SolvedIn.{SolvedInCellsBy};
ghost use Rattle.numbers.specs.Lists.{job_as};
ghost use Rattle.rows.specs.Rows.{SomeCount, Capped};
ghost use Rattle.rows.specs.Bounded.{Bounded};
ghost use Rattle.knapsack.specs.Tables.{limit_of, row_of, Filled, Climbed};
ghost use Rattle.rows.specs.Traces.{TraceBack};
ghost use Rattle.knapsack.specs.Traces.{TraceAlong};
ghost use Rattle.knapsack.specs.KnapsackDoor.{LetIn};

use meaning::Answer;
use numbers::{Job, Numbers};

// ---- kinds 1 and 2: a row for each label

// How often label i may be picked.
fn allowed(job: &Job, i: usize) -> u32
    requires { ¬ (job.now.kind ≡ 1) → i < length job.now.copies }
    ensures { result ≡ limit_of job.now.kind job.now.copies i }
{
    if job.kind == 1 {
        return 1;
    }
    job.copies.at(i)
}

// The table of kinds 1 and 2, row by row.
fn fill(job: &Job, width: usize, cells: &mut [u32])
    requires bounded { Bounded width job.now.weights job.now.values }
    requires copies_len { ¬ (job.now.kind ≡ 1) → length job.now.copies ≡ length job.now.weights }
    requires width_value { (length job.now.weights + 1) * width ≡ length cells.old }
    ensures { Filled job.now.weights job.now.values (limit_of job.now.kind job.now.copies) width (length job.now.weights) cells.new }
{
    rows::set_all(cells, width, 0);
    for i in 0..job.weights.len() {
        let w = job.weights.at(i);
        let v = job.values.at(i);
        let limit = allowed(job, i);
        rows::next_row(cells, i * width, width, w, v, limit);
    }
}

// The picks of kinds 1 and 2, by the trace back through the rows. Gives what is left of the budget.
fn trace_back(
    weights: &Numbers,
    values: &Numbers,
    width: usize,
    cells: &[u32],
    picks: &mut [u32],
) -> usize
    requires bounded { Bounded width weights.now values.now }
    requires width_value { ((length weights.now + 1) * width ≡ length cells.now)
        × (length weights.now ≡ length picks.old) }
    requires by_index { (i c : ℕ) → i < length weights.now → c < width
        → SomeCount (row_of cells.now width i) (at weights.now i) (at values.now i)
        c (row_of cells.now width (suc i) c) }
    ensures { TraceBack (row_of cells.now width) weights.now
        values.now (length weights.now)
        (width - 1) 0 result picks.new }
{
    let mut c = width - 1;
    for i in (0..picks.len()).rev() {
        let w = weights.at(i);
        let v = values.at(i);
        let from = i * width;
        let goal = cells[from + width + c];
        let x = rows::least_count(cells, from, c, w, v, goal);
        picks[i] = x;
        c -= (w * x) as usize;
    }
    c
}

// ---- kind 3: one row

// The row of kind 3, label by label.
fn fill_row(weights: &Numbers, values: &Numbers, row: &mut [u32])
    requires { Bounded (length row.old) weights.now values.now }
    ensures { Climbed weights.now values.now
        (length row.old) (length weights.now) row.new }
{
    row.fill(0);
    for i in 0..weights.len() {
        let w = weights.at(i);
        let v = values.at(i);
        rows::add_any_number(row, w, v);
    }
}

// The picks of kind 3, by the trace along the labels. Gives what is left of the budget.
fn trace_along(weights: &Numbers, values: &Numbers, row: &[u32], picks: &mut [u32]) -> usize
    requires bounded { Bounded (length row.now) weights.now values.now }
    requires capped { Capped (at row.now) (length row.now) × (length weights.now ≡ length picks.old) }
    ensures { TraceAlong (at row.now) weights.now
        values.now (length row.now - 1) result picks.new }
{
    picks.fill(0);
    let mut label = 0;
    let mut c = row.len() - 1;
    // no range: a label that leads on has the next turn again, and an inner loop would be a second in this function
    while label < picks.len() {
        let w = weights.at(label);
        let v = values.at(label);
        if rows::leads(row, w, v, c) {
            c -= w as usize;
            picks[label] += 1;
        } else {
            label += 1;
        }
    }
    c
}

// ---- the doors

// Kinds 1 and 2: the full table, and the trace back through it.
fn full_table(job: &Job, cells: &mut [u32], picks: &mut [u32]) -> Answer
    requires let_in { LetIn (job_as job.now.kind job.now) cells.old picks.old }
    requires kind_bound { job.now.kind < 3 }
    ensures { SolvedInCellsBy Full (job_as job.now.kind job.now) cells.old picks.old (given result) cells.new picks.new }
{
    let n = job.weights.len();
    let width = job.budget as usize + 1;
    let needed = (n + 1) * width;
    fill(job, width, &mut cells[..needed]);
    let left = trace_back(
        &job.weights,
        &job.values,
        width,
        &cells[..needed],
        &mut picks[..n],
    );
    Answer::Knapsack {
        value: cells[needed - 1],
        weight: job.budget - left as u32,
    }
}

// Kind 3: one row, and the trace along the labels.
fn one_row(
    budget: u32,
    weights: &Numbers,
    values: &Numbers,
    cells: &mut [u32],
    picks: &mut [u32],
) -> Answer
    requires { UnrefusedBy Full (packing free) (job_of 3 (budget ∷ []) weights.now values.now [])
        (lent_of cells.old [] picks.old) }
    ensures { SolvedInCellsBy Full (job_of 3 (budget ∷ []) weights.now
        values.now [])
        cells.old picks.old (given result) cells.new picks.new }
{
    let n = weights.len();
    let width = budget as usize + 1;
    fill_row(weights, values, &mut cells[..width]);
    let left = trace_along(weights, values, &cells[..width], &mut picks[..n]);
    Answer::Knapsack {
        value: cells[width - 1],
        weight: budget - left as u32,
    }
}

// Kinds 1 to 3: the table, the value, the weight and the picks of a job that no refusal meets.
pub fn solve(job: &Job, cells: &mut [u32], picks: &mut [u32]) -> Answer
    requires { LetIn (job_as job.now.kind job.now) cells.old picks.old }
    ensures { SolvedInCellsBy Full (job_as job.now.kind job.now) cells.old picks.old (given result) cells.new picks.new }
{
    if job.kind == 3 {
        return one_row(job.budget, &job.weights, &job.values, cells, picks);
    }
    full_table(job, cells, picks)
}
