// Kind 9: a stated share of the best. Values are cut by a common divisor; cell t of a row is the least weight for total t of cut values, and the
// picks are read off by going back through the rows.
#![tactic(auto)]

ghost use Rattle.std.specs.Prelude.{◌≡◌, [], ℕ, ◌+◌, ◌-◌, ◌*◌, ◌/◌, ◌≤◌, ◌<◌, max, leb, length};
ghost use Rattle.meaning.specs.Lists.{at, if, sum, total};
ghost use Rattle.meaning.specs.Cells.{no_way};
ghost use Rattle.meaning.specs.Job.{stated_share};
ghost use Rattle.meaning.specs.Lent.{lent_of};
ghost use Rattle.meaning.specs.Bounds.{most_budget, most_labels, most_q};
ghost use Rattle.meaning.specs.Refusals.{rules_of, job_refusal};
ghost use Rattle.meaning.specs.Cuts.{that_fit, greatest_of, divisor, cut_by, cut_sum, stated_cells};
ghost use Rattle.meaning.specs.Says.{given};
ghost use Rattle.meaning.specs.Solved.{Unrefused};
ghost use Rattle.meaning.specs.SolvedIn.{SolvedInCells};
ghost use Rattle.numbers.specs.Lists.{stated_from};
ghost use Rattle.rows.specs.Rows.{Stored};
ghost use Rattle.stated.specs.LeastWeights.{lighter, NextWeights, LabelAdded, row_of, cell_of, Roomy, Filled};
ghost use Rattle.stated.specs.ReadOff.{Valued, Highest, apart, TracedBack, ReadOff};

use meaning::Answer;
use numbers::Numbers;

// ---- the divisor, and what it leaves of the values

// A number of a label that remains; 0 for one that is left aside, since it is heavier than the budget.
fn if_light(x: u32, w: u32, budget: u32) -> u32
    ensures { (result ≡ if (leb w budget) x 0) × (result ≤ x) }
{
    if budget < w {
        return 0;
    }
    x
}

// How many labels remain.
#[tactic(auto, using(crate::proofs::Filling::row_none, crate::proofs::Filling::row_count))]
fn count_remaining(budget: u32, weights: &Numbers) -> u32
    requires { length weights.now ≤ most_labels }
    ensures { (result ≡ row_of budget weights.now
        (length weights.now)) × (result ≤ most_labels) }
{
    let mut m = 0;
    for i in 0..weights.len() {
        let w = weights.at(i);
        m += if_light(1, w, budget);
    }
    m
}

// The greatest value of those that remain.
#[tactic(auto, using(crate::proofs::Measuring::none_on), unfolding(meaning::specs::Cuts::greatest_of))]
fn greatest_value(budget: u32, weights: &Numbers, values: &Numbers) -> u32
    requires { length values.now ≡ length weights.now }
    ensures { result ≡ greatest_of (that_fit budget weights.now
        values.now) }
{
    let mut p = 0;
    for i in 0..weights.len() {
        let w = weights.at(i);
        let v = values.at(i);
        p = u32::max(p, if_light(v, w, budget));
    }
    p
}

// The whole part of p divided by the product of m and q, but at least 1. Where none remain there is nothing to divide by.
#[tactic(auto, using(crate::proofs::Fitting::parts_fit))]
fn divisor_of(p: u32, m: u32, q: u32) -> u32
    requires { (m ≤ most_labels) × (q ≤ most_q) }
    ensures { result ≡ max 1 (p / (m * q)) }
{
    let parts = m * q;
    if parts == 0 {
        return 1;
    }
    u32::max(1, p / parts)
}

// The sum of the cut values that remain.
#[tactic(auto, using(crate::proofs::Measuring::cut_long, crate::proofs::Measuring::none_on), unfolding(meaning::specs::Lists::sum))]
fn cut_sum(budget: u32, divisor: u32, weights: &Numbers, values: &Numbers) -> u32
    requires { (0 < divisor) × Valued weights.now values.now }
    ensures { result ≡ sum (that_fit budget weights.now
        (cut_by divisor values.now)) }
{
    let mut sum = 0;
    for i in 0..weights.len() {
        let w = weights.at(i);
        let v = values.at(i);
        sum += if_light(v / divisor, w, budget);
    }
    sum
}

// A job's divisor, the width of a row, and how many cells the table needs.
#[derive(Clone, Copy)]
struct Measures {
    divisor: u32,
    width: usize,
    cells: usize,
}

// The measures of a job, by three goes over its labels. How many cells there are may pass 32 bits; all before it fits them. It goes into its callers: handed
// over in memory, the width left the loop over a row's cells with 25 instructions in place of 23.
#[inline(always)]
#[tactic(auto, using(crate::proofs::Fitting::cells_fit))]
fn measure(budget: u32, q: u32, weights: &Numbers, values: &Numbers) -> Measures
    requires { (q ≤ most_q) × Valued weights.now values.now }
    ensures { (result.divisor
        ≡ divisor (stated_from budget q weights.now values.now))
        × ((result.width ≡ cut_sum (stated_from budget q weights.now values.now) + 1)
        × (result.cells ≡ stated_cells (stated_from budget q weights.now values.now))) }
{
    let m = count_remaining(budget, weights);
    let p = greatest_value(budget, weights, values);
    let divisor = divisor_of(p, m, q);
    let sum = cut_sum(budget, divisor, weights, values);
    let width = sum as usize + 1;
    let cells = (m as usize + 1) * width;
    Measures {
        divisor,
        width,
        cells,
    }
}

// ---- a row made of the row before it

// The lesser of `without` and of `less` with a label of weight w, which leaves `room` of the budget. What is no more than the room isn't the mark.
#[tactic(auto, using(crate::proofs::Lightening::lighter_past, crate::proofs::Lightening::lighter_lesser), unfolding(meaning::specs::Bounds::most_budget))]
fn lesser_weight(without: u32, less: u32, w: u32, room: u32) -> u32
    requires { w + room ≤ most_budget }
    ensures { result ≡ lighter (w + room) w without less }
{
    if room < less {
        return without;
    }
    u32::min(without, less + w)
}

// A label of weight w and cut value a over the row at `from`, into the row at `to`, for the totals from a on. There is no branch and no store on a
// condition in the loop, so that it runs in vectors.
fn lighten(cells: &mut [u32], from: usize, to: usize, width: usize, a: usize, w: u32, room: u32)
    requires { (a ≤ width) × ((from + width ≤ to) × ((to + width ≤ length cells.old) × (w + room ≤ most_budget))) }
    ensures { Stored cells.old cells.new to a width
        (λ t. lighter (w + room) w (at cells.old (from + t)) (at cells.old (from + (t - a)))) }
{
    for t in a..width {
        let without = cells[from + t];
        let less = cells[from + (t - a)];
        cells[to + t] = lesser_weight(without, less, w, room);
    }
}

// The row after the one at `from`, with a label of weight w, within the budget, and cut value a.
#[tactic(auto, using(crate::proofs::Lightening::next_made))]
fn next_weights(cells: &mut [u32], from: usize, width: usize, budget: u32, w: u32, a: usize)
    requires { (a ≤ width) × ((from + width + width ≤ length cells.old) × ((w ≤ budget) × (budget ≤ most_budget))) }
    ensures { NextWeights cells.old cells.new from width budget w a }
{
    let to = from + width;
    rows::copy(cells, from, to, a);
    lighten(cells, from, to, width, a, w, budget - w);
}

// ---- the table

// A label of weight w and cut value a: gives where the last row starts then. A label heavier than the budget is left aside.
#[tactic(auto, using(crate::specs::LeastWeights::aside, crate::specs::LeastWeights::row_made))]
fn add_label(cells: &mut [u32], from: usize, width: usize, budget: u32, w: u32, a: usize) -> usize
    requires { (budget ≤ most_budget) × (w ≤ budget → (a ≤ width) × (from + width + width ≤ length cells.old)) }
    ensures { LabelAdded cells.old cells.new from width budget w a result }
{
    if budget < w {
        return from;
    }
    next_weights(cells, from, width, budget, w, a);
    from + width
}

// ---- the picks

// The highest total of a row that is reached.
fn highest(row: &[u32]) -> usize
    requires { (0 < length row.now) × (¬ (at row.now 0 ≡ no_way)) }
    ensures { Highest (at row.now) (length row.now) result }
{
    let mut t = row.len() - 1;
    // no range: the search goes by what the cells hold, and ends at total 0 at the latest, which is reached
    while rows::is_marked(row[t]) {
        t -= 1;
    }
    t
}

// Where the row before a label's starts: a label that is left aside has none of its own.
fn row_before(row: usize, width: usize, budget: u32, w: u32) -> usize
    requires { w ≤ budget → width ≤ row }
    ensures { result + (if (leb w budget) width 0) ≡ row }
{
    if budget < w {
        return row;
    }
    row - width
}

// 1 where two cells differ, and 0 where they are the same.
#[tactic(auto, using(crate::proofs::Filling::apart_same, crate::proofs::Filling::apart_other))]
fn differ(x: u32, y: u32) -> u32
    ensures { result ≡ apart x y }
{
    if x == y { 0 } else { 1 }
}

// What picks are worth, in the uncut values.
#[tactic(auto, using(meaning::proofs::Totals::total_none, meaning::proofs::EachLabel::total_next, meaning::proofs::EachLabel::product_one))]
fn value_of(values: &Numbers, picks: &[u32]) -> u32
    requires valued { Valued picks.now values.now }
    requires by_index { (i : ℕ) → i < length picks.now → at picks.now i ≤ 1 }
    ensures { result ≡ total values.now picks.now }
{
    let mut value = 0;
    for i in 0..picks.len() {
        value += values.at(i) * picks[i];
    }
    value
}

// What a job's table is made by: its budget and lists, their divisor, and the width of a row.
#[derive(Clone, Copy)]
struct Cutting<'a> {
    budget: u32,
    weights: &'a Numbers<'a>,
    values: &'a Numbers<'a>,
    divisor: u32,
    width: usize,
}

impl<'a> Cutting<'a> {
    // The table, label by label.
    #[tactic(auto, using(crate::proofs::Filling::first_within))]
    fn fill(&self, cells: &mut [u32])
        requires budget_le_most_budget { (self.now.budget ≤ most_budget) × ((0 < self.now.divisor)
            × (length self.now.values.now ≡ length self.now.weights.now)) }
        requires roomy { Roomy self.now.budget self.now.weights.now (cut_by self.now.divisor self.now.values.now)
            self.now.width (length cells.old) }
        ensures { Filled self.now.budget self.now.weights.now
            (cut_by self.now.divisor self.now.values.now) self.now.width
            (length self.now.weights.now) cells.new }
    {
        rows::mark_rest(&mut cells[..self.width]);
        let mut from = 0;
        for i in 0..self.weights.len() {
            let w = self.weights.at(i);
            let v = self.values.at(i);
            from = add_label(
                cells,
                from,
                self.width,
                self.budget,
                w,
                (v / self.divisor) as usize,
            );
        }
    }

    // The picks for a total of the last row, by the trace back through the rows.
    #[tactic(auto, using(crate::proofs::Filling::apart_few, meaning::proofs::EachLabel::product_one))]
    fn trace_back(&self, cells: &[u32], top: usize, picks: &mut [u32])
        requires divisor_nonzero { (0 < self.now.divisor) × ((length self.now.values.now ≡ length self.now.weights.now)
            × ((length self.now.weights.now ≡ length picks.old) × (top < self.now.width))) }
        requires roomy { Roomy self.now.budget self.now.weights.now (cut_by self.now.divisor self.now.values.now) self.now.width (length cells.now)
            × Filled self.now.budget self.now.weights.now (cut_by self.now.divisor self.now.values.now) self.now.width
            (length self.now.weights.now) cells.now }
        ensures { TracedBack (cell_of self.now.budget self.now.weights.now self.now.width cells.now)
            (cut_by self.now.divisor self.now.values.now)
            (length self.now.weights.now) top picks.new }
    {
        let mut row = cells.len() - self.width;
        let mut t = top;
        for i in (0..picks.len()).rev() {
            let w = self.weights.at(i);
            let v = self.values.at(i);
            let before = row_before(row, self.width, self.budget, w);
            let x = differ(cells[before + t], cells[row + t]);
            picks[i] = x;
            t -= (v / self.divisor * x) as usize;
            row = before;
        }
    }

    // The table, the picks, and what they are worth and weigh, on just the cells and the picks that are needed.
    #[tactic(auto, using(crate::proofs::Filling::last_row, crate::proofs::Filling::first_within, crate::proofs::Tracing::trace_ones))]
    fn pack(&self, cells: &mut [u32], picks: &mut [u32]) -> Answer
        requires budget_le_most_budget { (self.now.budget ≤ most_budget)
            × ((0 < self.now.divisor) × Valued self.now.weights.now self.now.values.now) }
        requires roomy { Roomy self.now.budget self.now.weights.now (cut_by self.now.divisor self.now.values.now) self.now.width (length cells.old)
            × (length self.now.weights.now ≡ length picks.old) }
        ensures { ReadOff self.now.budget self.now.weights.now self.now.values.now
            (cut_by self.now.divisor self.now.values.now) self.now.width cells.new picks.new (given result) }
    {
        self.fill(cells);
        let last = cells.len() - self.width;
        let top = highest(&cells[last..]);
        self.trace_back(cells, top, picks);
        let value = value_of(self.values, picks);
        let weight = cells[last + top];
        Answer::Knapsack { value, weight }
    }
}

// ---- the doors

// How many cells a job needs.
pub fn cells_needed(budget: u32, q: u32, weights: &Numbers, values: &Numbers) -> usize
    requires { job_refusal (rules_of stated_share) (stated_from budget q weights.now values.now) 0 ≡ 0 }
    ensures { result
        ≡ stated_cells (stated_from budget q weights.now values.now) }
{
    measure(budget, q, weights, values).cells
}

// Kind 9: the table, and the picks that it leads to.
#[tactic(auto, using(crate::proofs::StatedDoor::keeps, crate::proofs::StatedDoor::divisor_positive), unfolding(meaning::specs::Job::job_of, meaning::specs::Job::labels, meaning::specs::Job::has_q))]
pub fn solve(
    budget: u32,
    q: u32,
    weights: &Numbers,
    values: &Numbers,
    cells: &mut [u32],
    picks: &mut [u32],
) -> Answer
    requires { Unrefused stated_share (stated_from budget q weights.now values.now)
        (lent_of cells.old [] picks.old) }
    ensures { SolvedInCells (stated_from budget q weights.now values.now)
        cells.old picks.old (given result) cells.new picks.new }
{
    let n = weights.len();
    let measures = measure(budget, q, weights, values);
    let cutting = Cutting {
        budget,
        weights,
        values,
        divisor: measures.divisor,
        width: measures.width,
    };
    cutting.pack(&mut cells[..measures.cells], &mut picks[..n])
}
