// Cells alone, for several kinds: first contents, a row by budget, what one label of weight w and value v makes of it, and what it says of a
// label's count. Nothing here knows of jobs.
#![tactic(auto)]

ghost use Rattle.std.specs.Prelude.{◌≡◌, ℕ, ◌+◌, ◌-◌, ◌*◌, ◌/◌, ◌≤◌, ◌<◌, max, min, eqb, length};
ghost use Rattle.meaning.specs.Lists.{at};
ghost use Rattle.meaning.specs.Cells.{no_way};
ghost use Rattle.meaning.specs.Bounds.{most_budget, most_value};
ghost use Rattle.rows.specs.Rows.{Stored, FirstAlone, Swept, raised_by, Raised, Capped, Repeated, Bundled, NextRow};
ghost use Rattle.rows.specs.Rows.{GreatestRow, AnyCount, SomeCount, Least, leads_on};

// The first cells of a table, all of them x.
pub fn set_all(cells: &mut [u32], width: usize, x: u32)
    requires { width ≤ length cells.old }
    ensures { Stored cells.old cells.new 0 0 width (λ c. x) }
{
    cells[..width].fill(x);
}

// The first words, all 0. Cells and words have a function each: either is one call of the library, and one over both would be no plainer.
pub fn clear(words: &mut [u64], to: usize)
    requires { to ≤ length words.old }
    ensures { Stored words.old words.new 0 0 to (λ m. 0) }
{
    words[..to].fill(0);
}

// The words of no labels: 1 in the first, for the empty list alone, and 0 in the others.
pub fn first_alone(words: &mut [u64])
    requires { 0 < length words.old }
    ensures { FirstAlone 1 0 (length words.old) words.new }
{
    words.fill(0);
    words[0] = 1;
}

// The mark for no way to come to a total or an amount (`no_way`): the greatest 32-bit number, which no number of labels or blocks comes to.
const NO_WAY: u32 = u32::MAX;

// The cells of no labels: 0 in the first, for the empty list, and the mark for no way in the others.
#[tactic(auto, unfolding(meaning::specs::Cells::no_way))]
pub fn mark_rest(row: &mut [u32])
    requires { 0 < length row.old }
    ensures { FirstAlone 0 no_way (length row.old) row.new }
{
    row.fill(NO_WAY);
    row[0] = 0;
}

// Whether a cell shows the mark.
pub fn is_marked(cell: u32) -> bool
    ensures { result ≡ eqb cell no_way }
{
    cell == NO_WAY
}

// ---- a row made of the row before it, in a table

// Copies the first cells of the row at `from` to the row at `to`.
pub fn copy(cells: &mut [u32], from: usize, to: usize, count: usize)
    requires { (from + count ≤ to) × (to + count ≤ length cells.old) }
    ensures { Stored cells.old cells.new to 0 count (λ c. at cells.old (from + c)) }
{
    // no `copy_within`: it makes a table of many short rows a third slower, as bench/run 1 shows
    for c in 0..count {
        cells[to + c] = cells[from + c];
    }
}

// One of a label of weight w and value v over the row at `from`, into the row at `to`, for the budgets that hold it. There is no test
// of the weight in the loop and no store on a condition, so that it runs in vectors.
fn raise(cells: &mut [u32], from: usize, to: usize, width: usize, w: usize, v: u32)
    requires w_le_width { (w ≤ width) × ((from + width ≤ to) × (to + width ≤ length cells.old)) }
    requires by_index { (c : ℕ) → c + w < width → at cells.old (from + c) + v < 4_294_967_296 }
    ensures { Stored cells.old cells.new to w width
        (λ c. max (at cells.old (from + c)) (at cells.old (from + (c - w)) + v)) }
{
    for c in w..width {
        let without = cells[from + c];
        let with = cells[from + (c - w)] + v;
        cells[to + c] = u32::max(without, with);
    }
}

// ---- a row in place

// One more of a label of weight w and value v in a row, in place: from the greatest budget down, so that it is added once.
fn add_one(row: &mut [u32], w: u32, v: u32)
    requires { (c : ℕ) → c + w < length row.old → at row.old c + v < 4_294_967_296 }
    ensures { Raised (at row.old) (at row.old) (at row.new) w v (length row.old) }
{
    let w = w as usize;
    for c in (w..row.len()).rev() {
        let without = row[c];
        let with = row[c - w] + v;
        row[c] = u32::max(without, with);
    }
}

// One more than the greatest budget (`most_budget`), and so above the weight of whatever a row holds. A remainder by it changes no such
// weight, and tells the compiler that the weight is small: only then does the pass over the row run in vectors.
const BUDGETS: u32 = 65_536;

// A row that holds up to one of a label is made to hold up to `most` of it, in parts as large as keep every count within reach: 1, 2, 4
// and so on, and what is left.
fn add_parts(row: &mut [u32], w: u32, v: u32, most: u32)
    requires le_w { (1 ≤ w) × ((v ≤ most_value) × ((length row.old ≤ most_budget + 1) × (w * most < length row.old))) }
    requires capped { Capped (at row.old) (length row.old) }
    ensures { Repeated row.old row.new w v (length row.old) most }
{
    let mut m = u32::min(1, most);
    // each step is as long as what the row holds allows, so this is no range
    while m < most {
        let part = u32::min(m + 1, most - m);
        add_one(row, w * part % BUDGETS, v * part);
        m += part;
    }
}

// A stretch of a row from small budgets up: a label of weight w and value v is added as often as it may be.
#[tactic(auto, unfolding(crate::specs::Rows::Capped, meaning::specs::Bounds::most_budget, meaning::specs::Bounds::most_value))]
fn raise_stretch(row: &mut [u32], from: usize, to: usize, w: usize, v: u32)
    requires le_w { (1 ≤ w) × ((w ≤ from) × ((from ≤ to) × (to ≤ length row.old))) }
    requires v_bound { (v ≤ most_value * w) × ((length row.old ≤ most_budget + 1) × Capped (at row.old) (length row.old)) }
    ensures { Swept (raised_by v) row.old row.new w from to × Capped (at row.new) (length row.old) }
{
    for c in from..to {
        let without = row[c];
        let with = row[c - w] + v;
        row[c] = u32::max(without, with);
    }
}

// Where a stretch that starts at budget c ends: within w cells no cell depends on another, so that such a stretch runs in vectors.
pub fn stretch_end(width: usize, c: usize, w: usize) -> usize
    requires { c ≤ width }
    ensures { result ≡ min (c + w) width }
{
    c + w.min(width - c)
}

// A row in place from the least budget up, so that a label of weight w and value v is added again and again.
fn climb(row: &mut [u32], w: u32, v: u32)
    requires le_w { (1 ≤ w) × ((v ≤ most_value * w) × (length row.old ≤ most_budget + 1)) }
    requires capped { Capped (at row.old) (length row.old) }
    ensures { Raised (at row.old) (at row.new) (at row.new) w v (length row.old) }
{
    let w = w as usize;
    for c in (w..row.len()).step_by(w) {
        let end = stretch_end(row.len(), c, w);
        raise_stretch(row, c, end, w, v);
    }
}

// What weighs so much is heavy: a stretch of so many cells is worth a vector loop. A remainder by it changes no lighter weight, and tells
// the compiler that it is small, as BUDGETS does.
const HEAVY: u32 = 16;

// Light labels are bundled: the row is made to hold fewer than a bundle of the label, and the size of a bundle is given. A bundle is
// heavy enough for stretches that run in vectors, or is the label alone.
fn bundle(row: &mut [u32], w: u32, v: u32) -> u32
    requires le_w { (1 ≤ w) × ((v ≤ most_value) × (length row.old ≤ most_budget + 1)) }
    requires capped { Capped (at row.old) (length row.old) }
    ensures { Bundled row.old row.new w v (length row.old) result }
{
    let mut m: u32 = 1;
    // m doubles, so this is no range
    while w * m < HEAVY {
        add_one(row, w * m % HEAVY, v * m);
        m *= 2;
    }
    m
}

// Any number of a label of weight w and value v in a row, in place.
pub fn add_any_number(row: &mut [u32], w: u32, v: u32)
    requires le_w { (1 ≤ w) × ((v ≤ most_value) × (length row.old ≤ most_budget + 1)) }
    requires capped { Capped (at row.old) (length row.old) }
    ensures { GreatestRow AnyCount (at row.old) w v (length row.old) (at row.new) }
{
    let m = bundle(row, w, v);
    climb(row, w * m, v * m);
}

// ---- the next row of a table

// From which budget on a row is raised: the weight, or the end of the row where none of the label may be picked.
fn raised_from(width: usize, w: u32, most: u32) -> usize
    ensures { ((most ≡ 0) → result ≡ width) × ((0 < most) → result ≡ w) }
{
    if most == 0 {
        return width;
    }
    w as usize
}

// How many of a label of weight w may be picked, as far as the greatest budget of a row holds them. The division is spared where it
// decides nothing.
#[tactic(auto, unfolding(meaning::specs::Bounds::most_budget))]
fn most_held(limit: u32, width: usize, w: u32) -> u32
    requires { (0 < width) × ((width ≤ most_budget + 1) × (1 ≤ w)) }
    ensures { result ≡ min limit ((width - 1) / w) }
{
    let budget = (width - 1) as u32;
    if budget < w {
        return 0;
    }
    if limit < 2 {
        return limit;
    }
    u32::min(limit, budget / w)
}

// The row after the one at `from`, with up to `limit` of a label.
pub fn next_row(cells: &mut [u32], from: usize, width: usize, w: u32, v: u32, limit: u32)
    requires width_nonzero { (0 < width) × ((width ≤ most_budget + 1) × (from + width + width ≤ length cells.old)) }
    requires le_w { (1 ≤ w) × (v ≤ most_value) }
    requires capped { Capped (λ c. at cells.old (from + c)) width }
    ensures { NextRow cells.old cells.new from width w v limit }
{
    let to = from + width;
    let most = most_held(limit, width, w);
    let start = raised_from(width, w, most);
    copy(cells, from, to, start);
    raise(cells, from, to, width, start, v);
    add_parts(&mut cells[to..to + width], w, v, most);
}

// ---- what a row says of a count

// The least count of a label of weight w and value v that is worth `goal` at budget c, over the row at `from`.
pub fn least_count(cells: &[u32], from: usize, c: usize, w: u32, v: u32, goal: u32) -> u32
    requires le_w { (1 ≤ w) × ((c ≤ most_budget) × (from + c < length cells.now)) }
    requires some_count { SomeCount (λ d. at cells.now (from + d)) w v c goal }
    ensures { Least (λ d. at cells.now (from + d)) w v c goal result }
{
    let mut x: u32 = 0;
    let mut left = c;
    let mut rest = goal;
    // the row itself says when to stop, so this is no range
    while cells[from + left] != rest {
        left -= w as usize;
        rest -= v;
        x += 1;
    }
    x
}

// Whether one of a label of weight w and value v leads on from budget c.
pub fn leads(row: &[u32], w: u32, v: u32, c: usize) -> bool
    requires le_w { (1 ≤ w) × ((v ≤ most_value) × ((c < length row.now) × (length row.now ≤ most_budget + 1))) }
    requires capped { Capped (at row.now) (length row.now) }
    ensures { result ≡ leads_on (at row.now) w v c }
{
    let w = w as usize;
    if c < w {
        return false;
    }
    row[c - w] + v == row[c]
}
