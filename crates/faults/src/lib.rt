// Rule 14 on rows of claims: whether some claim is too low for a label. In a table a row is held to the row before it, in time that doesn't
// grow with the copies and with no room lent; in a single row it is held to itself.
// Few counts are passed two at a time, in vectors. For many, a row is cut into blocks of copies+1 weights. From a cell to one that is some
// copies up, a step stays within its block or leads into the next. Within a block the greatest of the row before is carried up. Across
// the border the least claim is carried up, against the cell that is all copies down.
#![tactic(auto)]

ghost use Rattle.std.specs.Prelude.{◌≡◌, ℕ, ◌+◌, ◌-◌, ◌*◌, ◌<◌, ◌≤◌, ◌||◌, length, nat_lt};
ghost use Rattle.meaning.specs.Lists.{at};
ghost use Rattle.meaning.specs.Bytes.{numbers_in};
ghost use Rattle.meaning.specs.Certificates.{some_of};
ghost use Rattle.faults.specs.LowRows.{RowThere, Budgets, low_in, below_one};
ghost use Rattle.faults.specs.Columns.{Finds, TwoRows, CopiesFit, Low, High, LowAt, HighAt, LowEither, HighBoth};
ghost use Rattle.faults.specs.Columns.{LowWithin, HighWithin, HighAcross, HighColumn, HighBlock};

// So many copies are few: a pass for two counts takes as long whatever they are, and blocks take as long whatever the copies are. Where the
// two meet goes by the weight, at some 14 copies of a light label and 25 of a heavy one, and this is between them (docs/SPEED.md).
const FEW: usize = 20;

// Cell m of a list of claims, with room for a sum.
fn cell(cells: &[u8], m: usize) -> u64
    requires { m < length (numbers_in cells.now) }
    ensures { (result ≡ at (numbers_in cells.now) m) × (result ≤ 4_294_967_295) }
{
    numbers::number_in(cells, m) as u64
}

// Whether a claim is below another and a value together. Any number of 32 bits may be claimed, so a sum would need more room: none is
// made, and four cells fit a vector.
fn is_below(claim: u32, other: u32, v: u32) -> bool
    ensures { result ≡ nat_lt claim (other + v) }
{
    let rest = claim.wrapping_sub(v);
    (claim < v) | (rest < other)
}

// One count: whether some claim is below the one `far` down in the row before, and `gain`. There is no way out of the loop, so that it
// runs in vectors. Claims that are too low are counted, in lanes of 32 bits as the claims are: bools are narrower, and each vector of
// comparisons would have to be narrowed to them.
#[tactic(auto, using(meaning::proofs::Numbers::numbers_long))]
fn breaks_at(cells: &[u8], prior: usize, row: usize, left: usize, far: usize, gain: u32) -> bool
    requires left_bound { left ≤ 65_536 }
    requires left_in_bounds { prior + left ≤ length (numbers_in cells.now) }
    requires far_in_bounds { row + (left + far) ≤ length (numbers_in cells.now) }
    ensures { Finds result (LowAt (numbers_in cells.now) prior row left far gain)
        (HighAt (numbers_in cells.now) prior row left far gain) }
{
    let up = row + far;
    let mut low: u32 = 0;
    for c in 0..left {
        let claim = numbers::number_in(cells, up + c);
        let other = numbers::number_in(cells, prior + c);
        low += u32::from(is_below(claim, other, gain));
    }
    0 < low
}

// Two counts in one test, of which the second is worth more. Only its value can be above the claim and not show in a difference.
fn is_below_either(claim: u32, near: u32, gain: u32, other: u32, more: u32) -> bool
    requires { gain ≤ more }
    ensures { result ≡ (nat_lt claim (near + gain) || nat_lt claim (other + more)) }
{
    let rest = claim.wrapping_sub(gain);
    let less = claim.wrapping_sub(more);
    (claim < more) | (rest < near) | (less < other)
}

// A row of claims up to some budget, the row before it, and the label between them: the budgets up to `width` of the rows that start at
// `prior` and at `row`, the label's weight and value, and how many copies of it are asked about.
#[derive(Clone, Copy)]
struct Rows<'a> {
    cells: &'a [u8],
    prior: usize,
    row: usize,
    width: usize,
    w: usize,
    v: u32,
    copies: usize,
}

impl<'a> Rows<'a> {
    // A count and the next in one pass: each claim is read once for the two. At the first w budgets only the one fits.
    #[tactic(auto, using(meaning::proofs::Numbers::numbers_long))]
    fn breaks_two(&self, left: usize, far: usize, gain: u32) -> bool
        requires w_bound { left + self.now.w ≤ 65_536 }
        requires w_in_bounds { self.now.prior + (left + self.now.w) ≤ length (numbers_in self.now.cells.now) }
        requires w_in_bounds_2 { self.now.row + (left + (far + self.now.w)) ≤ length (numbers_in self.now.cells.now) }
        requires v_bound { gain + self.now.v ≤ 4_294_967_295 }
        ensures { Finds result (LowEither (numbers_in self.now.cells.now) self.now.prior self.now.row left far self.now.w gain self.now.v)
            (HighBoth (numbers_in self.now.cells.now) self.now.prior self.now.row left far self.now.w gain self.now.v) }
    {
        let cells = self.cells;
        let prior = self.prior;
        if breaks_at(cells, prior, self.row, self.w, far, gain) {
            return true;
        }
        let up = self.row + (far + self.w);
        let beside = prior + self.w;
        let more = gain + self.v;
        let mut low: u32 = 0;
        for c in 0..left {
            let claim = numbers::number_in(cells, up + c);
            let near = numbers::number_in(cells, beside + c);
            let other = numbers::number_in(cells, prior + c);
            low += u32::from(is_below_either(claim, near, gain, other, more));
        }
        0 < low
    }

    // Whether some cell of a column up to `end` is below one down the column in the row before, and the value of the count between.
    #[tactic(auto, using(meaning::proofs::Numbers::numbers_long))]
    fn breaks_within(&self, end: usize, b: usize) -> bool
        requires two_rows { TwoRows (numbers_in self.now.cells.now) self.now.prior self.now.row end }
        requires le_w { (1 ≤ self.now.w) × (self.now.w ≤ 65_536) }
        ensures { Finds result (LowWithin (numbers_in self.now.cells.now) self.now.prior self.now.row end self.now.w self.now.v b)
            (HighWithin (numbers_in self.now.cells.now) self.now.prior self.now.row end self.now.w self.now.v b) }
    {
        let step = self.v as u64;
        let mut carried: u64 = 0;
        let mut c = b;
        // no steps of a range, here and across: each has a test of its own, which makes a turn of so short a loop a third longer
        while c < end {
            let best = cell(self.cells, self.prior + c).max(carried);
            if cell(self.cells, self.row + c) < best {
                return true;
            }
            carried = best + step;
            c += self.w;
        }
        false
    }

    // Whether some cell of a column from a+copies*w on is below one before it in the row before, at most all copies down.
    #[tactic(auto, using(meaning::proofs::Numbers::numbers_long))]
    fn breaks_across(&self, a: usize) -> bool
        requires two_rows { TwoRows (numbers_in self.now.cells.now) self.now.prior self.now.row self.now.width }
        requires le_w { (1 ≤ self.now.w) × (self.now.w ≤ 65_536) }
        requires width_bound { (self.now.width ≤ 65_536) × (a + self.now.copies * self.now.w < self.now.width) }
        ensures { Finds result (Low (numbers_in self.now.cells.now) self.now.prior self.now.row self.now.width self.now.w self.now.v self.now.copies)
            (HighAcross (numbers_in self.now.cells.now) self.now.prior self.now.row self.now.width self.now.w self.now.v self.now.copies a) }
    {
        let step = self.v as u64;
        let gain = self.copies as u64 * step;
        let apart = self.copies * self.w;
        let b = a + apart;
        let mut least = cell(self.cells, self.row + b);
        let mut x = a;
        while x < b {
            if least < cell(self.cells, self.prior + x) + gain {
                return true;
            }
            let y = x + apart + self.w;
            x += self.w;
            least += step;
            if y < self.width {
                least = cell(self.cells, self.row + y).min(least);
            }
        }
        false
    }

    // Whether a cell of one column in the block from b on leads to a claim that is too low, there or in the next block.
    fn breaks_column(&self, b: usize) -> bool
        requires two_rows { TwoRows (numbers_in self.now.cells.now) self.now.prior self.now.row self.now.width }
        requires copies_fit { CopiesFit self.now.width self.now.w self.now.copies }
        requires b_lt_width { b < self.now.width }
        ensures { Finds result (Low (numbers_in self.now.cells.now) self.now.prior self.now.row self.now.width self.now.w self.now.v self.now.copies)
            (HighColumn (numbers_in self.now.cells.now) self.now.prior self.now.row self.now.width self.now.w self.now.v self.now.copies b) }
    {
        let next = b + (self.copies * self.w + self.w);
        if self.breaks_within(next.min(self.width), b) {
            return true;
        }
        if self.width <= next {
            return false;
        }
        self.breaks_across(b + self.w)
    }

    // The same for all columns of the block from `base` on.
    fn breaks_block(&self, base: usize) -> bool
        requires two_rows { TwoRows (numbers_in self.now.cells.now) self.now.prior self.now.row self.now.width }
        requires copies_fit { CopiesFit self.now.width self.now.w self.now.copies }
        requires base_lt_width { base < self.now.width }
        ensures { Finds result (Low (numbers_in self.now.cells.now) self.now.prior self.now.row self.now.width self.now.w self.now.v self.now.copies)
            (HighBlock (numbers_in self.now.cells.now) self.now.prior self.now.row self.now.width self.now.w self.now.v self.now.copies base) }
    {
        let stop = (base + self.w).min(self.width);
        for b in base..stop {
            if self.breaks_column(b) {
                return true;
            }
        }
        false
    }

    // Whether a claim is too low for some count, block by block.
    fn breaks_many(&self) -> bool
        requires two_rows { TwoRows (numbers_in self.now.cells.now) self.now.prior self.now.row self.now.width }
        requires copies_fit { CopiesFit self.now.width self.now.w self.now.copies }
        ensures { Finds result (Low (numbers_in self.now.cells.now) self.now.prior self.now.row self.now.width self.now.w self.now.v self.now.copies)
            (High (numbers_in self.now.cells.now) self.now.prior self.now.row self.now.width self.now.w self.now.v self.now.copies) }
    {
        let span = self.copies * self.w + self.w;
        for base in (0..self.width).step_by(span) {
            if self.breaks_block(base) {
                return true;
            }
        }
        false
    }

    // The same count by count, two in a pass, and the last alone where their number is odd. None and one, which are all that kind 1 has, come
    // first and by themselves: nothing is taken off a claim for none.
    #[tactic(auto, using(crate::proofs::Cells::few_copies))]
    fn breaks_few(&self) -> bool
        requires two_rows { TwoRows (numbers_in self.now.cells.now) self.now.prior self.now.row self.now.width }
        requires copies_fit { CopiesFit self.now.width self.now.w self.now.copies }
        requires v_bound { self.now.v ≤ 65_535 }
        ensures { Finds result (Low (numbers_in self.now.cells.now) self.now.prior self.now.row self.now.width self.now.w self.now.v self.now.copies)
            (High (numbers_in self.now.cells.now) self.now.prior self.now.row self.now.width self.now.w self.now.v self.now.copies) }
    {
        let copies = self.copies;
        if copies == 0 {
            return breaks_at(self.cells, self.prior, self.row, self.width, 0, 0);
        }
        if self.breaks_two(self.width - self.w, 0, 0) {
            return true;
        }
        for pair in 1..(copies + 1) / 2 {
            let count = 2 * pair;
            let far = count * self.w;
            let gain = count as u32 * self.v;
            if self.breaks_two(self.width - far - self.w, far, gain) {
                return true;
            }
        }
        if copies % 2 == 1 {
            return false;
        }
        let far = copies * self.w;
        breaks_at(
            self.cells,
            self.prior,
            self.row,
            self.width - far,
            far,
            copies as u32 * self.v,
        )
    }
}

// Whether a row of claims breaks rule 14 at some budget below `end`, for some count of the label up to `most`.
pub fn row_breaks(
    cells: &[u8],
    row: usize,
    width: usize,
    end: usize,
    w: u32,
    v: u32,
    most: u32,
) -> bool
    requires row_there { RowThere (numbers_in cells.now) row width }
    requires budgets { Budgets width end w v }
    ensures { result ≡ some_of (low_in (numbers_in cells.now) row width w v most) end }
{
    let weight = (w as usize).min(end);
    let copies = (most as usize).min((end - 1) / weight);
    let rows = Rows {
        cells,
        prior: row - width,
        row,
        width: end,
        w: weight,
        v,
        copies,
    };
    if copies <= FEW {
        return rows.breaks_few();
    }
    rows.breaks_many()
}

// Whether a single row of claims breaks rule 14 for one of the label, at some budget from `from` on and below `end`.
pub fn stretch_breaks(cells: &[u8], from: usize, end: usize, w: u32, v: u32) -> bool
    requires { (end ≤ 65_536) × (end ≤ length (numbers_in cells.now)) }
    ensures { result ≡ some_of (λ (i : ℕ). below_one (numbers_in cells.now) w v (from + i)) (end - from) }
{
    let weight = w as usize;
    let start = from.max(weight);
    if end <= start {
        return false;
    }
    let source = start - weight;
    breaks_at(cells, source, source, end - start, weight, v)
}
