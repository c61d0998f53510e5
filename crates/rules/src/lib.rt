// The rules of each kind, with their bounds, each in one place, and the room that each kind needs. What a job is asked by them, and in which
// order, is for `requests` and the crates above it to say.
#![tactic(auto)]

ghost use Rattle.std.specs.Prelude.{◌≡◌, ℕ, ◌≤◌, min, Bool, true, false};
ghost use Rattle.std.proofs.Math.Option.{some};
ghost use Rattle.meaning.specs.declared.Way.TheVariants.{Full};
ghost use Rattle.meaning.specs.Job.{Knapsack, once, packing, subset_sums, fewest_blocks, block_ways, sharing, labels_behind, kind_of, budget_count};
ghost use Rattle.meaning.specs.Bounds.{most_labels, most_budget, most_value, most_copies, least_copies, least_q, most_q, most_of_one};
ghost use Rattle.meaning.specs.Refusals.{rules_of, weight_rules};
ghost use Rattle.rules.specs.Ruling.{rules_from, rule_from};
ghost use Rattle.rules.specs.Places.{NeededFor, NeededBy, has_room};

// ---- the bounds

// n in kinds 1 to 4, 8 and 9.
const MOST_LABELS: usize = 4_096;
// n in kinds 5 and 6.
const MOST_SIZES: usize = 64;
// n in kind 7.
const MOST_CLAIMS: usize = 1_024;
// C in kinds 1 to 6, 8 and 9.
const MOST_BUDGET: u32 = 65_535;
// C in kind 7: any number.
const MOST_SHARED: u32 = 4_294_967_295;
// Values.
const MOST_VALUE: u32 = 65_535;
// Copies, at most.
const MOST_COPIES: u32 = 65_535;
// Copies, at least.
const LEAST_COPIES: u32 = 0;
// q, at least.
const LEAST_Q: u32 = 2;
// q, at most.
const MOST_Q: u32 = 100;
// Picks of one label in a certificate of kind 3.
const MOST_OF_ONE: u32 = 65_535;

// ---- the rules

// How many budgets a job of a kind has: C and q, or C alone.
pub fn budget_count(kind: u32) -> u32
    ensures { result ≡ budget_count kind }
{
    if kind == 9 { 2 } else { 1 }
}

// What a kind asks of its weights.
#[derive(Clone, Copy)]
pub enum WeightRule {
    Positive,
    Ascending,
    Anything,
}

// Whether a kind uses values, and copies; its bounds on n and on C; its rule on weights; its least value.
#[derive(Clone, Copy)]
pub struct Rules {
    pub valued: bool,
    pub copied: bool,
    pub labels: usize,
    pub budget: u32,
    pub weights: WeightRule,
    pub floor: u32,
}

// The rules of kinds 1 to 3; those of kind 1 are kind 9's, but for its q.
pub fn knapsack_rules(kind: u32) -> Rules
    requires { (1 ≤ kind) × (kind ≤ 3) }
    ensures { (k : Knapsack) → kind_of kind ≡ some (packing k) → rules_from result false ≡ rules_of (packing k) }
{
    let floor = if kind == 3 { 1 } else { 0 };
    Rules {
        valued: true,
        copied: kind == 2,
        labels: MOST_LABELS,
        budget: MOST_BUDGET,
        weights: WeightRule::Positive,
        floor,
    }
}

// The rules of a kind that uses weights alone.
fn weight_rules(labels: usize, budget: u32, weights: WeightRule) -> Rules
    ensures { (needs_sum : Bool) → rules_from result needs_sum ≡ weight_rules labels budget (rule_from weights) needs_sum }
{
    Rules {
        valued: false,
        copied: false,
        labels,
        budget,
        weights,
        floor: 0,
    }
}

// The rules of kinds 4 and 8.
pub fn sums_rules() -> Rules
    ensures { (rules_from result false ≡ rules_of subset_sums) × (rules_from result false ≡ rules_of labels_behind) }
{
    weight_rules(MOST_LABELS, MOST_BUDGET, WeightRule::Positive)
}

// The rules of kinds 5 and 6.
pub fn blocks_rules() -> Rules
    ensures { (rules_from result false ≡ rules_of fewest_blocks) × (rules_from result false ≡ rules_of block_ways) }
{
    weight_rules(MOST_SIZES, MOST_BUDGET, WeightRule::Ascending)
}

// The rules of kind 7, but for its claims' sum.
pub fn shares_rules() -> Rules
    ensures { rules_from result true ≡ rules_of sharing }
{
    weight_rules(MOST_CLAIMS, MOST_SHARED, WeightRule::Anything)
}

// The least and the greatest number that a list may hold.
#[derive(Clone, Copy)]
pub struct Bounds {
    pub least: u32,
    pub most: u32,
}

// The bounds of values, by the kind's least.
pub fn value_bounds(rules: Rules) -> Bounds
    ensures { (result.least ≡ rules.floor) × (result.most ≡ most_value) }
{
    Bounds {
        least: rules.floor,
        most: MOST_VALUE,
    }
}

// The bounds of copies.
pub fn copies_bounds() -> Bounds
    ensures { (result.least ≡ least_copies) × (result.most ≡ most_copies) }
{
    Bounds {
        least: LEAST_COPIES,
        most: MOST_COPIES,
    }
}

// The bounds of q.
pub fn q_bounds() -> Bounds
    ensures { (result.least ≡ least_q) × (result.most ≡ most_q) }
{
    Bounds {
        least: LEAST_Q,
        most: MOST_Q,
    }
}

// The most picks of one label in a certificate of kind 3.
pub fn most_of_one() -> u32
    ensures { result ≡ most_of_one }
{
    MOST_OF_ONE
}

// ---- the room

// How many places of each lent slice a job needs.
#[derive(Clone, Copy)]
pub struct Room {
    pub cells: usize,
    pub words: usize,
    pub picks: usize,
}

// Kinds 1 to 3, kind 1 the full way: a row for each label and one before them, or one row in kind 3. It is asked for before 4 is, so n and C
// are counted up to their bounds, and the product fits; where 4 doesn't apply, it is the job's own.
pub fn knapsack_room(kind: u32, n: usize, budget: u32) -> Room
    requires { (1 ≤ kind) × (kind ≤ 3) }
    ensures { (k : Knapsack) → kind_of kind ≡ some (packing k) → NeededFor Full (packing k) (min n most_labels) (min budget most_budget) result }
{
    let labels = usize::min(n, MOST_LABELS);
    let width = usize::min(budget as usize, MOST_BUDGET as usize) + 1;
    if kind == 3 {
        return Room {
            cells: width,
            words: 0,
            picks: labels,
        };
    }
    Room {
        cells: (labels + 1) * width,
        words: 0,
        picks: labels,
    }
}

// Kind 1 the light way: a row, and for each label words of its own, with a bit for each budget. n and C are counted as above.
pub fn light_room(n: usize, budget: u32) -> Room
    ensures { NeededBy (packing once) (min n most_labels) (min budget most_budget) result }
{
    let labels = usize::min(n, MOST_LABELS);
    let top = usize::min(budget as usize, MOST_BUDGET as usize);
    Room {
        cells: top + 1,
        words: labels * (top / 64 + 1),
        picks: labels,
    }
}

// Kind 4: a bit for each total.
pub fn sums_room(budget: u32) -> Room
    ensures { (n : ℕ) → NeededBy subset_sums n budget result }
{
    Room {
        cells: 0,
        words: (budget / 64) as usize + 1,
        picks: 0,
    }
}

// Kinds 5 and 8: a cell for each amount or total.
pub fn row_room(n: usize, budget: u32) -> Room
    ensures { NeededBy fewest_blocks n budget result × NeededBy labels_behind n budget result }
{
    let cells = budget as usize + 1;
    Room {
        cells,
        words: 0,
        picks: n,
    }
}

// Kinds 5 and 6: a cell or a word for each amount.
pub fn blocks_room(kind: u32, n: usize, budget: u32) -> Room
    requires { (5 ≤ kind) × (kind ≤ 6) }
    ensures { (kind ≡ 5 → NeededBy fewest_blocks n budget result) × (kind ≡ 6 → NeededBy block_ways n budget result) }
{
    if kind == 5 {
        return row_room(n, budget);
    }
    let words = budget as usize + 1;
    Room {
        cells: 0,
        words,
        picks: 0,
    }
}

// Kind 7: picks alone.
pub fn shares_room(n: usize) -> Room
    ensures { (budget : ℕ) → NeededBy sharing n budget result }
{
    Room {
        cells: 0,
        words: 0,
        picks: n,
    }
}

// Whether slices of these lengths have room.
pub fn room_fits(room: Room, cells: usize, words: usize, picks: usize) -> bool
    ensures { result ≡ has_room room cells words picks }
{
    if cells < room.cells {
        return false;
    }
    if words < room.words {
        return false;
    }
    room.picks <= picks
}
