// Kinds 5 and 6: the fewest blocks that sum to an amount, and the ways to make it.
#![tactic(auto)]

ghost use Rattle.std.specs.Prelude.{◌≡◌, [], ◌∷◌, ◌+◌, ◌-◌, ◌≤◌, ◌<◌, length};
ghost use Rattle.meaning.specs.Lists.{at};
ghost use Rattle.meaning.specs.Job.{fewest_blocks, block_ways};
ghost use Rattle.meaning.specs.Lent.{lent_of};
ghost use Rattle.meaning.specs.Says.{said};
ghost use Rattle.meaning.specs.Solved.{Solved, Unrefused};
ghost use Rattle.meaning.specs.SolvedIn.{SolvedInCells, SolvedInWords};
ghost use Rattle.numbers.specs.Lists.{weights_from};
ghost use Rattle.rows.specs.Rows.{Swept};
ghost use Rattle.blocks.specs.Sizes.{Bounded, fewer_of, ways_of, FewestGrown, WaysGrown, leaves_fewer, TraceDown};
ghost use Rattle.blocks.specs.BlocksDoor.{LetIn};

use meaning::{Answer, Refusal};
use numbers::Numbers;

// ---- kind 5: the fewest blocks

// The fewest blocks for an amount, by those without a size and those for the rest. No sum passes 32 bits.
fn fewer(without: u32, rest: u32) -> u32
    ensures { result ≡ fewer_of without rest }
{
    if rest < without { rest + 1 } else { without }
}

// A stretch of the row of fewest blocks with a size more, from small amounts up.
fn lay_stretch(row: &mut [u32], from: usize, to: usize, w: usize)
    requires { (1 ≤ w) × ((w ≤ from) × ((from ≤ to) × (to ≤ length row.old))) }
    ensures { Swept fewer_of row.old row.new w from to }
{
    for a in from..to {
        row[a] = fewer(row[a], row[a - w]);
    }
}

// A size of so much is heavy: a stretch of so many cells is worth the start of a vector loop.
const HEAVY: usize = 16;

// The row of fewest blocks with a size more.
fn lay(row: &mut [u32], w: u32)
    requires { 1 ≤ w }
    ensures { Swept fewer_of row.old row.new w w (length row.old) }
{
    let w = w as usize;
    // a stretch as long as the size runs in vectors; a light size has one for the whole row. No step is 0
    let step = if w < HEAVY {
        usize::max(row.len(), w)
    } else {
        w
    };
    for a in (w..row.len()).step_by(step) {
        let end = rows::stretch_end(row.len(), a, step);
        lay_stretch(row, a, end, w);
    }
}

// The row of fewest blocks, size by size.
fn fill_fewest(weights: &Numbers, row: &mut [u32])
    requires { Bounded (length row.old) weights.now }
    ensures { FewestGrown weights.now (length row.old) row.new }
{
    rows::mark_rest(row);
    for i in 0..weights.len() {
        lay(row, weights.at(i));
    }
}

// Whether one block of size w leads on from amount a.
fn leads(row: &[u32], w: u32, a: usize) -> bool
    requires { a < length row.now }
    ensures { result ≡ leaves_fewer (at row.now) w a }
{
    let w = w as usize;
    if a < w {
        return false;
    }
    row[a - w] < row[a]
}

// The blocks for the greatest amount of a row, by the trace down the sizes.
#[tactic(auto, using(crate::proofs::Laying::down_begins, crate::proofs::Laying::down_light, crate::proofs::Laying::down_few, crate::proofs::Laying::down_passed), unfolding(meaning::specs::Bounds::most_budget))]
fn trace_down(weights: &Numbers, row: &[u32], picks: &mut [u32])
    requires bounded { Bounded (length row.now) weights.now }
    requires weights_len { length weights.now ≡ length picks.old }
    ensures { TraceDown (at row.now) weights.now
        (length row.now - 1) picks.new }
{
    picks.fill(0);
    let mut i = picks.len();
    let mut a = row.len() - 1;
    // no range: a turn settles a size, or lays one block of it and stays there, and an inner loop would be a second in this function
    while 0 < i {
        let w = weights.at(i - 1);
        if leads(row, w, a) {
            a -= w as usize;
            picks[i - 1] += 1;
        } else {
            i -= 1;
        }
    }
}

// Kind 5: the row, and the blocks for the whole budget or that there are none.
fn fewest(
    budget: u32,
    weights: &Numbers,
    cells: &mut [u32],
    picks: &mut [u32],
) -> Result<Answer, Refusal>
    requires { Unrefused fewest_blocks (weights_from 5 (budget ∷ []) weights.now) (lent_of cells.old [] picks.old) }
    ensures { SolvedInCells (weights_from 5 (budget ∷ []) weights.now)
        cells.old picks.old (said result) cells.new picks.new }
{
    let n = weights.len();
    let width = budget as usize + 1;
    fill_fewest(weights, &mut cells[..width]);
    let blocks = cells[width - 1];
    if rows::is_marked(blocks) {
        return Err(Refusal::NoSum);
    }
    trace_down(weights, &cells[..width], &mut picks[..n]);
    Ok(Answer::Blocks(blocks))
}

// ---- kind 6: the ways

// The mark for ways that are too many to count (`too_many`): the greatest 64-bit number, which no sum passes.
const TOO_MANY: u64 = u64::MAX;

// The ways for an amount, by those without a size and those for the rest, as far as they can be counted. No sum passes 64 bits.
#[tactic(auto, unfolding(meaning::specs::Blocks::too_many))]
fn ways_of(without: u64, rest: u64) -> u64
    ensures { result ≡ ways_of without rest }
{
    u64::saturating_add(without, rest)
}

// The row of ways with a size more, from small amounts up. There are no stretches: a sum with a bound costs more in vectors than it saves.
fn count(words: &mut [u64], w: u32)
    requires { 1 ≤ w }
    ensures { Swept ways_of words.old words.new w w (length words.old) }
{
    let w = w as usize;
    for a in w..words.len() {
        words[a] = ways_of(words[a], words[a - w]);
    }
}

// The row of ways, size by size.
fn fill_ways(weights: &Numbers, words: &mut [u64])
    requires { Bounded (length words.old) weights.now }
    ensures { WaysGrown weights.now (length words.old) words.new }
{
    rows::first_alone(words);
    for i in 0..weights.len() {
        count(words, weights.at(i));
    }
}

// Kind 6: the row, and the ways for the whole budget or that they are too many to count. No other amount has a say in that.
fn ways(budget: u32, weights: &Numbers, words: &mut [u64]) -> Result<Answer, Refusal>
    requires { Unrefused block_ways (weights_from 6 (budget ∷ []) weights.now) (lent_of [] words.old []) }
    ensures { SolvedInWords (weights_from 6 (budget ∷ []) weights.now)
        words.old (said result) words.new }
{
    let width = budget as usize + 1;
    fill_ways(weights, &mut words[..width]);
    if words[width - 1] == TOO_MANY {
        return Err(Refusal::TooMany);
    }
    Ok(Answer::Ways(words[width - 1]))
}

// ---- the door

// Kinds 5 and 6: the table and the answer of a job that none of refusals 1 to 6 meets.
pub fn solve(
    kind: u32,
    budget: u32,
    weights: &Numbers,
    cells: &mut [u32],
    words: &mut [u64],
    picks: &mut [u32],
) -> Result<Answer, Refusal>
    requires { LetIn (weights_from kind (budget ∷ []) weights.now) (lent_of cells.old words.old picks.old) }
    ensures { Solved (weights_from kind (budget ∷ []) weights.now)
        (lent_of cells.old words.old picks.old) (said result)
        (lent_of cells.new words.new picks.new) }
{
    if kind == 5 {
        return fewest(budget, weights, cells, picks);
    }
    ways(budget, weights, words)
}
