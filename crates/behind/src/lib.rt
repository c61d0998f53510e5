// Kind 8: the labels behind a total. Cell t of a row shows how many of the first labels it takes to reach t, and so the label that reached
// it first; the picks are read off by going from each total to what its label leaves.
#![tactic(auto)]

ghost use Rattle.std.specs.Prelude.{◌≡◌, [], ◌∷◌, ◌-◌, ◌≤◌, ◌<◌, length};
ghost use Rattle.meaning.specs.Lists.{at};
ghost use Rattle.meaning.specs.Job.{labels_behind};
ghost use Rattle.meaning.specs.Lent.{lent_of};
ghost use Rattle.meaning.specs.Bounds.{most_labels};
ghost use Rattle.meaning.specs.Says.{said};
ghost use Rattle.meaning.specs.Solved.{Unrefused};
ghost use Rattle.meaning.specs.SolvedIn.{SolvedInCells};
ghost use Rattle.numbers.specs.Lists.{weights_from};
ghost use Rattle.rows.specs.Rows.{Joined};
ghost use Rattle.behind.specs.Firsts.{first_by, FirstsGrown, Traceable, TraceOff};

use meaning::{Answer, Refusal};
use numbers::Numbers;

// ---- the row, label by label

// The cell of a total with label i more, counted from 1: i where the total was not reached before and what the label leaves was.
fn first_by(i: u32, without: u32, rest: u32) -> u32
    ensures { result ≡ first_by i without rest }
{
    if rows::is_marked(without) & !rows::is_marked(rest) {
        i
    } else {
        without
    }
}

// Label i more in a row, counted from 1: from the highest total down, so that it is used once. There is no store on a condition, so that
// the loop runs in vectors.
fn add_label(row: &mut [u32], w: u32, i: u32)
    ensures { Joined (first_by i) (at row.old) (at row.old) (at row.new) w (length row.old) }
{
    let w = w as usize;
    for t in (w..row.len()).rev() {
        row[t] = first_by(i, row[t], row[t - w]);
    }
}

// The row of all labels.
#[tactic(auto, unfolding(meaning::specs::Bounds::most_labels))]
fn fill(weights: &Numbers, row: &mut [u32])
    requires { (0 < length row.old) × (length weights.now ≤ most_labels) }
    ensures { FirstsGrown weights.now (length row.old) row.new }
{
    rows::mark_rest(row);
    for i in 0..weights.len() {
        add_label(row, weights.at(i), i as u32 + 1);
    }
}

// ---- the picks

// The labels behind the highest total of a row: the one that reached it first, then the one that first reached what that leaves, and so on.
fn trace_off(weights: &Numbers, row: &[u32], picks: &mut [u32])
    requires traceable { Traceable (at row.now) weights.now (length row.now) }
    requires weights_len { length weights.now ≡ length picks.old }
    ensures { TraceOff (at row.now) weights.now
        (length row.now - 1) 0 picks.new }
{
    picks.fill(0);
    let mut t = row.len() - 1;
    // no range: each turn goes on at what the label that was found leaves
    while 0 < t {
        let m = row[t] as usize - 1;
        picks[m] = 1;
        t -= weights.at(m) as usize;
    }
}

// ---- the door

// Kind 8: the row, and the labels that weigh the whole budget, or that there are none.
pub fn solve(
    budget: u32,
    weights: &Numbers,
    cells: &mut [u32],
    picks: &mut [u32],
) -> Result<Answer, Refusal>
    requires { Unrefused labels_behind (weights_from 8 (budget ∷ []) weights.now) (lent_of cells.old [] picks.old) }
    ensures { SolvedInCells (weights_from 8 (budget ∷ []) weights.now)
        cells.old picks.old (said result) cells.new picks.new }
{
    let n = weights.len();
    let width = budget as usize + 1;
    fill(weights, &mut cells[..width]);
    if rows::is_marked(cells[width - 1]) {
        return Err(Refusal::NoSum);
    }
    trace_off(weights, &cells[..width], &mut picks[..n]);
    Ok(Answer::Weight(budget))
}
