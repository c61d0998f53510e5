// Kind 7: the budget shared by claims. Each share starts as its whole part, and the spare units go to the labels at a border or before it.
#![tactic(auto)]

ghost use Rattle.std.specs.Prelude.{◌≡◌, [], ◌∷◌, ◌+◌, ◌/◌, ◌%◌, ◌≤◌, ◌<◌, max, min, length, ltb};
ghost use Rattle.meaning.specs.Lists.{sum, if};
ghost use Rattle.meaning.specs.Job.{sharing, labels};
ghost use Rattle.meaning.specs.Lent.{lent_of};
ghost use Rattle.meaning.specs.Bounds.{most_claims};
ghost use Rattle.meaning.specs.Shares.{start_of, remainder_of, spare_of, shares_of};
ghost use Rattle.meaning.specs.Says.{given};
ghost use Rattle.meaning.specs.Solved.{Unrefused};
ghost use Rattle.meaning.specs.SolvedIn.{SolvedInPicks};
ghost use Rattle.numbers.specs.Lists.{weights_from};
ghost use Rattle.shares.specs.Borders.{claims_job, Started, Reaches, Leaves, ahead_of, count_of, gets_of, RunOut};

use meaning::Answer;
use numbers::Numbers;
use std::marker::Model;

// ---- the starts

// S, the sum of the claims.
#[tactic(auto, using(meaning::proofs::Loops::sum_step), unfolding(meaning::specs::Lists::sum, meaning::specs::Bounds::most_claims))]
fn claims_sum(weights: &Numbers) -> u64
    requires { length weights.now ≤ most_claims }
    ensures { result ≡ sum weights.now }
{
    let mut sum: u64 = 0;
    for i in 0..weights.len() {
        sum += weights.at(i) as u64;
    }
    sum
}

// The whole part of a product over S: it is narrowed after the division, when nothing is lost.
fn start(product: u64, claimed: u64) -> u32
    requires { (0 < claimed) × (product / claimed < 4_294_967_296) }
    ensures { result ≡ product / claimed }
{
    (product / claimed) as u32
}

// What that division leaves, by the start that is kept: no second division.
fn remainder(product: u64, start: u32, claimed: u64) -> u64
    requires { start ≡ product / claimed }
    ensures { result ≡ product % claimed }
{
    product - start as u64 * claimed
}

// The least and the greatest of some remainders.
#[derive(Clone, Copy)]
struct Reach {
    least: u64,
    greatest: u64,
}

// What the starts leave: the spare, and how far the remainders reach.
#[derive(Clone, Copy)]
struct Leavings {
    spare: u32,
    reach: Reach,
}

// A job of kind 7, with S, which is positive. In a clause it is the job.
#[derive(Drop)]
struct Claims<'a> {
    budget: u32,
    weights: &'a Numbers<'a>,
    claimed: u64,
}

impl<'a> Model for Claims<'a> {
    ghost use Rattle.meaning.specs.Job.{Job};

    ghost Value = { Job };

    ghost use Rattle.shares.specs.Borders.{claims_job};

    ghost view = { λ s. claims_job s.budget s.weights.now };

    ghost use Rattle.std.specs.Prelude.{◌≡◌, ◌<◌};
    ghost use Rattle.meaning.specs.Lists.{sum};

    ghost invariant = { λ s. (s.claimed ≡ sum s.weights.now) × (0 < s.claimed) };
}

impl<'a> Claims<'a> {
    // The claims, which are not all 0.
    fn of(budget: u32, weights: &'a Numbers<'a>) -> Claims<'a>
        requires { (length weights.now ≤ most_claims) × (0 < sum weights.now) }
        ensures { result ≡ claims_job budget weights.now }
    {
        let claimed = claims_sum(weights);
        Claims {
            budget,
            weights,
            claimed,
        }
    }

    // Every start into its place. The spare is the budget less each start in turn.
    #[tactic(auto, using(crate::proofs::Starts::holds, crate::proofs::Starts::member_within, crate::proofs::Starts::start_within), unfolding(meaning::specs::Job::labels))]
    fn write_starts(&self, shares: &mut [u32]) -> Leavings
        requires { length shares.old ≡ labels self.now }
        ensures { Leaves self.now (sum self.now.weights) shares.new result.spare result.reach.least result.reach.greatest
            × (result.reach.greatest < 18_446_744_073_709_551_615) }
    {
        let mut spare = self.budget;
        let mut least = self.claimed;
        let mut greatest: u64 = 0;
        for i in 0..shares.len() {
            let claim = self.weights.at(i);
            let product = numbers::wide_product(self.budget, claim);
            let whole = start(product, self.claimed);
            let rest = remainder(product, whole, self.claimed);
            shares[i] = whole;
            spare -= whole;
            least = u64::min(least, rest);
            greatest = u64::max(greatest, rest);
        }
        let reach = Reach { least, greatest };
        Leavings { spare, reach }
    }

    // The remainder of label i, by the start that is kept.
    #[tactic(auto, using(crate::proofs::Starts::holds, crate::proofs::Starts::over_kept), unfolding(meaning::specs::Job::labels, meaning::specs::Job::job_of))]
    fn remainder_at(&self, i: usize, start: u32) -> u64
        requires inside { i < labels self.now }
        requires start_value { start ≡ start_of self.now i }
        ensures { (result ≡ remainder_of self.now i) × (result < 18_446_744_073_709_551_615) }
    {
        let claim = self.weights.at(i);
        remainder(
            numbers::wide_product(self.budget, claim),
            start,
            self.claimed,
        )
    }
}

// ---- the border

// Whether a label with this remainder stands at a border or before it. A border is a remainder too, and the larger goes first.
fn ahead(remainder: u64, border: u64) -> bool
    ensures { result ≡ ahead_of remainder border }
{
    border <= remainder
}

// The least remainder so far that is not below `low`, with one more remainder.
fn lowered(least: u64, rest: u64, low: u64) -> u64
    ensures { result ≡ if (ltb rest low) least (min least rest) }
{
    if rest < low {
        least
    } else {
        u64::min(least, rest)
    }
}

// The greatest so far that is below `high`, with one more.
fn raised(greatest: u64, rest: u64, high: u64) -> u64
    ensures { result ≡ if (ltb rest high) (max greatest rest) greatest }
{
    if rest < high {
        u64::max(greatest, rest)
    } else {
        greatest
    }
}

// Where the units run out: each label at the border or before it gets one, and so many are left for the labels next behind it.
#[derive(Clone, Copy)]
struct Border {
    remainder: u64,
    left: usize,
}

// Whether a label gets a unit, where `seen` labels with lower numbers stand next behind the border: as long as they are fewer than the units left, a
// label counts as one further ahead than it is.
fn gets(remainder: u64, border: u64, seen: usize, left: usize) -> bool
    requires { remainder < 18_446_744_073_709_551_615 }
    ensures { result ≡ gets_of remainder border seen left }
{
    let counted = remainder + u64::from(seen < left);
    ahead(counted, border)
}

impl<'a> Claims<'a> {
    // How many labels stand at a border or before it.
    #[tactic(auto, using(crate::proofs::Borders::ahead_more, meaning::proofs::Tally::tally_most), unfolding(meaning::specs::Lists::tally, meaning::specs::Lists::up_to, crate::specs::Borders::count_of))]
    fn count_ahead(&self, starts: &[u32], border: u64) -> usize
        requires { Started self.now (sum self.now.weights) starts.now }
        ensures { result ≡ count_of self.now border }
    {
        let mut count: usize = 0;
        for i in 0..starts.len() {
            let rest = self.remainder_at(i, starts[i]);
            count += usize::from(ahead(rest, border));
        }
        count
    }

    // How far the remainders reach that are not below `low` and below `high`.
    #[tactic(auto, using(crate::proofs::Starts::reaches_more))]
    fn reach_between(&self, starts: &[u32], low: u64, high: u64) -> Reach
        requires { Started self.now (sum self.now.weights) starts.now × (low < high) }
        ensures { Reaches self.now
            (length starts.now) low high result.least result.greatest }
    {
        let mut least = high;
        let mut greatest = low;
        for i in 0..starts.len() {
            let rest = self.remainder_at(i, starts[i]);
            least = lowered(least, rest, low);
            greatest = raised(greatest, rest, high);
        }
        Reach { least, greatest }
    }

    // The border, by halving between the least and the greatest remainder. It ends as soon as none is left for the labels behind. A half without a
    // label shows that remainders lie close together: then both ends are moved to the nearest ones.
    #[tactic(auto, using(crate::proofs::Borders::next_lowest, crate::proofs::Borders::none_between, crate::proofs::Borders::just_enough))]
    fn find_border(&self, starts: &[u32], leavings: Leavings) -> Border
        requires leaves { Leaves self.now (sum self.now.weights) starts.now leavings.spare leavings.reach.least leavings.reach.greatest
            × (leavings.reach.greatest < 18_446_744_073_709_551_615) }
        requires spare_nonzero { 0 < leavings.spare }
        ensures { RunOut self.now result.remainder result.left }
    {
        let units = leavings.spare as usize;
        let mut low = leavings.reach.least;
        let mut high = leavings.reach.greatest + 1;
        // `found` labels stand at `high` or before it, and `more` at `low` or before it
        let mut found: usize = 0;
        let mut more = starts.len();
        let mut close = false;
        // no range: the ends move by what is counted between them
        while found < units && 1 < high - low {
            if close {
                let reach = self.reach_between(starts, low, high);
                low = reach.least;
                high = reach.greatest + 1;
                close = false;
            } else {
                let middle = low + (high - low) / 2;
                let count = self.count_ahead(starts, middle);
                if count <= units {
                    close = count == found;
                    high = middle;
                    found = count;
                } else {
                    close = count == more;
                    low = middle;
                    more = count;
                }
            }
        }
        let left = units - found;
        Border {
            remainder: high,
            left,
        }
    }

    // The units go to the labels at the border or before it, and to the first ones next behind it. A label's start is read before its share
    // takes its place.
    #[tactic(auto, using(crate::proofs::Borders::behind_none, crate::proofs::Borders::behind_more, crate::proofs::Borders::behind_most, crate::proofs::Starts::shares_made))]
    fn give(&self, shares: &mut [u32], border: Border)
        requires started { Started self.now (sum self.now.weights) shares.old }
        requires run_out { RunOut self.now border.remainder border.left }
        requires budget_bound { self.now.budget < 4_294_967_296 }
        ensures { shares.new ≡ shares_of self.now }
    {
        let mut seen: usize = 0;
        for i in 0..shares.len() {
            let start = shares[i];
            let rest = self.remainder_at(i, start);
            shares[i] = start + u32::from(gets(rest, border.remainder, seen, border.left));
            let next = rest + 1;
            seen += usize::from(next == border.remainder);
        }
    }
}

// ---- the door

// The shares, one for each label. Gives the spare.
#[tactic(auto, using(crate::proofs::Starts::none_spare), unfolding(meaning::specs::Job::labels, meaning::specs::Job::job_of))]
fn share(budget: u32, weights: &Numbers, shares: &mut [u32]) -> u32
    requires weights_len_bound { (length weights.now ≤ most_claims) × (0 < sum weights.now) }
    requires shares_len { length shares.old ≡ length weights.now }
    ensures { (shares.new ≡ shares_of (claims_job budget weights.now))
        × (result ≡ spare_of (claims_job budget weights.now)) }
{
    let claims = Claims::of(budget, weights);
    let leavings = claims.write_starts(shares);
    let spare = leavings.spare;
    if spare == 0 {
        return 0;
    }
    let border = claims.find_border(shares, leavings);
    claims.give(shares, border);
    spare
}

// Kind 7: the shares and the spare of a job that no refusal meets.
#[tactic(auto, using(crate::proofs::SharesDoor::ready, crate::proofs::SharesDoor::shared), unfolding(meaning::specs::Job::job_of, meaning::specs::Job::labels))]
pub fn solve(budget: u32, weights: &Numbers, picks: &mut [u32]) -> Answer
    requires { Unrefused sharing (weights_from 7 (budget ∷ []) weights.now) (lent_of [] [] picks.old) }
    ensures { SolvedInPicks (weights_from 7 (budget ∷ []) weights.now) picks.old (given result)
        picks.new }
{
    let n = weights.len();
    let spare = share(budget, weights, &mut picks[..n]);
    Answer::Shares(spare)
}
