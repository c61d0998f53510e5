// The planner: any request is answered or refused. A job comes as lists of numbers or as job bytes; both go to one place, where the kind
// decides, and from there to the crate of that kind.
#![tactic(auto)]

ghost use Rattle.std.specs.Prelude.{[], ◌∷◌, ◌≡◌, Bool, true, false, ◌&&◌, leb, ℕ, ◌≤◌};
ghost use Rattle.meaning.specs.declared.Way.TheVariants.{Light, Full};
ghost use Rattle.meaning.specs.Lists.{if};
ghost use Rattle.meaning.specs.Job.{job_of, labels, stated_share};
ghost use Rattle.meaning.specs.Cuts.{stated_cells};
ghost use Rattle.meaning.specs.Lent.{lent_of};
ghost use Rattle.meaning.specs.Refusals.{job_refusal, rules_of};
ghost use Rattle.meaning.specs.Refusing.{refused};
ghost use Rattle.meaning.specs.Says.{said};
ghost use Rattle.meaning.specs.Solved.{SolvedBy, Solved, SolvedBytes, SolvedFull, SolvedFullBytes};
ghost use Rattle.meaning.specs.Told.{ToldBy, ToldBytes};
ghost use Rattle.meaning.specs.SolvedIn.{SolvedInCellsBy, SolvedInCells, SolvedInWords, SolvedInPicks};
ghost use Rattle.numbers.specs.Lists.{job_in, job_as};
ghost use Rattle.rules.specs.Ruling.{rules_from};
ghost use Rattle.rules.specs.Places.{has_room};

use meaning::{Answer, Refusal, Way};
use numbers::{Job, Numbers};
use rules::{Room, Rules};

// The lowest of 3 to 6 that applies to a job of a kind with these rules that needs this room, where the lent slices have these lengths.
fn refusal(
    rules: Rules,
    room: Room,
    job: &Job,
    cells: usize,
    words: usize,
    picks: usize,
) -> Result<(), Refusal>
    ensures { (kind : ℕ) (needs_sum : Bool) → refused result
        ≡ job_refusal (rules_from rules needs_sum) (job_as kind job.now) (if (has_room room cells words picks) 0 6) }
{
    requests::job_refusal(rules, job)?;
    if rules::room_fits(room, cells, words, picks) {
        Ok(())
    } else {
        Err(Refusal::Room)
    }
}

// Each arm chooses its rules, its room and its door. A length of 0 stands for a slice that the kind doesn't need.

// Kinds 1 to 3, kind 1 the full way.
fn pack_full(job: &Job, cells: &mut [u32], picks: &mut [u32]) -> Result<Answer, Refusal>
    requires { (1 ≤ job.now.kind) × (job.now.kind ≤ 3) }
    ensures { SolvedInCellsBy Full (job_as job.now.kind job.now) cells.old picks.old (said result) cells.new picks.new }
{
    let n = job.weights.len();
    let rules = rules::knapsack_rules(job.kind);
    let room = rules::knapsack_room(job.kind, n, job.budget);
    refusal(rules, room, job, cells.len(), 0, picks.len())?;
    Ok(knapsack::solve(job, cells, picks))
}

// Kind 1 the light way.
fn pack_light(
    job: &Job,
    cells: &mut [u32],
    words: &mut [u64],
    picks: &mut [u32],
) -> Result<Answer, Refusal>
    ensures { Solved (job_as 1 job.now) (lent_of cells.old words.old picks.old) (said result)
        (lent_of cells.new words.new picks.new) }
{
    let n = job.weights.len();
    let rules = rules::knapsack_rules(1);
    let room = rules::light_room(n, job.budget);
    refusal(rules, room, job, cells.len(), words.len(), picks.len())?;
    Ok(light::solve(job.budget, &job.weights, &job.values, cells, words, picks))
}

// Whether a job of this kind goes the light way: kind 1 alone has one.
fn goes_light(way: Way, kind: u32) -> bool
    ensures { (result ≡ true → (way ≡ Light) × (kind ≡ 1)) × (result ≡ false → kind ≡ 1 → way ≡ Full) }
{
    match way {
        Way::Light => kind == 1,
        Way::Full => false,
    }
}

// Kinds 1 to 3.
fn pack(
    way: Way,
    job: &Job,
    cells: &mut [u32],
    words: &mut [u64],
    picks: &mut [u32],
) -> Result<Answer, Refusal>
    requires { (1 ≤ job.now.kind) × (job.now.kind ≤ 3) }
    ensures { SolvedBy way (job_as job.now.kind job.now) (lent_of cells.old words.old picks.old) (said result)
        (lent_of cells.new words.new picks.new) }
{
    if goes_light(way, job.kind) {
        return pack_light(job, cells, words, picks);
    }
    pack_full(job, cells, picks)
}

// Kind 4.
fn reach(job: &Job, words: &mut [u64]) -> Result<Answer, Refusal>
    ensures { SolvedInWords (job_as 4 job.now) words.old (said result) words.new }
{
    let rules = rules::sums_rules();
    let room = rules::sums_room(job.budget);
    refusal(rules, room, job, 0, words.len(), 0)?;
    Ok(sums::solve(job.budget, &job.weights, words))
}

// Kinds 5 and 6.
fn lay(
    job: &Job,
    cells: &mut [u32],
    words: &mut [u64],
    picks: &mut [u32],
) -> Result<Answer, Refusal>
    requires { (5 ≤ job.now.kind) × (job.now.kind ≤ 6) }
    ensures { Solved (job_as job.now.kind job.now) (lent_of cells.old words.old picks.old) (said result)
        (lent_of cells.new words.new picks.new) }
{
    let n = job.weights.len();
    let rules = rules::blocks_rules();
    let room = rules::blocks_room(job.kind, n, job.budget);
    refusal(rules, room, job, cells.len(), words.len(), picks.len())?;
    blocks::solve(job.kind, job.budget, &job.weights, cells, words, picks)
}

// Kind 7, which 9 may refuse too.
fn share(job: &Job, picks: &mut [u32]) -> Result<Answer, Refusal>
    ensures { SolvedInPicks (job_as 7 job.now) picks.old (said result) picks.new }
{
    let n = job.weights.len();
    let rules = rules::shares_rules();
    let room = rules::shares_room(n);
    refusal(rules, room, job, 0, 0, picks.len())?;
    if !requests::has_sum(&job.weights) {
        return Err(Refusal::NoClaims);
    }
    Ok(shares::solve(job.budget, &job.weights, picks))
}

// Kind 8.
fn show(job: &Job, cells: &mut [u32], picks: &mut [u32]) -> Result<Answer, Refusal>
    ensures { SolvedInCells (job_as 8 job.now) cells.old picks.old (said result) cells.new picks.new }
{
    let n = job.weights.len();
    let rules = rules::sums_rules();
    let room = rules::row_room(n, job.budget);
    refusal(rules, room, job, cells.len(), 0, picks.len())?;
    behind::solve(job.budget, &job.weights, cells, picks)
}

// The lowest of 3 to 6 that applies to a job of kind 9. It is asked as kind 1 is, then about q; its room goes by its numbers, so it is counted once
// they have passed.
fn stated_refusal(job: &Job, cells: usize, picks: usize) -> Result<(), Refusal>
    ensures { let j = job_of 9 (job.now.budget ∷ job.now.q ∷ []) job.now.weights job.now.values job.now.copies in
        refused result ≡ job_refusal (rules_of stated_share) j (if (leb (stated_cells j) cells && leb (labels j) picks) 0 6) }
{
    let rules = rules::knapsack_rules(1);
    requests::job_refusal(rules, job)?;
    if !requests::q_fits(job.q) {
        return Err(Refusal::Rule);
    }
    let needed = stated::cells_needed(job.budget, job.q, &job.weights, &job.values);
    if cells < needed {
        return Err(Refusal::Room);
    }
    if picks < job.weights.len() {
        return Err(Refusal::Room);
    }
    Ok(())
}

// Kind 9.
fn state(job: &Job, cells: &mut [u32], picks: &mut [u32]) -> Result<Answer, Refusal>
    ensures { SolvedInCells (job_of 9 (job.now.budget ∷ job.now.q ∷ []) job.now.weights job.now.values job.now.copies)
        cells.old picks.old (said result) cells.new picks.new }
{
    stated_refusal(job, cells.len(), picks.len())?;
    Ok(stated::solve(job.budget, job.q, &job.weights, &job.values, cells, picks))
}

// The one place where the kind decides. It stays the number that the job has: document 01 names this form for it, one match with ranges.
fn decide(
    way: Way,
    job: &Job,
    cells: &mut [u32],
    words: &mut [u64],
    picks: &mut [u32],
) -> Result<Answer, Refusal>
    ensures { SolvedBy way (job_in job.now) (lent_of cells.old words.old picks.old) (said result)
        (lent_of cells.new words.new picks.new) }
{
    match job.kind {
        1..=3 => pack(way, job, cells, words, picks),
        4 => reach(job, words),
        5 | 6 => lay(job, cells, words, picks),
        7 => share(job, picks),
        8 => show(job, cells, picks),
        9 => state(job, cells, picks),
        _ => Err(Refusal::Kind),
    }
}

// A job of lists, by a way.
fn solve_by(
    way: Way,
    kind: u32,
    budget: u32,
    q: u32,
    weights: &[u32],
    values: &[u32],
    copies: &[u32],
    cells: &mut [u32],
    words: &mut [u64],
    picks: &mut [u32],
) -> Result<Answer, Refusal>
    ensures { SolvedBy way (job_of kind (budget ∷ q ∷ []) weights.now values.now copies.now)
        (lent_of cells.old words.old picks.old) (said result)
        (lent_of cells.new words.new picks.new) }
{
    let job = Job {
        kind,
        budget,
        q,
        weights: Numbers::listed(weights),
        values: Numbers::listed(values),
        copies: Numbers::listed(copies),
    };
    decide(way, &job, cells, words, picks)
}

// A job of lists. Any lists and any slices may be handed in. q stands beside the budget; kinds but 9 ignore it.
pub fn solve(
    kind: u32,
    budget: u32,
    q: u32,
    weights: &[u32],
    values: &[u32],
    copies: &[u32],
    cells: &mut [u32],
    words: &mut [u64],
    picks: &mut [u32],
) -> Result<Answer, Refusal>
    ensures { Solved (job_of kind (budget ∷ q ∷ []) weights.now values.now copies.now)
        (lent_of cells.old words.old picks.old) (said result)
        (lent_of cells.new words.new picks.new) }
{
    solve_by(
        Way::Light,
        kind,
        budget,
        q,
        weights,
        values,
        copies,
        cells,
        words,
        picks,
    )
}

// The same, kind 1 with the full table.
pub fn solve_full(
    kind: u32,
    budget: u32,
    q: u32,
    weights: &[u32],
    values: &[u32],
    copies: &[u32],
    cells: &mut [u32],
    words: &mut [u64],
    picks: &mut [u32],
) -> Result<Answer, Refusal>
    ensures { SolvedFull (job_of kind (budget ∷ q ∷ []) weights.now values.now copies.now)
        (lent_of cells.old words.old picks.old) (said result)
        (lent_of cells.new words.new picks.new) }
{
    solve_by(
        Way::Full,
        kind,
        budget,
        q,
        weights,
        values,
        copies,
        cells,
        words,
        picks,
    )
}

// What a program needs to print: the number of the kind, how many labels there are, and the answer.
#[derive(Clone, Copy)]
pub struct Told {
    pub kind: u32,
    pub labels: usize,
    pub answer: Result<Answer, Refusal>,
}

// Job bytes, by a way. Each section is handed on as the part of the job that it stands in.
fn tell(way: Way, job: &[u8], cells: &mut [u32], words: &mut [u64], picks: &mut [u32]) -> Told
    ensures { ToldBy way job.now (lent_of cells.old words.old picks.old)
        result.kind result.labels (said result.answer) (lent_of cells.new words.new picks.new) }
{
    let Ok(request) = requests::read_job(job) else {
        return Told {
            kind: 0,
            labels: 0,
            answer: Err(Refusal::Bytes),
        };
    };
    Told {
        kind: request.kind,
        labels: request.weights.len(),
        answer: decide(way, &request, cells, words, picks),
    }
}

// Job bytes. Any bytes and any slices may be handed in.
pub fn solve_told(job: &[u8], cells: &mut [u32], words: &mut [u64], picks: &mut [u32]) -> Told
    ensures { ToldBytes job.now (lent_of cells.old words.old picks.old)
        result.kind result.labels (said result.answer) (lent_of cells.new words.new picks.new) }
{
    tell(Way::Light, job, cells, words, picks)
}

// The answer alone.
pub fn solve_bytes(
    job: &[u8],
    cells: &mut [u32],
    words: &mut [u64],
    picks: &mut [u32],
) -> Result<Answer, Refusal>
    ensures { SolvedBytes job.now (lent_of cells.old words.old picks.old) (said result)
        (lent_of cells.new words.new picks.new) }
{
    tell(Way::Light, job, cells, words, picks).answer
}

// The answer alone, kind 1 with the full table.
pub fn solve_full_bytes(
    job: &[u8],
    cells: &mut [u32],
    words: &mut [u64],
    picks: &mut [u32],
) -> Result<Answer, Refusal>
    ensures { SolvedFullBytes job.now (lent_of cells.old words.old picks.old) (said result)
        (lent_of cells.new words.new picks.new) }
{
    tell(Way::Full, job, cells, words, picks).answer
}
