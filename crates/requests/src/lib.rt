// What is asked of a request before it is answered: job bytes are read (refusal 1), a job is held to the rules of its kind (3 to 5), q to its
// bounds (5 too), and claims need a sum (9). The rules, and the room that 6 asks for, are those of `rules`; which kinds there are, and so
// refusal 2, is for the planner, the checker and the writer to say.
#![tactic(auto)]

ghost use Rattle.std.specs.Prelude.{◌≡◌, ℕ, Bool, ◌&&◌, ltb, leb, eqb};
ghost use Rattle.meaning.specs.Lists.{sum, if};
ghost use Rattle.meaning.specs.Bounds.{least_q, most_q};
ghost use Rattle.meaning.specs.Refusing.{refused};
ghost use Rattle.meaning.specs.Refusals.{ascending_from, numbers_fit, job_refusal};
ghost use Rattle.numbers.specs.Lists.{job_as};
ghost use Rattle.rules.specs.Ruling.{rules_from, rule_from};
ghost use Rattle.requests.specs.Reading.{ReadAs, ReadInParts, Within, bytes_at};
ghost use Rattle.requests.specs.Judging.{EachWithin};

use meaning::Refusal;
use numbers::{Job, Numbers};
use rules::{Rules, WeightRule};

// ---- refusal 1

// Where the numbers of a list stand in the job bytes: from a place up to another.
#[derive(Clone, Copy)]
pub struct Part {
    pub start: usize,
    pub end: usize,
}

// What job bytes that can be read tell: the kind, the budget, q, and where the numbers of each list stand. Where the kind has no q, its number
// stands for nothing.
#[derive(Clone, Copy)]
pub struct Parts {
    pub kind: u32,
    pub budget: u32,
    pub q: u32,
    pub weights: Part,
    pub values: Part,
    pub copies: Part,
}

// Reads job bytes, section by section; or gives the place where reading broke. Of two budgets q is the last.
pub fn read_parts(job: &[u8]) -> Result<Parts, usize>
    ensures { ReadInParts job.now result }
{
    let (kinds, kinds_end) = numbers::section(job, 0, Some(1))?;
    let kind = numbers::number_in(kinds, 0);
    let count = rules::budget_count(kind);
    let (budgets, budgets_end) = numbers::section(job, kinds_end, Some(count))?;
    let (weights, _, weights_end) = numbers::read_section(job, budgets_end, None)?;
    let (values, _, values_end) = numbers::read_section(job, weights_end, None)?;
    let (copies, _, copies_end) = numbers::read_section(job, values_end, None)?;
    if copies_end < job.len() {
        return Err(copies_end);
    }
    Ok(Parts {
        kind,
        budget: numbers::number_in(budgets, 0),
        q: numbers::number_in(budgets, count as usize - 1),
        weights: Part {
            start: weights,
            end: weights_end,
        },
        values: Part {
            start: values,
            end: values_end,
        },
        copies: Part {
            start: copies,
            end: copies_end,
        },
    })
}

// The bytes of a list: a part of the job, and no copy of it.
pub fn bytes_at(bytes: &[u8], part: Part) -> &[u8]
    requires { Within bytes.now part }
    ensures { result.now ≡ bytes_at bytes.now part }
{
    let start = part.start;
    let end = part.end;
    &bytes[start..end]
}

// The job that was read, with its lists in their parts of the bytes; or the place where reading broke. It goes into its callers, where the compiler then
// sees that each list is in bytes alone: apart from them it left 50 equal claims at 1.19 of plain Rust.
#[inline(always)]
pub fn read_job(job: &[u8]) -> Result<Job<'_>, usize>
    ensures { ReadAs job.now result }
{
    let parts = read_parts(job)?;
    let weights = bytes_at(job, parts.weights);
    let values = bytes_at(job, parts.values);
    let copies = bytes_at(job, parts.copies);
    Ok(Job {
        kind: parts.kind,
        budget: parts.budget,
        q: parts.q,
        weights: Numbers::packed(weights),
        values: Numbers::packed(values),
        copies: Numbers::packed(copies),
    })
}

// ---- tests of a list's numbers

// Whether each number of a list is from low to high. The loop has no way out: a list that keeps its rule is passed whole.
fn each_within(numbers: &Numbers, low: u32, high: u32) -> bool
    ensures { EachWithin low high numbers.now result }
{
    let mut within = true;
    for i in 0..numbers.len() {
        let x = numbers.at(i);
        within = within & (low <= x) & (x <= high);
    }
    within
}

// Whether the numbers of a list are 1 or more and strictly ascending.
fn ascending(numbers: &Numbers) -> bool
    ensures { result ≡ ascending_from 1 numbers.now }
{
    let mut least: u64 = 1;
    for i in 0..numbers.len() {
        let x = numbers.at(i) as u64;
        if x < least {
            return false;
        }
        least = x + 1;
    }
    true
}

// Whether S, the sum of a list, is positive: whether its numbers are not all 0.
pub fn has_sum(numbers: &Numbers) -> bool
    ensures { result ≡ ltb 0 (sum numbers.now) }
{
    !each_within(numbers, 0, 0)
}

// Whether weights keep a rule.
fn keeps(rule: WeightRule, weights: &Numbers) -> bool
    ensures { result ≡ rule_from rule weights.now }
{
    match rule {
        WeightRule::Positive => each_within(weights, 1, u32::MAX),
        WeightRule::Ascending => ascending(weights),
        WeightRule::Anything => true,
    }
}

// ---- refusals 3 to 5

// How many members a list has to have, by whether it is used.
fn members(used: bool, n: usize) -> usize
    ensures { result ≡ if used n 0 }
{
    if used { n } else { 0 }
}

// 3: whether a used list has n members, and an unused one none.
fn lists_fit(rules: Rules, n: usize, values: usize, copies: usize) -> bool
    ensures { result ≡ (eqb values (if rules.valued n 0) && eqb copies (if rules.copied n 0)) }
{
    values == members(rules.valued, n) && copies == members(rules.copied, n)
}

// 4: whether n and C are within their bounds.
fn bounds_fit(rules: Rules, n: usize, budget: u32) -> bool
    ensures { result ≡ (leb n rules.labels && leb budget rules.budget) }
{
    n <= rules.labels && budget <= rules.budget
}

// 5: whether every weight, value and copies number keeps its rule.
fn numbers_fit(rules: Rules, job: &Job) -> bool
    ensures { (kind : ℕ) (needs_sum : Bool) → result ≡ numbers_fit (rules_from rules needs_sum) (job_as kind job.now) }
{
    if !keeps(rules.weights, &job.weights) {
        return false;
    }
    let worth = rules::value_bounds(rules);
    if !each_within(&job.values, worth.least, worth.most) {
        return false;
    }
    let counts = rules::copies_bounds();
    each_within(&job.copies, counts.least, counts.most)
}

// 5, of a kind with a q: whether it is within its bounds.
pub fn q_fits(q: u32) -> bool
    ensures { result ≡ (leb least_q q && leb q most_q) }
{
    let bounds = rules::q_bounds();
    bounds.least <= q && q <= bounds.most
}

// The lowest of 3 to 5 that applies to a job, but for its q.
pub fn job_refusal(rules: Rules, job: &Job) -> Result<(), Refusal>
    ensures { (kind : ℕ) (needs_sum : Bool) → refused result ≡ job_refusal (rules_from rules needs_sum) (job_as kind job.now) 0 }
{
    let n = job.weights.len();
    let listed = lists_fit(rules, n, job.values.len(), job.copies.len());
    let bounded = bounds_fit(rules, n, job.budget);
    if !listed {
        return Err(Refusal::Lengths);
    }
    if !bounded {
        return Err(Refusal::Bound);
    }
    if !numbers_fit(rules, job) {
        return Err(Refusal::Rule);
    }
    Ok(())
}
