// Certificates: the checker, which judges a keep list with a table of claims, whoever made them; and the writer, which puts picks and
// cells into bytes.
#![tactic(auto)]

ghost use Rattle.std.specs.Prelude.{◌≡◌, ◌<◌, [], ◌∷◌};
ghost use Rattle.meaning.specs.Judges.{judged};
ghost use Rattle.meaning.specs.Refusing.{refused};
ghost use Rattle.meaning.specs.Reports.{reported};
ghost use Rattle.meaning.specs.Job.{job_of};
ghost use Rattle.meaning.specs.Certificates.{Checked, HasCertificates, verdict_on_certificate};
ghost use Rattle.meaning.specs.Writer.{Writes, WritesBytes};
ghost use Rattle.verdicts.specs.Asked.{certified, knapsack_in};
ghost use Rattle.certificate.specs.Refusing.{certified_refusal};
ghost use Rattle.certificate.specs.Copying.{CopiedFor};

use meaning::{Fault, Refusal};
use numbers::{Job, Numbers};

// The lowest of 2 to 5 that applies to a job. Kinds 1 to 3 have certificates.
fn job_refusal(job: &Job) -> Result<(), Refusal>
    ensures { refused result ≡ certified_refusal (certified job.now) }
{
    match job.kind {
        1..=3 => requests::job_refusal(rules::knapsack_rules(job.kind), job),
        _ => Err(Refusal::Kind),
    }
}

// ---- the checker

// 11, or what comes of the picks and the cells that the certificate holds.
fn judge(job: &Job, certificate: &[u8]) -> Result<u32, Fault>
    requires { HasCertificates (knapsack_in job.now.kind) (certified job.now) }
    ensures { judged result ≡ verdict_on_certificate (knapsack_in job.now.kind) (certified job.now) certificate.now }
{
    let n = job.weights.len();
    let needed = rules::knapsack_room(job.kind, n, job.budget);
    let Ok((picks, picks_end)) = numbers::section(certificate, 0, Some(n as u32)) else {
        return Err(Fault::from(Refusal::Sections));
    };
    let many = needed.cells as u32;
    let Ok((cells, cells_end)) = numbers::section(certificate, picks_end, Some(many)) else {
        return Err(Fault::from(Refusal::Sections));
    };
    if cells_end < certificate.len() {
        return Err(Fault::from(Refusal::Sections));
    }
    verdicts::judge_cells(job, &Numbers::packed(picks), cells)
}

// Judges certificate bytes for job bytes. Any bytes may be handed in; nothing is written.
pub fn check(job: &[u8], certificate: &[u8]) -> Result<u32, Fault>
    ensures { Checked job.now certificate.now (judged result) }
{
    let Ok(request) = requests::read_job(job) else {
        return Err(Fault::from(Refusal::Bytes));
    };
    job_refusal(&request)?;
    judge(&request, certificate)
}

// ---- the writer

// Writes the first n picks and then the first `count` cells, each as a section, where all three slices are long enough.
fn copy_out(
    picks: &[u32],
    n: usize,
    cells: &[u32],
    count: usize,
    out: &mut [u8],
) -> Result<u64, Refusal>
    requires { (n < 4_294_967_296) × (count < 4_294_967_296) }
    ensures { CopiedFor n count picks.now cells.now out.old (reported result) out.new }
{
    let needed = 8 + 4 * n + 4 * count;
    if picks.len() < n {
        return Err(Refusal::Room);
    }
    if cells.len() < count {
        return Err(Refusal::Room);
    }
    if out.len() < needed {
        return Err(Refusal::Room);
    }
    let middle = numbers::write_section(out, 0, &picks[..n]);
    numbers::write_section(out, middle, &cells[..count]);
    Ok(needed as u64)
}

// Writes the certificate of picks and cells for a job, however its lists came.
fn write_job(job: &Job, picks: &[u32], cells: &[u32], out: &mut [u8]) -> Result<u64, Refusal>
    ensures { Writes (certified job.now) picks.now cells.now out.old (reported result) out.new }
{
    job_refusal(job)?;
    let n = job.weights.len();
    let room = rules::knapsack_room(job.kind, n, job.budget);
    copy_out(picks, n, cells, room.cells, out)
}

// Writes a certificate for a job of lists. Any lists and any slices may be handed in; what is copied isn't judged.
pub fn write(
    kind: u32,
    budget: u32,
    weights: &[u32],
    values: &[u32],
    copies: &[u32],
    picks: &[u32],
    cells: &[u32],
    out: &mut [u8],
) -> Result<u64, Refusal>
    ensures { Writes (job_of kind (budget ∷ []) weights.now values.now copies.now)
        picks.now cells.now out.old (reported result) out.new }
{
    let job = Job {
        kind,
        budget,
        q: 0,
        weights: Numbers::listed(weights),
        values: Numbers::listed(values),
        copies: Numbers::listed(copies),
    };
    write_job(&job, picks, cells, out)
}

// Writes a certificate for job bytes.
pub fn write_bytes(job: &[u8], picks: &[u32], cells: &[u32], out: &mut [u8]) -> Result<u64, Refusal>
    ensures { WritesBytes job.now picks.now cells.now out.old (reported result) out.new }
{
    match requests::read_job(job) {
        Ok(request) => write_job(&request, picks, cells, out),
        Err(_) => Err(Refusal::Bytes),
    }
}
