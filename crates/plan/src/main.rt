// The program: one job from standard input, and its answer as the lines of document 01.
#![tactic(auto)]

ghost use Rattle.std.specs.Prelude.{◌≡◌, ◌≤◌, ◌<◌, length, take, IfOk};
ghost use Rattle.std.specs.Io.{ReadsAtMost};
ghost use Rattle.std.specs.Io.KnownBytes.{Consumes, IsAtEnd};
ghost use Rattle.meaning.specs.Says.{given, said};
ghost use Rattle.plan.specs.Picks.{picks_written};
ghost use Rattle.plan.specs.Replies.{JobReplied, Replied, lines_room};

use meaning::{Answer, Refusal};
use std::io;
use std::io::Read;

// How many bytes a job may have.
const MOST_INPUT: usize = 16_384;

// How many cells, words and picks are lent.
const CELLS: usize = 8_192;

const WORDS: usize = 1_024;

const PICKS: usize = 1_024;

// How many bytes the lines of an answer need: 128, and 21 for each pick that is lent.
const LINES_ROOM: usize = 128 + 21 * PICKS;

// How many picks an answer to a job of n labels has written: one a label where its kind has picks.
fn picks_of(answer: Answer, n: usize) -> usize
    ensures { result ≡ picks_written (given answer) n }
{
    match answer {
        Answer::Knapsack {
            value: _,
            weight: _,
        }
        | Answer::Blocks(_)
        | Answer::Shares(_)
        | Answer::Weight(_) => n,
        Answer::Sums { yes: _, totals: _ } | Answer::Ways(_) => 0,
    }
}

// The same of what was handed back: a refusal has none.
fn picks_written(answer: Result<Answer, Refusal>, n: usize) -> usize
    ensures { result ≡ picks_written (said answer) n }
{
    match answer {
        Ok(answer) => picks_of(answer, n),
        Err(_) => 0,
    }
}

// Makes the lines that answer job bytes, and gives how long they are.
fn reply_to_job(job: &[u8], out: &mut [u8]) -> usize
    requires { lines_room ≤ length out.old }
    ensures { JobReplied job.now out.old out.new result }
{
    let mut cells = [0u32; CELLS];
    let mut words = [0u64; WORDS];
    let mut picks = [0u32; PICKS];
    let told = planner::solve_told(job, &mut cells, &mut words, &mut picks);
    let answer = told.answer;
    let written = picks_written(answer, told.labels);
    print::text(told.kind, answer, &picks[..written], out)
}

// Makes the lines that answer the input, and gives how long they are. Longer input is refused before anything of it is read as a job.
fn reply(input: &[u8], out: &mut [u8]) -> usize
    requires { lines_room ≤ length out.old }
    ensures { Replied input.now out.old out.new result }
{
    if MOST_INPUT < input.len() {
        return print::text(0, Err(Refusal::Bound), &[0u32; 0], out);
    }
    reply_to_job(input, out)
}

// Reads until the slice is full or the input ends, in whatever pieces it comes, and gives how many bytes it put there.
fn read_input<R: Read>(reader: &mut R, input: &mut [u8]) -> io::Result<usize>
    ensures bound { ReadsAtMost result input.new }
    ensures bytes { IfOk result (λ n. Consumes (R.remaining reader.old) (R.remaining reader.new) (take n input.new)) }
    ensures whole { IfOk result (λ n. n < length input.new → IsAtEnd (R.remaining reader.new)) }
{
    let mut filled = 0;
    // no range: each turn goes on where the read before it came to
    while filled < input.len() {
        let count = reader.read(&mut input[filled..])?;
        if count == 0 {
            break;
        }
        filled += count;
    }
    Ok(filled)
}

// One byte more than a job may have is read, so that longer input shows.
fn main(rt: HostRuntime) -> io::Result<()> {
    let mut input = [0u8; MOST_INPUT + 1];
    let mut out = [0u8; LINES_ROOM];
    let length = read_input(&mut rt.stdin(), &mut input)?;
    let size = reply(&input[..length], &mut out);
    rt.write_all(&out[..size])
}
