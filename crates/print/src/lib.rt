// An answer as the lines of document 01, made in a slice, with a statement that gives each byte. Whoever prints them writes the slice out
// in one call. Each answer has a function; a new kind's is one more, or `put_number_and_picks` with another name, and one more arm of `text`.
#![tactic(auto)]

ghost use Rattle.std.specs.Prelude.{◌+◌, ◌≤◌, length};
ghost use Rattle.meaning.specs.Says.{given, said_by};
ghost use Rattle.numbers.specs.Placed.{WrittenAt};
ghost use Rattle.print.specs.Lines.{after_blank, line_of, picks_line, head_lines};
ghost use Rattle.print.specs.Lines.{refused_lines, knapsack_lines, sums_lines, ways_lines, number_and_picks, lines_of};
ghost use Rattle.print.specs.Puts.{PutFirst};

use meaning::{Answer, Numbered};

// Puts bytes at p, and gives the place after them.
#[tactic(auto, unfolding(numbers::specs::Placed::HoldsAt))]
fn put_bytes(out: &mut [u8], p: usize, bytes: &[u8]) -> usize
    requires { p + length bytes.now ≤ length out.old }
    ensures { WrittenAt p bytes.now out.old out.new result }
{
    let end = p + bytes.len();
    out[p..end].copy_from_slice(bytes);
    end
}

// Puts a blank and a number at p, and gives the place after them.
fn put_number(out: &mut [u8], p: usize, x: u64) -> usize
    requires { p + length (after_blank x) ≤ length out.old }
    ensures { WrittenAt p (after_blank x) out.old out.new result }
{
    let mut digits = [0u8; 20];
    let count = io::decimal(x, &mut digits);
    let start = put_bytes(out, p, b" ");
    put_bytes(out, start, &digits[..count])
}

// Puts a line of a name and a number at p, and gives the place after it.
fn put_line(out: &mut [u8], p: usize, name: &[u8], x: u64) -> usize
    requires { p + length (line_of name.now x) ≤ length out.old }
    ensures { WrittenAt p (line_of name.now x) out.old out.new result }
{
    let blank = put_bytes(out, p, name);
    let line_end = put_number(out, blank, x);
    put_bytes(out, line_end, b"\n")
}

// Puts the line of picks at p, that word and the counts, and gives the place after it.
fn put_picks(out: &mut [u8], p: usize, picks: &[u32]) -> usize
    requires { p + length (picks_line picks.now) ≤ length out.old }
    ensures { WrittenAt p (picks_line picks.now) out.old out.new result }
{
    let mut end = put_bytes(out, p, b"picks");
    for pick in picks {
        end = put_number(out, end, *pick as u64);
    }
    put_bytes(out, end, b"\n")
}

// Puts the two lines that every answer but a refusal starts with, and gives the place after them.
fn put_head(out: &mut [u8], kind: u32, name: &[u8], x: u64) -> usize
    requires { length (head_lines kind name.now x) ≤ length out.old }
    ensures { WrittenAt 0 (head_lines kind name.now x) out.old out.new result }
{
    let next = put_line(out, 0, b"kind", kind as u64);
    put_line(out, next, name, x)
}

// Puts the line of a refusal, and gives how long it is.
fn put_refused(out: &mut [u8], refused: u32) -> usize
    requires { length (refused_lines refused) ≤ length out.old }
    ensures { PutFirst (refused_lines refused) out.old out.new result }
{
    put_line(out, 0, b"refused", refused as u64)
}

// Puts the lines of a knapsack, and gives how long they are.
fn put_knapsack(out: &mut [u8], kind: u32, value: u32, weight: u32, picks: &[u32]) -> usize
    requires { length (knapsack_lines kind value weight picks.now) ≤ length out.old }
    ensures { PutFirst (knapsack_lines kind value weight picks.now) out.old out.new result }
{
    let next = put_head(out, kind, b"value", value as u64);
    let last = put_line(out, next, b"weight", weight as u64);
    put_picks(out, last, picks)
}

// Puts the lines of kind 4, and gives how long they are.
fn put_sums(out: &mut [u8], kind: u32, yes: bool, totals: u32) -> usize
    requires { length (sums_lines kind yes totals) ≤ length out.old }
    ensures { PutFirst (sums_lines kind yes totals) out.old out.new result }
{
    let next = put_head(out, kind, b"yes", yes as u64);
    put_line(out, next, b"totals", totals as u64)
}

// Puts the lines of kind 6, and gives how long they are.
fn put_ways(out: &mut [u8], kind: u32, ways: u64) -> usize
    requires { length (ways_lines kind ways) ≤ length out.old }
    ensures { PutFirst (ways_lines kind ways) out.old out.new result }
{
    put_head(out, kind, b"ways", ways)
}

// Puts the lines of an answer that is one number under its name, and picks; gives how long they are.
fn put_number_and_picks(out: &mut [u8], kind: u32, name: &[u8], x: u32, picks: &[u32]) -> usize
    requires { length (number_and_picks kind name.now x picks.now) ≤ length out.old }
    ensures { PutFirst (number_and_picks kind name.now x picks.now) out.old out.new result }
{
    let next = put_head(out, kind, name, x as u64);
    put_picks(out, next, picks)
}

// Puts the lines of an answer, and gives how long they are.
fn put_answer(out: &mut [u8], kind: u32, answer: Answer, picks: &[u32]) -> usize
    requires { length (lines_of kind (given answer) picks.now) ≤ length out.old }
    ensures { PutFirst (lines_of kind (given answer) picks.now) out.old out.new result }
{
    match answer {
        Answer::Knapsack { value, weight } => put_knapsack(out, kind, value, weight, picks),
        Answer::Sums { yes, totals } => put_sums(out, kind, yes, totals),
        Answer::Blocks(blocks) => put_number_and_picks(out, kind, b"blocks", blocks, picks),
        Answer::Ways(ways) => put_ways(out, kind, ways),
        Answer::Shares(spare) => put_number_and_picks(out, kind, b"spare", spare, picks),
        Answer::Weight(weight) => put_number_and_picks(out, kind, b"weight", weight, picks),
    }
}

// Puts all lines of an answer to a job of this kind, or of its refusal, whatever names its number, at the start of a slice, and gives how long they
// are: at most 128 bytes, and 21 for each pick.
pub fn text<R: Numbered>(
    kind: u32,
    answer: Result<Answer, R>,
    picks: &[u32],
    out: &mut [u8],
) -> usize
    requires { length (lines_of kind (said_by R.numbered answer) picks.now) ≤ length out.old }
    ensures { PutFirst (lines_of kind (said_by R.numbered answer) picks.now) out.old out.new result }
{
    match answer {
        Ok(answer) => put_answer(out, kind, answer, picks),
        Err(refusal) => put_refused(out, refusal.number()),
    }
}
