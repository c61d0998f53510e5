// What is printed: an answer as its lines, or within a line.
ghost use Rattle.std.specs.Prelude.{◌≤◌, length};

use meaning::{Answer, Refusal};
use std::io;

// Some text, with no line end.
pub fn text(rt: &impl Print, words: &[u8]) -> io::Result<()> {
    rt.write_all(words)
}

// How many bytes a job is.
pub fn size(rt: &impl Print, count: usize) -> io::Result<()> {
    text(rt, b" as ")?;
    rt.print(count)?;
    text(rt, b" bytes")
}

// A line of an answer within another line: its kind and its picks are left out, and the rest of the text after the last line, which is empty.
fn within(rt: &impl Print, line: &[u8]) -> io::Result<()> {
    match line.first() {
        None | Some(b'k' | b'p') => Ok(()),
        Some(_) => {
            text(rt, b" ")?;
            text(rt, line)
        }
    }
}

// The lines of an answer within a line.
fn all_within(rt: &impl Print, lines: &[u8]) -> io::Result<()> {
    for line in lines.split(|byte| *byte == b'\n') {
        within(rt, line)?;
    }
    Ok(())
}

// The lines of an answer, after the line that names its job.
fn whole_lines(rt: &impl Print, lines: &[u8]) -> io::Result<()> {
    text(rt, b"\n")?;
    text(rt, lines)
}

// The lines of an answer, whole or within a line.
fn put(rt: &impl Print, lines: &[u8], whole: bool) -> io::Result<()> {
    if whole {
        return whole_lines(rt, lines);
    }
    all_within(rt, lines)
}

// An answer. Its lines take at most 128 bytes and 21 for each of 4,096 picks.
pub fn show(
    rt: &impl Print,
    kind: u32,
    answer: Result<Answer, Refusal>,
    picks: &[u32],
    whole: bool,
) -> io::Result<()>
    requires { length picks.now ≤ 4_096 }
{
    let mut out = [0u8; 86_144];
    let size = print::text(kind, answer, picks, &mut out);
    put(rt, &out[0..size], whole)
}
