// The trials of document 01 that standard input lists: its cases, whose mark is `-`, or `=` where kind 1 goes the full way, and its bounds, whose mark
// is `>`, with what comes at the bound and one past it. Each job is answered as lists and as bytes, on slices that held something else before; a job
// whose mark is `~` gets a quick answer, which there is for lists alone. Lines with no mark are words for who reads the list. The gate holds the print
// to the file stdout.
#![tactic(auto)]

mod doors;
mod lines;
mod quickly;
mod reading;

ghost use Rattle.std.specs.Io.{ReadsAtMost};

use meaning::Way;
use reading::find;
use std::io;
use std::io::Read;

// Has the job after a place of a line answered and printed. Answers the place after the job.
fn run_job(
    rt: &impl Print,
    way: Way,
    line: &[u8],
    place: usize,
    as_bytes: bool,
    whole: bool,
) -> io::Result<usize> {
    let mut numbers = [0u32; 16_384];
    let end = reading::read_job(line, place, &mut numbers);
    doors::answer(rt, way, &numbers, as_bytes, whole)?;
    Ok(end)
}

// The two jobs of a bound.
fn run_bound(rt: &impl Print, line: &[u8], colon: usize, as_bytes: bool) -> io::Result<()> {
    lines::text(rt, b":")?;
    let slash = run_job(rt, Way::Light, line, colon, as_bytes, false)?;
    lines::text(rt, b", then")?;
    run_job(rt, Way::Light, line, slash, as_bytes, false)?;
    lines::text(rt, b"\n")
}

// The job of a quick answer.
fn run_quick(rt: &impl Print, line: &[u8], colon: usize) -> io::Result<()> {
    lines::text(rt, b"\n")?;
    let mut numbers = [0u32; 16_384];
    reading::read_job(line, colon, &mut numbers);
    quickly::answer(rt, &numbers)
}

// A case, a bound or a quick answer, after its name.
fn trial(rt: &impl Print, way: Way, line: &[u8], as_bytes: bool) -> io::Result<()> {
    let colon = find(line, 0, b':');
    if colon == 0 {
        return Ok(());
    }
    lines::text(rt, &line[1..colon])?;
    match line[0] {
        b'>' => run_bound(rt, line, colon, as_bytes),
        b'~' => run_quick(rt, line, colon),
        _ => {
            run_job(rt, way, line, colon, as_bytes, true)?;
            Ok(())
        }
    }
}

// A case or a bound, as lists and as bytes.
fn both(rt: &impl Print, way: Way, line: &[u8]) -> io::Result<()> {
    trial(rt, way, line, false)?;
    trial(rt, way, line, true)
}

// One line of the list.
fn run_line(rt: &impl Print, line: &[u8]) -> io::Result<()> {
    match line.first() {
        Some(b'-' | b'>') => both(rt, Way::Light, line),
        Some(b'=') => both(rt, Way::Full, line),
        Some(b'~') => trial(rt, Way::Light, line, false),
        _ => Ok(()),
    }
}

// All lines of a text.
fn run_lines(rt: &impl Print, text: &[u8]) -> io::Result<()> {
    for line in text.split(|byte| *byte == b'\n') {
        run_line(rt, line)?;
    }
    Ok(())
}

// Reads until the slice is full or the input ends, in whatever pieces it comes, and gives how many bytes it put there. `plan` promises more of its
// own: a crate between the two for ten lines would be no plainer.
fn read_input<R: Read>(reader: &mut R, input: &mut [u8]) -> io::Result<usize>
    ensures { ReadsAtMost result input.new }
{
    let mut filled = 0;
    // no range: each turn goes on where the read before it came to
    while filled < input.len() {
        let count = reader.read(&mut input[filled..])?;
        if count == 0 {
            break;
        }
        filled += count;
    }
    Ok(filled)
}

// Runs the trials of the list.
fn main(rt: HostRuntime) -> io::Result<()> {
    let mut text = [0u8; 16_384];
    let length = read_input(&mut rt.stdin(), &mut text)?;
    run_lines(&rt, &text[..length])
}
