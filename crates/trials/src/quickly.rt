// The quick answer for kind 1, by its three operations: the refusal, which list is the worthier and what that is worth, and the picks that are handed
// back. A job is its numbers as in doors.rt; its last list says how many places of each list are lent: all, where it is empty.
ghost use Rattle.std.specs.Prelude.{◌≤◌};

use crate::{doors, lines};
use meaning::{Quick, Refusal};
use std::io;

// A number, after a blank.
fn number(rt: &impl Print, x: u64) -> io::Result<()> {
    lines::text(rt, b" ")?;
    rt.print(x)
}

// A line of a name and a number.
fn line(rt: &impl Print, name: &[u8], x: u64) -> io::Result<()> {
    lines::text(rt, name)?;
    number(rt, x)?;
    lines::text(rt, b"\n")
}

// The line of a refusal.
fn refused(rt: &impl Print, refusal: Refusal) -> io::Result<()> {
    line(rt, b"refused", u64::from(refusal.number()))
}

// The lines that tell which list is the worthier, and what it is worth.
fn worthier(rt: &impl Print, which: u64, value: u64) -> io::Result<()> {
    line(rt, b"list", which)?;
    line(rt, b"value", value)
}

// The picks, within their line.
fn all_picks(rt: &impl Print, picks: &[u32]) -> io::Result<()> {
    for count in picks {
        number(rt, u64::from(*count))?;
    }
    Ok(())
}

// The line of picks.
fn picks_line(rt: &impl Print, picks: &[u32]) -> io::Result<()> {
    lines::text(rt, b"picks")?;
    all_picks(rt, picks)?;
    lines::text(rt, b"\n")
}

// The job's budget.
fn budget(numbers: &[u32]) -> u32 {
    doors::at(numbers, 3)
}

// Its weights.
fn weights(numbers: &[u32]) -> &[u32] {
    doors::list(numbers, doors::weights_place(numbers))
}

// Its values.
fn values(numbers: &[u32]) -> &[u32] {
    doors::list(
        numbers,
        doors::after(numbers, doors::weights_place(numbers)),
    )
}

// How many places the first list has, or the second.
fn places(numbers: &[u32], which: usize) -> usize
    ensures { result ≤ 4_096 }
{
    doors::lent(numbers, which, doors::PICKS)
}

// Fills two lists, which held something else before, and prints what is told of them.
fn show_told(rt: &impl Print, numbers: &[u32]) -> io::Result<()> {
    let f = places(numbers, 1);
    let s = places(numbers, 2);
    let mut first = [9u32; doors::PICKS];
    let mut second = [9u32; doors::PICKS];
    let told = quick::fill(
        budget(numbers),
        weights(numbers),
        values(numbers),
        &mut first[..f],
        &mut second[..s],
    );
    match told {
        Err(refusal) => refused(rt, refusal),
        Ok(Quick::First(value)) => worthier(rt, 1, value),
        Ok(Quick::Second(value)) => worthier(rt, 2, value),
    }
}

// Has the picks of two others handed back, and prints them.
fn show_picks(rt: &impl Print, numbers: &[u32]) -> io::Result<()> {
    let f = places(numbers, 1);
    let s = places(numbers, 2);
    let mut first = [9u32; doors::PICKS];
    let mut second = [9u32; doors::PICKS];
    let picks = quick::pick(
        budget(numbers),
        weights(numbers),
        values(numbers),
        &mut first[..f],
        &mut second[..s],
    );
    picks_line(rt, picks)
}

// The quick answer to a job.
pub fn answer(rt: &impl Print, numbers: &[u32]) -> io::Result<()> {
    let asked = quick::refusal(
        budget(numbers),
        weights(numbers),
        values(numbers),
        places(numbers, 1),
        places(numbers, 2),
    );
    if let Err(refusal) = asked {
        return refused(rt, refusal);
    }
    show_told(rt, numbers)?;
    show_picks(rt, numbers)
}
