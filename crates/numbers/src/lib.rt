// Numbers of 32 bits: the product of two; and in bytes, lowest byte first, one number, a list of them, and the sections that they stand in. A list of
// numbers that came as such or in bytes, and the job that it is a part of.
#![tactic(auto)]

ghost use Rattle.std.specs.Prelude.{◌≡◌, ℕ, ◌+◌, ◌*◌, ◌≤◌, ◌<◌, length};
ghost use Rattle.meaning.specs.Lists.{at};
ghost use Rattle.meaning.specs.Bytes.{number_at, numbers_in, is_needed, read_section, bytes_of, section_bytes};
ghost use Rattle.numbers.specs.TwoSlices.{list_from};
ghost use Rattle.numbers.specs.Sections.{section_in, part_read};
ghost use Rattle.numbers.specs.Placed.{HoldsAt, SectionWritten};

use std::marker::Model;

// The product of two numbers, which are widened first.
pub fn wide_product(a: u32, b: u32) -> u64
    ensures { result ≡ a * b }
{
    a as u64 * b as u64
}

// The number in the four bytes at p.
pub fn number_at(bytes: &[u8], p: usize) -> u32
    requires { p + 4 ≤ length bytes.now }
    ensures { result ≡ number_at bytes.now p }
{
    u32::from_le_bytes([bytes[p], bytes[p + 1], bytes[p + 2], bytes[p + 3]])
}

// Number i of those that stand in the bytes.
pub fn number_in(bytes: &[u8], i: usize) -> u32
    requires { i < length (numbers_in bytes.now) }
    ensures { result ≡ at (numbers_in bytes.now) i }
{
    number_at(bytes, 4 * i)
}

// ---- a list, however it came

// How a list came: as numbers, in a part of the job bytes, or the first of it as numbers and the rest in bytes. The part that it hasn't is empty.
#[derive(Clone, Copy)]
struct Kept<'a> {
    numbers: &'a [u32],
    bytes: &'a [u8],
}

// A list of numbers. In a clause it is that list, and how it came can't be told.
#[derive(Drop)]
pub struct Numbers<'a> {
    kept: Kept<'a>,
}

impl<'a> Model for Numbers<'a> {
    ghost use Rattle.std.specs.Prelude.{ℕ, List};

    ghost Value = { List ℕ };

    ghost use Rattle.std.specs.Prelude.{◌*◌, ◌^◌, ◌<◌, length};
    ghost use Rattle.numbers.specs.Kept.{numbers_of};

    ghost view = { λ s. numbers_of s.kept };

    ghost invariant = { λ s. 4 * length (numbers_of s.kept) < 2 ^ 64 };
}

impl<'a> Numbers<'a> {
    // A list that came as numbers.
    pub fn listed(numbers: &'a [u32]) -> Numbers<'a>
        ensures { result ≡ numbers.now }
    {
        Numbers::joined(numbers, &[])
    }

    // The list that stands in bytes, which aren't copied.
    pub fn packed(bytes: &'a [u8]) -> Numbers<'a>
        ensures { result ≡ numbers_in bytes.now }
    {
        Numbers::joined(&[], bytes)
    }

    // The list that begins as numbers and goes on in bytes. Nothing is copied here either.
    pub fn joined(numbers: &'a [u32], bytes: &'a [u8]) -> Numbers<'a>
        ensures { result ≡ list_from numbers.now bytes.now }
    {
        let kept = Kept { numbers, bytes };
        Numbers { kept }
    }

    // How many numbers there are.
    pub fn len(&self) -> usize
        ensures { result ≡ length self.now }
    {
        let numbers = self.kept.numbers;
        let bytes = self.kept.bytes;
        numbers.len() + bytes.len() / 4
    }

    // The number at place i. Whether a slice is empty is asked too, although the place alone would tell: that is the same in each turn of a loop, so that the
    // compiler can ask it once, before the first.
    pub fn at(&self, i: usize) -> u32
        requires { i < length self.now }
        ensures { result ≡ at self.now i }
    {
        let numbers = self.kept.numbers;
        let bytes = self.kept.bytes;
        if numbers.is_empty() {
            return number_in(bytes, i);
        }
        let n = numbers.len();
        if bytes.is_empty() || i < n {
            numbers[i]
        } else {
            number_in(bytes, i - n)
        }
    }
}

// A job as it came: the number of its kind, its budget, q, and its lists. Where the kind has no q, that number stands for nothing.
#[derive(Drop)]
pub struct Job<'a> {
    pub kind: u32,
    pub budget: u32,
    pub q: u32,
    pub weights: Numbers<'a>,
    pub values: Numbers<'a>,
    pub copies: Numbers<'a>,
}

// ---- sections

// Whether a section may have this count.
fn is_needed(needed: Option<u32>, count: u32) -> bool
    ensures { result ≡ is_needed needed count }
{
    needed.is_none_or(|n| count == n)
}

// The section whose count stands at a place, which may be any number: no sum is made before it is known to fit. Gives where its numbers start, how many
// they are, and the place after them; or the place where reading broke.
pub fn read_section(
    bytes: &[u8],
    place: usize,
    needed: Option<u32>,
) -> Result<(usize, usize, usize), usize>
    ensures { result ≡ read_section needed bytes.now place }
{
    if bytes.len() < place {
        return Err(place);
    }
    let left = bytes.len() - place;
    if left < 4 {
        return Err(place);
    }
    let found = number_at(bytes, place);
    if !is_needed(needed, found) {
        return Err(place);
    }
    let count = found as usize;
    let start = place + 4;
    if left - 4 < 4 * count {
        return Err(start);
    }
    Ok((start, count, start + 4 * count))
}

// The part of the bytes in which that section's numbers stand, and the place after it; or the place where reading broke.
pub fn section(bytes: &[u8], place: usize, needed: Option<u32>) -> Result<(&[u8], usize), usize>
    ensures { part_read result ≡ section_in needed bytes.now place }
{
    let (start, _, next) = read_section(bytes, place, needed)?;
    Ok((&bytes[start..next], next))
}

// Writes a number into the four bytes at p.
pub fn write_number(out: &mut [u8], p: usize, x: u32)
    requires { p + 4 ≤ length out.old }
    ensures { HoldsAt p (bytes_of x) out.old out.new }
{
    out[p..p + 4].copy_from_slice(&x.to_le_bytes());
}

// Writes a section from p on, its count and then its numbers, and gives the place after it.
pub fn write_section(out: &mut [u8], p: usize, numbers: &[u32]) -> usize
    requires { (p + length (section_bytes numbers.now) ≤ length out.old) × (length numbers.now < 4_294_967_296) }
    ensures { SectionWritten p numbers.now out.old out.new result }
{
    write_number(out, p, numbers.len() as u32);
    let start = p + 4;
    for (i, x) in numbers.iter().enumerate() {
        write_number(out, start + 4 * i, *x);
    }
    start + 4 * numbers.len()
}
