// The list of trials, read. A line is a mark, a name and a colon, and then a job, or two with a slash between them. A job is its kind, its budgets,
// its weights, its values, its copies, and how many cells, words and picks are lent, or how many places of each list of a quick answer, with a semicolon
// between these lists. Each number has a blank before it, and 1x4 stands for 1 1 1 1. What is left out at the end is empty.
ghost use Rattle.std.specs.Prelude.{◌≡◌, ◌≢◌, ◌≤◌, ◌<◌, ℕ, length, slice_index};

// The first place of a byte, from a place on, or the text's end where there is none.
pub fn find(text: &[u8], from: usize, byte: u8) -> usize
    requires { from ≤ length text.now }
    ensures start { from ≤ result }
    ensures within { result ≤ length text.now }
    ensures before { (k : ℕ) → from ≤ k → k < result → slice_index text.now k ≢ byte }
    ensures found { result < length text.now → slice_index text.now result ≡ byte }
{
    for place in from..text.len() {
        if text[place] == byte {
            return place;
        }
    }
    text.len()
}

// The number at a place, of its lowest 32 bits. With no digit it is 0.
fn number_at(text: &[u8], from: usize) -> u32 {
    // a part of the text and no `skip`, which would step through all that stands before
    let digits = text[from.min(text.len())..]
        .iter()
        .take_while(|byte| byte.is_ascii_digit());
    digits.fold(0u32, |value, digit| {
        value
            .wrapping_mul(10)
            .wrapping_add(u32::from(digit.wrapping_sub(b'0')))
    })
}

// The number that a list goes on with: the one after a blank, or else the last one.
fn number_after(byte: u8, value: u32, last: u32) -> u32 {
    if byte == b' ' { value } else { last }
}

// How often it does: once after a blank, and after an x as often as is said there and not yet done.
fn times_after(byte: u8, value: u32) -> u32 {
    match byte {
        b' ' => 1,
        b'x' => value.wrapping_sub(1),
        _ => 0,
    }
}

// Puts a number from a place on, so many times, and counts it where the list's count stands. Answers the place after it.
fn put(numbers: &mut [u32], list: usize, from: usize, number: u32, times: u32) -> usize {
    if numbers.len() <= list {
        return from;
    }
    let end = from.wrapping_add(times as usize).min(numbers.len());
    for next in from..end {
        numbers[next] = number;
        numbers[list] = numbers[list].wrapping_add(1);
    }
    from.max(end)
}

// Reads the job after a place: its numbers into places that hold 0, each list after its count. Answers the place after the job.
pub fn read_job(text: &[u8], from: usize, numbers: &mut [u32]) -> usize {
    let start = from.wrapping_add(1).min(text.len());
    let end = find(text, start, b'/');
    let mut list = 0;
    let mut next: usize = 1;
    let mut number = 0;
    for place in start..end {
        let byte = text[place];
        let value = number_at(text, place + 1);
        if byte == b';' {
            list = next;
            next = next.wrapping_add(1);
        }
        number = number_after(byte, value, number);
        next = put(numbers, list, next, number, times_after(byte, value));
    }
    end
}
