// Kind 1 the light way: one row in place, and for each label a bit for each budget, set where the label raises the row.
#![tactic(auto)]

ghost use Rattle.std.specs.Prelude.{◌≡◌, [], ◌∷◌, ℕ, ◌+◌, ◌-◌, ◌*◌, ◌/◌, ◌%◌, ◌^◌, ◌≤◌, ◌<◌, max, length};
ghost use Rattle.meaning.specs.Lists.{at};
ghost use Rattle.meaning.specs.Job.{job_of, once, packing};
ghost use Rattle.meaning.specs.Lent.{lent_of};
ghost use Rattle.meaning.specs.Bounds.{most_budget};
ghost use Rattle.meaning.specs.Sums.{bit};
ghost use Rattle.meaning.specs.Says.{given};
ghost use Rattle.meaning.specs.Solved.{Solved, Unrefused};
ghost use Rattle.rows.specs.Bounded.{Bounded};
ghost use Rattle.light.specs.Bits.{rose, Few, binary, spaced, exchanged, turned, Risen, RisenHigh, Lowered, RisenAll};
ghost use Rattle.light.specs.Labels.{Lit, TraceBits};
ghost use Rattle.light.specs.Packed.{PackedLight};

use meaning::Answer;
use numbers::Numbers;

// ---- a word of bits

// Whether y is above x, as a byte.
fn rise(x: u32, y: u32) -> u8
    ensures { result ≡ rose x y }
{
    u8::from(x < y)
}

// The four bytes at p as one number, lowest first.
fn four(b: &[u8; 64], p: usize) -> u64
    requires { Few b.now 64 × (p + 4 ≤ 64) }
    ensures { (result ≡ spaced (λ i. at b.now (p + i)) 4) × (result ≤ 16_843_009) }
{
    u64::from(b[p])
        + u64::from(b[p + 1]) * 256
        + u64::from(b[p + 2]) * 65_536
        + u64::from(b[p + 3]) * 16_777_216
}

// The eight bytes at p as one number, lowest first: one load.
fn eight(b: &[u8; 64], p: usize) -> u64
    requires { Few b.now 64 × (p + 8 ≤ 64) }
    ensures { (result ≡ spaced (λ i. at b.now (p + i)) 8) × (result ≤ 72_340_172_838_076_673) }
{
    four(b, p) + four(b, p + 4) * 4_294_967_296
}

// The bits of a mask, each exchanged for the one s places above it.
fn exchange(x: u64, mask: u64, s: usize) -> u64
    requires { s < 64 }
    ensures { result ≡ exchanged x mask s }
{
    let t = (x ^ (x >> s)) & mask;
    x ^ t ^ (t << s)
}

// Eight times eight bits with columns for rows: bit i of byte k goes to bit k of byte i. By exchanges inside each two times two bits, then of pairs
// inside each four times four, then of fours.
fn turn(x: u64) -> u64
    ensures { result ≡ turned x }
{
    let ones = exchange(x, 0x00AA_00AA_00AA_00AA, 7);
    let pairs = exchange(ones, 0x0000_CCCC_0000_CCCC, 14);
    exchange(pairs, 0xF0F0_F0F0, 28)
}

// A word from 64 bytes that are 0 or 1. Eight bytes are one number, and eight of these, each a bit above the one before it, are the word with its
// bits in columns: so few numbers have to be moved from vectors, which is what takes the time.
fn word(b: &[u8; 64]) -> u64
    requires { Few b.now 64 }
    ensures { result ≡ binary (at b.now) 64 }
{
    let upper = eight(b, 32) + 2 * (eight(b, 40) + 2 * (eight(b, 48) + 2 * eight(b, 56)));
    turn(eight(b, 0) + 2 * (eight(b, 8) + 2 * (eight(b, 16) + 2 * (eight(b, 24) + 2 * upper))))
}

// ---- cells and their bits

// One of a label of weight w and value v in the 64 cells from place c on. All sums are made before a cell is stored: they stay in registers, no cell
// is raised by a new one, and the loops run in vectors whatever the weight is.
fn raise_word(row: &mut [u32], c: usize, w: usize, v: u32) -> u64
    requires w_le_c { (w ≤ c) × (c + 64 ≤ length row.old) }
    requires by_index { (k : ℕ) → k + w < c + 64 → at row.old k + v < 4_294_967_296 }
    ensures { Risen row.old row.new c 64 w v result }
{
    let mut sums: [u32; 64] = [0; 64];
    for k in 0..64 {
        sums[k] = row[c + k - w] + v;
    }
    let mut bits: [u8; 64] = [0; 64];
    for i in 0..64 {
        let without = row[c + i];
        let with = sums[i];
        bits[i] = rise(without, with);
        row[c + i] = u32::max(without, with);
    }
    word(&bits)
}

// The same in n cells, from the last down.
fn raise_few(row: &mut [u32], c: usize, n: usize, w: usize, v: u32) -> u64
    requires w_le_c { (w ≤ c) × ((n ≤ 64) × (c + n ≤ length row.old)) }
    requires by_index { (k : ℕ) → k + w < c + n → at row.old k + v < 4_294_967_296 }
    ensures { Risen row.old row.new c n w v result }
{
    let mut bits: u64 = 0;
    for k in (0..n).rev() {
        let without = row[c + k];
        let with = row[c + k - w] + v;
        bits = (bits << 1) + u64::from(rise(without, with));
        row[c + k] = u32::max(without, with);
    }
    bits
}

// The same in the n cells from w on, the lowest that hold the label, with their bits as the highest of a word. Cells past them are raised already,
// and by cells that are still the old ones where there are 64: so a whole word of cells may be raised, and those past the n stay as they are.
fn raise_last(row: &mut [u32], n: usize, w: usize, v: u32) -> u64
    requires n_bound { (n < 64) × (w + n ≤ length row.old) }
    requires by_index { (k : ℕ) → k < w + n → k + w < length row.old → at row.old k + v < 4_294_967_296 }
    requires by_index_2 { (c : ℕ) → w + n ≤ c → c < length row.old → c < w + (w + n) → at row.old (c - w) + v ≤ at row.old c }
    ensures { RisenHigh row.old row.new n w v result }
{
    if w + 64 <= row.len() {
        if 64 <= w + n {
            return raise_word(row, w, w, v) << (63 - n) << 1;
        }
    }
    raise_few(row, w, n, w, v) << (63 - n) << 1
}

// ---- one label

// A word of two blocks of bits: the low bits of the block above, over the s high ones of this block.
fn joined(above: u64, bits: u64, s: usize) -> u64
    requires { (1 ≤ s) × (s ≤ 64) }
    ensures { result ≡ above * 2 ^ s % 2 ^ 64 + bits / 2 ^ (64 - s) }
{
    (above << (s - 1) << 1) + (bits >> (64 - s))
}

// The words below word m: the next has what is left of a block's bits, the others are 0.
fn lower_words(words: &mut [u64], m: usize, bits: u64, s: usize)
    requires { (m ≤ length words.old) × ((1 ≤ s) × (s ≤ 64)) }
    ensures { Lowered words.old words.new m bits s }
{
    if m == 0 {
        return;
    }
    rows::clear(words, m - 1);
    words[m - 1] = joined(bits, 0, s);
}

// One more of a label of weight w and value v in a row, in place, and for each budget whether that raised its cell. Blocks of 64 cells are counted
// from the row's end, so that only the last may be shorter, and each word is joined of two of them.
fn raise_label(row: &mut [u32], words: &mut [u64], w: u32, v: u32)
    requires in_bounds { (1 ≤ length row.old) × (length words.old ≡ (length row.old - 1) / 64 + 1) }
    requires le_w { (1 ≤ w) × ((k : ℕ) → k + w < length row.old → at row.old k + v < 4_294_967_296) }
    ensures { RisenAll row.old row.new words.new w v (length row.old) (length words.old) }
{
    let w = w as usize;
    let width = row.len();
    let mut m = words.len();
    if width <= w {
        rows::clear(words, m);
        return;
    }
    let s = (width - 1) % 64 + 1;
    let mut end = width;
    let mut above: u64 = 0;
    // no range: the last block is raised below, from the end at which this stops
    while w + 64 <= end {
        end -= 64;
        m -= 1;
        let bits = raise_word(row, end, w, v);
        words[m] = joined(above, bits, s);
        above = bits;
    }
    let bits = raise_last(row, end - w, w, v);
    m -= 1;
    words[m] = joined(above, bits, s);
    lower_words(words, m, bits, s);
}

// ---- all labels

// The row of all labels, and the bits of each, in `per` words.
fn fill(weights: &Numbers, values: &Numbers, per: usize, row: &mut [u32], words: &mut [u64])
    requires bounded { Bounded (length row.old) weights.now values.now }
    requires per_value { (per ≡ (length row.old - 1) / 64 + 1) × (length weights.now * per ≡ length words.old) }
    ensures { Lit weights.now values.now
        (length row.old) per (length weights.now) row.new words.new }
{
    row.fill(0);
    for i in 0..weights.len() {
        let w = weights.at(i);
        let v = values.at(i);
        let from = i * per;
        raise_label(row, &mut words[from..from + per], w, v);
    }
}

// ---- the picks

// Bit c of the words from word `from` on.
fn bit_at(words: &[u64], from: usize, c: usize) -> u32
    requires { from + c / 64 < length words.now }
    ensures { result ≡ bit words.now (64 * from + c) }
{
    ((words[from + c / 64] >> (c % 64)) % 2) as u32
}

// The picks, by the trace back through the bits: a label is picked if its bit is set at what is left of the budget. Gives what is left.
fn trace_bits(
    weights: &Numbers,
    per: usize,
    budget: usize,
    words: &[u64],
    picks: &mut [u32],
) -> usize
    requires budget_le_most_budget { (budget ≤ most_budget) × ((per ≡ budget / 64 + 1) × ((length weights.now * per ≡ length words.now)
        × (length weights.now ≡ length picks.old))) }
    requires by_index { (m c : ℕ) → m < length weights.now → c < budget + 1
        → at weights.now m * bit words.now (64 * (m * per) + c) ≤ c }
    ensures { TraceBits weights.now words.now per
        (length weights.now) budget 0 result picks.new }
{
    let mut c = budget;
    for i in (0..picks.len()).rev() {
        let w = weights.at(i);
        let x = bit_at(words, i * per, c);
        picks[i] = x;
        c -= (w * x) as usize;
    }
    c
}

// Kind 1 the light way, on just the row, the words and the picks that are needed. Gives what is left of the budget.
fn pack(
    budget: usize,
    weights: &Numbers,
    values: &Numbers,
    row: &mut [u32],
    words: &mut [u64],
    picks: &mut [u32],
) -> usize
    requires bounded { Bounded (budget + 1) weights.now values.now }
    requires row_len { (length row.old ≡ budget + 1) × ((length weights.now * (budget / 64 + 1) ≡ length words.old)
        × (length weights.now ≡ length picks.old)) }
    ensures { PackedLight (job_of 1 (budget ∷ []) weights.now
        values.now []) row.new words.new picks.new result }
{
    let per = budget / 64 + 1;
    fill(weights, values, per, row, words);
    trace_bits(weights, per, budget, words, picks)
}

// ---- the door

// Kind 1 the light way: the row, the bits, the value, the weight and the picks of a job that no refusal meets.
pub fn solve(
    budget: u32,
    weights: &Numbers,
    values: &Numbers,
    cells: &mut [u32],
    words: &mut [u64],
    picks: &mut [u32],
) -> Answer
    requires { Unrefused (packing once) (job_of 1 (budget ∷ []) weights.now values.now [])
        (lent_of cells.old words.old picks.old) }
    ensures { Solved (job_of 1 (budget ∷ []) weights.now
        values.now [])
        (lent_of cells.old words.old picks.old) (given result)
        (lent_of cells.new words.new picks.new) }
{
    let n = weights.len();
    let most = budget as usize;
    let left = pack(
        most,
        weights,
        values,
        &mut cells[..most + 1],
        &mut words[..n * (most / 64 + 1)],
        &mut picks[..n],
    );
    Answer::Knapsack {
        value: cells[most],
        weight: budget - left as u32,
    }
}
