// Kind 4: the totals that some labels weigh exactly, as bits of words. Bit t is set exactly if t is such a total.
#![tactic(auto)]

ghost use Rattle.std.specs.Prelude.{◌≡◌, [], ◌∷◌, ◌+◌, ◌*◌, ◌/◌, ◌≤◌, ◌<◌, length};
ghost use Rattle.meaning.specs.Lists.{up_to, tally};
ghost use Rattle.meaning.specs.Job.{subset_sums};
ghost use Rattle.meaning.specs.Lent.{lent_of};
ghost use Rattle.meaning.specs.Bounds.{most_budget};
ghost use Rattle.meaning.specs.Says.{given};
ghost use Rattle.meaning.specs.Solved.{Unrefused};
ghost use Rattle.meaning.specs.SolvedIn.{SolvedInWords};
ghost use Rattle.numbers.specs.Lists.{weights_from};
ghost use Rattle.sums.specs.Words.{is_set, Added, Marked, Trimmed, Tabled};

use meaning::Answer;
use numbers::Numbers;

// ---- the words, label by label

// A label that weighs q whole words: from the highest word down, so that it is used once.
#[tactic(auto, using(crate::proofs::Words::words_more, crate::proofs::Words::added_all))]
fn add_words(words: &mut [u64], q: usize)
    ensures { Added words.old words.new (64 * q) 0 (length words.old) }
{
    for m in (q..words.len()).rev() {
        words[m] = words[m] | words[m - q];
    }
}

// So many words are few: starting a vector loop for each label costs more than it brings. From about 20 words on it pays.
const FEW: usize = 16;

// A label that weighs q words and r bits, in vectors. Few words don't take it here; of more, all do but the lowest that it reaches. Returns
// the first that has. A word takes the bits of two, and the two aren't joined before: only so does the loop run in vectors.
fn add_in_vectors(words: &mut [u64], q: usize, r: usize) -> usize
    requires { (q < length words.old) × ((0 < r) × (r < 64)) }
    ensures { ((q < result) × (result ≤ length words.old))
        × Added words.old words.new (64 * q + r) result (length words.old) }
{
    let len = words.len();
    if len <= FEW {
        return len;
    }
    let back = 64 - r;
    for m in (q + 1..len).rev() {
        words[m] = words[m] | (words[m - q] << r) | (words[m - q - 1] >> back);
    }
    q + 1
}

// A label that weighs q words and r bits: each word takes the bits of two, the lowest that it reaches those of one. Only few words are left
// to this loop. The two are joined before a word takes them, which is one double shift and keeps the loop out of vectors.
fn add_bits(words: &mut [u64], q: usize, r: usize)
    requires { (q < length words.old) × ((0 < r) × (r < 64)) }
    ensures { Added words.old words.new (64 * q + r) 0 (length words.old) }
{
    let back = 64 - r;
    let end = add_in_vectors(words, q, r);
    for m in (q + 1..end).rev() {
        words[m] = words[m] | ((words[m - q] << r) | (words[m - q - 1] >> back));
    }
    words[q] = words[q] | (words[0] << r);
}

// A label of weight w. One that would reach past the last word changes nothing.
fn add_label(words: &mut [u64], w: u32)
    ensures { Added words.old words.new w 0 (length words.old) }
{
    let q = (w / 64) as usize;
    let r = (w % 64) as usize;
    if words.len() <= q {
        return;
    }
    if r == 0 {
        add_words(words, q);
        return;
    }
    add_bits(words, q, r);
}

// The words of all labels.
fn fill(weights: &Numbers, words: &mut [u64])
    requires { 0 < length words.old }
    ensures { Marked weights.now (length words.old)
        (length weights.now) words.new }
{
    rows::first_alone(words);
    for i in 0..weights.len() {
        add_label(words, weights.at(i));
    }
}

// ---- what is read off the words

// Takes the totals above the budget out: they stand in the last word alone.
fn trim(words: &mut [u64], budget: usize)
    requires { length words.old ≡ budget / 64 + 1 }
    ensures { Trimmed words.old words.new budget (length words.old) }
{
    let last = budget / 64;
    let spare = 63 - budget % 64;
    words[last] = words[last] << spare >> spare;
}

// Whether bit t is set.
fn is_set(words: &[u64], t: usize) -> bool
    requires { t / 64 < length words.now }
    ensures { result ≡ is_set words.now t }
{
    (words[t / 64] >> (t % 64)) % 2 == 1
}

// How many bits are set, a word at a time. The sum is as wide as a word and narrowed once: only so does no turn of the loop narrow its vectors.
#[tactic(auto, using(crate::proofs::Ones::word_counted, meaning::proofs::Tally::tally_most), unfolding(meaning::specs::Bounds::most_budget, meaning::specs::Lists::tally, meaning::specs::Lists::up_to))]
fn count_totals(words: &[u64]) -> u32
    requires { 64 * length words.now ≤ most_budget + 1 }
    ensures { result ≡ tally (is_set words.now) (up_to (64 * length words.now)) }
{
    let mut count: u64 = 0;
    for word in words {
        count += u64::count_ones(*word) as u64;
    }
    count as u32
}

// ---- the door

// The words and the answer, on just the words that are needed.
fn table(budget: u32, weights: &Numbers, words: &mut [u64]) -> Answer
    requires { (budget ≤ most_budget) × (length words.old ≡ budget / 64 + 1) }
    ensures { Tabled (weights_from 4 (budget ∷ []) weights.now) (given result) words.new }
{
    let last = budget as usize;
    fill(weights, words);
    trim(words, last);
    let yes = is_set(words, last);
    let totals = count_totals(words);
    Answer::Sums { yes, totals }
}

// Kind 4: the words, yes or no, and the number of totals of a job that no refusal meets.
pub fn solve(budget: u32, weights: &Numbers, words: &mut [u64]) -> Answer
    requires { Unrefused subset_sums (weights_from 4 (budget ∷ []) weights.now) (lent_of [] words.old []) }
    ensures { SolvedInWords (weights_from 4 (budget ∷ []) weights.now)
        words.old (given result) words.new }
{
    let needed = (budget / 64 + 1) as usize;
    table(budget, weights, &mut words[..needed])
}
