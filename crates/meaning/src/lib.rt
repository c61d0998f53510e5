// What the operations answer, why they turn a request down, and which way kind 1 goes. What each answer says, in the document's numbers, is in
// specs/Says, Judges, Reports and Hands.
#![tactic(auto)]

ghost use Rattle.std.specs.Prelude.{ℕ, ◌≡◌};
ghost use Rattle.meaning.specs.Refusing.{number_of};

// Why a request is turned down: document 01's refusals, with their numbers.
#[derive(Clone, Copy, PartialEq, Eq)]
pub enum Refusal {
    Bytes = 1,
    Kind = 2,
    Lengths = 3,
    Bound = 4,
    Rule = 5,
    Room = 6,
    NoSum = 7,
    TooMany = 8,
    NoClaims = 9,
    Sections = 11,
    Pick = 12,
    Weight = 13,
    Cell = 14,
    Value = 15,
}

impl Refusal {
    // Its number.
    pub fn number(self) -> u32
        ensures { result ≡ number_of self }
    {
        self as u32
    }
}

// What a refusal may be handed over as, and the number that it names.
pub trait Numbered: Copy {
    ghost numbered: { Self → ℕ };

    fn number(self) -> u32
        ensures { result ≡ numbered self };
}

// A reason names its number.
impl Numbered for Refusal {
    ghost numbered = { number_of };

    fn number(self) -> u32 {
        Refusal::number(self)
    }
}

// A number names itself, be it the document's or not.
impl Numbered for u32 {
    ghost numbered = { λ number. number };

    fn number(self) -> u32 {
        self
    }
}

// What a planner answers, by the job's kind.
#[derive(Clone, Copy, PartialEq, Eq)]
pub enum Answer {
    Knapsack { value: u32, weight: u32 },
    Sums { yes: bool, totals: u32 },
    Blocks(u32),
    Ways(u64),
    Shares(u32),
    Weight(u32),
}

// Why the checker doesn't accept a certificate, and the place that it names, or 0 where it names none.
#[derive(Clone, Copy, PartialEq, Eq)]
pub struct Fault {
    pub refusal: Refusal,
    pub place: u64,
}

// A refusal that names no place.
impl From<Refusal> for Fault {
    ghost from_gives = { λ refusal fault. (fault.refusal ≡ refusal) × (fault.place ≡ 0) };

    fn from(refusal: Refusal) -> Fault {
        Fault { refusal, place: 0 }
    }
}

// Which of the two lists of a quick answer is the worthier, and what that is worth.
#[derive(Clone, Copy, PartialEq, Eq)]
pub enum Quick {
    First(u64),
    Second(u64),
}

// The way that kind 1 goes: the light table, a row of cells and a bit for each label and budget, or the full one. The other kinds have one way.
#[derive(Clone, Copy, PartialEq, Eq)]
pub enum Way {
    Light,
    Full,
}
