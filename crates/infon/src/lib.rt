// The paper as definitions and theorems: the first stand in specs/, the second in proofs/. Here are only the types of which both
// the definitions and the code speak.
#![tactic(auto)]

// The eight ways to a record, rules 1 to 8 in the table's order: each with the numbers of the premises that it has.
#[derive(Clone, Copy)]
pub enum Way {
    Hypothesis,
    Given,
    Weaken(usize),
    Left(usize),
    Right(usize),
    Both(usize, usize),
    Apply(usize, usize),
    Attach(usize),
}

// A record: the number of the formula that it is for, and the way to it.
#[derive(Clone, Copy)]
pub struct Record {
    pub formula: usize,
    pub way: Way,
}

// How many bytes a record has in the journal.
pub const RECORD_BYTES: usize = 9;

// The answer to a query.
#[derive(Clone, Copy)]
pub enum Answer {
    No,
    Yes,
    Open,
}

// What a run returns, laid out for C.
#[repr(C)]
#[derive(Clone, Copy)]
pub struct Report {
    pub code: usize,
    pub place: usize,
    pub kept: usize,
    pub added: usize,
    pub finished: bool,
    pub used: usize,
}

// What a call for a chain returns, laid out for C.
#[repr(C)]
#[derive(Clone, Copy)]
pub struct Chained {
    pub code: usize,
    pub place: usize,
    pub records: usize,
}

// A refusal: the code that applies, and its place. (The code is a number and not a name, as 01, the definitions `when` and `First`, and
// C have it.)
#[derive(Clone, Copy)]
pub struct Refusal {
    pub code: usize,
    pub place: usize,
}
