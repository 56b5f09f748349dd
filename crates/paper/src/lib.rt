// What the public calls answer, and their stages. The crate's specs/ holds documents 01 and 02 as definitions, and its proofs/ what
// follows from them; nothing here computes. specs/Answers.antt, and for an explanation specs/Explained.antt, gives the paper's numbers and places
// for each case below.
#![tactic(auto)]

pub mod comparisons;
pub mod fields;
pub mod kinds;
pub mod operations;
pub mod refused;

// Which lent input a refusal lies in, and at which byte of it; of a table of numbers, at which number.
#[derive(Clone, Copy)]
pub enum Place {
    Text(usize),
    List(usize),
    Entry(usize),
    Blocks(usize),
    Buffer(usize),
    Contract(usize),
    Table(usize),
}

// A refusal: its number in the documents' tables (`refused`), and where it lies. The place comes
// first: where a `Result` holds either a refusal or numbers, the one byte would lie over the first
// of them, which would then be stored and read in pieces.
#[derive(Clone, Copy)]
pub struct Refusal {
    pub place: Place,
    pub number: u8,
}

// What a restriction says of an entry that conforms.
#[derive(Clone, Copy)]
pub enum Verdict {
    Accepted,
    Violated,
}

// An entry against a restriction.
pub type Judgement = Result<Verdict, Refusal>;

// An entry against a restriction, from its blocks: the verdict, and how many instructions were carried out.
#[derive(Clone, Copy)]
pub struct Ended {
    pub verdict: Verdict,
    pub steps: usize,
}

// Entries end to end against a restriction, from its blocks: how many entries there are, and how many instructions were carried out for all of them.
#[derive(Clone, Copy)]
pub struct RanAll {
    pub entries: usize,
    pub steps: u64,
}

// Blocks against a text and a list: whether they are its translation, its parts in some order.
#[derive(Clone, Copy)]
pub enum Agreement {
    Agrees,
    Differs,
}

// Entries end to end against a restriction: how many parts the text has; how many entries are accepted, violated and refused; and how many bytes
// of a last one that is cut.
#[derive(Clone, Copy)]
pub struct Counted {
    pub parts: usize,
    pub accepted: u64,
    pub violated: u64,
    pub refused: u64,
    pub cut: usize,
}

// What broke for an entry: a part of the text, by its number from 1, its root's place, and its stretch from one byte up to another; the key of
// a refused record, by the record's place in the entry, and the stretch of its name in the list; or nothing, with the entry's own judgement.
#[derive(Clone, Copy)]
pub enum Explanation {
    Part(usize, usize, usize, usize),
    Key(usize, usize, usize),
    Nothing(Judgement),
}

// The keys that a text names, bit k (2^k) for record k of the list, and whether it names ::priority.
#[derive(Clone, Copy)]
pub struct Summary {
    pub keys: u32,
    pub priority: bool,
}

// A new entry against a restriction, by the judgement of an old one: that judgement, where it still holds, or one worked out afresh.
#[derive(Clone, Copy)]
pub enum Rechecking {
    Reused(Judgement),
    Judged(Judgement),
}
