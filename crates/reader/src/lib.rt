// The reader of the journal: what nine bytes spell, and a reader that goes from record to record. Nine bytes a record, high byte first:
//
//   bytes 0 and 1   the mark 4C 51
//   byte 2          the rule, 1 to 8
//   bytes 3 and 4   the formula's number
//   bytes 5 and 6   the first premise's number, FF FF for none
//   bytes 7 and 8   the second premise's number, FF FF for none
#![tactic(auto)]

ghost use Rattle.std.specs.Prelude.{◌≡◌, ◌+◌, ◌^◌, ◌<◌, ◌≤◌, length};
ghost use Rattle.infon.specs.Journal.{record_bytes, number_at, alone, with_one, way_of, decoded};
ghost use Rattle.reader.specs.Decoded.{record_at};

use infon::{RECORD_BYTES, Record, Way};

pub const MARK_HIGH: u8 = 0x4C;

pub const MARK_LOW: u8 = 0x51;

pub const NO_PREMISE: usize = 0xFFFF;

// A number of two bytes, the high one first.
#[tactic(auto, unfolding(infon::specs::Journal::number_at))]
fn number_at(bytes: &[u8], at: usize) -> usize
    requires { at + 1 < length bytes.now }
    ensures { result ≡ number_at bytes.now at }
{
    usize::from(u16::from_be_bytes([bytes[at], bytes[at + 1]]))
}

// A way that has no premise: both are to be FF FF.
#[tactic(auto, unfolding(infon::specs::Journal::alone, infon::specs::Journal::no_premise))]
fn without_premises(first: usize, second: usize, way: Way) -> Option<Way>
    ensures { result ≡ alone first second way }
{
    if first == NO_PREMISE && second == NO_PREMISE {
        Some(way)
    } else {
        None
    }
}

// A way that has one premise: the second is to be FF FF.
#[tactic(auto, unfolding(infon::specs::Journal::with_one, infon::specs::Journal::no_premise))]
fn with_one(second: usize, way: Way) -> Option<Way>
    ensures { result ≡ with_one second way }
{
    if second == NO_PREMISE {
        Some(way)
    } else {
        None
    }
}

// The way that a rule's number and its premises spell, if they do.
#[tactic(auto, unfolding(infon::specs::Journal::way_of))]
fn way_of(rule: u8, first: usize, second: usize) -> Option<Way>
    ensures { result ≡ way_of rule first second }
{
    match rule {
        1 => without_premises(first, second, Way::Hypothesis),
        2 => without_premises(first, second, Way::Given),
        3 => with_one(second, Way::Weaken(first)),
        4 => with_one(second, Way::Left(first)),
        5 => with_one(second, Way::Right(first)),
        6 => Some(Way::Both(first, second)),
        7 => Some(Way::Apply(first, second)),
        8 => with_one(second, Way::Attach(first)),
        _ => None,
    }
}

// The record that nine bytes spell, if they do.
#[tactic(auto, unfolding(infon::specs::Journal::decoded))]
fn decode(bytes: &[u8]) -> Option<Record>
    requires { record_bytes ≤ length bytes.now }
    ensures { result ≡ decoded bytes.now }
{
    if bytes[0] != MARK_HIGH || bytes[1] != MARK_LOW {
        return None;
    }
    let way = way_of(bytes[2], number_at(bytes, 5), number_at(bytes, 7))?;
    Some(Record {
        formula: number_at(bytes, 3),
        way,
    })
}

// The record that the nine bytes from a place spell, if they do; nothing where fewer are left.
#[tactic(auto, unfolding(crate::specs::Decoded::record_at))]
pub fn record_at(journal: &[u8], at: usize) -> Option<Record>
    ensures { result ≡ record_at journal.now at }
{
    decode(journal.get(at..)?.get(..RECORD_BYTES)?)
}

// A reader: a journal, and the place where it reads.
#[derive(Clone, Copy)]
pub struct Reader<'a> {
    pub journal: &'a [u8],
    pub at: usize,
}

impl<'a> Reader<'a> {
    // A reader of a journal, set to a place.
    pub fn at(journal: &'a [u8], at: usize) -> Reader<'a>
        ensures { (result.journal ≡ journal.entry) × (result.at ≡ at) }
    {
        Reader { journal, at }
    }

    // What a reader finds at its place.
    pub fn next(self) -> Option<Record>
        ensures { result ≡ record_at self.entry.journal.now self.entry.at }
    {
        record_at(self.journal, self.at)
    }

    // The reader moved on to the next record's place.
    pub fn moved(self) -> Reader<'a>
        requires { self.at + record_bytes < 2 ^ 64 }
        ensures { (result.journal ≡ self.entry.journal) × (result.at ≡ self.entry.at + record_bytes) }
    {
        Reader {
            journal: self.journal,
            at: self.at + RECORD_BYTES,
        }
    }
}
