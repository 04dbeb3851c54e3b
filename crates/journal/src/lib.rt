// The part of a journal that is kept, and records written as bytes. The crate `reader` says which nine bytes a record is.
#![tactic(auto)]

ghost use Rattle.std.specs.Prelude.{◌≡◌, ◌+◌, ◌<◌, ◌≤◌, length};
ghost use Rattle.infon.specs.Journal.{record_bytes, rule_of, first_premise, second_premise, two_bytes, spelled};
ghost use Rattle.infon.specs.Run.{written};
ghost use Rattle.formulas.specs.Table.{table_rows};
ghost use Rattle.journal.specs.Kept.{Keeps};

use formulas::Formulas;
use infon::{RECORD_BYTES, Record, Way};
use reader::{MARK_HIGH, MARK_LOW, NO_PREMISE, Reader};

// The rule's number, 1 to 8, as the definition `rule_of` has it.
#[tactic(auto, unfolding(infon::specs::Journal::rule_of))]
pub fn rule_of(way: Way) -> u8
    ensures { result ≡ rule_of way }
{
    match way {
        Way::Hypothesis => 1,
        Way::Given => 2,
        Way::Weaken(_) => 3,
        Way::Left(_) => 4,
        Way::Right(_) => 5,
        Way::Both(_, _) => 6,
        Way::Apply(_, _) => 7,
        Way::Attach(_) => 8,
    }
}

// The first premise's number, or the mark for none, which the journal's bytes and the definition `first_premise` have.
#[tactic(auto, unfolding(infon::specs::Journal::first_premise, infon::specs::Journal::no_premise))]
pub fn first_premise(way: Way) -> usize
    ensures { result ≡ first_premise way }
{
    match way {
        Way::Hypothesis | Way::Given => NO_PREMISE,
        Way::Weaken(p) | Way::Left(p) | Way::Right(p) | Way::Attach(p) => p,
        Way::Both(p, _) | Way::Apply(p, _) => p,
    }
}

// The second premise's number, or the mark for none, which the journal's bytes and the definition `second_premise` have.
#[tactic(auto, unfolding(infon::specs::Journal::second_premise, infon::specs::Journal::no_premise))]
pub fn second_premise(way: Way) -> usize
    ensures { result ≡ second_premise way }
{
    match way {
        Way::Both(_, q) | Way::Apply(_, q) => q,
        _ => NO_PREMISE,
    }
}

// Writes a number's two bytes, the high one first, each cut off by itself as `two_bytes` has it: `as u16` would ask that it fits.
fn put_number(tail: &mut [u8], at: usize, number: usize)
    requires { at + 1 < length tail.old }
    ensures { tail.new ≡ written tail.old at (two_bytes number) }
{
    tail[at] = (number / 256 % 256) as u8;
    tail[at + 1] = (number % 256) as u8;
}

// Writes a record's nine bytes at the front of the journal's tail.
pub fn encode(tail: &mut [u8], r: Record)
    requires { record_bytes ≤ length tail.old }
    ensures { tail.new ≡ written tail.old 0 (spelled r) }
{
    tail[0] = MARK_HIGH;
    tail[1] = MARK_LOW;
    tail[2] = rule_of(r.way);
    put_number(tail, 3, r.formula);
    put_number(tail, 5, first_premise(r.way));
    put_number(tail, 7, second_premise(r.way));
}

// Goes through the journal with a reader, record by record, as long as each is good after the marked ones, and marks it. Gives how
// many are kept. (Here and above it journal and used length stand side by side, as C lends them.)
pub fn keep(list: Formulas, journal: &[u8], used: usize, marks: &mut [u8]) -> usize
    requires inside { used ≤ length journal.now }
    requires room { table_rows ≤ length marks.old }
    ensures { Keeps list.entry.table.now list.entry.n journal.now used marks.old result marks.new }
{
    let mut reader = Reader::at(journal, 0);
    let whole = used / RECORD_BYTES;
    for kept in 0..whole {
        let Some(r) = reader.next() else {
            return kept;
        };
        if !rules::is_good(list, marks, r) {
            return kept;
        }
        marks[r.formula] = 1;
        reader = reader.moved();
    }
    whole
}
