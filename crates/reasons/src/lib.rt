// The records that a recorded formula rests on: which of a journal's records are wanted for it, and these lent to a buffer.
#![tactic(auto)]

ghost use Rattle.std.specs.Prelude.{◌≡◌, ◌+◌, ◌*◌, ◌≤◌, length, set};
ghost use Rattle.infon.specs.Journal.{record_bytes, spelled_all};
ghost use Rattle.infon.specs.Run.{written};
ghost use Rattle.reasons.specs.Wanted.{is_wanted, wish, wanted_at, wanted_to, Chooses};

use infon::{RECORD_BYTES, Record, Way};

// Whether a number is wanted; none beyond the row is.
#[tactic(auto, unfolding(crate::specs::Wanted::is_wanted))]
fn is_wanted(wanted: &[u8], number: usize) -> bool
    ensures { result ≡ is_wanted wanted.now number }
{
    wanted.get(number).is_some_and(|cell| *cell == 1)
}

// Has a number wanted, if the row reaches it.
pub fn want(wanted: &mut [u8], number: usize)
    ensures { wanted.new ≡ set wanted.old number 1 }
{
    if number < wanted.len() {
        wanted[number] = 1;
    }
}

// Has the premises of a way wanted; the mark for none is a number beyond the row.
#[tactic(auto, unfolding(crate::specs::Wanted::wish))]
fn want_premises(wanted: &mut [u8], way: Way)
    ensures { wanted.new ≡ wish way wanted.old }
{
    let first = journal::first_premise(way);
    let second = journal::second_premise(way);
    want(wanted, first);
    want(wanted, second);
}

// The journal's record with a count, if it is wanted.
#[tactic(auto, unfolding(crate::specs::Wanted::only_wanted))]
fn wanted_at(journal: &[u8], i: usize, wanted: &[u8]) -> Option<Record>
    requires { record_bytes * (i + 1) ≤ length journal.now }
    ensures { result ≡ wanted_at journal.now wanted.now i }
{
    let r = reader::record_at(journal, RECORD_BYTES * i)?;
    if is_wanted(wanted, r.formula) {
        Some(r)
    } else {
        None
    }
}

// Goes from the last of a journal's first records to the first, has wanted what each wanted one rests on, and counts these. (How many
// there are stands beside the journal: C's buffer may hold more.)
pub fn choose(journal: &[u8], kept: usize, wanted: &mut [u8]) -> usize
    requires { record_bytes * kept ≤ length journal.now }
    ensures { Chooses journal.now kept wanted.old result wanted.new }
{
    let mut found = 0;
    for i in (0..kept).rev() {
        if let Some(r) = wanted_at(journal, i, wanted) {
            want_premises(wanted, r.way);
            found += 1;
        }
    }
    found
}

// Puts the wanted ones of a journal's first records together at the front of the lent buffer, in journal order.
pub fn lend(journal: &[u8], kept: usize, wanted: &[u8], out: &mut [u8])
    requires { (record_bytes * kept ≤ length journal.now)
        × (record_bytes * length (wanted_to journal.now wanted.now kept) ≤ length out.old) }
    ensures { out.new ≡ written out.old 0 (spelled_all (wanted_to journal.now wanted.now kept)) }
{
    let mut count = 0;
    for i in 0..kept {
        if let Some(r) = wanted_at(journal, i, wanted) {
            let at = RECORD_BYTES * count;
            journal::encode(&mut out[at..], r);
            count += 1;
        }
    }
}
