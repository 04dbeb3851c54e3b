// What of a journal's used bytes a call does not keep: the bytes behind the last whole record, and how much that is in all.
#![tactic(auto)]

ghost use Rattle.std.specs.Prelude.{◌≡◌, get_or};
ghost use Rattle.remains.specs.Dropped.{rest_of, is_begun, dropped_by, number_of};

use infon::RECORD_BYTES;
use reader::{MARK_HIGH, MARK_LOW};

// What is not kept: nothing, a last record that was cut off and nothing else, or more than that.
#[derive(Clone, Copy, PartialEq, Eq)]
pub enum Dropped {
    Nothing,
    Torn,
    More,
}

impl Dropped {
    ghost use Rattle.remains.specs.Dropped.{number_of};

    // The number by which a program in C knows it.
    pub fn number(self) -> usize
        ensures { result ≡ number_of self }
    {
        self as usize
    }
}

// The used bytes behind the last whole record.
#[tactic(auto, using(std::proofs::lemmas::List::take_min, std::proofs::lemmas::List::drop_min), unfolding(crate::specs::Dropped::rest_of))]
fn rest_of(journal: &[u8], used: usize) -> &[u8]
    ensures { result.now ≡ rest_of journal.now used }
{
    let used_bytes = &journal[..used.min(journal.len())];
    let whole = RECORD_BYTES * (used / RECORD_BYTES);
    &used_bytes[whole.min(used_bytes.len())..]
}

// A byte, or another where there is none.
fn byte_or(bytes: &[u8], i: usize, other: u8) -> u8
    ensures { result ≡ get_or bytes.now i other }
{
    match bytes.get(i) {
        Some(byte) => *byte,
        None => other,
    }
}

// The used bytes behind the last whole record begin as a record does, as far as they go.
#[tactic(auto, unfolding(crate::specs::Dropped::is_begun))]
pub fn is_begun(journal: &[u8], used: usize) -> bool
    ensures { result ≡ is_begun (rest_of journal.now used) }
{
    let rest = rest_of(journal, used);
    let rule = byte_or(rest, 2, 1);
    byte_or(rest, 0, MARK_HIGH) == MARK_HIGH
        && byte_or(rest, 1, MARK_LOW) == MARK_LOW
        && 1 <= rule
        && rule <= 8
}

// What is not kept of the used bytes where so many records are.
#[tactic(auto, unfolding(crate::specs::Dropped::dropped_by))]
pub fn dropped_by(used: usize, kept: usize, begun: bool) -> Dropped
    ensures { number_of result ≡ dropped_by used kept begun }
{
    if kept < used / RECORD_BYTES {
        return Dropped::More;
    }
    if used % RECORD_BYTES == 0 {
        return Dropped::Nothing;
    }
    if begun { Dropped::Torn } else { Dropped::More }
}
