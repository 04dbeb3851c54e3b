// The lines of a file: where each ends, whether it is well formed, and code 2.
#![tactic(auto)]

ghost use Rattle.std.specs.Prelude.{◌≡◌, suc, ◌+◌, ◌≤◌, ◌<◌, length, take, drop, is_some, take_while, not};
ghost use Rattle.infon.specs.Policy.{sentence_of, code2};
ghost use Rattle.lines.specs.Lining.{is_feed, until_feed, is_opening};

use infon::Refusal;

// How many bytes of a text come before its first line feed.
#[tactic(auto, unfolding(infon::specs::Bytes::line_feed))]
fn line_length(text: &[u8]) -> usize
    ensures { result ≡ length (take_while (λ b. not (is_feed b)) text.now) }
{
    text.iter().take_while(|b| **b != b'\n').count()
}

// The place of the line feed that ends the line which starts at `start`; the file's length where there is none, as
// the definition `until_feed` counts.
pub fn line_end(file: &[u8], start: usize) -> usize
    requires { start ≤ length file.now }
    ensures { result ≡ start + until_feed (drop start file.now) }
{
    start + line_length(&file[start..])
}

// A line begins with its letter and a space.
#[tactic(auto, unfolding(crate::specs::Lining::is_opening, infon::specs::Bytes::alike, infon::specs::Bytes::bytes))]
fn is_opening(letter: u8, gap: u8) -> bool
    ensures { result ≡ is_opening letter gap }
{
    gap == b' ' && (letter == b'H' || letter == b'Q')
}

// The line from `start` to its line feed at `end` is a letter, a space and a formula. The formula is the part of the file that
// starts after the letter and the space and ends before the line feed. (By index: tried as a pattern `[b'H' | b'Q', b' ', ..]`,
// from which the proof learns nothing of the bytes.)
fn is_well_formed(file: &[u8], start: usize, end: usize) -> bool
    requires inside { start < length file.now }
    requires ended { end ≡ start + until_feed (drop start file.now) }
    ensures { result ≡ is_some (sentence_of (take (suc (until_feed (drop start file.now))) (drop start file.now))) }
{
    if end == file.len() {
        return false;
    }
    if end - start < 2 {
        return false;
    }
    is_opening(file[start], file[start + 1]) && spelling::is_formula(&file[start + 2..end])
}

// Code 2: a line is not well formed. Its place is the start of the first such line.
pub fn first_malformed(file: &[u8]) -> Result<(), Refusal>
    ensures { result ≡ code2 file.now }
{
    let mut start: usize = 0;
    while start < file.len() {
        let end = line_end(file, start);
        if !is_well_formed(file, start, end) {
            return Err(Refusal {
                code: 2,
                place: start,
            });
        }
        start = end + 1;
    }
    Ok(())
}
