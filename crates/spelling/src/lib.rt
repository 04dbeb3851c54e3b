// The bytes of one formula: its tokens, given back as parts of the caller's text; the node that begins at a place; and the test
// whether a text is a formula.
#![tactic(auto)]

ghost use Rattle.std.specs.Prelude.{◌≡◌, ◌+◌, ◌^◌, ◌≤◌, ◌<◌, length, is_some, take_while, not};
ghost use Rattle.infon.specs.Bytes.{alike, every};
ghost use Rattle.infon.specs.Formula.{is_name_byte, is_name, formula_of};
ghost use Rattle.spelling.specs.Token.{is_break, word_at};
ghost use Rattle.spelling.specs.Parsing.{quotation_at, parsed_at, behind_own, kind_parsed, still_needed};

use nodes::Kind;

// What begins at a place, by its token: True, a name that ends before `end`, a conjunction, an implication, or a quotation with
// its principal's bytes, from `start` to before `end`.
#[derive(Clone, Copy)]
pub enum Parsed {
    True,
    Name {
        end: usize,
    },
    And,
    Implies,
    Quoted {
        said: bool,
        start: usize,
        end: usize,
    },
}

impl From<Parsed> for Kind {
    fn from(node: Parsed) -> Kind
        ensures { result ≡ kind_parsed node }
    {
        match node {
            Parsed::True => Kind::True,
            Parsed::Name { .. } => Kind::Name,
            Parsed::And => Kind::And,
            Parsed::Implies => Kind::Implies,
            Parsed::Quoted { said: true, .. } => Kind::Said,
            Parsed::Quoted { said: false, .. } => Kind::Put,
        }
    }
}

const LONGEST_NAME: usize = 16;

// A character of a name: a to z, 0 to 9 and hyphen. (Letters by a test of their own: most are, and each byte of a name is read in three
// passes.)
#[tactic(auto, unfolding(infon::specs::Formula::is_name_byte))]
fn is_name_byte(b: u8) -> bool
    ensures { result ≡ is_name_byte b }
{
    if b'a' <= b {
        b <= b'z'
    } else {
        matches!(b, b'0'..=b'9' | b'-')
    }
}

// Every byte is such a character.
#[tactic(auto, unfolding(infon::specs::Bytes::every))]
fn are_name_bytes(word: &[u8]) -> bool
    ensures { result ≡ every is_name_byte word.now }
{
    word.iter().all(|b| is_name_byte(*b))
}

// A name is 1 to 16 such characters.
#[tactic(auto, unfolding(infon::specs::Formula::is_name))]
pub fn is_name(word: &[u8]) -> bool
    ensures { result ≡ is_name word.now }
{
    1 <= word.len() && word.len() <= LONGEST_NAME && are_name_bytes(word)
}

// Two parts have the same bytes.
#[tactic(auto, unfolding(infon::specs::Bytes::alike))]
pub fn are_alike(a: &[u8], b: &[u8]) -> bool
    ensures { result ≡ alike a.now b.now }
{
    a == b
}

// A token ends at a space or a line feed.
#[tactic(auto, unfolding(crate::specs::Token::is_break, infon::specs::Bytes::space, infon::specs::Bytes::line_feed))]
fn is_break(b: u8) -> bool
    ensures { result ≡ is_break b }
{
    b == b' ' || b == b'\n'
}

// How many bytes of a text its first token has.
fn word_length(text: &[u8]) -> usize
    ensures { result ≡ length (take_while (λ b. not (is_break b)) text.now) }
{
    text.iter().take_while(|b| !is_break(**b)).count()
}

// The token that begins at `at`, as the part of the text that it stands on.
#[tactic(auto, unfolding(crate::specs::Token::word_at))]
pub fn word(text: &[u8], at: usize) -> &[u8]
    requires { at ≤ length text.now }
    ensures { result.now ≡ word_at text.now at }
{
    let rest = &text[at..];
    &rest[..word_length(rest)]
}

// A quotation whose letter stands before `space`: a space and its principal's name have to follow.
#[tactic(auto, unfolding(crate::specs::Parsing::quotation_at, infon::specs::Bytes::space))]
fn quotation(text: &[u8], space: usize, said: bool) -> Option<Parsed>
    requires { space ≤ length text.now }
    ensures { result ≡ quotation_at said text.now space }
{
    if space == text.len() || text[space] != b' ' {
        return None;
    }
    let start = space + 1;
    let principal = word(text, start);
    if !is_name(principal) {
        return None;
    }
    Some(Parsed::Quoted {
        said,
        start,
        end: start + principal.len(),
    })
}

// The node that begins at `at`, by its token; none begins behind the text's end. (Compared one by one: tried as a match on
// literals, from which the proof learns nothing of the bytes.)
#[tactic(auto, using(crate::proofs::Breaks::parsed_none), unfolding(crate::specs::Parsing::parsed_at, infon::specs::Bytes::bytes))]
pub fn node_at(text: &[u8], at: usize) -> Option<Parsed>
    ensures { result ≡ parsed_at text.now at }
{
    if text.len() <= at {
        return None;
    }
    let token = word(text, at);
    if are_alike(token, b"T") {
        Some(Parsed::True)
    } else if are_alike(token, b"+") {
        Some(Parsed::And)
    } else if are_alike(token, b">") {
        Some(Parsed::Implies)
    } else if are_alike(token, b"S") || are_alike(token, b"P") {
        quotation(text, at + 1, are_alike(token, b"S"))
    } else if is_name(token) {
        Some(Parsed::Name {
            end: at + token.len(),
        })
    } else {
        None
    }
}

// The place behind the own bytes of a node that begins at `at`: its letter, its name, or its letter with the principal.
pub fn own_end(node: Parsed, at: usize) -> usize
    requires { at + 1 < 2 ^ 64 }
    ensures { result ≡ behind_own at node }
{
    match node {
        Parsed::True | Parsed::And | Parsed::Implies => at + 1,
        Parsed::Name { end } | Parsed::Quoted { end, .. } => end,
    }
}

// True and a name are one formula of those needed; an operator needs one more than it is; a quotation as many as before.
fn still_needed(node: Parsed, needed: usize) -> usize
    requires { (0 < needed) × (needed + 1 < 2 ^ 64) }
    ensures { result ≡ still_needed node needed }
{
    match node {
        Parsed::True | Parsed::Name { .. } => needed - 1,
        Parsed::And | Parsed::Implies => needed + 1,
        Parsed::Quoted { .. } => needed,
    }
}

// The text is one formula: read from the left, with a count of the formulas that are still needed, which reaches none at the
// text's end and not before.
pub fn is_formula(text: &[u8]) -> bool
    ensures { result ≡ is_some (formula_of text.now) }
{
    let mut at: usize = 0;
    let mut needed: usize = 1;
    while 0 < needed {
        let Some(node) = node_at(text, at) else {
            return false;
        };
        needed = still_needed(node, needed);
        let end = own_end(node, at);
        if end == text.len() {
            return needed == 0;
        }
        if text[end] != b' ' {
            return false;
        }
        at = end + 1;
    }
    false
}
