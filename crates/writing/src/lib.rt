// Writing text into a buffer: a number in decimal, the word for an answer, the line of a query and that of a refusal. (Buffer and place
// are not one struct: each function would have to promise as well that it still holds the same `&mut`.)
#![tactic(auto)]

ghost use Rattle.std.specs.Prelude.{◌++◌, ◌+◌, ◌≤◌, length};
ghost use Rattle.writing.specs.Placed.{Put, PutSome, Prints};
ghost use Rattle.writing.specs.Texts.{decimal_of, word_of, line_of, printed_refusal};

// Puts a text into out from a place on, and returns the place after it.
pub fn put(text: &[u8], out: &mut [u8], at: usize) -> usize
    requires { at + length text.now ≤ length out.old }
    ensures { Put text.now at out.old result out.new }
{
    let behind = at + text.len();
    out[at..behind].copy_from_slice(text);
    behind
}

// Puts as much of a text as there is room for into out from a place on, and returns the place after it.
pub fn put_some(text: &[u8], out: &mut [u8], at: usize) -> usize
    requires { at ≤ length out.old }
    ensures { PutSome text.now at out.old result out.new }
{
    let n = text.len().min(out.len() - at);
    put(&text[..n], out, at)
}

// Puts as much of a number in decimal as there is room for.
pub fn put_some_decimal(n: usize, out: &mut [u8], at: usize) -> usize
    requires { at ≤ length out.old }
    ensures { PutSome (decimal_of n) at out.old result out.new }
{
    let mut text = [0u8; 20];
    let k = io::decimal(n as u64, &mut text);
    put_some(&text[..k], out, at)
}

// Puts a number in decimal.
pub fn put_decimal(n: usize, out: &mut [u8], at: usize) -> usize
    requires { at + 20 ≤ length out.old }
    ensures { Put (decimal_of n) at out.old result out.new }
{
    put_some_decimal(n, out, at)
}

// Puts a text and behind it a number in decimal, as much of it all as there is room for.
pub fn put_number(text: &[u8], n: usize, out: &mut [u8], at: usize) -> usize
    requires { at ≤ length out.old }
    ensures { PutSome (text.now ++ decimal_of n) at out.old result out.new }
{
    let behind = put_some(text, out, at);
    put_some_decimal(n, out, behind)
}

// Puts the word for an answer's byte, as the row of answers for C has it.
#[tactic(auto, unfolding(crate::specs::Texts::word_of, infon::specs::Bytes::bytes))]
pub fn put_word(answer: u8, out: &mut [u8], at: usize) -> usize
    requires { at + 4 ≤ length out.old }
    ensures { Put (word_of answer) at out.old result out.new }
{
    match answer {
        1 => put(b"yes", out, at),
        0 => put(b"no", out, at),
        _ => put(b"open", out, at),
    }
}

// Puts a query's line: its count, a space, the word for its answer, what stands behind that, and a line feed.
#[tactic(auto, using(crate::proofs::Decimal::length_decimal, crate::proofs::Lines::length_word))]
pub fn put_line(count: usize, answer: u8, behind: &[u8], out: &mut [u8], at: usize) -> usize
    requires { at + 32 + length behind.now ≤ length out.old }
    ensures { Put (line_of count answer behind.now) at out.old result out.new }
{
    let after_count = put_decimal(count, out, at);
    let after_space = put(b" ", out, after_count);
    let after_word = put_word(answer, out, after_space);
    let after_behind = put(behind, out, after_word);
    put(b"\n", out, after_behind)
}

// Prints a refusal's line, and returns its length.
#[tactic(auto, using(crate::proofs::Decimal::length_decimal))]
pub fn print_refusal(code: usize, place: usize, out: &mut [u8]) -> usize
    requires { 64 ≤ length out.old }
    ensures { Prints (printed_refusal code place) out.old result out.new }
{
    let after_word = put(b"refused ", out, 0);
    let after_code = put_decimal(code, out, after_word);
    let after_space = put(b" ", out, after_code);
    let after_place = put_decimal(place, out, after_space);
    put(b"\n", out, after_place)
}
