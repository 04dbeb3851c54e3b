// What is printed of a run, on slices: a line for each query, with its question where it is asked for, or the line of a refusal.
#![tactic(auto)]

ghost use Rattle.std.specs.Prelude.{◌≡◌, ◌+◌, ◌-◌, ◌≤◌, ◌<◌, length};
ghost use Rattle.infon.specs.Policy.{entries_of, queries_of};
ghost use Rattle.writing.specs.Placed.{Prints};
ghost use Rattle.printing.specs.Printed.{printed_answers, printed_run};
ghost use Rattle.printing.specs.Turned.{behind_from, Turned, Printable};

// How far the text has come: the place behind it, and how many answers stand in it.
#[derive(Clone, Copy)]
pub struct Progress {
    pub at: usize,
    pub count: usize,
}

// Where the part of a query's line begins that is printed behind its answer: with the space after the letter, or at the end of the
// line, where nothing is left of it.
#[tactic(auto, unfolding(crate::specs::Turned::behind_from))]
fn behind_from(asked: bool, start: usize, end: usize) -> usize
    requires { start < end }
    ensures { result ≡ behind_from asked start end }
{
    if asked { start + 1 } else { end }
}

// Puts the line for the file's line from start to end, if that is a query's, with the next answer.
fn put_query(
    file: &[u8],
    start: usize,
    end: usize,
    asked: bool,
    answers: &[u8],
    so_far: Progress,
    out: &mut [u8],
) -> Progress
    requires inside { (start < end) × (end ≤ length file.now) }
    requires answered { so_far.count < length answers.now }
    requires room { so_far.at + 32 + (end - start) ≤ length out.old }
    ensures { Turned file.now start end asked answers.now so_far.count so_far.at out.old result out.new }
{
    if file[start] != b'Q' {
        return so_far;
    }
    let Progress { at, count } = so_far;
    let from = behind_from(asked, start, end);
    let next = writing::put_line(count + 1, answers[count], &file[from..end], out, at);
    Progress {
        at: next,
        count: count + 1,
    }
}

// Prints the answers to a file's queries, a line each, with the questions where they are asked for, and returns the length of the
// text. Queries that have no answer are left out, and so are answers that have no query.
fn print_answers(file: &[u8], asked: bool, answers: &[u8], out: &mut [u8]) -> usize
    requires { Printable file.now answers.now out.old }
    ensures { Prints (printed_answers asked (queries_of (entries_of file.now)) answers.now) out.old result out.new }
{
    let mut so_far = Progress { at: 0, count: 0 };
    // No library iterator over lines tells where each begins and that none is left unended, as the laws of `lines` do.
    let mut start = 0;
    while start < file.len() {
        if answers.len() <= so_far.count {
            return so_far.at;
        }
        let end = lines::line_end(file, start);
        so_far = put_query(file, start, end, asked, answers, so_far, out);
        start = end + 1;
    }
    so_far.at
}

// Prints what a run of a file found, the refusal alone or a line for each query, and returns the length of the text. The code and the
// place come as the report for C has them: code 0 is none.
#[tactic(auto, unfolding(crate::specs::Printed::printed_run))]
pub fn print_run(
    file: &[u8],
    asked: bool,
    code: usize,
    place: usize,
    answers: &[u8],
    out: &mut [u8],
) -> usize
    requires printable { code ≡ 0 → Printable file.now answers.now out.old }
    requires room { 64 ≤ length out.old }
    ensures { Prints (printed_run asked file.now code place answers.now) out.old result out.new }
{
    if code == 0 {
        print_answers(file, asked, answers, out)
    } else {
        writing::print_refusal(code, place, out)
    }
}
