// The answers to a file's queries, by the marks of what is recorded.
#![tactic(auto)]

ghost use Rattle.std.specs.Prelude.{◌≡◌, ◌<◌, length};
ghost use Rattle.infon.specs.Run.{answer_of, answer_byte, written};
ghost use Rattle.answers.specs.Answered.{Answerable, answer_at, answered_bytes};

use infon::Answer;

// Yes: recorded. No is said only of a finished journal: before that, a missing record may still come.
#[tactic(auto, unfolding(infon::specs::Run::answer_of))]
pub fn answer_of(recorded: bool, finished: bool) -> Answer
    ensures { result ≡ answer_of recorded finished }
{
    if recorded {
        return Answer::Yes;
    }
    if finished { Answer::No } else { Answer::Open }
}

// The byte that stands for an answer; a byte that others read hangs on no order of declaration, so it is no `as u8`.
#[tactic(auto, unfolding(infon::specs::Run::answer_byte))]
pub fn byte_of(answer: Answer) -> u8
    ensures { result ≡ answer_byte answer }
{
    match answer {
        Answer::No => 0,
        Answer::Yes => 1,
        Answer::Open => 2,
    }
}

// The byte that answers a query, by its formula's number.
#[tactic(auto, unfolding(crate::specs::Answered::answer_at))]
fn answer_at(marks: &[u8], finished: bool, number: usize) -> u8
    requires { number < length marks.now }
    ensures { result ≡ answer_at marks.now finished number }
{
    byte_of(answer_of(marks[number] == 1, finished))
}

// The byte that answers each query, given by its formula's number, in the file's order.
pub fn answer_all(queries: &[u16], marks: &[u8], finished: bool, answers: &mut [u8])
    requires { Answerable queries.now marks.now answers.old }
    ensures { answers.new ≡ written answers.old 0 (answered_bytes queries.now marks.now finished) }
{
    for (i, number) in queries.iter().enumerate() {
        answers[i] = answer_at(marks, finished, usize::from(*number));
    }
}
