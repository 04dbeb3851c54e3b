// What a call makes of a policy file and a journal, on slices and before anything is written: the journal grown, the text to print,
// and what of the journal was not kept.
#![tactic(auto)]

ghost use Rattle.std.specs.Prelude.{◌≡◌};
ghost use Rattle.writing.specs.Placed.{Prints};
ghost use Rattle.settling.specs.Settled.{answer_room, text_of, Settles};
ghost use Rattle.settling.specs.Telling.{settlement_of, Shows};

use infon::{RECORD_BYTES, Report};
use remains::{Dropped, dropped_by, is_begun};

// What a call came to, laid out for C: the run's report, how many whole records the journal had, what of it was not kept (for C a
// number), and the length of the text.
#[repr(C)]
#[derive(Clone, Copy)]
pub struct Settlement {
    pub report: Report,
    pub records: usize,
    pub dropped: usize,
    pub length: usize,
}

// A limit of so many records is never reached, and no file asks more than so many queries.
pub const EVERY_RECORD: usize = 4096;

const MOST_ANSWERS: usize = 1024;

// A journal of so many bytes holds every record of the longest list, and a text of so many whatever is printed: 32 for each answer, and
// the questions of the longest file.
pub const JOURNAL_BYTES: usize = RECORD_BYTES * EVERY_RECORD;

pub const TEXT_BYTES: usize = 32 * MOST_ANSWERS + 32768;

// A refusal tells nothing of the journal.
#[tactic(auto, unfolding(crate::specs::Telling::settlement_of))]
fn sum_up(report: Report, used: usize, begun: bool, length: usize) -> Settlement
    ensures { result ≡ settlement_of report used begun length }
{
    if report.code != 0 {
        return Settlement {
            report,
            records: 0,
            dropped: Dropped::Nothing.number(),
            length,
        };
    }
    Settlement {
        report,
        records: used / RECORD_BYTES,
        dropped: dropped_by(used, report.kept, begun).number(),
        length,
    }
}

// How many answers a text has room for.
#[tactic(auto, unfolding(crate::specs::Settled::answer_room))]
fn answer_room(text: &[u8]) -> usize
    ensures { result ≡ answer_room text.now }
{
    if TEXT_BYTES <= text.len() {
        MOST_ANSWERS
    } else {
        0
    }
}

// Prints what a run found, where the text is long enough, and returns the length of what is printed.
fn show(
    file: &[u8],
    asked: bool,
    code: usize,
    place: usize,
    answers: &[u8],
    text: &mut [u8],
) -> usize
    requires { Shows file.now code answers.now }
    ensures { Prints (text_of asked file.now code place answers.now text.old) text.old result text.new }
{
    if text.len() < TEXT_BYTES {
        return 0;
    }
    printing::print_run(file, asked, code, place, answers, text)
}

// Runs the policy file on the journal's used bytes with the limit, leaves the new journal in its buffer, and puts what is to be
// printed into text.
pub fn settle(
    file: &[u8],
    journal: &mut [u8],
    used: usize,
    limit: usize,
    asked: bool,
    text: &mut [u8],
) -> Settlement
    ensures { Settles file.now journal.old used limit asked text.old result journal.new text.new }
{
    let begun = is_begun(journal, used);
    let room = answer_room(text);
    let mut row = [0u8; MOST_ANSWERS];
    let answers = &mut row[..room];
    let report = run::run(file, journal, used, limit, answers);
    let length = show(file, asked, report.code, report.place, answers, text);
    sum_up(report, used, begun, length)
}
