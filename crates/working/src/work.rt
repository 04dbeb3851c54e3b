// What a run does on an accepted file, once its list stands in the formula table.
ghost use Rattle.working.specs.Working.{Workable, Works};

use formulas::Formulas;
use infon::{RECORD_BYTES, Report};
use links::Search;

// Keeps the good beginning of the journal, adds the next records behind it, and answers the queries.
pub fn work(
    list: Formulas,
    queries: &[u16],
    journal: &mut [u8],
    used: usize,
    limit: usize,
    answers: &mut [u8],
) -> Report
    requires { Workable list.table.now list.n queries.now journal.old used answers.old }
    ensures { Works list.entry.table.now list.entry.n queries.now journal.old used limit answers.old result
        journal.new answers.new }
{
    let mut links = [0u16; links::CELLS];
    links::link(list, &mut links);
    let mut marks = [0u8; formulas::ROWS];
    let kept = journal::keep(list, journal, used, &mut marks);
    let search = Search {
        list,
        links: &links,
    };
    let growth = growth::grow(search, &mut marks, journal, kept, limit);
    answers::answer_all(queries, &marks, growth.finished, answers);
    Report {
        code: 0,
        place: 0,
        kept,
        added: growth.added,
        finished: growth.finished,
        used: RECORD_BYTES * (kept + growth.added),
    }
}
