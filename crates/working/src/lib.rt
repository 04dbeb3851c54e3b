// What a run does on an accepted file, whose list stands in the formula table: its own codes, and then the work. All scratch is
// local.
#![tactic(auto)]

mod work;

ghost use Rattle.working.specs.Working.{Acceptable, Proceeds};

use formulas::Formulas;
use infon::Report;
use sizes::{check_sizes, refusal};
use work::work;

// What a run does on an accepted file: its own codes, and then the work.
pub fn proceed(
    list: Formulas,
    queries: &[u16],
    journal: &mut [u8],
    used: usize,
    limit: usize,
    answers: &mut [u8],
) -> Report
    requires { Acceptable list.table.now list.n queries.now }
    ensures { Proceeds list.entry.table.now list.entry.n queries.now journal.old used limit answers.old result
        journal.new answers.new }
{
    match check_sizes(journal.len(), list.n, used, answers.len(), queries.len()) {
        Ok(()) => work(list, queries, journal, used, limit, answers),
        Err(by) => refusal(by, used),
    }
}
