// A run from its inputs to what it leaves: a policy file, a journal, its used length, a limit and an answer buffer; what comes of
// them is one equation to the paper's run. All scratch is local.
#![tactic(auto)]

ghost use Rattle.std.specs.Prelude.{◌≡◌};
ghost use Rattle.infon.specs.Run.{run as ranOn};
ghost use Rattle.working.specs.Working.{left};

use formulas::Formulas;
use infon::Report;

// A run: takes the file, the journal buffer, its used length, a limit and the answer buffer. Every input gets its answer.
pub fn run(file: &[u8], journal: &mut [u8], used: usize, limit: usize, answers: &mut [u8]) -> Report
    ensures { left result journal.new answers.new
        ≡ ranOn file.now journal.old used limit answers.old }
{
    let mut nodes = [0u16; nodes::CELLS];
    let mut table = [0u16; formulas::CELLS];
    let mut queries = [0u16; nodes::ROWS];
    match accept::accept(file, &mut nodes, &mut table, &mut queries) {
        Ok(accepted) => {
            let list = Formulas {
                table: &table,
                n: accepted.formulas,
            };
            let asked = &queries[..accepted.queries];
            working::proceed(list, asked, journal, used, limit, answers)
        }
        Err(by) => sizes::refusal(by, used),
    }
}
