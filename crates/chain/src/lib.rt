// The chain of a query from its inputs to what it leaves: a policy file, a journal, its used length, the query's count from 1 and a
// lent buffer; what comes of them is one equation to 02's chain. All scratch is local.
#![tactic(auto)]

ghost use Rattle.std.specs.Prelude.{◌≡◌};
ghost use Rattle.infon.specs.Chain.{chain as chainOf};
ghost use Rattle.lending.specs.Lending.{lent_as};

use formulas::Formulas;
use infon::Chained;

// The chain of a query. Every input gets its answer. (It begins as `run::run` does, but the tables are local to each and lent to the
// end, so what is alike is no function of its own.)
pub fn chain(file: &[u8], journal: &[u8], used: usize, count: usize, out: &mut [u8]) -> Chained
    ensures { lent_as result out.new ≡ chainOf file.now journal.now used count out.old }
{
    let mut nodes = [0u16; nodes::CELLS];
    let mut table = [0u16; formulas::CELLS];
    let mut queries = [0u16; nodes::ROWS];
    match accept::accept(file, &mut nodes, &mut table, &mut queries) {
        Ok(accepted) => {
            let list = Formulas {
                table: &table,
                n: accepted.formulas,
            };
            let asked = &queries[..accepted.queries];
            lending::lend_chain(list, asked, journal, used, count, out)
        }
        Err(by) => lending::refused(by),
    }
}
