// The chain of a query on an accepted file: codes 7, 31, 32 and 33, and the records that the query rests on.
#![tactic(auto)]

ghost use Rattle.std.specs.Prelude.{◌≡◌, []};
ghost use Rattle.infon.specs.Chain.{chain_refusal};
ghost use Rattle.lending.specs.Lending.{Restable, LendsReasons, Lendable, Lends};

use formulas::Formulas;
use infon::{Chained, RECORD_BYTES, Refusal};

// What a refusal returns: its code and place, and no records.
#[tactic(auto, unfolding(infon::specs::Chain::chain_refusal))]
pub fn refused(by: Refusal) -> Chained
    ensures { result ≡ (chain_refusal by.code by.place []).told }
{
    Chained {
        code: by.code,
        place: by.place,
        records: 0,
    }
}

// Lends the reasons of a recorded number among a journal's first records; code 33 where they do not fit.
fn lend_reasons(journal: &[u8], kept: usize, number: usize, out: &mut [u8]) -> Chained
    requires { Restable journal.now kept number }
    ensures { LendsReasons journal.now kept number out.old result out.new }
{
    let mut wanted = [0u8; formulas::ROWS];
    reasons::want(&mut wanted, number);
    let records = reasons::choose(journal, kept, &mut wanted);
    if out.len() < RECORD_BYTES * records {
        return refused(Refusal { code: 33, place: 0 });
    }
    reasons::lend(journal, kept, &wanted, out);
    Chained {
        code: 0,
        place: 0,
        records,
    }
}

// The chain of the query with a count, from 1, in the journal's kept part.
pub fn lend_chain(
    list: Formulas,
    queries: &[u16],
    journal: &[u8],
    used: usize,
    count: usize,
    out: &mut [u8],
) -> Chained
    requires { Lendable list.table.now list.n queries.now }
    ensures { Lends list.entry.table.now list.entry.n queries.now journal.now used count out.old result
        out.new }
{
    if journal.len() < used {
        return refused(Refusal { code: 7, place: 0 });
    }
    if count == 0 || queries.len() < count {
        return refused(Refusal { code: 31, place: 0 });
    }
    let mut marks = [0u8; formulas::ROWS];
    let kept = journal::keep(list, journal, used, &mut marks);
    let number = usize::from(queries[count - 1]);
    if marks[number] != 1 {
        return refused(Refusal { code: 32, place: 0 });
    }
    lend_reasons(journal, kept, number, out)
}
