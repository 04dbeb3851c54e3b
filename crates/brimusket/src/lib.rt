// The C boundary, and nothing else: include/brimusket.h declares what stands here. Each slice is a pointer and a length, and what is
// returned is laid out for C where it is declared.
#![tactic(auto)]

ghost use Rattle.std.specs.Prelude.{◌≡◌};
ghost use Rattle.infon.specs.Run.{run as ranOn};
ghost use Rattle.infon.specs.Chain.{chain as chainOf};
ghost use Rattle.lending.specs.Lending.{lent_as};
ghost use Rattle.working.specs.Working.{left};
ghost use Rattle.settling.specs.Settled.{Settles};

use infon::{Chained, Report};
use settling::Settlement;

// The run, for C.
#[unsafe(no_mangle)]
pub extern "C" fn brimusket_run(
    file: &[u8],
    journal: &mut [u8],
    used: usize,
    limit: usize,
    answers: &mut [u8],
) -> Report
    ensures { left result journal.new answers.new
        ≡ ranOn file.now journal.old used limit answers.old }
{
    run::run(file, journal, used, limit, answers)
}

// The run with what is to be printed of it, for C.
#[unsafe(no_mangle)]
pub extern "C" fn brimusket_settle(
    file: &[u8],
    journal: &mut [u8],
    used: usize,
    limit: usize,
    questions: bool,
    text: &mut [u8],
) -> Settlement
    ensures { Settles file.now journal.old used limit questions text.old result
        journal.new text.new }
{
    settling::settle(file, journal, used, limit, questions, text)
}

// The chain of a query, for C.
#[unsafe(no_mangle)]
pub extern "C" fn brimusket_chain(
    file: &[u8],
    journal: &[u8],
    used: usize,
    query: usize,
    out: &mut [u8],
) -> Chained
    ensures { lent_as result out.new ≡ chainOf file.now journal.now used query out.old }
{
    chain::chain(file, journal, used, query, out)
}
