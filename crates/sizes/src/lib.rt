// Codes 6 to 8 by the sizes that they compare, and what a refusal returns.
#![tactic(auto)]

ghost use Rattle.std.specs.Prelude.{◌≡◌, ◌≤◌, []};
ghost use Rattle.infon.specs.Codes.{tried};
ghost use Rattle.infon.specs.Run.{refusal as refusedBy};
ghost use Rattle.formulas.specs.Table.{table_rows};
ghost use Rattle.sizes.specs.Sizes.{size_codes};

use infon::{RECORD_BYTES, Refusal, Report};

// A refusal returns its code and place, kept 0, added 0, not finished, and the used length as it was given.
#[tactic(auto, unfolding(infon::specs::Run::refusal))]
pub fn refusal(by: Refusal, used: usize) -> Report
    ensures { result ≡ (refusedBy by.code by.place used [] []).report }
{
    Report {
        code: by.code,
        place: by.place,
        kept: 0,
        added: 0,
        finished: false,
        used,
    }
}

// Codes 6, 7 and 8, in this order, by the sizes that they compare.
#[tactic(auto, unfolding(infon::specs::Codes::tried, infon::specs::Codes::and_then, infon::specs::Codes::when, crate::specs::Sizes::size_codes))]
pub fn check_sizes(
    journal: usize,
    n: usize,
    used: usize,
    answers: usize,
    asked: usize,
) -> Result<(), Refusal>
    requires { n ≤ table_rows }
    ensures { result ≡ tried (size_codes journal n used answers asked) }
{
    if journal < RECORD_BYTES * n {
        return Err(Refusal { code: 6, place: 0 });
    }
    if journal < used {
        return Err(Refusal { code: 7, place: 0 });
    }
    if answers < asked {
        return Err(Refusal { code: 8, place: 0 });
    }
    Ok(())
}
