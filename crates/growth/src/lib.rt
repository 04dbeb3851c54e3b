// The growth of the journal: records are added right after the kept part, each the next one.
#![tactic(auto)]

ghost use Rattle.growth.specs.Grown.{Addable, Adds, Roomy, Grows};

use infon::{RECORD_BYTES, Record};
use links::Search;
use members::{Cover, WORDS};

// How many records were added, and whether no record is next any more.
#[derive(Clone, Copy)]
pub struct Growth {
    pub added: usize,
    pub finished: bool,
}

// Adds the next record to the journal behind its first `count` records, marks it and widens the covering set by it, if one is next.
pub fn add_next(
    search: Search,
    marks: &mut [u8],
    cover: &mut Cover,
    journal: &mut [u8],
    count: usize,
) -> Option<Record>
    requires { Addable search.list.table.now search.list.n marks.old cover.old journal.old count }
    ensures { Adds search.entry.list.table.now search.entry.list.n marks.old cover.old journal.old count result marks.new
        cover.new journal.new }
{
    let r = frontier::next_record(search, marks, cover)?;
    let at = count * RECORD_BYTES;
    journal::encode(&mut journal[at..], r);
    marks[r.formula] = 1;
    frontier::touch(search, marks, cover, r.formula);
    Some(r)
}

// Adds the next record, again and again, until none is next or as many were added as the limit says.
pub fn grow(
    search: Search,
    marks: &mut [u8],
    journal: &mut [u8],
    kept: usize,
    limit: usize,
) -> Growth
    requires { Roomy search.list.table.now search.list.n marks.old journal.old kept limit }
    ensures { Grows search.entry.list.table.now search.entry.list.n marks.old journal.old kept limit result marks.new
        journal.new }
{
    let mut cover = [0u64; WORDS];
    frontier::begin(search, marks, &mut cover);
    for added in 0..limit {
        let Some(_) = add_next(search, marks, &mut cover, journal, kept + added) else {
            return Growth {
                added,
                finished: true,
            };
        };
    }
    let more = frontier::next_record(search, marks, &mut cover).is_some();
    Growth {
        added: limit,
        finished: !more,
    }
}
