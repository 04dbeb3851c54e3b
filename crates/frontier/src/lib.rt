// A set of formulas that covers all those that are not recorded and have a way now, so that the next record is looked for in it
// alone: how it is filled, and how it is widened as a formula is recorded.
#![tactic(auto)]

ghost use Rattle.std.specs.Prelude.{◌≡◌, ◌<◌, ◌≤◌, length};
ghost use Rattle.links.specs.Chains.{chain_column, shared_at};
ghost use Rattle.frontier.specs.Found.{Found};
ghost use Rattle.frontier.specs.Touched.{Covers, wanted, wanted_all, parts_by, whole_by, meeting, along, touching, taking_in, taking_all};

use formulas::{Column, Formulas};
use infon::{Record, Way};
use links::{Chain, Search};
use members::{Cover, insert, least, remove};

// Puts a formula into the set if the record of it by a way is good now.
fn want(list: Formulas, marks: &[u8], cover: &mut Cover, formula: usize, way: Way)
    requires { list.n ≤ length marks.now }
    ensures { cover.new ≡ wanted list.entry.table.now list.entry.n marks.now cover.old (record { formula = formula; way = way }) }
{
    if rules::is_good(list, marks, Record { formula, way }) {
        insert(cover, formula);
    }
}

// Rules 4 and 5: wants the parts of f where f is a recorded conjunction.
fn want_parts(list: Formulas, marks: &[u8], cover: &mut Cover, f: usize)
    requires { (f < list.n) × (list.n ≤ length marks.now) }
    ensures { cover.new ≡ wanted_all list.entry.table.now list.entry.n marks.now cover.old (parts_by list.entry.table.now f) }
{
    let left = list.at(Column::Left, f);
    let right = list.at(Column::Right, f);
    want(list, marks, cover, left, Way::Left(f));
    want(list, marks, cover, right, Way::Right(f));
}

// Rules 6, 8 and 7: wants g where its parts give it, and what g ends in where its condition gives that.
fn want_whole(list: Formulas, marks: &[u8], cover: &mut Cover, g: usize)
    requires { (g < list.n) × (list.n ≤ length marks.now) }
    ensures { cover.new ≡ wanted_all list.entry.table.now list.entry.n marks.now cover.old (whole_by list.entry.table.now g) }
{
    let left = list.at(Column::Left, g);
    let right = list.at(Column::Right, g);
    want(list, marks, cover, g, Way::Both(left, right));
    want(list, marks, cover, g, Way::Attach(right));
    want(list, marks, cover, right, Way::Apply(left, g));
}

// Rule 3 along the chain of f's bottom, rules 6 to 8 along the chains of f as a part. (A match and no closures: the chains are closed.)
fn meet(list: Formulas, marks: &[u8], cover: &mut Cover, chain: Chain, f: usize, g: usize)
    requires { (g < list.n) × (list.n ≤ length marks.now) }
    ensures { cover.new ≡ wanted_all list.entry.table.now list.entry.n marks.now cover.old (meeting list.entry.table.now (chain_column chain) f g) }
{
    match chain {
        Chain::Left | Chain::Right => want_whole(list, marks, cover, g),
        Chain::Bottom => want(list, marks, cover, g, Way::Weaken(f)),
    }
}

// Meets f with each formula of its chain.
fn meet_chain(search: Search, marks: &[u8], cover: &mut Cover, chain: Chain, f: usize)
    requires { (f < search.list.n) × (search.list.n ≤ length marks.now) }
    ensures { cover.new ≡ wanted_all search.entry.list.table.now search.entry.list.n marks.now cover.old
        (along search.entry.list.table.now (chain_column chain) (shared_at search.entry.list.table.now chain f) f 0 search.entry.list.n) }
{
    let mut at = search.first(chain, f);
    while let Some(g) = at {
        meet(search.list, marks, cover, chain, f, g);
        at = search.next(chain, g);
    }
}

// Wants all that is due now by a way that has f as a premise.
pub fn touch(search: Search, marks: &[u8], cover: &mut Cover, f: usize)
    requires { (f < search.list.n) × (search.list.n ≤ length marks.now) }
    ensures { cover.new ≡ wanted_all search.entry.list.table.now search.entry.list.n marks.now cover.old
        (touching search.entry.list.table.now search.entry.list.n f) }
{
    want_parts(search.list, marks, cover, f);
    want_whole(search.list, marks, cover, f);
    meet_chain(search, marks, cover, Chain::Left, f);
    meet_chain(search, marks, cover, Chain::Right, f);
    meet_chain(search, marks, cover, Chain::Bottom, f);
}

// Wants i where it needs no premise, and what is due by i where i is recorded.
fn take_in(search: Search, marks: &[u8], cover: &mut Cover, i: usize)
    requires { (i < search.list.n) × (search.list.n ≤ length marks.now) }
    ensures { cover.new ≡ wanted_all search.entry.list.table.now search.entry.list.n marks.now cover.old
        (taking_in search.entry.list.table.now search.entry.list.n marks.now i) }
{
    want(search.list, marks, cover, i, Way::Hypothesis);
    want(search.list, marks, cover, i, Way::Given);
    if rules::is_marked(search.list, marks, i) {
        touch(search, marks, cover, i);
    }
}

// Fills the set, so that it covers after the recorded formulas.
pub fn begin(search: Search, marks: &[u8], cover: &mut Cover)
    requires { search.list.n ≤ length marks.now }
    ensures { cover.new ≡ wanted_all search.entry.list.table.now search.entry.list.n marks.now cover.old
        (taking_all search.entry.list.table.now search.entry.list.n marks.now 0 search.entry.list.n) }
{
    for i in 0..search.list.n {
        take_in(search, marks, cover, i);
    }
}

// The next record after the marked ones, if any: the least member of a covering set that is not recorded and has a way, by its
// least way. It and the members before it are taken out.
pub fn next_record(search: Search, marks: &[u8], cover: &mut Cover) -> Option<Record>
    requires { (search.list.n ≤ length marks.now) × Covers search.list.table.now search.list.n marks.now cover.old }
    ensures { Found search.entry.list.table.now search.entry.list.n marks.now cover.old result cover.new }
{
    let mut at = least(cover);
    while let Some(f) = at {
        if search.list.n <= f {
            return None;
        }
        remove(cover, f);
        if let Some(way) = ways::due_way(search, marks, f) {
            return Some(Record { formula: f, way });
        }
        at = least(cover);
    }
    None
}
