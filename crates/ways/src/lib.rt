// The least way to a formula, found along chains of formulas that share a part or a bottom.
#![tactic(auto)]

ghost use Rattle.std.specs.Prelude.{◌≡◌, ℕ, ◌<◌, ◌≤◌, List, [], ◌∷◌, map, length};
ghost use Rattle.infon.specs.declared.Way.TheVariants.{Hypothesis, Given, Both, Apply, Attach};
ghost use Rattle.infon.specs.Journal.{numbers_from};
ghost use Rattle.formulas.specs.Tests.{leads_to};
ghost use Rattle.ways.specs.Search.{way_by, better_of, least_among, pairs_of, least_way_in, due_way_in, condition_in};

use formulas::{Column, Formulas, Kind};
use infon::Way;
use links::{Chain, Search};

// Rules 1 and 2: f as a hypothesis or as `T`.
fn at_once(list: Formulas, f: usize) -> Option<Way>
    requires { f < list.n }
    ensures { (marks : List ℕ) → result ≡ least_among (Hypothesis ∷ (Given ∷ [])) list.entry.table.now list.entry.n marks f }
{
    if list.at(Column::Hypothesis, f) == 1 {
        Some(Way::Hypothesis)
    } else if list.at(Column::Kind, f) == Kind::Truth as usize {
        Some(Way::Given)
    } else {
        None
    }
}

// The way by the rule that a chain is for.
fn way_by(chain: Chain, p: usize) -> Way
    ensures { result ≡ way_by chain p }
{
    match chain {
        Chain::Left => Way::Left(p),
        Chain::Right => Way::Right(p),
        Chain::Bottom => Way::Weaken(p),
    }
}

// Whether p is recorded and gives f by the rule that a chain is for.
fn gives(list: Formulas, marks: &[u8], chain: Chain, p: usize, f: usize) -> bool
    requires { (p < list.n) × (f < list.n) × (list.n ≤ length marks.now) }
    ensures { result ≡ leads_to list.entry.table.now list.entry.n marks.now f (way_by chain p) }
{
    rules::is_marked(list, marks, p)
        && match chain {
            Chain::Left => rules::has_part(list, Kind::Conjunction, Column::Left, p, f),
            Chain::Right => rules::has_part(list, Kind::Conjunction, Column::Right, p, f),
            Chain::Bottom => rules::weakens(list, p, f),
        }
}

// Rules 3 to 5: f from the least recorded formula of its chain that gives it.
fn along(search: Search, marks: &[u8], chain: Chain, f: usize) -> Option<Way>
    requires { (f < search.list.n) × (search.list.n ≤ length marks.now) }
    ensures { result ≡ least_among (map (way_by chain) (numbers_from 0 search.entry.list.n)) search.entry.list.table.now search.entry.list.n marks.now f }
{
    let mut at = search.first(chain, f);
    while let Some(p) = at {
        if gives(search.list, marks, chain, p, f) {
            return Some(way_by(chain, p));
        }
        at = search.next(chain, p);
    }
    None
}

// Rule 6: f from both its parts.
fn combined(list: Formulas, marks: &[u8], f: usize) -> Option<Way>
    requires { (f < list.n) × (list.n ≤ length marks.now) }
    ensures { result ≡ least_among (pairs_of Both list.entry.n) list.entry.table.now list.entry.n marks.now f }
{
    if list.at(Column::Kind, f) == Kind::Conjunction as usize {
        let left = list.at(Column::Left, f);
        let right = list.at(Column::Right, f);
        if rules::are_marked(list, marks, left, right) {
            return Some(Way::Both(left, right));
        }
    }
    None
}

// The condition of a recorded implication, if it is recorded itself.
fn condition(list: Formulas, marks: &[u8], q: usize) -> Option<usize>
    requires { (q < list.n) × (list.n ≤ length marks.now) }
    ensures { result ≡ condition_in list.entry.table.now list.entry.n marks.now q }
{
    if rules::is_marked(list, marks, q) {
        if list.at(Column::Kind, q) == Kind::Implication as usize {
            let p = list.at(Column::Left, q);
            if rules::is_marked(list, marks, p) {
                return Some(p);
            }
        }
    }
    None
}

// The least pair of premises, after an implication q whose condition is p.
fn better(best: Option<(usize, usize)>, p: usize, q: usize) -> Option<(usize, usize)>
    ensures { result ≡ better_of best p q }
{
    match best {
        Some((first, _)) if first <= p => best,
        _ => Some((p, q)),
    }
}

// Rule 7: f from the least recorded condition of a recorded implication that ends in f, and the least such implication.
fn applied(search: Search, marks: &[u8], f: usize) -> Option<Way>
    requires { (f < search.list.n) × (search.list.n ≤ length marks.now) }
    ensures { result ≡ least_among (pairs_of Apply search.entry.list.n) search.entry.list.table.now search.entry.list.n marks.now f }
{
    let mut best = None;
    let mut at = search.first(Chain::Right, f);
    while let Some(q) = at {
        if let Some(p) = condition(search.list, marks, q) {
            best = better(best, p, q);
        }
        at = search.next(Chain::Right, q);
    }
    best.map(|(p, q)| Way::Apply(p, q))
}

// Rule 8: f from its right part, where f is an implication.
fn attached(list: Formulas, marks: &[u8], f: usize) -> Option<Way>
    requires { (f < list.n) × (list.n ≤ length marks.now) }
    ensures { result ≡ least_among (map Attach (numbers_from 0 list.entry.n)) list.entry.table.now list.entry.n marks.now f }
{
    if list.at(Column::Kind, f) == Kind::Implication as usize {
        let p = list.at(Column::Right, f);
        if rules::is_marked(list, marks, p) {
            return Some(Way::Attach(p));
        }
    }
    None
}

// The least way to f: the least rule, then the least first and the least second premise.
fn least_way(search: Search, marks: &[u8], f: usize) -> Option<Way>
    requires { (f < search.list.n) × (search.list.n ≤ length marks.now) }
    ensures { result ≡ least_way_in search.entry.list.table.now search.entry.list.n marks.now f }
{
    // Not by `or_else`: what a closure over borrowed tables gives is not known behind it.
    if let Some(way) = at_once(search.list, f) {
        return Some(way);
    }
    if let Some(way) = along(search, marks, Chain::Bottom, f) {
        return Some(way);
    }
    if let Some(way) = along(search, marks, Chain::Left, f) {
        return Some(way);
    }
    if let Some(way) = along(search, marks, Chain::Right, f) {
        return Some(way);
    }
    if let Some(way) = combined(search.list, marks, f) {
        return Some(way);
    }
    if let Some(way) = applied(search, marks, f) {
        return Some(way);
    }
    attached(search.list, marks, f)
}

// The least way to f where f is not recorded yet.
pub fn due_way(search: Search, marks: &[u8], f: usize) -> Option<Way>
    requires { (f < search.list.n) × (search.list.n ≤ length marks.now) }
    ensures { result ≡ due_way_in search.entry.list.table.now search.entry.list.n marks.now f }
{
    if rules::is_marked(search.list, marks, f) {
        None
    } else {
        least_way(search, marks, f)
    }
}
