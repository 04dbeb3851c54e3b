// What a lender desk is told of a query, in words: where each record that it rests on comes from.
#![tactic(auto)]

ghost use Rattle.std.specs.Prelude.{◌≡◌, ◌++◌, ℕ, ◌≤◌, ◌<◌, length, get_or};
ghost use Rattle.infon.specs.Bytes.{bytes};
ghost use Rattle.writing.specs.Placed.{PutSome};
ghost use Rattle.writing.specs.Texts.{decimal_of};
ghost use Rattle.infon.specs.Formula.{Formula};
ghost use Rattle.infon.specs.Policy.{entries_of};
ghost use Rattle.infon.specs.Listing.{list_of};
ghost use Rattle.prefix.specs.Told.{ToldBy};
ghost use Rattle.facts.specs.Facts.{fact_line, Askable};
ghost use Rattle.telling.specs.Text.{reason_by, record_words};
ghost use Rattle.telling.specs.Shelf.{Shelf, Nexts};

use formulas::{Column, Formulas};
use infon::{Record, Way};
use nodes::{Held, Policy};

// A formula by the node of its base and by its put places.
#[derive(Clone, Copy)]
pub struct Key {
    pub node: usize,
    pub puts: usize,
}

// The line on which the record for a number stands; 0 where none does, as the definition of a reason has it.
fn place_of(places: &[u16], p: usize) -> usize
    ensures { result ≡ get_or places.now p 0 }
{
    match places.get(p) {
        Some(place) => usize::from(*place),
        None => 0,
    }
}

// Puts a number between two texts.
fn put_enclosed(before: &[u8], n: usize, behind: &[u8], out: &mut [u8], at: usize) -> usize
    requires { at ≤ length out.old }
    ensures { PutSome (before.now ++ (decimal_of n ++ behind.now)) at out.old result out.new }
{
    let end = writing::put_number(before, n, out, at);
    writing::put_some(behind, out, end)
}

// Puts where a conjunction of two records comes from.
fn put_together(p: usize, q: usize, out: &mut [u8], at: usize) -> usize
    requires { at ≤ length out.old }
    ensures { PutSome (bytes "from " ++ (decimal_of p ++ (bytes " and " ++ (decimal_of q ++ bytes " together")))) at out.old result out.new }
{
    let end = writing::put_number(b"from ", p, out, at);
    put_enclosed(b" and ", q, b" together", out, end)
}

// Puts where the conclusion of a rule comes from.
fn put_by(p: usize, q: usize, out: &mut [u8], at: usize) -> usize
    requires { at ≤ length out.old }
    ensures { PutSome (bytes "from " ++ (decimal_of p ++ (bytes " by " ++ decimal_of q))) at out.old result out.new }
{
    let end = writing::put_number(b"from ", p, out, at);
    writing::put_number(b" by ", q, out, end)
}

// Puts where a record comes from: a line of the file, or earlier records by their lines.
#[tactic(auto, unfolding(crate::specs::Text::reason_by, infon::specs::Bytes::bytes))]
fn put_reason(line: usize, places: &[u16], way: Way, out: &mut [u8], at: usize) -> usize
    requires { at ≤ length out.old }
    ensures { PutSome (reason_by line (λ (p : ℕ). get_or places.now p 0) way) at out.old result out.new }
{
    match way {
        Way::Hypothesis => put_enclosed(b"line ", line, b" of the file", out, at),
        Way::Given => writing::put_some(b"true in itself", out, at),
        Way::Weaken(p) => put_enclosed(
            b"from ",
            place_of(places, p),
            b", as who says a thing has also put it",
            out,
            at,
        ),
        Way::Left(p) | Way::Right(p) => {
            writing::put_number(b"part of ", place_of(places, p), out, at)
        }
        Way::Both(p, q) => put_together(place_of(places, p), place_of(places, q), out, at),
        Way::Apply(p, q) => put_by(place_of(places, p), place_of(places, q), out, at),
        Way::Attach(p) => put_enclosed(
            b"from ",
            place_of(places, p),
            b", whatever the condition",
            out,
            at,
        ),
    }
}

// The line of the file that says a hypothesis; any other record needs none.
#[tactic(auto, unfolding(crate::specs::Text::reason_by))]
fn line_for(policy: Policy, key: Key, way: Way) -> usize
    requires { Askable policy.file.now policy.nodes.now policy.count key.node key.puts }
    ensures { (x : Formula) → ToldBy policy.entry.file.now policy.entry.nodes.now key.node key.puts x
        → (place : ℕ → ℕ) → reason_by result place way ≡ reason_by (fact_line x (entries_of policy.entry.file.now)) place way }
{
    match way {
        Way::Hypothesis => facts::fact_line(policy, key.node, key.puts),
        _ => 0,
    }
}

// Puts the line of a record: its count, where it comes from, and its formula.
fn put_record(
    policy: Policy,
    key: Key,
    places: &[u16],
    k: usize,
    way: Way,
    out: &mut [u8],
    at: usize,
) -> usize
    requires { Askable policy.file.now policy.nodes.now policy.count key.node key.puts × (at ≤ length out.old) }
    ensures { (x : Formula) → ToldBy policy.entry.file.now policy.entry.nodes.now key.node key.puts x
        → PutSome (record_words (fact_line x (entries_of policy.entry.file.now)) (λ (p : ℕ). get_or places.now p 0) x k way) at
        out.old result out.new }
{
    let line = line_for(policy, key, way);
    let counted = writing::put_some_decimal(k, out, at);
    let dotted = writing::put_some(b". ", out, counted);
    let reasoned = put_reason(line, places, way, out, dotted);
    let parted = writing::put_some(b": ", out, reasoned);
    let held = Held {
        file: policy.file,
        nodes: policy.nodes,
    };
    let told = wording::put_formula(held, key.node, key.puts, out, parted);
    writing::put_some(b"\n", out, told)
}

// Puts the line of the next record, and keeps in mind on which line its formula stands.
fn put_next(
    policy: Policy,
    list: Formulas,
    r: Record,
    places: &mut [u16],
    k: u16,
    out: &mut [u8],
    at: usize,
) -> usize
    requires { Shelf policy.file.now list.table.now × (r.formula < length (list_of (entries_of policy.file.now)))
        × (r.formula < length places.old) × (at ≤ length out.old) }
    ensures { Nexts policy.entry.file.now places.old k r out.old at result places.new out.new }
{
    let formula = r.formula;
    let key = Key {
        node: list.at(Column::Base, formula),
        puts: list.at(Column::Puts, formula),
    };
    let end = put_record(policy, key, places, usize::from(k), r.way, out, at);
    places[formula] = k;
    end
}
