// The list of formulas that matter, and the formula table: all bases in order, each weaker prefix in order, each formula found
// among those listed or put behind them. Form m of node b, its formula under weaker prefix number m, stands at b * STRIDE + m.
#![tactic(auto)]

ghost use Rattle.std.specs.Prelude.{◌≡◌, cond, suc, ◌+◌, ◌*◌, ◌≤◌, ◌<◌, length, position, ltb, nat_eq};
ghost use Rattle.infon.specs.Listing.{most_listed};
ghost use Rattle.nodes.specs.Nodes.{node_rows, nodes_of};
ghost use Rattle.columns.specs.Columns.{stride};
ghost use Rattle.listing.specs.Forms.{listed_to, Entered, FormsReady, FormsEntered};
ghost use Rattle.listing.specs.Lines.{LinesReady, marked_by, asked_by, asked_in, Clear, HypothesesMarked, QueriesNumbered};
ghost use Rattle.listing.specs.Outcome.{ListedFile};
ghost use Rattle.listing.specs.Whole.{NodesListed};

use columns::{FORMS, Forms, ROOM, STRIDE, form_number, is_base};
use formulas::{Column, Table};
use infon::Refusal;
use nodes::{Policy, cell_at, kind_at};
use prefix::Prefix;

// "L is over 4,096" is code 5.
const MOST: usize = formulas::ROWS;

// The tables that are worked in: `cand` has the number of every form of a base, `owners` the form as which a formula was first
// listed, and `keys` that form's key. The keys stand apart from the owners, since the library searches a row
// of keys by `position`, and a row of pairs would need a test by hand.
#[derive(Drop)]
struct Work {
    cand: [u16; FORMS],
    keys: [u16; ROOM],
    owners: [u16; ROOM],
    ghost cand_long: { node_rows * stride ≤ length cand },
    ghost keys_long: { most_listed + stride ≤ length keys },
    ghost owners_long: { most_listed + stride ≤ length owners },
}

// Where a formula with this key stands among those so far.
fn find(keys: &[u16], key: u16) -> Option<usize>
    ensures { result ≡ position (λ k. nat_eq key k) keys.now }
{
    keys.iter().position(|&k| key == k)
}

// A formula that was found adds nothing to the list, a new one adds itself, and its place is then the list's length.
fn longer(n: usize, at: usize) -> usize
    requires { n < 65536 }
    ensures { result ≡ cond (ltb at n) n (n + 1) }
{
    if at < n { n } else { n + 1 }
}

// Lists the forms of a base, said before put, behind the first `count` formulas; how many there are then.
fn list_forms(p: Prefix, twin: usize, base: usize, work: &mut Work, count: usize) -> usize
    requires { FormsReady p twin base count }
    ensures { FormsEntered p twin base work.old.cand work.old.keys work.old.owners count work.new.cand work.new.keys work.new.owners result }
{
    let mut n = count;
    for m in 0..prefix::weaker_count(p) {
        let puts = prefix::puts(prefix::weaker(p, m));
        let key = (twin * STRIDE + puts) as u16;
        let at = find(&work.keys[..n], key).unwrap_or(n);
        let form = base * STRIDE + m;
        work.cand[form] = at as u16;
        work.keys[n] = key;
        work.owners[n] = form as u16;
        n = longer(n, at);
    }
    n
}

// Lists node i behind the first n formulas: a base its forms, a quotation nothing; how many there are then.
fn list_node(policy: Policy, i: usize, work: &mut Work, n: usize) -> usize
    requires below { i < policy.count }
    requires few { n ≤ most_listed }
    requires so_far { Entered (nodes_of policy.file.now) i 0 (listed_to (nodes_of policy.file.now) i) work.old.cand work.old.keys work.old.owners n }
    ensures { Entered (nodes_of policy.entry.file.now) (i + 1) 0 (listed_to (nodes_of policy.entry.file.now) (suc i)) work.new.cand work.new.keys work.new.owners result }
{
    if !is_base(kind_at(policy.nodes, i)) {
        return n;
    }
    let twin = twins::first_twin(policy, i);
    let p = prefix::prefix_of(policy.nodes, i);
    list_forms(p, twin, i, work, n)
}

// Lists all nodes in order, up to the limit; how many formulas there are where code 5 passes.
fn list_nodes(policy: Policy, work: &mut Work) -> Result<usize, Refusal>
    ensures { NodesListed policy.entry.file.now result work.new.cand work.new.keys work.new.owners }
{
    let mut n = 0;
    for i in 0..policy.count {
        n = list_node(policy, i, work, n);
        if MOST < n {
            let place = cell_at(policy.nodes, nodes::Column::Line, i);
            return Err(Refusal { code: 5, place });
        }
    }
    Ok(n)
}

// A formula is marked by a line `H`, and otherwise as it was.
#[tactic(auto, unfolding(crate::specs::Lines::marked_by))]
fn mark(letter: u8, old: usize) -> usize
    ensures { result ≡ marked_by letter old }
{
    if letter == b'H' { 1 } else { old }
}

// Marks the formulas of the `H` lines in the table's column of hypotheses. (Not one loop with `fill_queries`, the body a closure:
// each body's state, the table or the row with its count, is what its invariant speaks of.)
fn fill_hypotheses(policy: Policy, cand: &[u16; FORMS], table: &mut [u16])
    requires ready { LinesReady policy.file.now cand.now }
    requires clear { Clear policy.file.now table.old }
    ensures { HypothesesMarked policy.entry.file.now table.old table.new }
{
    let mut r = 0;
    while r < policy.count {
        let number = usize::from(form_number(policy, cand, r, 0));
        let line = cell_at(policy.nodes, nodes::Column::Line, r);
        let letter = policy.file[line];
        let old = formulas::cell_at(table, Column::Hypothesis, number);
        formulas::set_cell(table, Column::Hypothesis, number, mark(letter, old));
        r = cell_at(policy.nodes, nodes::Column::End, r);
    }
}

// A line `Q` puts its formula's number behind those of the earlier ones; how many there are then. (The row is the caller's whole
// buffer, which the contract of `accept` speaks of, so its count goes beside it.)
#[tactic(auto, unfolding(crate::specs::Lines::asked_by, crate::specs::Lines::asked_in))]
fn ask(letter: u8, number: u16, queries: &mut [u16], q: usize) -> usize
    requires { q < length queries.old }
    ensures count { result ≡ asked_by letter q }
    ensures numbers { queries.new ≡ asked_in letter number q queries.old }
{
    if letter == b'Q' {
        queries[q] = number;
        return q + 1;
    }
    q
}

// Writes the numbers of the queries in file order; how many there are.
fn fill_queries(policy: Policy, cand: &[u16; FORMS], queries: &mut [u16]) -> usize
    requires ready { LinesReady policy.file.now cand.now }
    requires room { node_rows ≤ length queries.old }
    ensures { QueriesNumbered policy.entry.file.now queries.old queries.new result }
{
    let mut q = 0;
    let mut r = 0;
    while r < policy.count {
        let number = form_number(policy, cand, r, 0);
        let line = cell_at(policy.nodes, nodes::Column::Line, r);
        q = ask(policy.file[line], number, queries, q);
        r = cell_at(policy.nodes, nodes::Column::End, r);
    }
    q
}

// How many formulas and queries a file has that code 5 passes.
#[derive(Clone, Copy)]
pub struct Listed {
    pub formulas: usize,
    pub queries: usize,
}

// Lists a file's formulas, fills the formula table and numbers the queries. Where the list is too long, both buffers stay as they
// were.
pub fn list(policy: Policy, table: &mut Table, queries: &mut [u16]) -> Result<Listed, Refusal>
    requires { node_rows ≤ length queries.old }
    ensures { ListedFile policy.entry.file.now table.old queries.old table.new queries.new result }
{
    let mut work = Work {
        cand: [0; FORMS],
        keys: [0; ROOM],
        owners: [0; ROOM],
    };
    let n = list_nodes(policy, &mut work)?;
    let forms = Forms {
        policy,
        cand: &work.cand,
        keys: &work.keys,
        owners: &work.owners,
        n,
    };
    columns::fill_columns(forms, table);
    fill_hypotheses(policy, &work.cand, table);
    let asked = fill_queries(policy, &work.cand, queries);
    Ok(Listed {
        formulas: n,
        queries: asked,
    })
}
