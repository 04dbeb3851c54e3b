// Which line of a file says a formula as a fact: the formula is told by the node of its base and its put places.
#![tactic(auto)]

ghost use Rattle.std.specs.Prelude.{◌≡◌, ◌<◌};
ghost use Rattle.infon.specs.Formula.{Formula};
ghost use Rattle.infon.specs.Policy.{entries_of};
ghost use Rattle.nodes.specs.Nodes.{nodes_of};
ghost use Rattle.prefix.specs.Told.{ToldBy};
ghost use Rattle.facts.specs.Facts.{fact_line, Askable};
ghost use Rattle.facts.specs.OneLine.{base_of, fact_at, LineAsked};

use columns::is_base;
use nodes::{Column, Held, Policy, cell_at, kind_at};

// The base behind the quotations that node r begins with. (A range up to it has no end that is reached.)
fn base_of(policy: Policy, r: usize) -> usize
    requires { r < policy.count }
    ensures { result ≡ base_of (nodes_of policy.entry.file.now) r }
{
    let mut i = r;
    while !is_base(kind_at(policy.nodes, i)) {
        i += 1;
    }
    i
}

// Whether the line whose formula begins at node r says the formula as a fact.
fn is_fact(policy: Policy, r: usize, b: usize, puts: usize) -> bool
    requires { LineAsked policy.file.now policy.nodes.now r b puts }
    ensures { (x : Formula) → ToldBy policy.entry.file.now policy.entry.nodes.now b puts x → result ≡ fact_at policy.entry.file.now r x }
{
    let line = cell_at(policy.nodes, Column::Line, r);
    if policy.file[line] != b'H' {
        return false;
    }
    let i = base_of(policy, r);
    let held = Held {
        file: policy.file,
        nodes: policy.nodes,
    };
    if !twins::are_twins(held, i, b) {
        return false;
    }
    prefix::puts(prefix::prefix_of(policy.nodes, i)) == puts
}

// The first line that says the formula as a fact, counted from 1; one more than there are lines where none does (the definition
// `fact_line`).
pub fn fact_line(policy: Policy, b: usize, puts: usize) -> usize
    requires { Askable policy.file.now policy.nodes.now policy.count b puts }
    ensures { (x : Formula) → ToldBy policy.entry.file.now policy.entry.nodes.now b puts x → result ≡ fact_line x (entries_of policy.entry.file.now) }
{
    let mut line = 1;
    // The next line's node is behind the last of this line's: a walk by a column, and no range.
    let mut r = 0;
    while r < policy.count {
        if is_fact(policy, r, b, puts) {
            return line;
        }
        r = cell_at(policy.nodes, Column::End, r);
        line += 1;
    }
    line
}
