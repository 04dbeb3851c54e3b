// What comes of a policy file alone: the codes about it, in their order, and where none applies its nodes, its list and its queries.
#![tactic(auto)]

ghost use Rattle.std.specs.Prelude.{◌≤◌, length};
ghost use Rattle.nodes.specs.Nodes.{node_rows};
ghost use Rattle.accept.specs.Accepted.{Accepts};

use formulas::Table;
use infon::Refusal;
use nodes::{Nodes, Policy};

// How many nodes, formulas and queries an accepted file has.
#[derive(Clone, Copy)]
pub struct Accepted {
    pub nodes: usize,
    pub formulas: usize,
    pub queries: usize,
}

// Codes 1 to 5, in this order. An accepted file's nodes go to their table, its list to the formula table, and its queries' numbers
// to their row.
pub fn accept(
    file: &[u8],
    nodes: &mut Nodes,
    table: &mut Table,
    queries: &mut [u16],
) -> Result<Accepted, Refusal>
    requires { node_rows ≤ length queries.old }
    ensures { Accepts file.now nodes.old table.old queries.old result nodes.new table.new queries.new }
{
    policy::check(file)?;
    let count = policy::fill(file, nodes);
    policy::deep(nodes, count)?;
    let policy = Policy { file, nodes, count };
    let listed = listing::list(policy, table, queries)?;
    Ok(Accepted {
        nodes: count,
        formulas: listed.formulas,
        queries: listed.queries,
    })
}
