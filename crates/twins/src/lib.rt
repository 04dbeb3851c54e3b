// Which nodes of a file are twins: the same formula begins there, under the same principals. The bytes of the file are compared
// here and nowhere else on the way to the list.
#![tactic(auto)]

ghost use Rattle.std.specs.Prelude.{◌≡◌, ◌<◌, find};
ghost use Rattle.std.specs.List.{range_with_len};
ghost use Rattle.infon.specs.Bytes.{alike};
ghost use Rattle.infon.specs.Formula.{spelling};
ghost use Rattle.nodes.specs.Nodes.{node_at, count_nodes, nodes_of};
ghost use Rattle.prefix.specs.Places.{Sized, used, EachPlace};
ghost use Rattle.twins.specs.Twins.{are_twins, twin_of, principal_text, same_places, Quoting};

use nodes::{Column, Held, Nodes, Policy, cell_at};
use prefix::Prefix;

// The formula that begins at node i, as the part of the file it stands on.
pub fn text_of<'a>(held: Held<'a>, i: usize) -> &'a [u8]
    requires { i < count_nodes (nodes_of held.file.now) }
    ensures { result.now ≡ spelling (node_at (nodes_of held.entry.file.now) i).what }
{
    let last = cell_at(held.nodes, Column::End, i) - 1;
    let start = cell_at(held.nodes, Column::Place, i);
    let end = cell_at(held.nodes, Column::Place, last) + cell_at(held.nodes, Column::Own, last);
    let file = held.file;
    &file[start..end]
}

// The principal of a quotation node: the token behind its letter and a space. (`Quoting` is of the node and not of the file, so it is a
// clause.)
pub fn principal_of<'a>(file: &'a [u8], nodes: &Nodes, a: usize) -> &'a [u8]
    requires { Quoting file.now nodes.now a }
    ensures { result.now ≡ principal_text file.now nodes.now a }
{
    let start = cell_at(nodes, Column::Place, a) + 2;
    spelling::word(file, start)
}

// Whether two quotation nodes have the same principal.
fn same_principal(held: Held, a: usize, b: usize) -> bool
    requires { Quoting held.file.now held.nodes.now a × Quoting held.file.now held.nodes.now b }
    ensures { result ≡ alike (principal_text held.entry.file.now held.entry.nodes.now a) (principal_text held.entry.file.now held.entry.nodes.now b) }
{
    let mine = principal_of(held.file, held.nodes, a);
    let other = principal_of(held.file, held.nodes, b);
    spelling::are_alike(mine, other)
}

// Whether two prefixes of one length have the same principals, place by place.
fn same_principals(held: Held, p: Prefix, q: Prefix) -> bool
    requires sized { Sized p × Sized q }
    requires alike_long { p.count ≡ q.count }
    requires mine { EachPlace (Quoting held.file.now held.nodes.now) (used p) }
    requires others { EachPlace (Quoting held.file.now held.nodes.now) (used q) }
    ensures { result ≡ same_places held.entry.file.now held.entry.nodes.now (used p) (used q) }
{
    for k in 0..p.count {
        if !same_principal(held, p.places[k].node, q.places[k].node) {
            return false;
        }
    }
    true
}

// Whether nodes i and j are twins. What is cheap to compare comes first.
pub fn are_twins(held: Held, i: usize, j: usize) -> bool
    requires { (i < count_nodes (nodes_of held.file.now)) × (j < count_nodes (nodes_of held.file.now)) }
    ensures { result ≡ are_twins (node_at (nodes_of held.entry.file.now) i) (node_at (nodes_of held.entry.file.now) j) }
{
    if cell_at(held.nodes, Column::Depth, i) != cell_at(held.nodes, Column::Depth, j) {
        return false;
    }
    let mine = text_of(held, i);
    let other = text_of(held, j);
    if !spelling::are_alike(mine, other) {
        return false;
    }
    let p = prefix::prefix_of(held.nodes, i);
    let q = prefix::prefix_of(held.nodes, j);
    same_principals(held, p, q)
}

// The first node before node i that is its twin.
fn earlier_twin(policy: Policy, i: usize) -> Option<usize>
    requires { i < policy.count }
    ensures { result ≡ find (λ j. are_twins (node_at (nodes_of policy.entry.file.now) i) (node_at (nodes_of policy.entry.file.now) j)) (range_with_len 0 i) }
{
    let held = Held {
        file: policy.file,
        nodes: policy.nodes,
    };
    (0..i).find(|&j| are_twins(held, i, j))
}

// The first node that node i is a twin of, i itself where no earlier one is.
pub fn first_twin(policy: Policy, i: usize) -> usize
    requires { i < policy.count }
    ensures { result ≡ twin_of (nodes_of policy.entry.file.now) i }
{
    earlier_twin(policy, i).unwrap_or(i)
}
