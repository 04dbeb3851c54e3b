// The node table of a file that passed codes 1 to 3, filled in three ways through its nodes: from the file's bytes, then the ends
// from the last node to the first, then what stands above from the first to the last.
ghost use Rattle.std.specs.Prelude.{◌≡◌, ◌≤◌, ◌<◌, length};
ghost use Rattle.infon.specs.Codes.{passed};
ghost use Rattle.infon.specs.Policy.{most_bytes, entries_of, code2, code3};
ghost use Rattle.nodes.specs.Nodes.{node_value, node_cell, node_rows, node_depth};
ghost use Rattle.policy.specs.Filling.{first_cell, ended_cell, end_from, EndReads, handed_down, Begun, Holding, Passes};

use super::table::{put_above, put_spot};
use nodes::{Column, Kind, Nodes, ROWS, cell_at, kind_at, set_cell};
use spelling::{node_at, own_end};
use walk::{FIRST, next_spot};

// What the file's bytes tell of each node, in the order of their first bytes. The count of nodes comes back.
pub fn fill_spots(file: &[u8], nodes: &mut Nodes) -> usize
    requires well_formed { code2 file.now ≡ passed }
    requires few { code3 (entries_of file.now) ≡ passed }
    requires short { length file.now ≤ most_bytes }
    ensures { Begun file.now result nodes.old nodes.new }
{
    let mut spot = FIRST;
    for i in 0..ROWS {
        let Some(node) = node_at(file, spot.at) else {
            return i;
        };
        let end = own_end(node, spot.at);
        put_spot(nodes, i, Kind::from(node), end - spot.at, spot);
        spot = next_spot(file, end, spot.line);
    }
    ROWS
}

// The number behind a node's last node, from the ends of the nodes behind it: a leaf's is the next number, a quotation's that of
// the formula behind it, an operator's that of its right part, which begins where its left part ends.
fn end_from(nodes: &Nodes, i: usize) -> usize
    requires inside { i < node_rows }
    requires end_reads { EndReads nodes.now i }
    ensures { result ≡ end_from nodes.now i }
{
    match kind_at(nodes, i) {
        Kind::True | Kind::Name => i + 1,
        Kind::And | Kind::Implies => {
            let right = cell_at(nodes, Column::End, i + 1);
            cell_at(nodes, Column::End, right)
        }
        Kind::Said | Kind::Put => cell_at(nodes, Column::End, i + 1),
    }
}

// The ends, from the last node to the first.
pub fn fill_ends(nodes: &mut Nodes, count: usize)
    requires { Holding first_cell nodes.old count }
    ensures { Passes first_cell ended_cell count nodes.old nodes.new }
{
    for i in (0..count).rev() {
        let end = end_from(nodes, i);
        set_cell(nodes, Column::End, i, end);
    }
}

// What stands above a node's kids: the node itself above what it quotes, and what stands above it above its parts.
fn hand_down(nodes: &mut Nodes, i: usize)
    requires inside { i < node_rows }
    requires end_reads { EndReads nodes.old i }
    requires depth_fits { node_cell nodes.old node_depth i < node_rows }
    ensures { nodes.new ≡ handed_down nodes.old i }
{
    match kind_at(nodes, i) {
        Kind::True | Kind::Name => {}
        Kind::And | Kind::Implies => {
            let above = cell_at(nodes, Column::Above, i);
            let depth = cell_at(nodes, Column::Depth, i);
            let right = cell_at(nodes, Column::End, i + 1);
            put_above(nodes, i + 1, above, depth);
            put_above(nodes, right, above, depth);
        }
        Kind::Said | Kind::Put => {
            let depth = cell_at(nodes, Column::Depth, i);
            put_above(nodes, i + 1, i, depth + 1);
        }
    }
}

// What stands above each node, from the first to the last.
pub fn fill_above(nodes: &mut Nodes, count: usize)
    requires { Holding ended_cell nodes.old count }
    ensures { Passes ended_cell node_value count nodes.old nodes.new }
{
    for i in 0..count {
        hand_down(nodes, i);
    }
}
