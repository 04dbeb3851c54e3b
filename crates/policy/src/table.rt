// Several cells of a row of the node table at once.
ghost use Rattle.std.specs.Prelude.{◌≡◌, ◌<◌};
ghost use Rattle.nodes.specs.Nodes.{node_rows};
ghost use Rattle.nodes.specs.Columns.{number_of};
ghost use Rattle.policy.specs.Filling.{spotted, above_put};

use nodes::{Column, Kind, NONE_ABOVE, Nodes, set_cell};
use walk::Spot;

// A node's row as far as its own bytes tell it: for the rest it is a leaf with nothing above.
#[tactic(auto, unfolding(crate::specs::Filling::spotted))]
pub fn put_spot(nodes: &mut Nodes, i: usize, kind: Kind, own: usize, spot: Spot)
    requires inside { i < node_rows }
    requires own_fits { own < 65536 }
    requires spot_fits { (spot.at < 65536) × (spot.line < 65536) }
    ensures { nodes.new ≡ spotted nodes.old i (number_of kind) spot.at own spot.line }
{
    set_cell(nodes, Column::Kind, i, kind as usize);
    set_cell(nodes, Column::Place, i, spot.at);
    set_cell(nodes, Column::Own, i, own);
    set_cell(nodes, Column::End, i, i + 1);
    set_cell(nodes, Column::Above, i, NONE_ABOVE);
    set_cell(nodes, Column::Line, i, spot.line);
    set_cell(nodes, Column::Depth, i, 0);
}

// The nearest quotation above a node, and how many there are.
#[tactic(auto, unfolding(crate::specs::Filling::above_put))]
pub fn put_above(nodes: &mut Nodes, i: usize, above: usize, depth: usize)
    requires inside { i < node_rows }
    requires above_fits { (above < 65536) × (depth < 65536) }
    ensures { nodes.new ≡ above_put nodes.old i above depth }
{
    set_cell(nodes, Column::Above, i, above);
    set_cell(nodes, Column::Depth, i, depth);
}
