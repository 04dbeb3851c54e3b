// The node table of a policy file: what its columns mean stands in specs/, the laws of that in proofs/. Here are the names that
// those who fill the table and those who read it share, and the two ways to a cell.
#![tactic(auto)]

ghost use Rattle.std.specs.Prelude.{◌≡◌, ◌<◌};
ghost use Rattle.nodes.specs.Nodes.{node_rows, node_kind, node_cell, with_node_cell, count_nodes, nodes_of, NodesHeld};
ghost use Rattle.nodes.specs.Columns.{column_number, kind_by};

// How many rows each column has, and how many cells all columns have.
pub const ROWS: usize = 1024;

pub const CELLS: usize = 7168;

// One row of numbers and no row of structs: the definition `Noded` speaks of its cells.
pub type Nodes = [u16; CELLS];

// The columns: a node's kind, its first byte, how many bytes are its own, the number behind its last node, the nearest quotation
// above it, the start of its line, and how many quotations are above it.
#[derive(Clone, Copy, PartialEq, Eq)]
pub enum Column {
    Kind,
    Place,
    Own,
    End,
    Above,
    Line,
    Depth,
}

// The kinds: first the bases, the two operators last among them, and behind them the quotations.
#[derive(Clone, Copy, PartialEq, Eq)]
pub enum Kind {
    True,
    Name,
    And,
    Implies,
    Said,
    Put,
}

// Stands for no quotation above: a cell of the table, by its definition `none_above`.
pub const NONE_ABOVE: usize = 0xFFFF;

// A cell of the table. (That the row is one is asked in a clause, here and above: its number is what another cell holds, or counts.)
pub fn cell_at(nodes: &Nodes, column: Column, i: usize) -> usize
    requires { i < node_rows }
    ensures { result ≡ node_cell nodes.now (column_number column) i }
{
    grid::cell_at::<ROWS>(nodes, column as usize, i)
}

// Writes one cell.
pub fn set_cell(nodes: &mut Nodes, column: Column, i: usize, value: usize)
    requires inside { i < node_rows }
    requires fits { value < 65536 }
    ensures { nodes.new ≡ with_node_cell nodes.old (column_number column) i value }
{
    grid::set_cell::<ROWS>(nodes, column as usize, i, value)
}

// A node's kind. (By match: no derive makes an enum of a number.)
pub fn kind_at(nodes: &Nodes, i: usize) -> Kind
    requires { i < node_rows }
    ensures { result ≡ kind_by (node_cell nodes.now node_kind i) }
{
    match cell_at(nodes, Column::Kind, i) {
        0 => Kind::True,
        1 => Kind::Name,
        2 => Kind::And,
        3 => Kind::Implies,
        4 => Kind::Said,
        _ => Kind::Put,
    }
}

// A policy file with the table of all its nodes.
#[derive(Clone, Copy)]
pub struct Policy<'a> {
    pub file: &'a [u8],
    pub nodes: &'a Nodes,
    pub count: usize,
    ghost held: { NodesHeld file.now nodes.now },
    ghost all: { count ≡ count_nodes (nodes_of file.now) },
}

// A policy file with the table that holds its nodes; who needs to know how many there are as well takes a `Policy`.
#[derive(Clone, Copy)]
pub struct Held<'a> {
    pub file: &'a [u8],
    pub nodes: &'a Nodes,
    ghost held: { NodesHeld file.now nodes.now },
}
