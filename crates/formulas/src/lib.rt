// The formula table of a policy file: what its columns mean stands in specs/, the laws of that in proofs/. Here are the names that
// those who fill the table and those who read it share, and the two ways to a cell.
#![tactic(auto)]

ghost use Rattle.std.specs.Prelude.{◌≡◌, ◌<◌, ◌≤◌, length};
ghost use Rattle.formulas.specs.Table.{table_rows, table_cells, cell, with_cell};
ghost use Rattle.formulas.specs.Columns.{column_number};

// How many columns the table has, how many rows each has, and how many cells there are in all.
pub const COLUMNS: usize = 7;

pub const ROWS: usize = 4096;

pub const CELLS: usize = 28672;

// One row of numbers and no row of structs: the definition `Tabled` speaks of its cells.
pub type Table = [u16; CELLS];

// The columns: a formula's kind, its put places, the numbers of its left part, of its right part and of its form with put at every
// place, whether it is a hypothesis, and the node of its base.
#[derive(Clone, Copy, PartialEq, Eq)]
pub enum Column {
    Kind,
    Puts,
    Left,
    Right,
    Bottom,
    Hypothesis,
    Base,
}

// The kinds that the rules ask for are a prefix over `T`, over `+` and over `>`; a name is none of them. (What stands in a cell
// is compared as the number that it is by the definition `shape_kind`, and 1 for a hypothesis by `flag`.)
#[derive(Clone, Copy, PartialEq, Eq)]
pub enum Kind {
    Truth,
    Primitive,
    Conjunction,
    Implication,
}

// Stands for a part, or a place on a chain, that is not there: a cell of a table, by its definition `no_number`.
pub const NO_NUMBER: u16 = 0xFFFF;

// A cell of the table. (This and the next go through `grid`, as the two of `nodes` do: what differs is the names of the columns.)
pub fn cell_at(table: &[u16], column: Column, i: usize) -> usize
    requires { (table_cells ≤ length table.now) × (i < table_rows) }
    ensures { result ≡ cell table.now (column_number column) i }
{
    grid::cell_at::<ROWS>(table, column as usize, i)
}

// Writes one cell.
pub fn set_cell(table: &mut [u16], column: Column, i: usize, value: usize)
    requires inside { (table_cells ≤ length table.old) × (i < table_rows) }
    requires fits { value < 65536 }
    ensures { table.new ≡ with_cell table.old (column_number column) i value }
{
    grid::set_cell::<ROWS>(table, column as usize, i, value)
}

// The table of a list of n formulas.
#[derive(Clone, Copy)]
pub struct Formulas<'a> {
    pub table: &'a [u16],
    pub n: usize,
    ghost few: { n ≤ table_rows },
    ghost long: { table_cells ≤ length table.now },
}

impl<'a> Formulas<'a> {
    // What a column has at a formula.
    pub fn at(&self, column: Column, i: usize) -> usize
        requires { i < table_rows }
        ensures { result ≡ cell self.now.table.now (column_number column) i }
    {
        let table = self.table;
        cell_at(table, column, i)
    }
}
