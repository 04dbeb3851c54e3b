// A table in columns, one behind the other, of ROWS numbers of two bytes each: reading a cell and writing one.
#![tactic(auto)]

ghost use Rattle.std.specs.Prelude.{◌≡◌, ◌+◌, ◌*◌, ◌<◌, length, get_or, set};

// A cell of the table.
pub fn cell_at<const ROWS: usize>(cells: &[u16], column: usize, i: usize) -> usize
    requires { column * ROWS + i < length cells.now }
    ensures { result ≡ get_or cells.now (column * ROWS + i) 0 }
{
    usize::from(cells[column * ROWS + i])
}

// Writes one cell. (By `as`, here and where else a number becomes a cell: the contract has that it fits, and `try_from` would have an
// error to deal with.)
pub fn set_cell<const ROWS: usize>(cells: &mut [u16], column: usize, i: usize, value: usize)
    requires inside { column * ROWS + i < length cells.old }
    requires fits { value < 65536 }
    ensures { cells.new ≡ set cells.old (column * ROWS + i) value }
{
    cells[column * ROWS + i] = value as u16;
}
