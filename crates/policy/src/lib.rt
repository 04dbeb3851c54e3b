// Codes 1 to 4 and the table of nodes: the first three over the bytes of the file, the fourth over the table.
#![tactic(auto)]

mod filling;
mod table;

ghost use Rattle.std.specs.Prelude.{◌≡◌, ◌≤◌, length};
ghost use Rattle.infon.specs.Codes.{passed, tried};
ghost use Rattle.infon.specs.Policy.{most_bytes, entries_of, code2, code3};
ghost use Rattle.policy.specs.Codes.{first_codes};
ghost use Rattle.policy.specs.Filling.{NodesFilled};
ghost use Rattle.policy.specs.Tables.{NodesTabled, IsCode4};

use filling::{fill_above, fill_ends, fill_spots};
use infon::Refusal;
use lines::first_malformed;
use nodes::{Column, Nodes, cell_at};
use walk::too_many;

const MOST_BYTES: usize = 32768;

const MOST_DEPTH: usize = 4;

// Codes 1, 2 and 3, in this order, each over the whole file.
pub fn check(file: &[u8]) -> Result<(), Refusal>
    ensures { result ≡ tried (first_codes file.now) }
{
    if MOST_BYTES < file.len() {
        return Err(Refusal { code: 1, place: 0 });
    }
    first_malformed(file)?;
    too_many(file)
}

// The table of the nodes of a file that passed codes 1 to 3. The count of nodes comes back. (What the codes said stands in clauses, and
// the count beside the table, until it holds the nodes: then they are a `Policy`.)
pub fn fill(file: &[u8], nodes: &mut Nodes) -> usize
    requires well_formed { code2 file.now ≡ passed }
    requires few { code3 (entries_of file.now) ≡ passed }
    requires short { length file.now ≤ most_bytes }
    ensures { NodesFilled file.now result nodes.old nodes.new }
{
    let count = fill_spots(file, nodes);
    fill_ends(nodes, count);
    fill_above(nodes, count);
    count
}

// Code 4 over the filled table: a formula's quotation depth is over 4. Its place is the start of the first such line.
pub fn deep(nodes: &Nodes, count: usize) -> Result<(), Refusal>
    requires { NodesTabled nodes.now count }
    ensures { IsCode4 nodes.now count result }
{
    for i in 0..count {
        if MOST_DEPTH < cell_at(nodes, Column::Depth, i) {
            return Err(Refusal {
                code: 4,
                place: cell_at(nodes, Column::Line, i),
            });
        }
    }
    Ok(())
}
