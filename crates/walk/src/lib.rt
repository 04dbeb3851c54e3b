// The way from node to node through a file whose lines are well formed, and code 3.
#![tactic(auto)]

ghost use Rattle.std.specs.Prelude.{◌≡◌, ◌<◌, length};
ghost use Rattle.infon.specs.Codes.{passed};
ghost use Rattle.infon.specs.Policy.{entries_of, code2, code3};
ghost use Rattle.walk.specs.Walking.{next_spot};

use infon::Refusal;
use spelling::own_end;

// Where a node begins, and where its line does.
#[derive(Clone, Copy)]
pub struct Spot {
    pub at: usize,
    pub line: usize,
}

// The first node stands behind its line's letter and a space.
pub const FIRST: Spot = Spot { at: 2, line: 0 };

// Behind a space comes the next node of the same line; behind a line feed the next line's letter, a space and its first node.
#[tactic(auto, unfolding(crate::specs::Walking::next_spot, infon::specs::Bytes::space))]
pub fn next_spot(file: &[u8], end: usize, line: usize) -> Spot
    requires { end < length file.now }
    ensures { result ≡ next_spot file.now end line }
{
    if file[end] == b' ' {
        Spot { at: end + 1, line }
    } else {
        Spot {
            at: end + 3,
            line: end + 1,
        }
    }
}

// Code 3: over 1,024 nodes in the file. Its place is the start of the line with node 1,025.
pub fn too_many(file: &[u8]) -> Result<(), Refusal>
    requires { code2 file.now ≡ passed }
    ensures { result ≡ code3 (entries_of file.now) }
{
    let mut spot = FIRST;
    for _ in 0..nodes::ROWS {
        let Some(node) = spelling::node_at(file, spot.at) else {
            return Ok(());
        };
        let end = own_end(node, spot.at);
        spot = next_spot(file, end, spot.line);
    }
    match spelling::node_at(file, spot.at) {
        None => Ok(()),
        Some(_) => Err(Refusal {
            code: 3,
            place: spot.line,
        }),
    }
}
