// The row of quotations above a base, by value: a prefix. Its places go from the innermost to the outermost, each with its kind and
// its principal, the principal by the number of its quotation node.
#![tactic(auto)]

ghost use Rattle.std.specs.Prelude.{◌≡◌, ◌<◌};
ghost use Rattle.prefix.specs.Places.{Sized, used, prefix_at, Readable, branches, weaker_count_of, lowered, later_bits, weaker_at, put_weight, puts_of};

use nodes::{Column, Kind, Nodes, cell_at, kind_at};

// "A prefix is at most four places", as 01 has it.
pub const PLACES: usize = 4;

// One place: its kind, and the number of its quotation node.
#[derive(Clone, Copy)]
pub struct Place {
    pub said: bool,
    pub node: usize,
}

// So many places as count says are in use. (`Sized` is asked and not a ghost field: `prefix_at` and `weaker_at` of specs/, whose
// meaning stays, are values of this type for any table and number.)
#[derive(Clone, Copy)]
pub struct Prefix {
    pub places: [Place; PLACES],
    pub count: usize,
}

// The prefix of node i: up from the nearest quotation above it, as many as stand above it.
pub fn prefix_of(nodes: &Nodes, i: usize) -> Prefix
    requires { Readable nodes.now i }
    ensures { result ≡ prefix_at nodes.now i }
{
    let blank = Place {
        said: false,
        node: 0,
    };
    let mut places = [blank; PLACES];
    let count = cell_at(nodes, Column::Depth, i);
    let mut above = cell_at(nodes, Column::Above, i);
    for k in 0..count {
        let said = kind_at(nodes, above) == Kind::Said;
        places[k] = Place { said, node: above };
        above = cell_at(nodes, Column::Above, above);
    }
    Prefix { places, count }
}

// A said place doubles the number of weaker prefixes.
#[tactic(auto, unfolding(crate::specs::Places::branches))]
fn branched(said: bool, n: usize) -> usize
    requires { n < 1024 }
    ensures { result ≡ branches said n }
{
    if said { 2 * n } else { n }
}

// How many weaker prefixes there are, the prefix itself among them.
pub fn weaker_count(p: Prefix) -> usize
    requires { Sized p }
    ensures { result ≡ weaker_count_of (used p) }
{
    let mut n = 1;
    for k in (0..p.count).rev() {
        n = branched(p.places[k].said, n);
    }
    n
}

// A place as a weaker prefix has it: a said place is put where the lowest bit says so.
#[tactic(auto, unfolding(crate::specs::Places::lowered))]
fn lower(place: Place, m: usize) -> Place
    ensures { result ≡ lowered m place }
{
    let said = place.said && m % 2 == 0;
    Place { said, ..place }
}

// The bits left for the places further out: a said place has taken one.
#[tactic(auto, unfolding(crate::specs::Places::later_bits))]
fn bits_left(said: bool, m: usize) -> usize
    ensures { result ≡ later_bits said m }
{
    if said { m / 2 } else { m }
}

// Weaker prefix number m, in the order of the list: said before put, the outermost place weighing most.
pub fn weaker(p: Prefix, m: usize) -> Prefix
    requires { Sized p }
    ensures { result ≡ weaker_at p m }
{
    let mut places = p.places;
    let mut left = m;
    for k in 0..p.count {
        let place = places[k];
        places[k] = lower(place, left);
        left = bits_left(place.said, left);
    }
    Prefix { places, ..p }
}

// What a place weighs among the put places: nothing where it is said.
#[tactic(auto, unfolding(crate::specs::Places::put_weight))]
fn put_weight(said: bool, weight: usize) -> usize
    ensures { result ≡ put_weight said weight }
{
    if said { 0 } else { weight }
}

// The put places of a prefix, a bit each, the outermost place lowest.
pub fn puts(p: Prefix) -> usize
    requires { Sized p }
    ensures { result ≡ puts_of (used p) }
{
    let mut sum = 0;
    let mut weight = 1;
    for k in (0..p.count).rev() {
        sum += put_weight(p.places[k].said, weight);
        weight *= 2;
    }
    sum
}
