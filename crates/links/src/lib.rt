// The chains along which a way is looked for: formulas that have the same left part, the same right part, or the same form with
// put at every place.
#![tactic(auto)]

ghost use Rattle.std.specs.Prelude.{◌≡◌, ◌<◌, ◌≤◌, suc, length, get_or};
ghost use Rattle.formulas.specs.Table.{cell};
ghost use Rattle.formulas.specs.Columns.{column_number};
ghost use Rattle.links.specs.Chains.{link_cells, chain_column, chain_start, shared_at, none_first, link_place, chain_in, linked_in, place_below, FoundFrom, Searchable};

use formulas::{Column, Formulas, NO_NUMBER};

// How many cells a column's chains have: as many first places, by number, and next places, by place.
const CHAIN: usize = 2 * formulas::ROWS;

// How far behind a column's first places its next places are.
pub const NEXTS: usize = formulas::ROWS;

// How many cells the links have.
pub const CELLS: usize = 24576;

// What the formulas of a chain share: the left part, the right part, or the form with put at every place.
#[derive(Clone, Copy, PartialEq, Eq)]
pub enum Chain {
    Left,
    Right,
    Bottom,
}

impl Chain {
    // The column that has the number of what is shared.
    fn column(self) -> Column
        ensures { column_number result ≡ chain_column self }
    {
        match self {
            Chain::Left => Column::Left,
            Chain::Right => Column::Right,
            Chain::Bottom => Column::Bottom,
        }
    }

    // Where the chains begin in the links.
    fn start(self) -> usize
        ensures { result ≡ chain_start self }
    {
        self as usize * CHAIN
    }
}

// A list with its chains.
#[derive(Clone, Copy)]
pub struct Search<'a> {
    pub list: Formulas<'a>,
    pub links: &'a [u16],
    ghost ready: { Searchable list.table.now links.now list.n },
}

impl<'a> Search<'a> {
    // The place in an entry of the links, none where no listed formula has it.
    fn place(self, entry: usize) -> Option<usize>
        requires { entry < link_cells }
        ensures { result ≡ place_below self.entry.list.n (get_or self.entry.links.now entry 0) }
    {
        let place = usize::from(self.links[entry]);
        if place < self.list.n {
            Some(place)
        } else {
            None
        }
    }

    // The first formula that shares with f what a chain is for, by their numbers.
    pub fn first(self, chain: Chain, f: usize) -> Option<usize>
        requires { f < self.list.n }
        ensures { FoundFrom self.entry.list.table.now (chain_column chain) (shared_at self.entry.list.table.now chain f) self.entry.list.n 0 result }
    {
        let shared = match chain {
            Chain::Left | Chain::Right => f,
            Chain::Bottom => self.list.at(Column::Bottom, f),
        };
        self.place(chain.start() + shared)
    }

    // The next formula of a chain behind p.
    pub fn next(self, chain: Chain, p: usize) -> Option<usize>
        requires { (p < self.list.n) × (cell self.list.table.now (chain_column chain) p < self.list.n) }
        ensures { FoundFrom self.entry.list.table.now (chain_column chain) (cell self.entry.list.table.now (chain_column chain) p) self.entry.list.n (suc p) result }
    {
        self.place(chain.start() + NEXTS + p)
    }
}

// Says of each listed number that it stands nowhere yet.
fn clear_firsts(list: Formulas, links: &mut [u16], chain: Chain)
    requires { link_cells ≤ length links.old }
    ensures { links.new ≡ none_first (chain_start chain) list.entry.n links.old }
{
    let at = chain.start();
    for x in (0..list.n).rev() {
        links[at + x] = NO_NUMBER;
    }
}

// Puts a place in front of the chain of the number that stands there.
fn link_place(list: Formulas, links: &mut [u16], chain: Chain, i: usize)
    requires { (i < list.n) × (link_cells ≤ length links.old) }
    ensures { links.new ≡ link_place list.entry.table.now (chain_column chain) list.entry.n (chain_start chain) i links.old }
{
    let at = chain.start();
    let x = list.at(chain.column(), i);
    if x < list.n {
        links[at + NEXTS + i] = links[at + x];
        links[at + x] = i as u16;
    }
}

// Fills the chains of one column.
fn fill(list: Formulas, links: &mut [u16], chain: Chain)
    requires { link_cells ≤ length links.old }
    ensures { links.new ≡ chain_in list.entry.table.now (chain_column chain) list.entry.n (chain_start chain) links.old }
{
    clear_firsts(list, links, chain);
    for i in (0..list.n).rev() {
        link_place(list, links, chain, i);
    }
}

// Fills the chains of formulas with the same left part, the same right part and the same bottom.
pub fn link(list: Formulas, links: &mut [u16])
    requires { link_cells ≤ length links.old }
    ensures { links.new ≡ linked_in list.entry.table.now list.entry.n links.old }
{
    fill(list, links, Chain::Left);
    fill(list, links, Chain::Right);
    fill(list, links, Chain::Bottom);
}
