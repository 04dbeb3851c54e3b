// Formulas in words, from the file and its node table: what is still to be written waits in a row, what comes next at its front.
#![tactic(auto)]

ghost use Rattle.std.specs.Prelude.{◌≡◌, ◌++◌, ◌-◌, ◌*◌, ◌≤◌, ◌<◌, ◌+◌, List, [], ◌∷◌, length, drop, MatchOption};
ghost use Rattle.infon.specs.Formula.{Formula, nodes as nodes_in};
ghost use Rattle.nodes.specs.Nodes.{node_at, count_nodes, nodes_of, kind_of};
ghost use Rattle.nodes.specs.Columns.{kind_by};
ghost use Rattle.prefix.specs.Places.{Sized, used, EachPlace};
ghost use Rattle.prefix.specs.Told.{ToldBy};
ghost use Rattle.twins.specs.Twins.{principal_text, Quoting};
ghost use Rattle.writing.specs.Placed.{PutSome};
ghost use Rattle.wording.specs.declared.Item.{Item};
ghost use Rattle.wording.specs.declared.Item.TheVariants.{Formula as formula_item, Word as word_item};
ghost use Rattle.wording.specs.Words.{in_words, said_word};
ghost use Rattle.wording.specs.Waiting.{between_word, needs_brackets, IsThere, item_text, item_weight, own_words, part_items, waiting_room, Ready, Writes};
ghost use Rattle.wording.specs.Prefixed.{place_words, around_by, Tellable};

use nodes::{Column, Held, Kind, cell_at, kind_at};
use prefix::Prefix;
use std::marker::Model;

// Where a formula gets brackets: nowhere, where it is a rule, or where it has parts.
#[derive(Clone, Copy, PartialEq, Eq)]
pub enum Brackets {
    Never,
    AroundRules,
    AroundParts,
}

// What stands between formulas, and the bracket that closes.
#[derive(Clone, Copy, PartialEq, Eq)]
pub enum Word {
    And,
    Then,
    Close,
}

// What waits: a formula, by its brackets and its node's number, or a word. (The number in two bytes, as in a cell, since a long row of
// items stands on the stack.)
#[derive(Clone, Copy, PartialEq, Eq)]
pub enum Item {
    Formula(Brackets, u16),
    Word(Word),
}

// Room for all that a formula of 1,024 nodes can have waiting.
const ROOM: usize = 3072;

// The items that wait, the next one first: they stand behind the free places. (A row of fixed length, since nothing is allocated.)
#[derive(Drop)]
struct Waiting {
    items: [Item; ROOM],
    free: usize,
}

impl Model for Waiting {
    ghost Value = { List Item };

    ghost view = { λ w. drop w.free w.items };

    ghost invariant = { λ w. w.free ≤ 3072 };
}

impl Waiting {
    // One more item waits, before the others.
    fn push(&mut self, item: Item)
        requires { length self.old < waiting_room }
        ensures { self.new ≡ item ∷ self.old }
    {
        self.free -= 1;
        self.items[self.free] = item;
    }

    // The next item, which waits no more.
    fn pop(&mut self) -> Option<Item>
        ensures { MatchOption result (self.old ≡ []) (λ item. self.old ≡ item ∷ self.new) }
    {
        if self.free == ROOM {
            return None;
        }
        let item = self.items[self.free];
        self.free += 1;
        Some(item)
    }
}

// Puts a word that stands between formulas.
#[tactic(auto, unfolding(crate::specs::Waiting::between_word, infon::specs::Bytes::bytes))]
fn put_between(word: Word, out: &mut [u8], at: usize) -> usize
    requires { at ≤ length out.old }
    ensures { PutSome (between_word word) at out.old result out.new }
{
    match word {
        Word::And => writing::put_some(b" and ", out, at),
        Word::Then => writing::put_some(b" then ", out, at),
        Word::Close => writing::put_some(b")", out, at),
    }
}

// Whether a formula of a kind gets brackets where it waits so.
fn needs_brackets(around: Brackets, kind: Kind) -> bool
    ensures { (x : Formula) → kind ≡ kind_by (kind_of x) → result ≡ needs_brackets around x }
{
    match around {
        Brackets::Never => false,
        Brackets::AroundRules => kind == Kind::Implies,
        Brackets::AroundParts => kind == Kind::And || kind == Kind::Implies,
    }
}

// Puts the principal of a quotation node and the word for its kind.
fn put_quotation(held: Held, i: usize, spoken: bool, out: &mut [u8], at: usize) -> usize
    requires { Quoting held.file.now held.nodes.now i × (at ≤ length out.old) }
    ensures { PutSome (principal_text held.entry.file.now held.entry.nodes.now i ++ said_word spoken) at out.old result out.new }
{
    let principal = twins::principal_of(held.file, held.nodes, i);
    let behind = writing::put_some(principal, out, at);
    if spoken {
        writing::put_some(b" said ", out, behind)
    } else {
        writing::put_some(b" put ", out, behind)
    }
}

// Puts what node i begins with.
fn put_own(held: Held, i: usize, out: &mut [u8], at: usize) -> usize
    requires { (i < count_nodes (nodes_of held.file.now)) × (at ≤ length out.old) }
    ensures { PutSome (own_words (node_at (nodes_of held.entry.file.now) i).what) at out.old result out.new }
{
    match kind_at(held.nodes, i) {
        Kind::True => writing::put_some(b"what is true", out, at),
        Kind::Name => writing::put_some(twins::text_of(held, i), out, at),
        Kind::And => at,
        Kind::Implies => writing::put_some(b"if ", out, at),
        Kind::Said => put_quotation(held, i, true, out, at),
        Kind::Put => put_quotation(held, i, false, out, at),
    }
}

// Two formulas wait with a word between them, the first one to be written first.
fn wait_two(waiting: &mut Waiting, first: Item, word: Word, second: Item)
    requires { length waiting.old + 2 < waiting_room }
    ensures { waiting.new ≡ first ∷ (word_item word ∷ (second ∷ waiting.old)) }
{
    waiting.push(second);
    waiting.push(Item::Word(word));
    waiting.push(first);
}

// The parts of node i wait, those of a conjunction or of a rule with the word between them.
fn wait_parts(held: Held, i: usize, waiting: &mut Waiting)
    requires { (i < count_nodes (nodes_of held.file.now)) × (length (part_items i (node_at (nodes_of held.file.now) i).what) + length waiting.old ≤ waiting_room) }
    ensures { waiting.new ≡ part_items i (node_at (nodes_of held.entry.file.now) i).what ++ waiting.old }
{
    let first = (i + 1) as u16;
    match kind_at(held.nodes, i) {
        Kind::True | Kind::Name => {}
        Kind::And => {
            let second = cell_at(held.nodes, Column::End, usize::from(first)) as u16;
            wait_two(
                waiting,
                Item::Formula(Brackets::AroundParts, first),
                Word::And,
                Item::Formula(Brackets::AroundRules, second),
            );
        }
        Kind::Implies => {
            let second = cell_at(held.nodes, Column::End, usize::from(first)) as u16;
            wait_two(
                waiting,
                Item::Formula(Brackets::AroundRules, first),
                Word::Then,
                Item::Formula(Brackets::Never, second),
            );
        }
        Kind::Said | Kind::Put => waiting.push(Item::Formula(Brackets::AroundParts, first)),
    }
}

// Writes what node i begins with, and has its parts wait.
fn write_node(held: Held, i: usize, waiting: &mut Waiting, out: &mut [u8], at: usize) -> usize
    requires { (i < count_nodes (nodes_of held.file.now)) × Ready held.file.now (3 * nodes_in (node_at (nodes_of held.file.now) i).what - 1) waiting.old out.old at }
    ensures { Writes held.entry.file.now (in_words (node_at (nodes_of held.entry.file.now) i).what)
        (3 * nodes_in (node_at (nodes_of held.entry.file.now) i).what - 1) waiting.old out.old at waiting.new out.new result }
{
    let behind = put_own(held, i, out, at);
    wait_parts(held, i, waiting);
    behind
}

// Writes an item: a word, or a formula in its brackets as far as it begins.
fn write_item(held: Held, item: Item, waiting: &mut Waiting, out: &mut [u8], at: usize) -> usize
    requires there { IsThere (nodes_of held.file.now) item }
    requires ready { Ready held.file.now (item_weight (nodes_of held.file.now) item) waiting.old out.old at }
    ensures { Writes held.entry.file.now (item_text (nodes_of held.entry.file.now) item)
        (item_weight (nodes_of held.entry.file.now) item) waiting.old out.old at waiting.new out.new result }
{
    match item {
        Item::Word(word) => put_between(word, out, at),
        Item::Formula(around, node) => {
            let node = usize::from(node);
            if !needs_brackets(around, kind_at(held.nodes, node)) {
                return write_node(held, node, waiting, out, at);
            }
            let inside = writing::put_some(b"(", out, at);
            waiting.push(Item::Word(Word::Close));
            write_node(held, node, waiting, out, inside)
        }
    }
}

// Puts a node's formula in words, in brackets where it gets them.
pub fn put_words(held: Held, around: Brackets, node: usize, out: &mut [u8], at: usize) -> usize
    requires { (node < count_nodes (nodes_of held.file.now)) × (at ≤ length out.old) }
    ensures { PutSome (item_text (nodes_of held.entry.file.now) (formula_item around node)) at out.old result out.new }
{
    // What stands at a free place is never read; a row of zeros is filled soonest.
    let mut waiting = Waiting {
        items: [Item::Formula(Brackets::Never, 0); ROOM],
        free: ROOM,
    };
    waiting.push(Item::Formula(around, node as u16));
    let mut end = at;
    while let Some(next) = waiting.pop() {
        end = write_item(held, next, &mut waiting, out, end);
    }
    end
}

// Puts the words of a prefix, the outermost quotation first, said or put as the bits have it, the lowest for the outermost.
fn put_prefix(held: Held, p: Prefix, puts: usize, out: &mut [u8], at: usize) -> usize
    requires { Sized p × EachPlace (Quoting held.file.now held.nodes.now) (used p) × (at ≤ length out.old) }
    ensures { PutSome (place_words held.entry.file.now held.entry.nodes.now (used p) puts) at out.old result out.new }
{
    let mut bits = puts;
    let mut end = at;
    for k in (0..p.count).rev() {
        end = put_quotation(held, p.places[k].node, bits % 2 == 0, out, end);
        bits /= 2;
    }
    end
}

// Brackets are needed behind a quotation.
#[tactic(auto, unfolding(crate::specs::Prefixed::around_by))]
fn around(quotations: usize) -> Brackets
    ensures { result ≡ around_by quotations }
{
    if quotations == 0 {
        Brackets::Never
    } else {
        Brackets::AroundParts
    }
}

// Puts the formula that a node and put places tell, in words.
pub fn put_formula(held: Held, b: usize, puts: usize, out: &mut [u8], at: usize) -> usize
    requires { Tellable held.file.now held.nodes.now b puts out.old at }
    ensures { (x : Formula) → ToldBy held.entry.file.now held.entry.nodes.now b puts x → PutSome (in_words x) at out.old result out.new }
{
    let p = prefix::prefix_of(held.nodes, b);
    let behind = put_prefix(held, p, puts, out, at);
    put_words(held, around(p.count), b, out, behind)
}
