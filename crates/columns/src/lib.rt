// The columns of the formula table that come from the list alone, one after the other. Form number m of node b stands at
// b * STRIDE + m.
#![tactic(auto)]

ghost use Rattle.std.specs.Prelude.{◌≡◌, ◌<◌, ◌≤◌, length, ltb};
ghost use Rattle.nodes.specs.Columns.{number_of};
ghost use Rattle.formulas.specs.Columns.{column_number};
ghost use Rattle.formulas.specs.Table.{table_cells};
ghost use Rattle.columns.specs.Columns.{base_column, inward_kind, form_number, kind_column, put_column, left_column, right_column, bottom_column, column_of, with_column, filled, IsForm, Owners};

use formulas::{Column, NO_NUMBER};
use nodes::{Kind, Policy, cell_at, kind_at};

// How many forms a node has at most: two to the number of places.
pub const STRIDE: usize = 16;

// The forms of 1,024 nodes.
pub const FORMS: usize = nodes::ROWS * STRIDE;

// Room for a list that the last base takes over the limit.
pub const ROOM: usize = formulas::ROWS + STRIDE;

// The columns in the order of their numbers.
const ALL: [Column; formulas::COLUMNS] = [
    Column::Kind,
    Column::Puts,
    Column::Left,
    Column::Right,
    Column::Bottom,
    Column::Hypothesis,
    Column::Base,
];

// A list of n formulas by the forms of a policy's nodes: `cand` has the number of every form of a base, `owners` the form as which
// a formula was first listed, and `keys` that form's key.
#[derive(Clone, Copy)]
pub struct Forms<'a> {
    pub policy: Policy<'a>,
    pub cand: &'a [u16; FORMS],
    pub keys: &'a [u16; ROOM],
    pub owners: &'a [u16; ROOM],
    pub n: usize,
    ghost owned: { Owners policy.file.now policy.nodes.now owners.now n },
}

// A base is a node that is not a quotation: the quotations' kinds come last.
pub fn is_base(kind: Kind) -> bool
    ensures { result ≡ ltb (number_of kind) 4 }
{
    (kind as usize) < Kind::Said as usize
}

// A leaf has no parts.
fn is_leaf(kind: Kind) -> bool
    ensures { result ≡ ltb (number_of kind) 2 }
{
    matches!(kind, Kind::True | Kind::Name)
}

// The form's number one quotation further in: said doubles it, put keeps it.
#[tactic(auto, unfolding(crate::specs::Columns::inward_kind))]
fn inward(kind: Kind, m: usize) -> usize
    requires { m < 1024 }
    ensures { result ≡ inward_kind (number_of kind) m }
{
    match kind {
        Kind::Said => 2 * m,
        _ => m,
    }
}

// The number of form m of node j: of the base below, where j is a quotation. (A range down to the base has no end that is reached.)
pub fn form_number(policy: Policy, cand: &[u16; FORMS], j: usize, m: usize) -> u16
    requires { IsForm policy.file.now j m }
    ensures { result ≡ form_number policy.entry.nodes.now cand.now j m }
{
    let mut at = j;
    let mut form = m;
    let mut kind = kind_at(policy.nodes, at);
    while !is_base(kind) {
        form = inward(kind, form);
        at += 1;
        kind = kind_at(policy.nodes, at);
    }
    cand[at * STRIDE + form]
}

// The kind of formula i: that of its base.
fn kind_of(forms: Forms, i: usize) -> u16
    requires { i < forms.n }
    ensures { result ≡ kind_column forms.entry.policy.nodes.now forms.entry.owners.now i }
{
    let b = usize::from(forms.owners[i]) / STRIDE;
    cell_at(forms.policy.nodes, nodes::Column::Kind, b) as u16
}

// The put places of formula i, which its key ends with.
#[tactic(auto, unfolding(crate::specs::Columns::put_column))]
fn puts_of(forms: Forms, i: usize) -> u16
    requires { i < forms.n }
    ensures { result ≡ put_column forms.entry.keys.now i }
{
    forms.keys[i] % STRIDE as u16
}

// The number of the left part of formula i, none where it has no parts.
fn left_of(forms: Forms, i: usize) -> u16
    requires { i < forms.n }
    ensures { result ≡ left_column forms.entry.policy.nodes.now forms.entry.cand.now forms.entry.owners.now i }
{
    let owner = usize::from(forms.owners[i]);
    let b = owner / STRIDE;
    if is_leaf(kind_at(forms.policy.nodes, b)) {
        return NO_NUMBER;
    }
    form_number(forms.policy, forms.cand, b + 1, owner % STRIDE)
}

// The number of the right part of formula i: it begins behind the left part's last node. (Not one function with `left_of`: they
// share a test and a call, and a parameter for the rest would be a switch on which node to read.)
fn right_of(forms: Forms, i: usize) -> u16
    requires { i < forms.n }
    ensures { result ≡ right_column forms.entry.policy.nodes.now forms.entry.cand.now forms.entry.owners.now i }
{
    let owner = usize::from(forms.owners[i]);
    let b = owner / STRIDE;
    if is_leaf(kind_at(forms.policy.nodes, b)) {
        return NO_NUMBER;
    }
    let right = cell_at(forms.policy.nodes, nodes::Column::End, b + 1);
    form_number(forms.policy, forms.cand, right, owner % STRIDE)
}

// The number of the form of formula i that has put at every place: the last of its node's forms.
fn bottom_of(forms: Forms, i: usize) -> u16
    requires { i < forms.n }
    ensures { result ≡ bottom_column forms.entry.policy.nodes.now forms.entry.cand.now forms.entry.owners.now i }
{
    let b = usize::from(forms.owners[i]) / STRIDE;
    let last = prefix::weaker_count(prefix::prefix_of(forms.policy.nodes, b)) - 1;
    forms.cand[b * STRIDE + last]
}

// The node of the base of formula i.
#[tactic(auto, unfolding(crate::specs::Columns::base_column))]
fn base_of(forms: Forms, i: usize) -> u16
    requires { i < forms.n }
    ensures { result ≡ base_column forms.entry.owners.now i }
{
    forms.owners[i] / STRIDE as u16
}

// What a column has at formula i as far as the list tells it: no formula is marked as a hypothesis yet. (A match
// and no closures: the columns are closed.)
fn cell_of(forms: Forms, column: Column, i: usize) -> u16
    requires { i < forms.n }
    ensures { result ≡ column_of forms.entry.policy.nodes.now forms.entry.cand.now forms.entry.keys.now forms.entry.owners.now (column_number column) i }
{
    match column {
        Column::Kind => kind_of(forms, i),
        Column::Puts => puts_of(forms, i),
        Column::Left => left_of(forms, i),
        Column::Right => right_of(forms, i),
        Column::Bottom => bottom_of(forms, i),
        Column::Hypothesis => 0,
        Column::Base => base_of(forms, i),
    }
}

// Fills one column at the first n formulas.
fn fill_column(forms: Forms, column: Column, table: &mut [u16])
    requires { table_cells ≤ length table.old }
    ensures { table.new ≡ with_column (column_number column) (column_of forms.entry.policy.nodes.now forms.entry.cand.now forms.entry.keys.now forms.entry.owners.now (column_number column)) forms.entry.n table.old }
{
    for i in 0..forms.n {
        formulas::set_cell(table, column, i, usize::from(cell_of(forms, column, i)));
    }
}

// All columns at the first n formulas, none of them marked as a hypothesis.
pub fn fill_columns(forms: Forms, table: &mut [u16])
    requires { table_cells ≤ length table.old }
    ensures { table.new ≡ filled forms.entry.policy.nodes.now forms.entry.cand.now forms.entry.keys.now forms.entry.owners.now forms.entry.n table.old }
{
    for column in ALL {
        fill_column(forms, column, table);
    }
}
