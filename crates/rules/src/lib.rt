// The test of a record over the formula table and the marks of what is recorded: the eight rules as comparisons of columns.
#![tactic(auto)]

ghost use Rattle.std.specs.Prelude.{◌≡◌, ◌&&◌, ◌<◌, ◌≤◌, length, eqb};
ghost use Rattle.infon.specs.declared.Way.TheVariants.{Weaken};
ghost use Rattle.formulas.specs.Columns.{column_number, kind_number};
ghost use Rattle.formulas.specs.Table.{table_rows, cell};
ghost use Rattle.formulas.specs.Tests.{kind_at, left_at, right_at, gives_in, is_marked, leads_to, good_in};

use formulas::{Column, Formulas, Kind};
use infon::{Record, Way};

// Whether a number is a listed one, and marked as recorded: 1, by the definition `is_marked`. (The marks are a row beside the list and no
// value with it: `grow` and `add_next` of `growth` take them as a row that may be longer, and write them between two looks.)
pub fn is_marked(list: Formulas, marks: &[u8], i: usize) -> bool
    requires { list.n ≤ length marks.now }
    ensures { result ≡ is_marked list.entry.n marks.now i }
{
    i < list.n && marks[i] == 1
}

// Whether two numbers are marked.
pub fn are_marked(list: Formulas, marks: &[u8], p: usize, q: usize) -> bool
    requires { list.n ≤ length marks.now }
    ensures { result ≡ is_marked list.entry.n marks.now p && is_marked list.entry.n marks.now q }
{
    is_marked(list, marks, p) && is_marked(list, marks, q)
}

// Rule 3: whether f is p with put at some places where p has said.
pub fn weakens(list: Formulas, p: usize, f: usize) -> bool
    requires { (p < table_rows) × (f < table_rows) }
    ensures { result ≡ gives_in list.entry.table.now (Weaken p) f }
{
    let from = list.at(Column::Puts, p);
    let to = list.at(Column::Puts, f);
    list.at(Column::Bottom, p) == list.at(Column::Bottom, f) && from & to == from
}

// Whether a formula is of a kind and has a part, the left or the right one as the column says.
pub fn has_part(list: Formulas, kind: Kind, column: Column, whole: usize, part: usize) -> bool
    requires { whole < table_rows }
    ensures { result ≡ eqb (cell list.entry.table.now kind_at whole) (kind_number kind)
        && eqb (cell list.entry.table.now (column_number column) whole) part }
{
    list.at(Column::Kind, whole) == kind as usize && list.at(column, whole) == part
}

// Whether a formula is of a kind and has a left and a right part.
fn has_parts(list: Formulas, kind: Kind, whole: usize, left: usize, right: usize) -> bool
    requires { whole < table_rows }
    ensures { result ≡ eqb (cell list.entry.table.now kind_at whole) (kind_number kind)
        && eqb (cell list.entry.table.now left_at whole) left && eqb (cell list.entry.table.now right_at whole) right }
{
    has_part(list, kind, Column::Left, whole, left) && list.at(Column::Right, whole) == right
}

// Whether a way's premises are marked and it gives the formula with number f.
fn leads_to(list: Formulas, marks: &[u8], f: usize, way: Way) -> bool
    requires { (list.n ≤ length marks.now) × (f < list.n) }
    ensures { result ≡ leads_to list.entry.table.now list.entry.n marks.now f way }
{
    match way {
        Way::Hypothesis => list.at(Column::Hypothesis, f) == 1,
        Way::Given => list.at(Column::Kind, f) == Kind::Truth as usize,
        Way::Weaken(p) => is_marked(list, marks, p) && weakens(list, p, f),
        Way::Left(p) => {
            is_marked(list, marks, p) && has_part(list, Kind::Conjunction, Column::Left, p, f)
        }
        Way::Right(p) => {
            is_marked(list, marks, p) && has_part(list, Kind::Conjunction, Column::Right, p, f)
        }
        Way::Both(p, q) => {
            are_marked(list, marks, p, q) && has_parts(list, Kind::Conjunction, f, p, q)
        }
        Way::Apply(p, q) => {
            are_marked(list, marks, p, q) && has_parts(list, Kind::Implication, q, p, f)
        }
        Way::Attach(p) => {
            is_marked(list, marks, p) && has_part(list, Kind::Implication, Column::Right, f, p)
        }
    }
}

// Whether a record, which may hold any numbers, is good after the marked ones.
pub fn is_good(list: Formulas, marks: &[u8], r: Record) -> bool
    requires { list.n ≤ length marks.now }
    ensures { result ≡ good_in list.entry.table.now list.entry.n marks.now r }
{
    r.formula < list.n
        && !is_marked(list, marks, r.formula)
        && leads_to(list, marks, r.formula, r.way)
}
