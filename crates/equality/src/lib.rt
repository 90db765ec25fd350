// Whether two cells, unshared, are the same tree: one test for types and terms, by the table of kinds. It is lent the cells and two of their
// numbers; it writes nothing, copies nothing and keeps no array. What a row does not name is not looked at, so the test is right on a book's own
// bytes as on loaded cells, where field c of a type carries a mark.

#![tactic(auto)]

ghost use Rattle.cells.specs.Coded.{use_of, Refers};
ghost use Rattle.equality.specs.Trees.{Comparable, SameTree, SameField};

use cells::{Use, entry_of, label_by, read_cell};

// A cell is the same tree as itself. Two are where they are of one kind, and by its row label and fields are the same. At most as many pairs of cells
// are visited as the smaller tree has cells: 4,095 for cells that a well-formed book's root reaches, about which alone the public calls ask. Of cells
// that it does not reach no time is promised: two equal chains that double at every cell can take exponential time (specs/Trees).
#[cycle(same_trees)]
pub fn same_tree(s: &[u8], i: usize, j: usize) -> bool
    requires { Comparable s.now i j }
    ensures { SameTree s.now i j result }
{
    if i == j {
        return true;
    }
    let x = read_cell(s, i);
    let y = read_cell(s, j);
    if x.kind != y.kind {
        return false;
    }
    let e = entry_of(x.kind);
    if label_by(e.label, x.label) != label_by(e.label, y.label) {
        return false;
    }
    same_field(s, e.a, x.a, y.a) && (same_field(s, e.b, x.b, y.b) && same_field(s, e.c, x.c, y.c))
}

// The same of two fields of use u: plain ones by their numbers, references by their cells; unused ones hold nothing.
#[cycle(same_trees)]
fn same_field(s: &[u8], u: Use, x: usize, y: usize) -> bool
    requires { Refers u → Comparable s.now x y }
    ensures { SameField s.now x y (use_of u) result }
{
    match u {
        Use::Unused => true,
        Use::Plain => x == y,
        _ => same_tree(s, x, y),
    }
}
