// The part that a field read takes: of an intersection the type, of a merge of values the content. Answers only: nothing is written, no function
// keeps an array, and a part is cells, never a copy. Cell numbers fall from call to call. Kinds and marks are numbers: document 01, "dispatch on kind numbers".
#![tactic(auto)]

ghost use Rattle.cells.specs.Coded.{as_cell};
ghost use Rattle.projection.specs.Parts.{TypeAt, Joins, FindsFieldPart, FindsSingle, ValueAt, ShowsTopLike, ValueFrom, FindsContent};

use cells::{Cell, read_cell};

// The part of a type that has the field: none, and none is top-like; none, but some part is top-like; one, its content the type at a cell; more
// than one. Four cases, so no Option.
#[derive(Clone, Copy)]
pub enum FieldPart {
    Absent,
    TopLike,
    One(usize),
    More,
}

// What an intersection says, from what its halves say.
#[tactic(auto, using(crate::proofs::Joining::left_none, crate::proofs::Joining::right_none, crate::proofs::Joining::left_top, crate::proofs::Joining::right_top, crate::proofs::Joining::two_parts))]
fn both(x: FieldPart, y: FieldPart) -> FieldPart
    ensures { Joins x y result }
{
    match (x, y) {
        (FieldPart::Absent, _) => y,
        (_, FieldPart::Absent) => x,
        (FieldPart::TopLike, _) => y,
        (_, FieldPart::TopLike) => x,
        _ => FieldPart::More,
    }
}

// The same of one cell: a type that is no intersection, or one that is top-like and so has only top-like parts.
fn single_part(x: Cell, label: u8) -> FieldPart
    ensures { FindsSingle (as_cell x) label result }
{
    if x.c == 1 {
        return FieldPart::TopLike;
    }
    if x.kind == 5 && x.label == label {
        return FieldPart::One(x.a);
    }
    FieldPart::Absent
}

// The part of the type at a that has the field. Of two halves the one that is a single part, or top-like, is asked first, and the walk goes on with
// the other, cell x at i. Most halves say nothing and leave what was found where it is.
pub fn type_part(s: &[u8], a: usize, label: u8) -> FieldPart
    requires { TypeAt s.now a }
    ensures { FindsFieldPart s.now a label result }
{
    let mut found = FieldPart::Absent;
    let mut i = a;
    let mut x = read_cell(s, i);
    while x.kind == 4 && x.c != 1 {
        let y = read_cell(s, x.b);
        if y.kind == 4 && y.c != 1 {
            let left = type_part(s, x.a, label);
            found = both(found, left);
            i = x.b;
            x = y;
        } else {
            i = x.a;
            x = read_cell(s, i);
            let right = single_part(y, label);
            if !matches!(right, FieldPart::Absent) {
                found = both(found, right);
            }
        }
    }
    let last = single_part(x, label);
    both(found, last)
}

// Whether the type that the value at v shows is top-like.
fn shows_top_like(s: &[u8], v: usize) -> bool
    requires { ValueAt s.now v }
    ensures { ShowsTopLike s.now v result }
{
    let x = read_cell(s, v);
    match x.kind {
        17 => false,
        18 => true,
        21 => read_cell(s, x.c).c == 1,
        22 => shows_top_like(s, x.a) && shows_top_like(s, x.b),
        _ => shows_top_like(s, x.a),
    }
}

// The cells of a content, from the first on before the second; a struct, since a Range is not Copy.
#[derive(Clone, Copy)]
pub struct Content {
    pub start: usize,
    pub end: usize,
}

// The content of the first part, of the value at v whose cells begin at start, that is a record of the label and not of a top-like type: its
// cells, or that there is none. Of a merge without or_else, whose closure would be in the cycle of calls and need clauses of its own.
pub fn value_part(s: &[u8], start: usize, v: usize, label: u8) -> Option<Content>
    requires { ValueFrom s.now start v }
    ensures { FindsContent s.now start v label result }
{
    let x = read_cell(s, v);
    match x.kind {
        22 => {
            if let Some(cells) = value_part(s, start, x.a, label) {
                return Some(cells);
            }
            value_part(s, x.a + 1, x.b, label)
        }
        24 if x.label == label && !shows_top_like(s, x.a) => Some(Content { start, end: v }),
        _ => None,
    }
}
