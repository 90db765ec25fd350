// Cells of eight bytes in a buffer: reading one, writing one; the table of kinds.

#![tactic(auto)]

ghost use Rattle.std.specs.Prelude.{◌≡◌, ◌+◌, ◌*◌, ◌/◌, ◌%◌, ◌≤◌, ◌<◌, [], ◌∷◌, length};
ghost use Rattle.std.proofs.lemmas.List.Edits.{sets};
ghost use Rattle.format.specs.Cell.{pair, cell_at, cell_bytes};
ghost use Rattle.format.specs.Table.{Row, row_for, row_of, inside};
ghost use Rattle.cells.specs.Coded.{as_cell, CellFits, place_of, use_of, numbered, sort_numbered, SaidAs, row_from};
ghost use Rattle.cells.specs.Held.{label_by_lem};
ghost use Rattle.cells.specs.Moves.{moved_field, FieldMoves, moved_cell, CellMoves};
ghost use Rattle.std.proofs.Math.Option.{some};

use format::Version;

// A cell: kind, label and the fields a, b, c. The kind is a number, by which all crates dispatch (document 01, "dispatch on kind numbers"), and so is the
// mark of a type cell, which stands in the bytes of field c. Cells refer to each other by number, in lent buffers: no heap.
#[derive(Clone, Copy)]
pub struct Cell {
    pub kind: u8,
    pub label: u8,
    pub a: usize,
    pub b: usize,
    pub c: usize,
}

// The field of two bytes at a position, little-endian. By arithmetic, as `pair` of the format: `from_le_bytes` takes an array, made of both bytes first.
pub fn read_pair(s: &[u8], at: usize) -> usize
    requires { at + 1 < length s.now }
    ensures { result ≡ pair s.now at }
{
    let low = usize::from(s[at]);
    let high = usize::from(s[at + 1]);
    low + 256 * high
}

pub fn read_cell(s: &[u8], i: usize) -> Cell
    requires { 8 * i + 8 ≤ length s.now }
    ensures { as_cell result ≡ cell_at s.now i }
{
    let at = 8 * i;
    Cell {
        kind: s[at],
        label: s[at + 1],
        a: read_pair(s, at + 2),
        b: read_pair(s, at + 4),
        c: read_pair(s, at + 6),
    }
}

fn write_pair(s: &mut [u8], at: usize, x: usize)
    requires { (at + 1 < length s.old) × (x < 65536) }
    ensures { s.new ≡ sets s.old at (x % 256 ∷ x / 256 ∷ []) }
{
    s[at] = (x % 256) as u8;
    s[at + 1] = (x / 256) as u8;
}

pub fn write_cell(s: &mut [u8], i: usize, t: Cell)
    requires { (8 * i + 8 ≤ length s.old) × CellFits t }
    ensures { s.new ≡ sets s.old (8 * i) (cell_bytes (as_cell t)) }
{
    let at = 8 * i;
    s[at] = t.kind;
    s[at + 1] = t.label;
    write_pair(s, at + 2, t.a);
    write_pair(s, at + 4, t.b);
    write_pair(s, at + 6, t.c);
}

// What a cell is, and what a reference is to.
#[derive(Clone, Copy, PartialEq, Eq)]
pub enum Sort {
    Types,
    Terms,
}

// What a kind makes of a field.
#[derive(Clone, Copy, PartialEq, Eq)]
pub enum Use {
    Unused,
    Plain,
    // a reference to a type
    ToType,
    // and to a term
    ToTerm,
}

// A use as a number: 0 unused, 1 plain, 2 a type, 3 and more a term.
impl From<u8> for Use {
    ghost from_gives = { λ n u. u ≡ numbered n };

    fn from(n: u8) -> Use {
        match n {
            0 => Use::Unused,
            1 => Use::Plain,
            2 => Use::ToType,
            _ => Use::ToTerm,
        }
    }
}

// A row of the table of kinds; an unknown kind has no sort.
#[derive(Clone, Copy)]
pub struct Entry {
    pub sort: Option<Sort>,
    pub label: Use,
    pub a: Use,
    pub b: Use,
    pub c: Use,
}

impl Entry {
    // An entry by numbers: sort 2 a type, 3 and more a term, 0 and 1 unknown; the others by `Use::from`.
    pub fn numbered(sort: u8, label: u8, a: u8, b: u8, c: u8) -> Entry
        ensures { result ≡ record {
          sort = sort_numbered sort;
          label = numbered label;
          a = numbered a;
          b = numbered b;
          c = numbered c;
        } }
    {
        Entry {
            sort: match sort {
                0 | 1 => None,
                2 => Some(Sort::Types),
                _ => Some(Sort::Terms),
            },
            label: Use::from(label),
            a: Use::from(a),
            b: Use::from(b),
            c: Use::from(c),
        }
    }
}

const UNKNOWN: Entry = Entry {
    sort: None,
    label: Use::Unused,
    a: Use::Unused,
    b: Use::Unused,
    c: Use::Unused,
};

// A type, and a term, whose fields are unused.
const TYPE: Entry = Entry {
    sort: Some(Sort::Types),
    ..UNKNOWN
};

const TERM: Entry = Entry {
    sort: Some(Sort::Terms),
    ..UNKNOWN
};

// Two types, two terms, a term and a type.
const TYPES: Entry = Entry {
    a: Use::ToType,
    b: Use::ToType,
    ..TYPE
};

const TERMS: Entry = Entry {
    a: Use::ToTerm,
    b: Use::ToTerm,
    ..TERM
};

const TYPED: Entry = Entry {
    a: Use::ToTerm,
    b: Use::ToType,
    ..TERM
};

// A labelled term.
const LABELLED: Entry = Entry {
    label: Use::Plain,
    a: Use::ToTerm,
    ..TERM
};

// 17 in books of version 1: number, in b and c
const NUMBER_OF_ONE: Entry = Entry {
    b: Use::Plain,
    c: Use::Plain,
    ..TERM
};

// A `static`, which stands in no frame of the recursive functions that read it.
static TABLE: [Entry; 18] = [
    // every other kind
    UNKNOWN,
    // 1, 2: Int, Top
    TYPE,
    TYPE,
    // 3: function type, a input, b output
    TYPES,
    // 4: intersection
    TYPES,
    // 5: record type
    Entry {
        label: Use::Plain,
        a: Use::ToType,
        ..TYPE
    },
    // 16: variable
    Entry {
        a: Use::Plain,
        ..TERM
    },
    // 17: number, in a, b and c
    Entry {
        a: Use::Plain,
        ..NUMBER_OF_ONE
    },
    // 18: top value
    TERM,
    // 19: annotation
    TYPED,
    // 20: application
    TERMS,
    // 21: function, a body, b input, c output
    Entry {
        c: Use::ToType,
        ..TYPED
    },
    // 22: merge
    TERMS,
    // 23: fixpoint, a body
    TYPED,
    // 24: record
    LABELLED,
    // 25: field read
    LABELLED,
    // 26: sum
    TERMS,
    // 27: choice, a tested, b for zero, c for anything else
    Entry {
        c: Use::ToTerm,
        ..TERMS
    },
];

// The place of a kind in the table.
fn place(kind: u8) -> usize
    ensures { (result ≡ place_of kind) × (result < 18) }
{
    match kind {
        1..=5 => usize::from(kind),
        16..=27 => usize::from(kind) - 10,
        _ => 0,
    }
}

// The row of a kind: 1 to 5 types, 16 to 27 terms, all else unknown.
pub fn entry_of(kind: u8) -> Entry
    ensures { row_from kind result ≡ row_of kind }
{
    TABLE[place(kind)]
}

// The same for books of this version: version 1 does not name field a of a number.
pub fn entry_for(version: Version, kind: u8) -> Entry
    ensures { row_from kind result ≡ row_for version kind }
{
    if kind != 17 {
        return entry_of(kind);
    }
    match version {
        Version::One => NUMBER_OF_ONE,
        Version::Two => entry_of(kind),
    }
}

// The label of a cell whose row has this use of it: 0 if the row does not name it.
pub fn label_by<U: Into<Use>>(u: U, label: u8) -> u8
    ensures { SaidAs U.converts u (λ v. result ≡ label_by_lem (use_of v) label) }
{
    match u.into() {
        Use::Unused => 0,
        _ => label,
    }
}

// Cells that move together: cell `from` comes to stand at `to`, and those behind it follow.
#[derive(Clone, Copy)]
pub struct Move {
    pub from: usize,
    pub to: usize,
}

impl Move {
    // The number n of a field of this use: a reference goes with its cells.
    pub fn field(self, u: Use, n: usize) -> usize
        requires { FieldMoves self.from self.to (use_of u) n }
        ensures { result ≡ moved_field self.from self.to (use_of u) n }
    {
        match u {
            Use::Unused | Use::Plain => n,
            Use::ToType | Use::ToTerm => n - self.from + self.to,
        }
    }

    // A cell with its references moved.
    pub fn cell(self, t: Cell) -> Cell
        requires { CellMoves self.from self.to (as_cell t) }
        ensures moved { (r : Row) → row_of t.kind ≡ some r → as_cell result ≡ moved_cell self.from self.to r (as_cell t) }
        ensures fits { CellFits result }
    {
        let e = entry_of(t.kind);
        Cell {
            a: self.field(e.a, t.a),
            b: self.field(e.b, t.b),
            c: self.field(e.c, t.c),
            ..t
        }
    }
}

// How many binders are over field a of a term of this kind that is under k: a function and a fixpoint bind one.
pub fn binders(kind: u8, k: usize) -> usize
    requires { k < 131072 }
    ensures { result ≡ inside kind k }
{
    match kind {
        21 | 23 => k + 1,
        _ => k,
    }
}
