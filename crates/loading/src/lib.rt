// Loads the cells of a book into a buffer: each cell as it stands, but that a number of version 1 is extended to 48 bits, and that field c of a type
// cell, which no type names, says whether the type is top-like. One ascending loop: what a cell refers to stands below it.
// Kinds and marks are numbers, as in cells: document 01, "dispatch on kind numbers".
#![tactic(auto)]

ghost use Rattle.std.specs.Prelude.{◌≡◌, ◌+◌, ◌/◌, length};
ghost use Rattle.format.specs.Widths.{wide_cells};
ghost use Rattle.cells.specs.Coded.{as_cell, CellFits};
ghost use Rattle.loading.specs.Loaded.{Loadable, Loaded, LoadsNext};
ghost use Rattle.loading.specs.Marks.{MarkReady, mark_by, MarkedReady, marked_by};

use cells::{Cell, read_cell, write_cell};
use format::Version;
use widths::widen;

// Types are the kinds below this one. Kinds stand by their numbers here: document 01 dispatches on them.
const FIRST_TERM: u8 = 16;

// The mark of the type of a cell, from the marks of the cells it refers to.
pub fn mark_of(s: &[u8], t: Cell) -> usize
    requires { MarkReady s.now (as_cell t) }
    ensures { result ≡ mark_by s.now (as_cell t) t.kind }
{
    let kind = t.kind;
    match kind {
        2 => 1,
        3 => read_cell(s, t.b).c,
        4 => {
            if read_cell(s, t.a).c == 1 {
                read_cell(s, t.b).c
            } else {
                0
            }
        }
        5 => read_cell(s, t.a).c,
        _ => 0,
    }
}

// The cell with its mark, if it is a type.
pub fn marked(s: &[u8], t: Cell) -> Cell
    requires { MarkedReady s.now (as_cell t) }
    ensures cell { as_cell result ≡ marked_by s.now (as_cell t) }
    ensures fits { CellFits t → CellFits result }
{
    if t.kind < FIRST_TERM {
        Cell {
            c: mark_of(s, t),
            ..t
        }
    } else {
        t
    }
}

fn load_cell(b: &[u8], s: &mut [u8], i: usize, version: Version)
    requires { LoadsNext b.now s.old i version }
    ensures { Loaded (wide_cells version b.now) s.new (i + 1) }
{
    let t = widen(version, read_cell(b, i));
    write_cell(s, i, marked(s, t));
}

// The cells of a book before its trailer.
pub fn load(b: &[u8], s: &mut [u8], version: Version)
    requires { Loadable b.now s.old (length b.now / 8) version }
    ensures { Loaded (wide_cells version b.now) s.new (length b.now / 8) }
{
    for i in 0..b.len() / 8 {
        load_cell(b, s, i, version);
    }
}
