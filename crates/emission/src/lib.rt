// Emitting: the tree of a cell, copied into another buffer as a tree of its own, children first and root last, as far as there is room
// for 4,095 cells: the answer is the next free cell, or none for no room. By the table of kinds: one function for every kind. What stands
// as a run already is copied by one loop.
// Kinds and marks are numbers: document 01, "dispatch on kind numbers". s, d and m go side by side, in no struct: m is the answer of one call and
// the argument of the next, and each caller lends s and d anew, so that a struct would be made and taken apart at every call.
#![tactic(auto)]

ghost use Rattle.std.specs.Prelude.{◌≡◌};
ghost use Rattle.calculus.specs.Syntax.{unit};
ghost use Rattle.format.specs.Terms.{from_term};
ghost use Rattle.cells.specs.Coded.{as_cell, use_of};
ghost use Rattle.cells.specs.Moves.{FieldMoves};
ghost use Rattle.emission.specs.Copies.{renumber as renumberBy, MoveReady, MovesCell, RunReady, EmitsRun, StartReady, StartsAt, EndReady, EmitsEnd};
ghost use Rattle.emission.specs.Emits.{Space, Emits, LastReady, Finishes, ReferReady, refer_by, RowReady, row_cell, FieldReady, EmitsField};

use cells::{Cell, Entry, Move, Use, entry_of, label_by, read_cell, write_cell};

// The last cell of a tree, where there is room for it.
pub fn finish(d: &mut [u8], m: usize, t: Cell) -> Option<usize>
    requires { LastReady d.old t }
    ensures { Finishes d.old d.new m (as_cell t) result }
{
    if m < 4095 {
        write_cell(d, m, t);
        Some(m + 1)
    } else {
        None
    }
}

// The top value, where there is room for it. `running` writes one by another call: a literal each.
pub fn finish_top(d: &mut [u8], m: usize) -> Option<usize>
    requires { Space d.old m }
    ensures { Emits d.old d.new m result (from_term unit) }
{
    finish(
        d,
        m,
        Cell {
            kind: 18,
            label: 0,
            a: 0,
            b: 0,
            c: 0,
        },
    )
}

// What a field holds for a tree that ends before cell next: 0 if unused, its number if plain, else the tree's last cell.
fn refer(u: Use, x: usize, next: usize) -> usize
    requires { ReferReady u next }
    ensures { result ≡ refer_by (use_of u) x next }
{
    match u {
        Use::Unused => 0,
        Use::Plain => x,
        Use::ToType | Use::ToTerm => next - 1,
    }
}

// The last cell of a tree, by the row e of its kind: its fields' trees end before the cells x, y and z.
pub fn finish_row(d: &mut [u8], t: Cell, e: Entry, x: usize, y: usize, z: usize) -> Option<usize>
    requires { RowReady d.old (as_cell t) e x y z }
    ensures { Finishes d.old d.new z (row_cell (as_cell t) e x y z) result }
{
    let last = Cell {
        label: label_by(e.label, t.label),
        a: refer(e.a, t.a, x),
        b: refer(e.b, t.b, y),
        c: refer(e.c, t.c, z),
        ..t
    };
    finish(d, z, last)
}

// The tree of a field: no cell for an unused or a plain one.
#[cycle(emitting)]
pub fn emit_field(s: &[u8], d: &mut [u8], u: Use, x: usize, m: usize) -> Option<usize>
    requires { FieldReady s.now d.old u x m }
    ensures { EmitsField s.now d.old d.new u x m result }
{
    match u {
        Use::Unused | Use::Plain => Some(m),
        Use::ToType | Use::ToTerm => emit_tree(s, d, x, m),
    }
}

#[cycle(emitting)]
fn emit_tree(s: &[u8], d: &mut [u8], i: usize, m: usize) -> Option<usize>
    requires { FieldReady s.now d.old Use.ToTerm i m }
    ensures { EmitsField s.now d.old d.new Use.ToTerm i m result }
{
    let t = read_cell(s, i);
    let e = entry_of(t.kind);
    let x = emit_field(s, d, e.a, t.a, m)?;
    let y = emit_field(s, d, e.b, t.b, x)?;
    let z = emit_field(s, d, e.c, t.c, y)?;
    finish_row(d, t, e, x, y, z)
}

// A field of a cell of a run that moves: 0 if unused, a reference goes with the run.
fn renumber(u: Use, n: usize, run: Move) -> usize
    requires { FieldMoves run.from run.to (use_of u) n }
    ensures { result ≡ renumberBy (use_of u) n run.from run.to }
{
    match u {
        Use::Unused => 0,
        Use::Plain | Use::ToType | Use::ToTerm => run.field(u, n),
    }
}

// Cell i of a run that moves.
fn move_cell(s: &[u8], d: &mut [u8], i: usize, run: Move)
    requires { MoveReady s.now d.old i run.from run.to }
    ensures { MovesCell s.now d.old d.new i run.from run.to }
{
    let t = read_cell(s, i);
    let e = entry_of(t.kind);
    let moved = Cell {
        label: label_by(e.label, t.label),
        a: renumber(e.a, t.a, run),
        b: renumber(e.b, t.b, run),
        c: renumber(e.c, t.c, run),
        ..t
    };
    write_cell(d, i - run.from + run.to, moved);
}

// The cells of a run from x on, before end, emitted from m on.
pub fn emit_run(s: &[u8], d: &mut [u8], x: usize, end: usize, m: usize) -> Option<usize>
    requires { RunReady s.now d.old x end m }
    ensures { EmitsRun s.now d.old d.new x end m result }
{
    if 4095 - m < end - x {
        return None;
    }
    let run = Move { from: x, to: m };
    for i in x..end {
        move_cell(s, d, i, run);
    }
    Some(m + (end - x))
}

// Where the run begins that ends with the cell at: down by field a, as long as that is a reference.
pub fn start_of(s: &[u8], at: usize) -> usize
    requires { StartReady s.now at }
    ensures { StartsAt s.now at result }
{
    let mut i = at;
    loop {
        let t = read_cell(s, i);
        let e = entry_of(t.kind);
        match e.a {
            Use::Unused | Use::Plain => return i,
            Use::ToType | Use::ToTerm => i = t.a,
        }
    }
}

// The run that ends with the cell at, emitted from m on.
pub fn emit_run_to(s: &[u8], d: &mut [u8], at: usize, m: usize) -> Option<usize>
    requires { EndReady s.now d.old at m }
    ensures { EmitsEnd s.now d.old d.new at m result }
{
    let start = start_of(s, at);
    emit_run(s, d, start, at + 1, m)
}
