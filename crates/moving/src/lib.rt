// Runs of cells moved within a buffer or from one to another: the references of each cell go with it. A run is a tree encoded, children
// first and root last; every reference of its cells stays within it.
#![tactic(auto)]

ghost use Rattle.moving.specs.Moves.{ShiftReady, Shifts, ShiftCellReady, ShiftsCell, PlaceReady, Places, PlaceCellReady, PlacesCell};

use cells::{Move, read_cell, write_cell};
use loading::marked;

// One cell of a run that moves down.
fn shift_cell(w: &mut [u8], run: Move, i: usize)
    requires { ShiftCellReady w.old run.from run.to i }
    ensures { ShiftsCell w.old w.new run.from run.to i }
{
    let t = run.cell(read_cell(w, run.from + i));
    write_cell(w, run.to + i, t);
}

// The n cells of a run move down from x to y. Numbers, and no `Move` to be written out over six lines at each call;
// the cells before and behind stay in w, so it is no slice.
pub fn shift(w: &mut [u8], x: usize, y: usize, n: usize)
    requires { ShiftReady w.old x y n }
    ensures { Shifts w.old w.new x y n }
{
    for moved in 0..n {
        shift_cell(w, Move { from: x, to: y }, moved);
    }
}

// One cell of a run that comes from s to w, with its mark.
fn place_cell(s: &[u8], w: &mut [u8], run: Move, i: usize)
    requires { PlaceCellReady s.now w.old run.from run.to i }
    ensures { PlacesCell s.now w.old w.new run.from run.to i }
{
    let t = run.cell(read_cell(s, run.from + i));
    write_cell(w, run.to + i, marked(w, t));
}

// The n cells of a run that is encoded from x on in s come to y in w, types marked. Numbers, as in `shift`.
pub fn place(s: &[u8], w: &mut [u8], x: usize, y: usize, n: usize)
    requires { PlaceReady s.now w.old x y n }
    ensures { Places s.now w.old w.new x y n }
{
    for placed in 0..n {
        place_cell(s, w, Move { from: x, to: y }, placed);
    }
}
