// Numbers in the form that a book of version 1 has, 32 bits, and in the one form that they have outside of such books: 48 bits, as version 2 stores
// them. Proved: a cell is widened as the format has it, and a term whose numbers fit 32 bits, encoded and then narrowed, is encoded as version 1 has it.
// Kinds are numbers, as in cells: document 01, "dispatch on kind numbers".

#![tactic(auto)]

ghost use Rattle.std.specs.Prelude.{◌≡◌, ◌+◌, ◌*◌, ◌≤◌, length};
ghost use Rattle.format.specs.Widths.{sign_field_lem, wide_cell};
ghost use Rattle.cells.specs.Coded.{as_cell};
ghost use Rattle.widths.specs.Narrowing.{NarrowsCell, Narrows};

use cells::{Cell, read_cell, write_cell};
use format::Version;

// The field above a number of 32 bits whose upper field is c, by its sign.
fn sign_field(c: usize) -> usize
    ensures { result ≡ sign_field_lem c }
{
    if c < 32768 { 0 } else { 65535 }
}

// A cell of a book of this version, as it is outside of books. A number is kind 17: document 01 dispatches on kind numbers.
pub fn widen(version: Version, t: Cell) -> Cell
    ensures { as_cell result ≡ wide_cell version (as_cell t) }
{
    if t.kind != 17 {
        return t;
    }
    match version {
        Version::One => Cell {
            a: t.b,
            b: t.c,
            c: sign_field(t.c),
            ..t
        },
        Version::Two => t,
    }
}

// A number cell has the lower 32 bits in fields b and c, as version 1 has them; any other cell stays.
fn narrow_cell(d: &mut [u8], i: usize)
    requires { 8 * i + 8 ≤ length d.old }
    ensures { NarrowsCell d.old d.new i }
{
    if d[8 * i] == 17 {
        let t = read_cell(d, i);
        write_cell(
            d,
            i,
            Cell {
                a: 0,
                b: t.a,
                c: t.b,
                ..t
            },
        );
    }
}

// An encoded term becomes as version 1 has it.
pub fn narrow(d: &mut [u8])
    ensures { Narrows d.old d.new }
{
    for i in 0..d.len() / 8 {
        narrow_cell(d, i);
    }
}
