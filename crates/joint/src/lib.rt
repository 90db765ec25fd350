// The joint of two books, written: the cells of the project, the cells of the part with references raised, a merge of both roots, a trailer. Proved: the
// bytes are the format's, for well-formed books that together, with the merge, have at most 4,095 cells. Kinds are numbers, as in cells.
#![tactic(auto)]

ghost use Rattle.std.specs.Prelude.{◌≡◌};
ghost use Rattle.cells.specs.Coded.{as_cell};
ghost use Rattle.joint.specs.Writing.{cell_in, CarryCellReady, CarriesCell, CarryReady, Carries, FinishReady, Finishes};
ghost use Rattle.joint.specs.Writing.{JointReady, WritesJoint};

use book::version_from;
use cells::{Cell, Move, read_cell, read_pair, write_cell};
use format::Version;
use layout::write_trailer;
use widths::widen;

// A cell of a book of version own, in one of this version, which is no lower.
fn in_version(version: Version, own: Version, t: Cell) -> Cell
    ensures { as_cell result ≡ cell_in version own (as_cell t) }
{
    match version {
        Version::One => t,
        Version::Two => widen(own, t),
    }
}

// Cell i of a book of version own comes to stand k cells higher in d, a book of this version. k, own and version go side by side: two calls, of one function.
fn carry_cell(s: &[u8], d: &mut [u8], i: usize, k: usize, own: Version, version: Version)
    requires { CarryCellReady s.now d.old i k }
    ensures { CarriesCell s.now d.old d.new i k own version }
{
    let t = in_version(version, own, read_cell(s, i));
    write_cell(d, k + i, Move { from: 0, to: k }.cell(t));
}

// The n cells of the book. A count beside s, whose trailer stays behind: what the format calls its cells are those of the whole book.
fn carry(s: &[u8], d: &mut [u8], n: usize, k: usize, own: Version, version: Version)
    requires { CarryReady s.now d.old n k }
    ensures { Carries s.now d.old d.new n k own version }
{
    for i in 0..n {
        carry_cell(s, d, i, k, own, version);
    }
}

// Cell k is the merge of cells i and j, and the trailer of its book stands behind it.
fn finish(d: &mut [u8], k: usize, i: usize, j: usize, version: Version)
    requires { FinishReady d.old k i j }
    ensures { Finishes d.old d.new k i j version }
{
    write_cell(
        d,
        k,
        Cell {
            kind: 22,
            label: 0,
            a: i,
            b: j,
            c: 0,
        },
    );
    write_trailer(d, k + 1, version);
}

// The joint of two well-formed books from byte 0 of d on; answers its length.
pub fn write_joint(project: &[u8], part: &[u8], d: &mut [u8]) -> usize
    requires { JointReady project.now part.now d.old }
    ensures { WritesJoint project.now part.now d.old d.new result }
{
    let n = project.len() / 8 - 1;
    let m = part.len() / 8 - 1;
    let own = version_from(project[8 * n + 1]);
    let other = version_from(part[8 * m + 1]);
    let version = own.max(other);
    carry(project, d, n, 0, own, version);
    carry(part, d, m, n, other, version);
    let i = read_pair(project, 8 * n + 4);
    let j = read_pair(part, 8 * m + 4);
    finish(d, n + m, i, n + j, version);
    8 * (n + m + 2)
}
