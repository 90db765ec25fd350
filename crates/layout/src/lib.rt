// Encoding: a held tree from cell 0 on, its trailer and the zeros behind it, in the version that it came from. Kinds are numbers, as in cells.
#![tactic(auto)]

ghost use Rattle.std.specs.Prelude.{◌≡◌, ◌*◌, ◌-◌};
ghost use Rattle.std.proofs.lemmas.List.Edits.{sets};
ghost use Rattle.format.specs.Book.{trailer};
ghost use Rattle.cells.specs.Coded.{AskedAs, SaidAs};
ghost use Rattle.layout.specs.Encoding.{EncodeReady, EncodesTree, InPlaceReady, TrailerReady, SomeTree, Closes, SomeTerm, ClosesTerm};

use cells::{Cell, Use, write_cell};
use emission::emit_field;
use format::Version;
use widths::narrow;

// The tree of a field, for which there is room, from cell 0 on; answers its cells.
pub fn encode_tree<U: Into<Use>>(s: &[u8], d: &mut [u8], u: U, x: usize) -> usize
    requires { AskedAs U.converts u (λ v. EncodeReady s.now d.old v x) }
    ensures { SaidAs U.converts u (λ v. EncodesTree s.now d.new v x result) }
{
    emit_field(s, d, u.into(), x, 0).unwrap_or(0)
}

// The tree of a field of w, for which there is room, from cell 0 of w on, by way of s; answers its cells.
pub fn encode_in_place<U: Into<Use>>(s: &mut [u8], w: &mut [u8], u: U, x: usize) -> usize
    requires { AskedAs U.converts u (λ v. InPlaceReady s.old w.old v x) }
    ensures { SaidAs U.converts u (λ v. EncodesTree w.old w.new v x result) }
{
    let n = encode_tree(w, s, u, x);
    w[..8 * n].copy_from_slice(&s[..8 * n]);
    n
}

// The trailer behind n cells whose last is the root. n beside d, as in `close`.
pub fn write_trailer(d: &mut [u8], n: usize, version: Version)
    requires { TrailerReady d.old n }
    ensures { d.new ≡ sets d.old (8 * n) (trailer version n (n - 1)) }
{
    write_cell(
        d,
        n,
        Cell {
            kind: 240,
            label: u8::from(version),
            a: n,
            b: n - 1,
            c: 0,
        },
    );
}

// The tree becomes a book of this version: its trailer behind it, and zeros behind that. The buffer has more than the n cells: the book grows into it.
pub fn close(d: &mut [u8], n: usize, version: Version)
    requires { SomeTree d.old n }
    ensures { Closes version d.old d.new n }
{
    write_trailer(d, n, version);
    d[8 * (n + 1)..].fill(0);
}

// The term becomes a book of this version: version 1 has its numbers in 32 bits. n beside d, as in `close`.
pub fn close_term(d: &mut [u8], n: usize, version: Version)
    requires { SomeTerm version d.old n }
    ensures { ClosesTerm version d.old d.new n }
{
    match version {
        Version::One => {
            narrow(&mut d[..8 * n]);
            close(d, n, version);
        }
        Version::Two => close(d, n, version),
    }
}
