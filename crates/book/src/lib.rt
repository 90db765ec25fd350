// Rows 2 to 10: the length, the trailer, each cell, the root. The trailer, and the part of cells before it, are handed on as parts of the
// book to their readers.

#![tactic(auto)]

ghost use Rattle.std.specs.Prelude.{◌≡◌, ◌+◌, ◌*◌, ◌≤◌, ◌<◌, min, length};
ghost use Rattle.std.proofs.Math.Option.{none};
ghost use Rattle.format.specs.declared.Version.TheVariants.{Two};
ghost use Rattle.format.specs.Version.{version_from_lem};
ghost use Rattle.format.specs.Tree.{cells, tree_at};
ghost use Rattle.format.specs.Book.{length_ok_lem, unnamed_ok_lem, reference_ok_lem, sort_ok_lem, cell_fault};
ghost use Rattle.cells.specs.Coded.{use_of, Refers};
ghost use Rattle.book.specs.Form.{version_in, counted_ok_lem, is_of_sort_lem, MayAsk, Asks, MayAskNumbers, AsksNumbers, CellCheck, CellsCheck};
ghost use Rattle.book.specs.Form.{field_size_lem, SizesUpTo, RootReady, RootCheck, FormCheck};

use answers::Refusal;
use cells::{Cell, Entry, Sort, Use, entry_for, entry_of, read_cell, read_pair};
use format::Version;

// The limit of unshared sizes; they are counted up to one more.
const LIMIT: usize = 4095;

const CAP: usize = LIMIT + 1;

// The root of a book that rows 2 to 10 pass: its cell, and the version of the book.
#[derive(Clone, Copy)]
pub struct Root {
    pub version: Version,
    pub cell: usize,
}

// 2: the length.
fn length_ok(b: &[u8]) -> bool
    ensures { result ≡ length_ok_lem b.now }
{
    16 <= b.len() && b.len() <= 32768 && b.len() % 8 == 0
}

// The version that byte 1 of a trailer stands for, past row 3; of any other byte it is the second: it cannot fail, so it is no `TryFrom`.
pub fn version_from(x: u8) -> Version
    ensures { result ≡ version_from_lem x }
{
    Version::try_from(x).unwrap_or(Version::Two)
}

// 3: bytes 0, 1, 6 and 7 of the trailer. Byte 1 is the version.
fn read_version(t: &[u8]) -> Result<Version, Refusal>
    requires { length t.now ≡ 8 }
    ensures { result ≡ version_in t.now }
{
    if t[0] != 0xf0 || t[6] != 0 || t[7] != 0 {
        return Err(Refusal::Trailer);
    }
    Version::try_from(t[1]).map_err(|_| Refusal::Trailer)
}

// 4: the count and the root.
fn counted_ok(t: &[u8], n: usize) -> bool
    requires { length t.now ≡ 8 }
    ensures { result ≡ counted_ok_lem t.now n }
{
    read_pair(t, 2) == n && read_pair(t, 4) < n
}

// Cell x is of the sort.
fn is_of_sort(s: &[u8], x: usize, sort: Sort) -> bool
    requires { 8 * x < length s.now }
    ensures { result ≡ is_of_sort_lem s.now x sort }
{
    entry_of(s[8 * x]).sort == Some(sort)
}

// 6: an unused field is zero.
fn unnamed_ok(u: Use, x: usize) -> bool
    ensures { result ≡ unnamed_ok_lem (use_of u) x }
{
    match u {
        Use::Unused => x == 0,
        _ => true,
    }
}

// 7: a reference is lower than its cell.
fn reference_ok(i: usize, u: Use, x: usize) -> bool
    ensures { result ≡ reference_ok_lem i (use_of u) x }
{
    match u {
        Use::Unused | Use::Plain => true,
        Use::ToType | Use::ToTerm => x < i,
    }
}

// 8: a reference is to a cell of its sort.
fn sort_ok(s: &[u8], u: Use, x: usize) -> bool
    requires { Refers u → 8 * x < length s.now }
    ensures { result ≡ sort_ok_lem s.now (use_of u) x }
{
    match u {
        Use::Unused | Use::Plain => true,
        Use::ToType => is_of_sort(s, x, Sort::Types),
        Use::ToTerm => is_of_sort(s, x, Sort::Terms),
    }
}

// A question of a use and a number, asked of every field of a cell.
fn every_field<F: Fn(Use, usize) -> bool>(e: Entry, t: Cell, asks: F) -> bool
    requires { MayAsk (F.pre asks) e t }
    ensures { Asks (F.post asks) e t result }
{
    asks(e.label, usize::from(t.label)) && asks(e.a, t.a) && asks(e.b, t.b) && asks(e.c, t.c)
}

// The same, asked of fields a, b and c: of a question about references, since no row has one for a label.
fn every_number<F: Fn(Use, usize) -> bool>(e: Entry, t: Cell, asks: F) -> bool
    requires { MayAskNumbers (F.pre asks) e t }
    ensures { AsksNumbers (F.post asks) e t result }
{
    asks(e.a, t.a) && asks(e.b, t.b) && asks(e.c, t.c)
}

// Rows 5 to 8 of one cell, in a book of this version.
fn check_cell(s: &[u8], i: usize, version: Version) -> Result<(), Refusal>
    requires { 8 * i + 8 ≤ length s.now }
    ensures { CellCheck version s.now i result }
{
    let t = read_cell(s, i);
    let e = entry_for(version, t.kind);
    if e.sort.is_none() {
        return Err(Refusal::Kind(i));
    }
    if !every_field(e, t, unnamed_ok) {
        return Err(Refusal::Unnamed(i));
    }
    if !every_number(e, t, |u, x| reference_ok(i, u, x)) {
        return Err(Refusal::Reference(i));
    }
    if !every_number(e, t, |u, x| sort_ok(s, u, x)) {
        return Err(Refusal::Sort(i));
    }
    Ok(())
}

// Rows 5 to 8, cells ascending. A count beside s, as `CellsCheck` has it.
fn check_cells(s: &[u8], n: usize, version: Version) -> Result<(), Refusal>
    requires { 8 * n ≤ length s.now }
    ensures { CellsCheck version s.now n result }
{
    for i in 0..n {
        check_cell(s, i, version)?;
    }
    Ok(())
}

// What a field adds to the size of its cell; z has the sizes of the lower cells.
fn field_size(z: &[u16; CAP], u: Use, x: usize) -> usize
    requires { Refers u → x < 4096 }
    ensures { result ≡ field_size_lem z.now (use_of u) x }
{
    match u {
        Use::Unused | Use::Plain => 0,
        Use::ToType | Use::ToTerm => usize::from(z[x]),
    }
}

// The unshared size of cell i, capped.
fn cell_size(s: &[u8], z: &[u16; CAP], i: usize) -> usize
    requires i_in_bounds { (8 * i + 8 ≤ length s.now) × (i < 4096) }
    requires i_value { cell_fault Two s.now i ≡ none }
    requires sizes_up_to { SizesUpTo s.now z.now i }
    ensures { result ≡ min 4096 (cells (tree_at s.now i)) }
{
    let t = read_cell(s, i);
    let e = entry_of(t.kind);
    let size = 1 + field_size(z, e.a, t.a) + field_size(z, e.b, t.b) + field_size(z, e.c, t.c);
    size.min(CAP)
}

// The unshared size of the root, capped, from those of the cells up to it.
fn root_size(s: &[u8], root: usize) -> usize
    requires { RootReady s.now root }
    ensures { result ≡ min 4096 (cells (tree_at s.now root)) }
{
    // an array of fixed length, used whole: no heap
    let mut z = [0u16; CAP];
    for i in 0..=root {
        z[i] = cell_size(s, &z, i) as u16;
    }
    usize::from(z[root])
}

// Rows 9 and 10.
fn check_root(s: &[u8], root: usize) -> Result<(), Refusal>
    requires { RootReady s.now root }
    ensures { RootCheck s.now root result }
{
    if !is_of_sort(s, root, Sort::Terms) {
        return Err(Refusal::Root(root));
    }
    if LIMIT < root_size(s, root) {
        return Err(Refusal::Size(root));
    }
    Ok(())
}

// Rows 2 to 10, in their order.
pub fn check_form(b: &[u8]) -> Result<Root, Refusal>
    ensures { FormCheck b.now result }
{
    if !length_ok(b) {
        return Err(Refusal::Length);
    }
    let n = b.len() / 8 - 1;
    let cells = &b[..8 * n];
    let trailer = &b[8 * n..];
    let version = read_version(trailer)?;
    if !counted_ok(trailer, n) {
        return Err(Refusal::Count);
    }
    check_cells(cells, n, version)?;
    let cell = read_pair(trailer, 4);
    check_root(cells, cell)?;
    Ok(Root { version, cell })
}
