// How many steps a settings sheet takes, counted in the book's own cells: document 02, (ix). The walk is lent the book, and a field's use and
// cell; it writes nothing, copies nothing and keeps no array. It opens sharing on the way and visits no more cells than the opened term has, so it is for books
// past row 10, whose opened root has at most 4,095. Kinds are numbers: document 01, "dispatch on kind numbers".
#![tactic(auto)]

ghost use Rattle.std.specs.Prelude.{◌≡◌};
ghost use Rattle.cells.specs.Coded.{AskedAs, SaidAs};
ghost use Rattle.counting.specs.Counting.{own_steps_lem, Countable, Counts};

use cells::{Use, entry_of, read_cell};

// What a term of this kind counts by itself: an annotation, application, field read or sum one. A variable, function, fixpoint or choice counts
// none: it makes a term no sheet.
fn own_steps(kind: u8) -> Option<usize>
    ensures { result ≡ own_steps_lem kind }
{
    match kind {
        16 | 21 | 23 | 27 => None,
        19 | 20 | 25 | 26 => Some(1),
        _ => Some(0),
    }
}

// What a field of use u counts, if it is a sheet's. Past the test of its kind a term has its parts in fields a and b.
fn count_field(book: &[u8], u: Use, i: usize) -> Option<usize>
    requires { Countable book.now u i }
    ensures { Counts book.now u i result }
{
    let Use::ToTerm = u else {
        return Some(0);
    };
    let x = read_cell(book, i);
    let e = entry_of(x.kind);
    let own = own_steps(x.kind)?;
    let first = count_field(book, e.a, x.a)?;
    let second = count_field(book, e.b, x.b)?;
    Some(own + (first + second))
}

// The same of what converts to a use.
pub fn count_steps<U: Into<Use>>(book: &[u8], u: U, i: usize) -> Option<usize>
    requires { AskedAs U.converts u (λ v. Countable book.now v i) }
    ensures { SaidAs U.converts u (λ v. Counts book.now v i result) }
{
    count_field(book, u.into(), i)
}
