// Questions about the types and terms that cells hold: subtyping, disjointness, closed, closed value, consistent. Answers only:
// nothing is written, and no function keeps an array. A type cell's field c says whether the type is top-like, so that each pair of
// nodes is left at once where either side is. The two cells that a question is about are its arguments: most calls change one of them. Kinds and marks are numbers, as in cells: document 01, "dispatch on kind numbers".
#![tactic(auto)]

ghost use Rattle.calculus.specs.Decide.{is_below, is_disjoint, is_consistent};
ghost use Rattle.calculus.specs.Infer.{is_mergeable};
ghost use Rattle.decisions.specs.Questions.{TypesAt, TypesSay, TermAt, TermSays, TermsAt, TermsSay, HalvesAt, HalvesSay};
ghost use Rattle.decisions.specs.Questions.{ClosedAt, ClosedSays, is_closed_value, PlainAt, PlainPair, UnderPlain, TwoPlain};
ghost use Rattle.decisions.specs.Questions.{InOrder, MergeAt, LeftMerge, RightMerge, Agreeing, LeftInter, SingleType, SingleInter, SingleTypes};
ghost use Rattle.std.specs.Prelude.{◌+◌, ◌*◌, ◌≤◌, ◌<◌, ◌≡◌, length};
ghost use Rattle.format.specs.Cell.{cell_at};

use cells::{Cell, Use, binders, entry_of, read_cell};
use equality::same_tree;

fn kind_at(s: &[u8], i: usize) -> u8
    requires { 8 * i + 8 ≤ length s.now }
    ensures { result ≡ (cell_at s.now i).kind }
{
    read_cell(s, i).kind
}

// The halves of the intersection or merge x, as a walk takes them: first the one that it asks about, which has no parts if the other has none; then the
// one that it goes on with, and the kind of that. The kind is read here, in each branch: were it read after the choice, a long walk would wait for each.
fn two_halves(s: &[u8], x: Cell) -> (usize, usize, u8)
    requires first { 8 * x.a + 8 ≤ length s.now }
    requires second { 8 * x.b + 8 ≤ length s.now }
    ensures order { InOrder x.a x.b result.0 result.1 }
    ensures rest { result.2 ≡ (cell_at s.now result.1).kind }
{
    let kind = kind_at(s, x.b);
    if kind == x.kind {
        (x.a, x.b, kind)
    } else {
        (x.b, x.a, kind_at(s, x.a))
    }
}

// A type is below itself, so the same cell on both sides is an answer. The right side is split first, then the left.
#[cycle(subtyping)]
pub fn subtype(s: &[u8], a: usize, b: usize) -> bool
    requires { TypesAt s.now a b }
    ensures { TypesSay s.now a b is_below result }
{
    if a == b {
        return true;
    }
    let y = read_cell(s, b);
    if y.c == 1 {
        return true;
    }
    if y.kind == 4 {
        return subtype(s, a, y.a) && subtype(s, a, y.b);
    }
    part_below(s, a, b)
}

// Whether a part of the type at a is below the one at b, which is neither top-like nor an intersection. Of two halves the one that is no intersection is
// asked first, as in the other walks, but by a branch of its own: through `two_halves` this walk took up to twice the time.
#[cycle(subtyping)]
fn part_below(s: &[u8], a: usize, b: usize) -> bool
    requires { UnderPlain s.now a b }
    ensures { TypesSay s.now a b is_below result }
{
    let mut i = a;
    while kind_at(s, i) == 4 {
        let x = read_cell(s, i);
        if kind_at(s, x.b) == 4 {
            if half_below(s, x.a, b) {
                return true;
            }
            i = x.b;
        } else {
            if half_below(s, x.b, b) {
                return true;
            }
            i = x.a;
        }
    }
    single_below(s, i, b)
}

// The same of a half. One of another kind that is no intersection has no part below.
#[cycle(subtyping)]
fn half_below(s: &[u8], a: usize, b: usize) -> bool
    requires { UnderPlain s.now a b }
    ensures { TypesSay s.now a b is_below result }
{
    let k = kind_at(s, a);
    if k != 4 && k != kind_at(s, b) {
        return false;
    }
    part_below(s, a, b)
}

// The same of a type that is no intersection.
#[cycle(subtyping)]
fn single_below(s: &[u8], a: usize, b: usize) -> bool
    requires { TwoPlain s.now a b }
    ensures { TypesSay s.now a b is_below result }
{
    let x = read_cell(s, a);
    let y = read_cell(s, b);
    if x.c == 1 {
        return false;
    }
    if x.kind != y.kind {
        return false;
    }
    if x.kind == 3 {
        return subtype(s, y.a, x.a) && subtype(s, x.b, y.b);
    }
    if x.kind == 5 {
        return x.label == y.label && subtype(s, x.a, y.a);
    }
    true
}

// The left side is split first, then the right.
#[cycle(disjointness)]
pub fn disjoint(s: &[u8], a: usize, b: usize) -> bool
    requires { TypesAt s.now a b }
    ensures { TypesSay s.now a b is_disjoint result }
{
    let x = read_cell(s, a);
    let y = read_cell(s, b);
    if x.c == 1 {
        return true;
    }
    if y.c == 1 {
        return true;
    }
    if x.kind == 4 {
        return apart_left(s, a, b);
    }
    if y.kind == 4 {
        return apart_right(s, a, b);
    }
    apart_pair(s, a, b)
}

// The same of an intersection on the left, part by part, up to a rest that is top-like.
#[cycle(disjointness)]
fn apart_left(s: &[u8], a: usize, b: usize) -> bool
    requires { LeftInter s.now a b }
    ensures { TypesSay s.now a b is_disjoint result }
{
    let mut i = a;
    let mut kind = kind_at(s, a);
    while kind == 4 {
        let x = read_cell(s, i);
        if x.c == 1 {
            return true;
        }
        let (half, rest, next) = two_halves(s, x);
        if !apart_half(s, half, b) {
            return false;
        }
        i = rest;
        kind = next;
    }
    apart_half(s, i, b)
}

// The same of a half: two that are no intersections are asked at once.
#[cycle(disjointness)]
fn apart_half(s: &[u8], a: usize, b: usize) -> bool
    requires { TypesAt s.now a b }
    ensures { TypesSay s.now a b is_disjoint result }
{
    if kind_at(s, a) == 4 || kind_at(s, b) == 4 {
        return disjoint(s, a, b);
    }
    apart_pair(s, a, b)
}

// The same of a type that is no intersection against one that is, part by part. A loop a side: one walk for both would be handed a closure, which in a
// cycle of calls states its own `requires`, `ensures` and measure, longer than the loop.
#[cycle(disjointness)]
fn apart_right(s: &[u8], a: usize, b: usize) -> bool
    requires { SingleInter s.now a b }
    ensures { TypesSay s.now a b is_disjoint result }
{
    let mut j = b;
    let mut kind = kind_at(s, b);
    while kind == 4 {
        let y = read_cell(s, j);
        let (half, rest, next) = two_halves(s, y);
        if !apart_part(s, a, half) {
            return false;
        }
        j = rest;
        kind = next;
    }
    apart_part(s, a, j)
}

// The same against a half.
#[cycle(disjointness)]
fn apart_part(s: &[u8], a: usize, b: usize) -> bool
    requires { SingleType s.now a b }
    ensures { TypesSay s.now a b is_disjoint result }
{
    if kind_at(s, b) == 4 {
        return apart_right(s, a, b);
    }
    apart_pair(s, a, b)
}

// Two types that are no intersections.
#[cycle(disjointness)]
fn apart_pair(s: &[u8], a: usize, b: usize) -> bool
    requires { SingleTypes s.now a b }
    ensures { TypesSay s.now a b is_disjoint result }
{
    let x = read_cell(s, a);
    let y = read_cell(s, b);
    if x.c == 1 {
        return true;
    }
    if y.c == 1 {
        return true;
    }
    if x.kind != y.kind {
        return true;
    }
    if x.kind == 3 {
        return disjoint(s, x.b, y.b);
    }
    if x.kind == 5 {
        return x.label != y.label || disjoint(s, x.a, y.a);
    }
    false
}

// Whether no variable in a field of use u skips k binders or more. A field that is no term has no variable.
fn closed(s: &[u8], u: Use, i: usize, k: usize) -> bool
    requires { ClosedAt s.now u i k }
    ensures { ClosedSays s.now u i k result }
{
    let Use::ToTerm = u else {
        return true;
    };
    let x = read_cell(s, i);
    if x.kind == 16 {
        return x.a < k;
    }
    let e = entry_of(x.kind);
    let inner = binders(x.kind, k);
    closed(s, e.c, x.c, k) && (closed(s, e.a, x.a, inner) && closed(s, e.b, x.b, k))
}

// Whether two terms are equal numbers: a yes is an answer about them.
fn equal_numbers(s: &[u8], i: usize, j: usize) -> bool
    requires { TermsAt s.now i j }
    ensures { Agreeing s.now i j result }
{
    let x = read_cell(s, i);
    let y = read_cell(s, j);
    if x.kind != 17 || y.kind != 17 || x.a != y.a {
        return false;
    }
    x.b + 65536 * x.c == y.b + 65536 * y.c
}

// The left side is split first, then the right.
#[cycle(consistency)]
pub fn consistent(s: &[u8], i: usize, j: usize) -> bool
    requires { TermsAt s.now i j }
    ensures { TermsSay s.now i j is_consistent result }
{
    let x = read_cell(s, i);
    match x.kind {
        18 => true,
        22 => consistent_left(s, i, j),
        17 | 21 | 24 => consistent_plain(s, i, j),
        _ => false,
    }
}

// The same of a part: equal numbers agree at once, before any call.
#[cycle(consistency)]
fn consistent_half(s: &[u8], i: usize, j: usize) -> bool
    requires { TermsAt s.now i j }
    ensures { TermsSay s.now i j is_consistent result }
{
    if equal_numbers(s, i, j) {
        return true;
    }
    consistent(s, i, j)
}

// The same of a merge on the left, part by part.
#[cycle(consistency)]
fn consistent_left(s: &[u8], i: usize, j: usize) -> bool
    requires { LeftMerge s.now i j }
    ensures { TermsSay s.now i j is_consistent result }
{
    let mut k = i;
    let mut kind = kind_at(s, i);
    while kind == 22 {
        let x = read_cell(s, k);
        let (half, rest, next) = two_halves(s, x);
        if !consistent_half(s, half, j) {
            return false;
        }
        k = rest;
        kind = next;
    }
    consistent_half(s, k, j)
}

// A number, a function or a record on the left.
#[cycle(consistency)]
fn consistent_plain(s: &[u8], i: usize, j: usize) -> bool
    requires { PlainAt s.now i j }
    ensures { TermsSay s.now i j is_consistent result }
{
    let y = read_cell(s, j);
    match y.kind {
        18 => true,
        22 => consistent_right(s, i, j),
        17 | 21 | 24 => consistent_pair(s, i, j),
        _ => false,
    }
}

// The same against a merge, part by part: a loop a side, as for disjointness.
#[cycle(consistency)]
fn consistent_right(s: &[u8], i: usize, j: usize) -> bool
    requires { RightMerge s.now i j }
    ensures { TermsSay s.now i j is_consistent result }
{
    let mut k = j;
    let mut kind = kind_at(s, j);
    while kind == 22 {
        let y = read_cell(s, k);
        let (half, rest, next) = two_halves(s, y);
        if !each_half(s, i, half) {
            return false;
        }
        k = rest;
        kind = next;
    }
    each_half(s, i, k)
}

// The same against a part: equal numbers agree at once, before any call.
#[cycle(consistency)]
fn each_half(s: &[u8], i: usize, j: usize) -> bool
    requires { PlainAt s.now i j }
    ensures { TermsSay s.now i j is_consistent result }
{
    if equal_numbers(s, i, j) {
        return true;
    }
    consistent_plain(s, i, j)
}

// Two terms, each a number, a function or a record. Disjointness is asked only where two functions differ.
#[cycle(consistency)]
fn consistent_pair(s: &[u8], i: usize, j: usize) -> bool
    requires { PlainPair s.now i j }
    ensures { TermsSay s.now i j is_consistent result }
{
    let x = read_cell(s, i);
    let y = read_cell(s, j);
    if x.kind != y.kind {
        return true;
    }
    if x.kind == 17 {
        return same_tree(s, i, j);
    }
    if x.kind == 24 {
        return x.label != y.label || consistent_half(s, x.a, y.a);
    }
    if same_tree(s, x.b, y.b) && same_tree(s, x.a, y.a) {
        return true;
    }
    disjoint(s, x.c, y.c)
}

// Whether the term at i is a closed value.
#[cycle(closed_values)]
fn closed_value(s: &[u8], i: usize) -> bool
    requires { TermAt s.now i × (i < 131072) }
    ensures { TermSays s.now i is_closed_value result }
{
    let x = read_cell(s, i);
    match x.kind {
        22 => closed_parts(s, i),
        24 => closed_value(s, x.a),
        21 => closed(s, Use::ToTerm, x.a, 1),
        17 | 18 => true,
        _ => false,
    }
}

// The same of a merge, part by part: a loop of its own, as for disjointness.
#[cycle(closed_values)]
fn closed_parts(s: &[u8], i: usize) -> bool
    requires { MergeAt s.now i × (i < 131072) }
    ensures { TermSays s.now i is_closed_value result }
{
    let mut k = i;
    let mut kind = kind_at(s, i);
    while kind == 22 {
        let x = read_cell(s, k);
        let (half, rest, next) = two_halves(s, x);
        if !closed_half(s, half) {
            return false;
        }
        k = rest;
        kind = next;
    }
    closed_half(s, k)
}

// The same of a part: a number and the top value are closed values at once, before any call.
#[cycle(closed_values)]
fn closed_half(s: &[u8], i: usize) -> bool
    requires { TermAt s.now i × (i < 131072) }
    ensures { TermSays s.now i is_closed_value result }
{
    let k = kind_at(s, i);
    if k == 17 || k == 18 {
        return true;
    }
    closed_value(s, i)
}

// Whether the halves i and j of a merge, of the types at a and b, may stand together.
pub fn mergeable(s: &[u8], i: usize, j: usize, a: usize, b: usize) -> bool
    requires { HalvesAt s.now i j a b }
    ensures { HalvesSay s.now i j a b is_mergeable result }
{
    disjoint(s, a, b) || (closed_value(s, i) && (closed_value(s, j) && consistent(s, i, j)))
}
