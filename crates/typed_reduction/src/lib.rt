// Reading a value under a type. First it is decided, on the cells alone, which part of the value is read; then the reading is emitted, or, under
// Int, answered as the number that it is.
// Kinds and marks are numbers: document 01, "dispatch on kind numbers". s, d and m go side by side, as in emission.
#![tactic(auto)]

ghost use Rattle.typed_reduction.specs.Casting.{ValueAndType, Castable, ProperAt, SingleAt, FindsPart, PartOf};
ghost use Rattle.typed_reduction.specs.Casting.{CastReady, PartReady, EmitsCast, FunctionReady, EmitsFunction};
ghost use Rattle.std.specs.Prelude.{ℕ};
ghost use Rattle.typed_reduction.specs.Casting.{PartAt, FindsFirst};
ghost use Rattle.typed_reduction.specs.Casting.{ValueEnds, FindsNumber, NumberReady, ReadsNumber};

use cells::{Cell, read_cell};
use decisions::subtype;
use emission::{emit_run, emit_run_to, finish, finish_top};

// The first part of the value at v, no merge itself, that passes the test. No or_else, as in projection.
fn first_part<F: Fn(usize) -> bool>(s: &[u8], v: usize, test: &F) -> Option<usize>
    requires value { ValueEnds s.now v }
    requires tested { (p : ℕ) → PartAt s.now v p → F.pre test.now p }
    ensures { FindsFirst s.now v (F.post test.now) result }
{
    let x = read_cell(s, v);
    if x.kind == 22 {
        let left = first_part(s, x.a, test);
        if left.is_some() {
            return left;
        }
        return first_part(s, x.b, test);
    }
    test(v).then_some(v)
}

// Whether the value at v can be read under the type at a.
#[cycle(castability)]
pub fn is_castable(s: &[u8], v: usize, a: usize) -> bool
    requires { ValueAndType s.now v a }
    ensures { Castable s.now v a result }
{
    let y = read_cell(s, a);
    if y.c == 1 {
        return true;
    }
    if y.kind == 4 {
        if is_castable(s, v, y.a) {
            return is_castable(s, v, y.b);
        }
        return false;
    }
    find_part(s, v, a).is_some()
}

// The first part of the value at v, no merge itself, that can be read under the type at a, which is neither an intersection nor top-like.
#[cycle(castability)]
fn find_part(s: &[u8], v: usize, a: usize) -> Option<usize>
    requires { ProperAt s.now v a }
    ensures { FindsPart s.now v a result }
{
    let can_be_read = |p: usize| -> bool
        requires { SingleAt s.now p a }
        ensures { Castable s.entry.now p a result }
    { is_castable_part(s, p, a) };
    first_part(s, v, &can_be_read)
}

// Whether the part at v, no merge, can be read under such a type.
#[cycle(castability)]
fn is_castable_part(s: &[u8], v: usize, a: usize) -> bool
    requires { SingleAt s.now v a }
    ensures { Castable s.now v a result }
{
    let x = read_cell(s, v);
    let y = read_cell(s, a);
    if y.kind == 1 {
        return x.kind == 17;
    }
    if y.kind == 3 {
        if x.kind == 21 {
            if subtype(s, y.a, x.b) {
                return subtype(s, x.c, y.b);
            }
        }
        return false;
    }
    if x.kind == 24 {
        if x.label == y.label {
            return is_castable(s, x.a, y.a);
        }
    }
    false
}

// The part by which the value at v is read, if it can be read: a value that is no merge is that part, so that nothing is asked of it.
fn part_of(s: &[u8], v: usize, a: usize) -> Option<usize>
    requires { ProperAt s.now v a }
    ensures { PartOf s.now v a result }
{
    let x = read_cell(s, v);
    if x.kind == 22 {
        return find_part(s, v, a);
    }
    Some(v)
}

// The function at p with the output type of the function type at a.
fn emit_function(s: &[u8], d: &mut [u8], p: usize, a: usize, m: usize) -> Option<usize>
    requires { FunctionReady s.now d.old p a m }
    ensures { EmitsFunction s.now d.old d.new p a m result }
{
    let f = read_cell(s, p);
    let t = read_cell(s, a);
    let x = emit_run_to(s, d, f.a, m)?;
    let y = emit_run(s, d, f.a + 1, f.b + 1, x)?;
    let z = emit_run(s, d, t.a + 1, t.b + 1, y)?;
    finish(
        d,
        z,
        Cell {
            kind: 21,
            label: 0,
            a: x - 1,
            b: y - 1,
            c: z - 1,
        },
    )
}

// Emits the reading of the value at v under the type at a.
#[cycle(casting)]
pub fn emit_value_cast(s: &[u8], d: &mut [u8], v: usize, a: usize, m: usize) -> Option<usize>
    requires { CastReady s.now d.old v a m }
    ensures { EmitsCast s.now d.old d.new v a m result }
{
    let t = read_cell(s, a);
    if t.c == 1 && t.kind != 4 {
        return finish_top(d, m);
    }
    if t.kind != 4 {
        return emit_part(s, d, v, a, m);
    }
    let x = emit_value_cast(s, d, v, t.a, m)?;
    let y = emit_value_cast(s, d, v, t.b, x)?;
    finish(
        d,
        y,
        Cell {
            kind: 22,
            label: 0,
            a: x - 1,
            b: y - 1,
            c: 0,
        },
    )
}

// The same under a type that is neither an intersection nor top-like.
#[cycle(casting)]
fn emit_part(s: &[u8], d: &mut [u8], v: usize, a: usize, m: usize) -> Option<usize>
    requires { PartReady s.now d.old v a m }
    ensures { EmitsCast s.now d.old d.new v a m result }
{
    let p = part_of(s, v, a)?;
    let y = read_cell(s, a);
    if y.kind == 3 {
        return emit_function(s, d, p, a, m);
    }
    let x = read_cell(s, p);
    if y.kind == 1 {
        return finish(
            d,
            m,
            Cell {
                kind: 17,
                label: 0,
                ..x
            },
        );
    }
    let z = emit_value_cast(s, d, x.a, y.a, m)?;
    finish(
        d,
        z,
        Cell {
            kind: 24,
            label: x.label,
            a: z - 1,
            b: 0,
            c: 0,
        },
    )
}

// The first part of the value at v that is a number: by it the value is read under Int.
fn number_part(s: &[u8], v: usize) -> Option<usize>
    requires { ValueEnds s.now v }
    ensures { FindsNumber s.now v result }
{
    first_part(s, v, &|p| read_cell(s, p).kind == 17)
}

// The number that the value at v is read as under Int, as it is stored: 48 bits.
pub fn read_number(s: &[u8], v: usize) -> usize
    requires { NumberReady s.now v }
    ensures { ReadsNumber s.now v result }
{
    let Some(p) = number_part(s, v) else {
        return 0;
    };
    let x = read_cell(s, p);
    x.a + 65536 * (x.b + 65536 * x.c)
}
