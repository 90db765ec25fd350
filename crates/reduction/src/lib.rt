// Contraction: what a redex becomes, emitted into another buffer as far as there is room.
// Kinds and marks are numbers: document 01, "dispatch on kind numbers". s, d and m go side by side, as in emission.
#![tactic(auto)]

ghost use Rattle.reduction.specs.Steps.{SourceReady, EmitsSource};
ghost use Rattle.reduction.specs.Steps.{FieldSubstituteReady, EmitsSubstitutedField, SubstituteReady, VariableReady, EmitsSubstituted, InstanceReady, EmitsInstance};
ghost use Rattle.reduction.specs.Steps.{AnnotateReady, EmitsAnnotated, ContractReady, ContractAt, EmitsContractum};

use cells::{Cell, Use, binders, entry_of, read_cell};
use emission::{emit_run, emit_run_to, finish, finish_row, finish_top, start_of};
use typed_reduction::{emit_value_cast, read_number};

// What is substituted for a variable: the reading of the value at a cell under the type at another; or a term as it stands, the run of
// cells from start to last. It goes down a body by reference, one word at each level.
#[derive(Clone, Copy)]
pub enum Source {
    Reading { value: usize, under: usize },
    Standing { start: usize, last: usize },
}

// What is substituted for a variable, emitted.
fn emit_source(s: &[u8], d: &mut [u8], p: &Source, m: usize) -> Option<usize>
    requires { SourceReady s.now d.old m p.now }
    ensures { EmitsSource s.now d.old d.new m p.now result }
{
    match *p {
        Source::Reading { value, under } => emit_value_cast(s, d, value, under, m),
        Source::Standing { start, last } => emit_run(s, d, start, last + 1, m),
    }
}

// A variable of a body: the source for the one that skips k binders, any other as it stands.
fn substitute_variable(
    s: &[u8],
    d: &mut [u8],
    i: usize,
    k: usize,
    p: &Source,
    m: usize,
) -> Option<usize>
    requires { VariableReady s.now d.old i k m p.now }
    ensures { EmitsSubstituted s.now d.old d.new i k m p.now result }
{
    let t = read_cell(s, i);
    if t.a == k {
        return emit_source(s, d, p, m);
    }
    finish(
        d,
        m,
        Cell {
            kind: 16,
            label: 0,
            a: t.a,
            b: 0,
            c: 0,
        },
    )
}

// A field of a body: a term has the source substituted, all else is copied.
#[cycle(substituting)]
fn substitute_field(
    s: &[u8],
    d: &mut [u8],
    u: Use,
    n: usize,
    k: usize,
    p: &Source,
    m: usize,
) -> Option<usize>
    requires { FieldSubstituteReady s.now d.old u n k m p.now }
    ensures { EmitsSubstitutedField s.now d.old d.new u n k m p.now result }
{
    match u {
        Use::Unused | Use::Plain => Some(m),
        Use::ToType => emit_run_to(s, d, n, m),
        Use::ToTerm => emit_substituted(s, d, n, k, p, m),
    }
}

// The body at i with the source substituted for the variable that skips k binders.
#[cycle(substituting)]
fn emit_substituted(
    s: &[u8],
    d: &mut [u8],
    i: usize,
    k: usize,
    p: &Source,
    m: usize,
) -> Option<usize>
    requires { SubstituteReady s.now d.old i k m p.now }
    ensures { EmitsSubstituted s.now d.old d.new i k m p.now result }
{
    let t = read_cell(s, i);
    if t.kind == 16 {
        return substitute_variable(s, d, i, k, p, m);
    }
    let e = entry_of(t.kind);
    let inner = binders(t.kind, k);
    let x = substitute_field(s, d, e.a, t.a, inner, p, m)?;
    let y = substitute_field(s, d, e.b, t.b, k, p, x)?;
    let z = substitute_field(s, d, e.c, t.c, k, p, y)?;
    finish_row(d, t, e, x, y, z)
}

// A body with the source substituted for variable 0, annotated with the type at a.
fn emit_instance(
    s: &[u8],
    d: &mut [u8],
    body: usize,
    p: Source,
    a: usize,
    m: usize,
) -> Option<usize>
    requires { InstanceReady s.now d.old body a m p }
    ensures { EmitsInstance s.now d.old d.new body a m p result }
{
    let x = emit_substituted(s, d, body, 0, &p, m)?;
    let y = emit_run_to(s, d, a, x)?;
    finish(
        d,
        y,
        Cell {
            kind: 19,
            label: 0,
            a: x - 1,
            b: y - 1,
            c: 0,
        },
    )
}

// A value applied to a value: the top value gives itself, a function its body with the argument read.
fn next_apply(s: &[u8], d: &mut [u8], i: usize, m: usize) -> Option<usize>
    requires { ContractAt s.now d.old i m 20 }
    ensures { EmitsContractum s.now d.old d.new i m result }
{
    let t = read_cell(s, i);
    let f = read_cell(s, t.a);
    if f.kind == 18 {
        return finish_top(d, m);
    }
    let argument = Source::Reading {
        value: t.b,
        under: f.b,
    };
    emit_instance(s, d, f.a, argument, f.c, m)
}

// The fixpoint itself is substituted for its variable.
fn next_fix(s: &[u8], d: &mut [u8], i: usize, m: usize) -> Option<usize>
    requires { ContractAt s.now d.old i m 23 }
    ensures { EmitsContractum s.now d.old d.new i m result }
{
    let t = read_cell(s, i);
    let start = start_of(s, i);
    let itself = Source::Standing { start, last: i };
    emit_instance(s, d, t.a, itself, t.b, m)
}

// The term at i, annotated Int.
fn emit_annotated(s: &[u8], d: &mut [u8], i: usize, m: usize) -> Option<usize>
    requires { AnnotateReady s.now d.old i m }
    ensures { EmitsAnnotated s.now d.old d.new i m result }
{
    let x = emit_run_to(s, d, i, m)?;
    let y = finish(
        d,
        x,
        Cell {
            kind: 1,
            label: 0,
            a: 0,
            b: 0,
            c: 0,
        },
    )?;
    finish(
        d,
        y,
        Cell {
            kind: 19,
            label: 0,
            a: x - 1,
            b: y - 1,
            c: 0,
        },
    )
}

// A choice whose tested part is a value: b for zero, c for anything else, annotated Int.
fn next_choice(s: &[u8], d: &mut [u8], i: usize, m: usize) -> Option<usize>
    requires { ContractAt s.now d.old i m 27 }
    ensures { EmitsContractum s.now d.old d.new i m result }
{
    let t = read_cell(s, i);
    let tested = read_number(s, t.a);
    if tested == 0 {
        return emit_annotated(s, d, t.b, m);
    }
    emit_annotated(s, d, t.c, m)
}

// Emits what the redex at i becomes: an annotated value, a value applied to a value, a choice by a value, a fixpoint.
pub fn emit_contractum(s: &[u8], d: &mut [u8], i: usize, m: usize) -> Option<usize>
    requires { ContractReady s.now d.old i m }
    ensures { EmitsContractum s.now d.old d.new i m result }
{
    let t = read_cell(s, i);
    match t.kind {
        19 => emit_value_cast(s, d, t.a, t.b, m),
        20 => next_apply(s, d, i, m),
        27 => next_choice(s, d, i, m),
        _ => next_fix(s, d, i, m),
    }
}
