// The turns of a run. The run keeps its place: what is done, values only, lies at the start of the work buffer, what is to come at its end in
// the order of encoding, and the gap between them moves through the term. A cell that waits for a part says where the cell around it
// is, so there is no stack. A step contracts the redex alone, by way of a buffer that keeps nothing between steps. The state is small and
// goes by value.
// The buffers s and w go beside it, lent anew to each call: a state that held them could take no turns with another over one s. A cell t that was
// read goes beside its place p: that it stands there is a fact of w, which no type of p and t can keep. Cells are named by their numbers in the lent
// buffers: there is no heap. Kinds and marks are numbers: document 01, "dispatch on kind numbers".
#![tactic(auto)]

ghost use Rattle.std.specs.Prelude.{◌≡◌, ◌<◌};
ghost use Rattle.format.specs.Version.{half_of};
ghost use Rattle.cells.specs.Coded.{as_cell};
ghost use Rattle.running.specs.Places.{Taking, third_of, Descending, Entering, Enters, Leaving, Leaves, WaitingOne, WaitingFirst, WaitingSecond, FocusReady, Settles};
ghost use Rattle.running.specs.Places.{focus_place, GapWithin, standing_cells_lem};
ghost use Rattle.running.specs.Places.{done_at, Becomes, BecomesAny, AtRedex, SingleReady, BecomesSingle, BecomesTop, RedexAt, MergeAt, TopAt, FunctionAt, CastsInPlace};
ghost use Rattle.running.specs.Places.{Installing, Halving, Installs, Contracting, ContractingAnno, Emitting, Contracts, ContractsAny};
ghost use Rattle.running.specs.Places.{Unwinding, Unwinds, RestoreReady, Restores, Rebuilds};
ghost use Rattle.running.specs.Turns.{StepReady, Starts, TurnReady, Steps, WholeReady, EncodesWhole, Runs};

use answers::Stop;
use cells::{Cell, Use, read_cell, write_cell};
use format::Version;
use layout::encode_in_place;
use moving::{place, shift};
use numbers::{add_held, half_of};
use projection::value_part;
use reduction::emit_contractum;
use std::ops::ControlFlow;
use typed_reduction::read_number;

// The first left cells are done, those from right on are to come. The focus has the cells from start on among those done, and among those
// to come the cells up to root. The cell up waits for it; 0: none does, and no Option, since a cell that waits has up in a field.
#[derive(Clone, Copy)]
pub struct Place {
    pub left: usize,
    pub start: usize,
    pub right: usize,
    pub root: usize,
    pub up: usize,
}

#[derive(Clone, Copy)]
pub enum Focus {
    // to come, whole
    Ahead(Place),
    // a value, done, whole
    Done(Place),
    // a redex: its parts are done but for a type, a fixpoint and the branches of a choice; its cell is root
    Redex(Place),
    // a value, done, the whole term
    Whole(Place),
}

// The focus, the steps taken and the greatest size of any term so far. The version of the book, by which sums are held, goes with it.
#[derive(Clone, Copy)]
pub struct State {
    pub focus: Focus,
    pub steps: u32,
    pub mark: usize,
}

// How a run ended: the cells of the term reached, and the greatest size of any term.
#[derive(Clone, Copy)]
pub struct End {
    pub stop: Stop,
    pub cells: usize,
    pub mark: usize,
}

impl Place {
    // The cells on both sides of the gap.
    fn cells(self) -> usize
        requires { GapWithin self }
        ensures { result ≡ standing_cells_lem self }
    {
        self.left + (8192 - self.right)
    }
}

impl Focus {
    fn place(self) -> Place
        ensures { result ≡ focus_place self }
    {
        match self {
            Focus::Ahead(p) | Focus::Done(p) | Focus::Redex(p) | Focus::Whole(p) => p,
        }
    }
}

// A focus that is to come and a value at sight: it is taken over the gap.
fn take(w: &mut [u8], p: Place) -> Focus
    requires { Taking w.old p }
    ensures { Enters w.old w.new p result }
{
    let n = p.root + 1 - p.right;
    shift(w, p.right, p.left, n);
    Focus::Done(Place {
        left: p.left + n,
        right: p.root + 1,
        ..p
    })
}

// Field c of the cell t while it waits for its first part: a choice keeps its third part, of every other kind it is 0.
fn third(t: Cell) -> usize
    ensures { result ≡ third_of (as_cell t) }
{
    if t.kind == 27 {
        return t.c;
    }
    0
}

// The cell t of a focus that is to come waits for its first part.
fn descend(w: &mut [u8], p: Place, t: Cell) -> Focus
    requires { Descending w.old p (as_cell t) }
    ensures { Enters w.old w.new p result }
{
    write_cell(
        w,
        p.root,
        Cell {
            a: p.up,
            c: third(t),
            ..t
        },
    );
    Focus::Ahead(Place {
        root: t.a,
        up: p.root,
        ..p
    })
}

// A focus that is to come: a number, the top value or a function is done, a fixpoint is a redex, all else waits for its first part.
fn enter(w: &mut [u8], p: Place) -> Focus
    requires { Entering w.old p }
    ensures { Enters w.old w.new p result }
{
    let t = read_cell(w, p.root);
    match t.kind {
        17 | 18 | 21 => take(w, p),
        23 => Focus::Redex(p),
        _ => descend(w, p, t),
    }
}

// The first part of the waiting cell t is a value, and t waits for no second: a record is done, all else is a redex.
fn single(w: &mut [u8], p: Place, t: Cell) -> Focus
    requires { WaitingOne w.old p (as_cell t) }
    ensures { Leaves w.old w.new p result }
{
    let whole = Cell { a: p.left - 1, ..t };
    if t.kind == 24 {
        write_cell(w, p.left, whole);
        return Focus::Done(Place {
            left: p.left + 1,
            right: p.right + 1,
            up: t.a,
            ..p
        });
    }
    write_cell(w, p.up, whole);
    Focus::Redex(Place {
        root: p.up,
        up: t.a,
        ..p
    })
}

// The first part of the waiting cell t is a value: t waits for its second. Then field c has the start, one higher, of others 0: a field, so no Option.
fn second(w: &mut [u8], p: Place, t: Cell) -> Focus
    requires { WaitingFirst w.old p (as_cell t) }
    ensures { Leaves w.old w.new p result }
{
    write_cell(
        w,
        p.up,
        Cell {
            a: p.left - 1,
            b: t.a,
            c: p.start + 1,
            ..t
        },
    );
    Focus::Ahead(Place {
        start: p.left,
        root: t.b,
        ..p
    })
}

// Both parts of the waiting cell t are values: a merge is done, an application or a sum is a redex.
fn both(w: &mut [u8], p: Place, t: Cell) -> Focus
    requires { WaitingSecond w.old p (as_cell t) }
    ensures { Leaves w.old w.new p result }
{
    let whole = Cell {
        b: p.left - 1,
        c: 0,
        ..t
    };
    if t.kind == 22 {
        write_cell(w, p.left, whole);
        return Focus::Done(Place {
            left: p.left + 1,
            start: t.c - 1,
            right: p.right + 1,
            up: t.b,
            ..p
        });
    }
    write_cell(w, p.up, whole);
    Focus::Redex(Place {
        start: t.c - 1,
        root: p.up,
        up: t.b,
        ..p
    })
}

// A focus that is a value: the whole term, or a part for which a cell waits.
fn leave(w: &mut [u8], p: Place) -> Focus
    requires { Leaving w.old p }
    ensures { Leaves w.old w.new p result }
{
    if p.up == 0 {
        return Focus::Whole(p);
    }
    let t = read_cell(w, p.up);
    match t.kind {
        20 | 22 | 26 => {
            if t.c == 0 {
                second(w, p, t)
            } else {
                both(w, p, t)
            }
        }
        _ => single(w, p, t),
    }
}

// The focus moves to the redex, or to the whole term if that is a value.
fn settle(w: &mut [u8], x: Focus) -> Focus
    requires { FocusReady w.old x }
    ensures { Settles w.old w.new x result }
{
    let mut focus = x;
    loop {
        focus = match focus {
            Focus::Ahead(p) => enter(w, p),
            Focus::Done(p) => leave(w, p),
            Focus::Redex(_) | Focus::Whole(_) => return focus,
        };
    }
}

// The redex has become a value that ends before left.
fn became(p: Place, left: usize) -> Focus
    requires { p.root < 8192 }
    ensures { result ≡ done_at p left }
{
    Focus::Done(Place {
        left,
        right: p.root + 1,
        ..p
    })
}

// A value of one cell, t, takes the place of the redex.
fn become_single(w: &mut [u8], p: Place, t: Cell) -> Focus
    requires { SingleReady w.old p (as_cell t) }
    ensures { BecomesSingle w.old w.new p (as_cell t) result }
{
    write_cell(w, p.start, t);
    became(p, p.start + 1)
}

// The top value takes the place of the redex.
fn become_top(w: &mut [u8], p: Place) -> Focus
    requires { AtRedex w.old p }
    ensures { BecomesTop w.old w.new p result }
{
    become_single(
        w,
        p,
        Cell {
            kind: 18,
            label: 0,
            a: 0,
            b: 0,
            c: 0,
        },
    )
}

// A sum of two values, t: both are read under Int, and the number that the sum is held to takes its place.
fn sum(w: &mut [u8], p: Place, t: Cell, version: Version) -> Focus
    requires { RedexAt w.old p (as_cell t) 26 }
    ensures { Becomes (half_of version) w.old w.new p result }
{
    let x = read_number(w, t.a);
    let y = read_number(w, t.b);
    let z = add_held(x, y, half_of(version));
    become_single(
        w,
        p,
        Cell {
            kind: 17,
            label: 0,
            a: z % 65536,
            b: z / 65536 % 65536,
            c: z / 65536 / 65536,
        },
    )
}

// A field read of a merge, t: the content of the first part that has the field moves to where the merge begins. If no part has it, the top value.
fn project_merge(w: &mut [u8], p: Place, t: Cell) -> Focus
    requires { MergeAt w.old p (as_cell t) }
    ensures { BecomesAny w.old w.new p result }
{
    let Some(cells) = value_part(w, p.start, t.a, t.label) else {
        return become_top(w, p);
    };
    let n = cells.end - cells.start;
    shift(w, cells.start, p.start, n);
    became(p, p.start + n)
}

// A field read of a value, t: the top value stays, of a record the content, of a merge that of a part.
fn project(w: &mut [u8], p: Place, t: Cell) -> Focus
    requires { RedexAt w.old p (as_cell t) 25 }
    ensures { BecomesAny w.old w.new p result }
{
    let v = read_cell(w, t.a);
    match v.kind {
        18 => became(p, p.left),
        22 => project_merge(w, p, t),
        _ => became(p, p.left - 1),
    }
}

// A value under a top-like type y that is no intersection: the top value.
fn cast_top(w: &mut [u8], p: Place, t: Cell, y: Cell) -> Focus
    requires { TopAt w.old p (as_cell t) (as_cell y) }
    ensures { BecomesAny w.old w.new p result }
{
    become_top(w, p)
}

// The function v under the function type y: body and input stay, the output's cells come behind them, and the last cell is written anew.
fn retype(w: &mut [u8], p: Place, t: Cell, v: Cell, y: Cell) -> Focus
    requires { FunctionAt w.old p (as_cell t) (as_cell v) (as_cell y) }
    ensures { BecomesAny w.old w.new p result }
{
    let at = v.b + 1;
    let n = y.b - y.a;
    shift(w, y.a + 1, at, n);
    write_cell(
        w,
        at + n,
        Cell {
            kind: 21,
            label: 0,
            a: v.a,
            b: v.b,
            c: at + n - 1,
        },
    );
    became(p, at + n + 1)
}

// A value under a type, where its reading is short to say: the top value, a number, a function that is no part of a merge.
fn cast_in_place(w: &mut [u8], p: Place, t: Cell) -> Option<Focus>
    requires { RedexAt w.old p (as_cell t) 19 }
    ensures { CastsInPlace w.old w.new p result }
{
    let y = read_cell(w, t.b);
    if y.kind == 4 {
        return None;
    }
    if y.c == 1 {
        return Some(cast_top(w, p, t, y));
    }
    let v = read_cell(w, t.a);
    match (v.kind, y.kind) {
        (21, 3) => Some(retype(w, p, t, v, y)),
        (17, 1) => Some(became(p, p.left)),
        _ => None,
    }
}

// m and end go side by side: emit_contractum takes the one and answers the other. What a redex became, a function at cell a of s and its annotation: the function is done, its type is to come, and the annotation is a redex.
fn install_halves(
    s: &[u8],
    w: &mut [u8],
    p: Place,
    kind: u8,
    m: usize,
    end: usize,
    a: usize,
) -> Focus
    requires { Halving s.now w.old p kind m end a }
    ensures { Installs s.now w.old w.new p kind m end result }
{
    let done = a + 1 - m;
    let left = p.start + done;
    place(s, w, m, p.start, done);
    let n = end - 2 - a;
    let right = p.root - n;
    place(s, w, a + 1, right, n);
    write_cell(
        w,
        p.root,
        Cell {
            kind: 19,
            label: 0,
            a: left - 1,
            b: p.root - 1,
            c: 0,
        },
    );
    Focus::Redex(Place { left, right, ..p })
}

// What a redex became, whole: it is to come.
fn install_ahead(s: &[u8], w: &mut [u8], p: Place, kind: u8, m: usize, end: usize) -> Focus
    requires { Installing s.now w.old p kind m end }
    ensures { Installs s.now w.old w.new p kind m end result }
{
    let n = end - m;
    let right = p.root + 1 - n;
    place(s, w, m, right, n);
    Focus::Ahead(Place {
        left: p.start,
        right,
        ..p
    })
}

// What a redex of this kind became, encoded in s from cell m on before end, comes to the work buffer: a value is done, a function under its
// annotation too, all else is to come.
fn install(s: &[u8], w: &mut [u8], p: Place, kind: u8, m: usize, end: usize) -> Focus
    requires { Installing s.now w.old p kind m end }
    ensures { Installs s.now w.old w.new p kind m end result }
{
    if kind == 19 {
        let n = end - m;
        place(s, w, m, p.start, n);
        return became(p, p.start + n);
    }
    let t = read_cell(s, end - 1);
    if t.kind == 19 {
        let a = t.a;
        if read_cell(s, a).kind == 21 {
            return install_halves(s, w, p, kind, m, end, a);
        }
    }
    install_ahead(s, w, p, kind, m, end)
}

// The redex t is contracted by way of s where the whole successor has room. It is emitted from as many cells on as stand around it, so that
// the test of emission is that of the whole.
fn contract_through(s: &mut [u8], w: &mut [u8], p: Place, t: Cell) -> Option<Focus>
    requires { Emitting s.old w.old p (as_cell t) }
    ensures { ContractsAny w.old w.new p result }
{
    let m = p.start + 8191 - p.root;
    let end = emit_contractum(w, s, p.root, m)?;
    Some(install(s, w, p, t.kind, m, end))
}

// An annotated value, t. Matched by hand: or_else says nothing of the buffer that its closure holds.
fn contract_anno(s: &mut [u8], w: &mut [u8], p: Place, t: Cell) -> Option<Focus>
    requires { ContractingAnno s.old w.old p (as_cell t) }
    ensures { ContractsAny w.old w.new p result }
{
    match cast_in_place(w, p, t) {
        Some(x) => Some(x),
        None => contract_through(s, w, p, t),
    }
}

// A redex, by its kind; sums are held by the version.
fn contract(s: &mut [u8], w: &mut [u8], p: Place, version: Version) -> Option<Focus>
    requires { Contracting s.old w.old p }
    ensures { Contracts (half_of version) w.old w.new p result }
{
    let t = read_cell(w, p.root);
    match t.kind {
        19 => contract_anno(s, w, p, t),
        25 => Some(project(w, p, t)),
        26 => Some(sum(w, p, t, version)),
        _ => contract_through(s, w, p, t),
    }
}

// One turn: value, then spent, then room; a turn that ends the run leaves the focus where it is. A term that is reached counts for the mark. Of s
// nothing is decided.
pub fn step(
    s: &mut [u8],
    w: &mut [u8],
    state: State,
    limit: u32,
    version: Version,
) -> ControlFlow<Stop, State>
    requires { TurnReady s.old w.old state limit }
    ensures { Steps version w.old w.new state limit result }
{
    let k = state.steps;
    let Focus::Redex(p) = state.focus else {
        return ControlFlow::Break(Stop::Value(k));
    };
    if k == limit {
        return ControlFlow::Break(Stop::Spent(k));
    }
    let Some(x) = contract(s, w, p, version) else {
        return ControlFlow::Break(Stop::Room(k));
    };
    let focus = settle(w, x);
    let n = focus.place().cells();
    ControlFlow::Continue(State {
        focus,
        steps: k + 1,
        mark: state.mark.max(n),
    })
}

// The waiting cell up is whole again with its part at child; answers the cell that waits around it.
fn restore(w: &mut [u8], up: usize, child: usize) -> usize
    requires { RestoreReady w.old up child }
    ensures { Restores w.old w.new up child result }
{
    let t = read_cell(w, up);
    if t.c == 0 || t.kind == 27 {
        write_cell(w, up, Cell { a: child, ..t });
        return t.a;
    }
    write_cell(
        w,
        up,
        Cell {
            b: child,
            c: 0,
            ..t
        },
    );
    t.b
}

// All waiting cells are made whole, the innermost, up, first; answers the root.
fn unwind(w: &mut [u8], up: usize, child: usize) -> usize
    requires { Unwinding w.old up child }
    ensures { Unwinds w.old w.new up child result }
{
    let mut around = up;
    let mut root = child;
    while around > 0 {
        let next = restore(w, around, root);
        root = around;
        around = next;
    }
    root
}

// All waiting cells are made whole; answers the cell that holds the term.
fn rebuild(w: &mut [u8], focus: Focus) -> usize
    requires { FocusReady w.old focus }
    ensures { Rebuilds w.old w.new focus result }
{
    match focus {
        Focus::Ahead(p) | Focus::Redex(p) => unwind(w, p.up, p.root),
        Focus::Done(p) | Focus::Whole(p) => unwind(w, p.up, p.left - 1),
    }
}

// The whole term, encoded from cell 0 on; answers its cells.
pub fn encode_whole(s: &mut [u8], w: &mut [u8], focus: Focus) -> usize
    requires { WholeReady s.old w.old focus }
    ensures { EncodesWhole w.old w.new focus result }
{
    let root = rebuild(w, focus);
    encode_in_place(s, w, Use::ToTerm, root)
}

// The term encoded in the first n cells of the work buffer has its place. No slice: the run moves them into the whole buffer.
pub fn start(s: &mut [u8], w: &mut [u8], n: usize) -> Focus
    requires { StepReady s.old w.old n }
    ensures { Starts w.old w.new n result }
{
    s[..8 * n].copy_from_slice(&w[..8 * n]);
    place(s, w, 0, 8192 - n, n);
    settle(
        w,
        Focus::Ahead(Place {
            left: 0,
            start: 0,
            right: 8192 - n,
            root: 8191,
            up: 0,
        }),
    )
}

// Steps until the term is a value, the limit is taken, or there is no room. Of s nothing is decided.
pub fn run_on(s: &mut [u8], w: &mut [u8], n: usize, limit: u32, version: Version) -> End
    requires { StepReady s.old w.old n }
    ensures { Runs version w.old w.new n limit result }
{
    let mut state = State {
        focus: start(s, w, n),
        steps: 0,
        mark: n,
    };
    loop {
        match step(s, w, state, limit, version) {
            ControlFlow::Continue(next) => state = next,
            ControlFlow::Break(stop) => {
                let cells = encode_whole(s, w, state.focus);
                let mark = state.mark;
                return End { stop, cells, mark };
            }
        }
    }
}
