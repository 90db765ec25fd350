// Finding a type and checking against one, over a buffer that holds a book's cells and, above them, the type and context cells that
// typing adds. A found type is a cell number, never a copy. The term's cell number falls from call to call, checking before finding.
// Kinds and marks are numbers, and dispatch is on them (document 01). Cells are named by number in one buffer of fixed length: no heap.
#![tactic(auto)]

ghost use Rattle.std.specs.Prelude.{◌≡◌, ◌+◌, ◌*◌, ◌≤◌, length};
ghost use Rattle.calculus.specs.Infer.{is_mergeable};
ghost use Rattle.calculus.specs.Decide.{is_below};
ghost use Rattle.format.specs.Cell.{cell_at};
ghost use Rattle.cells.specs.Coded.{as_cell};
ghost use Rattle.decisions.specs.Questions.{TypesAt, TypesSay, HalvesAt, HalvesSay};
ghost use Rattle.projection.specs.Parts.{TypeAt, FindsFieldPart};
ghost use Rattle.typing.specs.Finding.{FindReady, ReadyAt, Finds, ReadyFor, Checks, ContextAt, Looks};
ghost use Rattle.typing.specs.Finding.{RoomFor, Adds, BinderBelow, Binds, TypesBelow, AddsInter, FindFieldReady, FindsField};

use answers::Refusal;
use cells::{Cell, read_cell, write_cell};
use decisions::{mergeable, subtype};
use projection::{FieldPart, type_part};

// The cell of Int, and the one of Top.
const INT: Cell = Cell {
    kind: 1,
    label: 0,
    a: 0,
    b: 0,
    c: 0,
};

const TOP: Cell = Cell {
    kind: 2,
    label: 0,
    a: 0,
    b: 0,
    c: 1,
};

// A buffer of cells, of which the first `used` are taken: those of a book and, above them, the ones that typing adds. No Vec: fixed memory.
#[derive(Drop)]
pub struct Types<'a> {
    pub cells: &'a mut [u8],
    pub used: usize,
}

// `same` in each contract, that the buffer is the one lent, is a fact of two states, which no invariant says; c and i are what a question is about.
impl Types<'_> {
    // What is asked of the cells leaves them as they are: these four lend `&self`, so that this needs no proof at the calls.
    fn read(&self, i: usize) -> Cell
        requires { 8 * i + 8 ≤ length self.now.cells.now }
        ensures { as_cell result ≡ cell_at self.now.cells.now i }
    {
        read_cell(self.cells, i)
    }

    fn subtype(&self, a: usize, b: usize) -> bool
        requires { TypesAt self.now.cells.now a b }
        ensures { TypesSay self.now.cells.now a b is_below result }
    {
        subtype(self.cells, a, b)
    }

    fn mergeable(&self, i: usize, j: usize, a: usize, b: usize) -> bool
        requires { HalvesAt self.now.cells.now i j a b }
        ensures { HalvesSay self.now.cells.now i j a b is_mergeable result }
    {
        mergeable(self.cells, i, j, a, b)
    }

    fn part(&self, a: usize, label: u8) -> FieldPart
        requires { TypeAt self.now.cells.now a }
        ensures { FindsFieldPart self.now.cells.now a label result }
    {
        type_part(self.cells, a, label)
    }

    // The cell of the type of the variable that skips k binders of the context at c; none: the variable is free. 0 is the empty
    // context, and no Option: a binder's cell has the one around it in field b.
    fn lookup(&self, c: usize, k: usize) -> Option<usize>
        requires { ContextAt self.now.cells.now c }
        ensures { Looks self.now.cells.now c k result }
    {
        if c == 0 {
            return None;
        }
        let t = self.read(c);
        if k == 0 {
            return Some(t.a);
        }
        self.lookup(t.b, k - 1)
    }

    // A cell more, of a type or a binder, and its number.
    fn add(&mut self, t: Cell) -> usize
        requires { RoomFor self.old.cells.now self.old.used t }
        ensures same { self.new.cells.ghost_name ≡ self.old.cells.ghost_name }
        ensures adds { Adds self.old.cells.now self.new.cells.now self.old.used self.new.used t result }
    {
        let n = self.used;
        write_cell(self.cells, n, t);
        self.used = n + 1;
        n
    }

    fn find_var(&mut self, c: usize, i: usize) -> Result<usize, Refusal>
        requires { ReadyAt self.old.cells.now self.old.used c i 16 }
        ensures same { self.new.cells.ghost_name ≡ self.old.cells.ghost_name }
        ensures finds { Finds self.old.cells.now self.new.cells.now self.old.used self.new.used c i result }
    {
        let t = self.read(i);
        self.lookup(c, t.a).ok_or(Refusal::Unbound(i))
    }

    #[cycle(finding)]
    fn find_anno(&mut self, c: usize, i: usize) -> Result<usize, Refusal>
        requires { ReadyAt self.old.cells.now self.old.used c i 19 }
        ensures same { self.new.cells.ghost_name ≡ self.old.cells.ghost_name }
        ensures finds { Finds self.old.cells.now self.new.cells.now self.old.used self.new.used c i result }
    {
        let t = self.read(i);
        self.check(c, t.a, t.b)
    }

    // 12 is tested before the right side is walked. No `?` for the left: document 01 names
    // `let .. else` for it, "its refusal handed on before the right is walked".
    #[cycle(finding)]
    fn find_app(&mut self, c: usize, i: usize) -> Result<usize, Refusal>
        requires { ReadyAt self.old.cells.now self.old.used c i 20 }
        ensures same { self.new.cells.ghost_name ≡ self.old.cells.ghost_name }
        ensures finds { Finds self.old.cells.now self.new.cells.now self.old.used self.new.used c i result }
    {
        let t = self.read(i);
        let left = self.find_left(c, t.a);
        let Ok(f) = left else {
            return left;
        };
        let g = self.read(f);
        match g.kind {
            2 => self.check(c, t.b, f),
            3 => {
                self.check(c, t.b, g.a)?;
                Ok(g.b)
            }
            _ => Err(Refusal::Application(i)),
        }
    }

    // The context c with one binder more, of the type at a.
    fn bind(&mut self, a: usize, c: usize) -> usize
        requires { BinderBelow self.old.cells.now self.old.used a c }
        ensures same { self.new.cells.ghost_name ≡ self.old.cells.ghost_name }
        ensures binds { Binds self.old.cells.now self.new.cells.now self.old.used self.new.used a c result }
    {
        let binder = Cell {
            kind: 0,
            label: 0,
            a,
            b: c,
            c: 0,
        };
        self.add(binder)
    }

    #[cycle(finding)]
    fn find_lam(&mut self, c: usize, i: usize) -> Result<usize, Refusal>
        requires { ReadyAt self.old.cells.now self.old.used c i 21 }
        ensures same { self.new.cells.ghost_name ≡ self.old.cells.ghost_name }
        ensures finds { Finds self.old.cells.now self.new.cells.now self.old.used self.new.used c i result }
    {
        let t = self.read(i);
        let inner = self.bind(t.b, c);
        self.check(inner, t.a, t.c)?;
        let output = self.read(t.c);
        let arrow = Cell {
            kind: 3,
            label: 0,
            a: t.b,
            b: t.c,
            c: output.c,
        };
        Ok(self.add(arrow))
    }

    // The intersection of two types, in a cell of its own.
    fn add_inter(&mut self, a: usize, b: usize) -> usize
        requires { TypesBelow self.old.cells.now self.old.used a b }
        ensures same { self.new.cells.ghost_name ≡ self.old.cells.ghost_name }
        ensures adds { AddsInter self.old.cells.now self.new.cells.now self.old.used self.new.used a b result }
    {
        let x = self.read(a);
        let y = self.read(b);
        let inter = Cell {
            kind: 4,
            label: 0,
            a,
            b,
            c: x.c * y.c,
        };
        self.add(inter)
    }

    #[cycle(finding)]
    fn find_merge(&mut self, c: usize, i: usize) -> Result<usize, Refusal>
        requires { ReadyAt self.old.cells.now self.old.used c i 22 }
        ensures same { self.new.cells.ghost_name ≡ self.old.cells.ghost_name }
        ensures finds { Finds self.old.cells.now self.new.cells.now self.old.used self.new.used c i result }
    {
        let t = self.read(i);
        let left = self.find_left(c, t.a)?;
        let right = self.find(c, t.b)?;
        if self.mergeable(t.a, t.b, left, right) {
            Ok(self.add_inter(left, right))
        } else {
            Err(Refusal::Merge(i))
        }
    }

    #[cycle(finding)]
    fn find_fix(&mut self, c: usize, i: usize) -> Result<usize, Refusal>
        requires { ReadyAt self.old.cells.now self.old.used c i 23 }
        ensures same { self.new.cells.ghost_name ≡ self.old.cells.ghost_name }
        ensures finds { Finds self.old.cells.now self.new.cells.now self.old.used self.new.used c i result }
    {
        let t = self.read(i);
        let inner = self.bind(t.b, c);
        self.check(inner, t.a, t.b)
    }

    #[cycle(finding)]
    fn find_rcd(&mut self, c: usize, i: usize) -> Result<usize, Refusal>
        requires { ReadyAt self.old.cells.now self.old.used c i 24 }
        ensures same { self.new.cells.ghost_name ≡ self.old.cells.ghost_name }
        ensures finds { Finds self.old.cells.now self.new.cells.now self.old.used self.new.used c i result }
    {
        let t = self.read(i);
        let inside = self.find(c, t.a)?;
        let content = self.read(inside);
        let field = Cell {
            kind: 5,
            label: t.label,
            a: inside,
            b: 0,
            c: content.c,
        };
        Ok(self.add(field))
    }

    // A field read at i over the intersection at a: the content's type where one part has the field; Top, in a cell more, where none has it
    // and some part is top-like.
    fn find_field(&mut self, a: usize, label: u8, i: usize) -> Result<usize, Refusal>
        requires { FindFieldReady self.old.cells.now self.old.used a }
        ensures same { self.new.cells.ghost_name ≡ self.old.cells.ghost_name }
        ensures finds { FindsField self.old.cells.now self.new.cells.now self.old.used self.new.used a label i result }
    {
        match self.part(a, label) {
            FieldPart::One(b) => Ok(b),
            FieldPart::TopLike => Ok(self.add(TOP)),
            _ => Err(Refusal::Projection(i)),
        }
    }

    #[cycle(finding)]
    fn find_proj(&mut self, c: usize, i: usize) -> Result<usize, Refusal>
        requires { ReadyAt self.old.cells.now self.old.used c i 25 }
        ensures same { self.new.cells.ghost_name ≡ self.old.cells.ghost_name }
        ensures finds { Finds self.old.cells.now self.new.cells.now self.old.used self.new.used c i result }
    {
        let t = self.read(i);
        let inside = self.find(c, t.a)?;
        let content = self.read(inside);
        match content.kind {
            2 => Ok(inside),
            4 => self.find_field(inside, t.label, i),
            5 if content.label == t.label => Ok(content.a),
            _ => Err(Refusal::Projection(i)),
        }
    }

    // A sum: its type, Int, in a cell more; each part is checked against it before the next is walked.
    #[cycle(finding)]
    fn find_sum(&mut self, c: usize, i: usize) -> Result<usize, Refusal>
        requires { ReadyAt self.old.cells.now self.old.used c i 26 }
        ensures same { self.new.cells.ghost_name ≡ self.old.cells.ghost_name }
        ensures finds { Finds self.old.cells.now self.new.cells.now self.old.used self.new.used c i result }
    {
        let sum = self.read(i);
        let int = self.add(INT);
        self.check(c, sum.a, int)?;
        self.check(c, sum.b, int)
    }

    // A choice: the same of three parts. A loop over the parts of both is no plainer than a line for each.
    #[cycle(finding)]
    fn find_choice(&mut self, c: usize, i: usize) -> Result<usize, Refusal>
        requires { ReadyAt self.old.cells.now self.old.used c i 27 }
        ensures same { self.new.cells.ghost_name ≡ self.old.cells.ghost_name }
        ensures finds { Finds self.old.cells.now self.new.cells.now self.old.used self.new.used c i result }
    {
        let choice = self.read(i);
        let int = self.add(INT);
        self.check(c, choice.a, int)?;
        self.check(c, choice.b, int)?;
        self.check(c, choice.c, int)
    }

    // The left part of an application or a merge. One that is of these kinds itself is asked directly, so that a chain takes no more stack
    // than its own calls.
    #[cycle(finding)]
    fn find_left(&mut self, c: usize, i: usize) -> Result<usize, Refusal>
        requires { FindReady self.old.cells.now self.old.used c i }
        ensures same { self.new.cells.ghost_name ≡ self.old.cells.ghost_name }
        ensures finds { Finds self.old.cells.now self.new.cells.now self.old.used self.new.used c i result }
    {
        let t = self.read(i);
        match t.kind {
            20 => self.find_app(c, i),
            22 => self.find_merge(c, i),
            _ => self.find(c, i),
        }
    }

    // The type of the term at i in the context at c.
    #[cycle(finding)]
    pub fn find(&mut self, c: usize, i: usize) -> Result<usize, Refusal>
        requires { FindReady self.old.cells.now self.old.used c i }
        ensures same { self.new.cells.ghost_name ≡ self.old.cells.ghost_name }
        ensures finds { Finds self.old.cells.now self.new.cells.now self.old.used self.new.used c i result }
    {
        let t = self.read(i);
        match t.kind {
            16 => self.find_var(c, i),
            17 => Ok(self.add(INT)),
            18 => Ok(self.add(TOP)),
            19 => self.find_anno(c, i),
            20 => self.find_app(c, i),
            21 => self.find_lam(c, i),
            22 => self.find_merge(c, i),
            23 => self.find_fix(c, i),
            24 => self.find_rcd(c, i),
            25 => self.find_proj(c, i),
            26 => self.find_sum(c, i),
            _ => self.find_choice(c, i),
        }
    }

    // "Checking: find a type; it must be below the wanted one."
    #[cycle(finding)]
    fn check(&mut self, c: usize, i: usize, w: usize) -> Result<usize, Refusal>
        requires { ReadyFor self.old.cells.now self.old.used c i w }
        ensures same { self.new.cells.ghost_name ≡ self.old.cells.ghost_name }
        ensures finds { Checks self.old.cells.now self.new.cells.now self.old.used self.new.used c i w result }
    {
        let found = self.find(c, i)?;
        if self.subtype(found, w) {
            Ok(w)
        } else {
            Err(Refusal::Mismatch(i))
        }
    }
}
