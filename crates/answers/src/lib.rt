// What a check or a run answers, and the numbers that are shown of it. specs/Cases.antt states document 01's number and values for every case,
// specs/Exported.antt the numbers that leave the library, specs/Lines.antt the line that a program prints.

#![tactic(auto)]

ghost use Rattle.std.specs.Prelude.{◌≡◌, ◌<◌, Some};
ghost use Rattle.answers.specs.Answer.{Answer};
ghost use Rattle.answers.specs.Cases.{refusal_answer, check_answer, run_answer};
ghost use Rattle.answers.specs.Exported.{tag_of, value_of, second_of};
ghost use Rattle.answers.specs.Lines.{refusal_line, stop_line, check_line, run_line};

use std::fmt;

// Why a book is refused: rows 1 to 15, each with the cell that it names where it names one.
#[derive(Clone, Copy)]
pub enum Refusal {
    Buffer,
    Length,
    Trailer,
    Count,
    Kind(usize),
    Unnamed(usize),
    Reference(usize),
    Sort(usize),
    Root(usize),
    Size(usize),
    Unbound(usize),
    Application(usize),
    Projection(usize),
    Merge(usize),
    Mismatch(usize),
}

// Why a run stopped, with the steps taken.
#[derive(Clone, Copy)]
pub enum Stop {
    Value(u32),
    Spent(u32),
    Room(u32),
}

// What a check answers. No Result: document 01's outcome is an enum that holds the refusal.
#[derive(Clone, Copy)]
pub enum CheckOutcome {
    Refused(Refusal),
    // the size of the type
    Accepted(usize),
}

// What a run answers. No Result, as for a check.
#[derive(Clone, Copy)]
pub enum RunOutcome {
    Refused(Refusal),
    // and the greatest size of any term
    Stopped(Stop, usize),
}

impl Refusal {
    // The row of document 01's table.
    pub fn row(self) -> usize
        ensures value { result ≡ tag_of (refusal_answer self) }
        ensures upper_bound { result < 16 }
    {
        match self {
            Refusal::Buffer => 1,
            Refusal::Length => 2,
            Refusal::Trailer => 3,
            Refusal::Count => 4,
            Refusal::Kind(_) => 5,
            Refusal::Unnamed(_) => 6,
            Refusal::Reference(_) => 7,
            Refusal::Sort(_) => 8,
            Refusal::Root(_) => 9,
            Refusal::Size(_) => 10,
            Refusal::Unbound(_) => 11,
            Refusal::Application(_) => 12,
            Refusal::Projection(_) => 13,
            Refusal::Merge(_) => 14,
            Refusal::Mismatch(_) => 15,
        }
    }

    // The cell that it names; 0 where it names none.
    pub fn cell(self) -> usize
        ensures { result ≡ value_of (refusal_answer self) }
    {
        match self {
            Refusal::Buffer | Refusal::Length | Refusal::Trailer | Refusal::Count => 0,
            Refusal::Kind(i)
            | Refusal::Unnamed(i)
            | Refusal::Reference(i)
            | Refusal::Sort(i)
            | Refusal::Root(i)
            | Refusal::Size(i)
            | Refusal::Unbound(i)
            | Refusal::Application(i)
            | Refusal::Projection(i)
            | Refusal::Merge(i)
            | Refusal::Mismatch(i) => i,
        }
    }
}

impl RunOutcome {
    // The mark; of a refusal 0.
    pub fn mark(self) -> usize
        ensures { result ≡ second_of (run_answer self) }
    {
        match self {
            RunOutcome::Refused(_) => 0,
            RunOutcome::Stopped(_, mark) => mark,
        }
    }
}

// What a call answers, as the definition's answer and in the numbers that are shown of it.
pub trait Figures {
    ghost answer: { Self → Answer };

    fn tag(self) -> usize
        ensures value { result ≡ tag_of (answer self) }
        ensures upper_bound { result < 256 };

    fn value(self) -> usize
        ensures { result ≡ value_of (answer self) };
}

impl Figures for CheckOutcome {
    ghost answer = { check_answer };

    fn tag(self) -> usize {
        match self {
            CheckOutcome::Refused(r) => r.row(),
            CheckOutcome::Accepted(_) => 32,
        }
    }

    fn value(self) -> usize {
        match self {
            CheckOutcome::Refused(r) => r.cell(),
            CheckOutcome::Accepted(n) => n,
        }
    }
}

impl Figures for RunOutcome {
    ghost answer = { run_answer };

    fn tag(self) -> usize {
        match self {
            RunOutcome::Refused(r) => r.row(),
            RunOutcome::Stopped(Stop::Value(_), _) => 33,
            RunOutcome::Stopped(Stop::Spent(_), _) => 34,
            RunOutcome::Stopped(Stop::Room(_), _) => 35,
        }
    }

    fn value(self) -> usize {
        match self {
            RunOutcome::Refused(r) => r.cell(),
            RunOutcome::Stopped(Stop::Value(n) | Stop::Spent(n) | Stop::Room(n), _) => n as usize,
        }
    }
}

impl fmt::Display for Refusal {
    ghost output = { λ r. Some (refusal_line r) };

    fn fmt<W: fmt::Write>(&self, f: &mut fmt::Formatter<W>) -> fmt::Result {
        let row = self.row();
        let cell = self.cell();
        write!(f, "refused {row} {cell}")
    }
}

impl fmt::Display for Stop {
    ghost output = { λ s. Some (stop_line s) };

    fn fmt<W: fmt::Write>(&self, f: &mut fmt::Formatter<W>) -> fmt::Result {
        match self {
            Stop::Value(n) => write!(f, "value {n}"),
            Stop::Spent(n) => write!(f, "spent {n}"),
            Stop::Room(n) => write!(f, "room {n}"),
        }
    }
}

impl fmt::Display for CheckOutcome {
    ghost output = { λ o. Some (check_line o) };

    fn fmt<W: fmt::Write>(&self, f: &mut fmt::Formatter<W>) -> fmt::Result {
        match self {
            CheckOutcome::Refused(r) => write!(f, "{r}"),
            CheckOutcome::Accepted(n) => write!(f, "accepted {n}"),
        }
    }
}

// The refusal or the stop; the mark stands on no line.
impl fmt::Display for RunOutcome {
    ghost output = { λ o. Some (run_line o) };

    fn fmt<W: fmt::Write>(&self, f: &mut fmt::Formatter<W>) -> fmt::Result {
        match self {
            RunOutcome::Refused(r) => write!(f, "{r}"),
            RunOutcome::Stopped(s, _) => write!(f, "{s}"),
        }
    }
}
