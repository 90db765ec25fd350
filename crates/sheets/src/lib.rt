// The sheet call: it checks a settings sheet and says how many steps it takes, without running it. For every book and every work buffer the answer, the count
// beside an acceptance and each byte left in the work buffer are fixed.
#![tactic(auto)]

ghost use Rattle.std.specs.Prelude.{◌≡◌};
ghost use Rattle.engine.specs.Stages.{Formed};
ghost use Rattle.sheets.specs.Sheet.{sheet_answer, sheet_steps_lem, sheeted};
ghost use Rattle.sheets.specs.Sheets.{Sheets};
ghost use Rattle.sheets.specs.Stages.{WithSteps, GivesSheet};

use answers::{CheckOutcome, Figures, Refusal};
use book::Root;
use cells::Use;
use counting::count_steps;
use engine::{check_types, clear_refused, first_rows};

// What the sheet call answers. No Result, as for a check.
#[derive(Clone, Copy)]
pub enum SheetOutcome {
    // rows 1 to 15
    Refused(Refusal),
    // 17: no sheet, with the root
    NoSheet(usize),
    // the size of the type, and the steps that the sheet takes
    Accepted(usize, usize),
}

// A check's outcome, with the count beside an acceptance.
fn with_steps(o: CheckOutcome, steps: usize) -> SheetOutcome
    ensures { WithSteps o steps result }
{
    match o {
        CheckOutcome::Refused(reason) => SheetOutcome::Refused(reason),
        CheckOutcome::Accepted(size) => SheetOutcome::Accepted(size, steps),
    }
}

// A well-formed book: row 17, and then typing.
fn sheet_types(book: &[u8], work: &mut [u8], root: Root) -> SheetOutcome
    requires { Formed book.now work.old root }
    ensures { GivesSheet work.new result (sheeted book.now work.old) }
{
    match count_steps(book, Use::ToTerm, root.cell) {
        None => {
            clear_refused(work);
            SheetOutcome::NoSheet(root.cell)
        }
        Some(steps) => with_steps(check_types(book, work, root), steps),
    }
}

// Checks a settings sheet: refused as a check refuses it, or by 17 if it is no sheet; or accepted as a check accepts it, with the count of its steps.
// The steps of `check`, with an outcome of its own: one function for both would take the rest of each as a closure, and is no plainer.
pub fn sheet(book: &[u8], work: &mut [u8]) -> SheetOutcome
    ensures { Sheets book.now work.old work.new result }
{
    match first_rows(book, work.len()) {
        Err(fault) => {
            clear_refused(work);
            SheetOutcome::Refused(fault)
        }
        Ok(root) => sheet_types(book, work, root),
    }
}

impl SheetOutcome {
    // The count beside an acceptance; of a refusal 0.
    pub fn steps(self) -> usize
        ensures { result ≡ sheet_steps_lem self }
    {
        match self {
            SheetOutcome::Refused(_) | SheetOutcome::NoSheet(_) => 0,
            SheetOutcome::Accepted(_, steps) => steps,
        }
    }
}

impl Figures for SheetOutcome {
    ghost answer = { sheet_answer };

    fn tag(self) -> usize {
        match self {
            SheetOutcome::Refused(r) => r.row(),
            SheetOutcome::NoSheet(_) => 17,
            SheetOutcome::Accepted(_, _) => 32,
        }
    }

    fn value(self) -> usize {
        match self {
            SheetOutcome::Refused(r) => r.cell(),
            SheetOutcome::NoSheet(root) => root,
            SheetOutcome::Accepted(size, _) => size,
        }
    }
}
