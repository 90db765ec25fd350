// The public calls `check` and `run`. For every book, every work buffer and every step limit the answer and each byte left in the work buffer are fixed. Their
// stages that a call with a row of its own has too, rows 1 to 10 and typing, are `pub` for that. Buffers are arrays of fixed length: no heap.
#![tactic(auto)]

ghost use Rattle.format.specs.Book.{version_of};
ghost use Rattle.answers.specs.Cases.{check_answer, run_answer};
ghost use Rattle.answers.specs.Definition.{shown, reported};
ghost use Rattle.engine.specs.Check.{Checked};
ghost use Rattle.engine.specs.Stages.{FirstRows, LeftByRefusal, Findable, FindsRoot, Formed, AfterTyping, SomeRoot, RunsRoot};
ghost use Rattle.engine.specs.Run.{Ran};

use answers::{CheckOutcome, Refusal, RunOutcome};
use book::{Root, check_form};
use cells::Use;
use layout::{close, close_term, encode_in_place};
use loading::load;
use running::run_on;
use typing::Types;

// Rows 1 to 10, for every call and a work buffer of n bytes.
pub fn first_rows(book: &[u8], n: usize) -> Result<Root, Refusal>
    ensures { FirstRows book.now n result }
{
    if n != 65536 {
        return Err(Refusal::Buffer);
    }
    check_form(book)
}

// A work buffer of another length, refusal 1, is left as it is; every other refusal zeroes it.
pub fn clear_refused(work: &mut [u8])
    ensures { LeftByRefusal work.old work.new }
{
    if work.len() == 65536 {
        work.fill(0);
    }
}

// A well-formed book's cells are loaded into the work buffer, where typing adds cells, and the root's type is found.
fn find_root(book: &[u8], buffer: &mut [u8], root: Root) -> Result<usize, Refusal>
    requires { Findable book.now buffer.old root }
    ensures { FindsRoot book.now buffer.new root.cell result }
{
    let n = book.len() / 8 - 1;
    load(&book[..8 * n], buffer, root.version);
    let mut types = Types {
        cells: buffer,
        used: n,
    };
    types.find(0, root.cell)
}

// A well-formed book: the type found is encoded.
pub fn check_types(book: &[u8], work: &mut [u8], root: Root) -> CheckOutcome
    requires { Formed book.now work.old root }
    ensures { AfterTyping book.now (shown (version_of book.now)) work.new (check_answer result) }
{
    match find_root(book, work, root) {
        Err(reason) => {
            clear_refused(work);
            CheckOutcome::Refused(reason)
        }
        Ok(cell) => {
            let mut s = [0u8; 32768];
            let n = encode_in_place(&mut s, work, Use::ToType, cell);
            close(work, n, root.version);
            CheckOutcome::Accepted(n)
        }
    }
}

// Checks a book: refused by number and cell, or accepted with the size of its type, which is encoded from byte 0 in the version of the book.
pub fn check(book: &[u8], work: &mut [u8]) -> CheckOutcome
    ensures { Checked book.now work.old work.new result }
{
    match first_rows(book, work.len()) {
        Err(fault) => {
            clear_refused(work);
            CheckOutcome::Refused(fault)
        }
        Ok(root) => check_types(book, work, root),
    }
}

// The root, held in the work buffer, is encoded and run there; a buffer of 4,096 cells serves both.
fn run_root(work: &mut [u8], root: Root, limit: u32) -> RunOutcome
    requires { SomeRoot root.version work.old root.cell }
    ensures { RunsRoot root.version work.old work.new root.cell limit result }
{
    let mut s = [0u8; 32768];
    let n = encode_in_place(&mut s, work, Use::ToTerm, root.cell);
    let end = run_on(&mut s, work, n, limit, root.version);
    let stop = end.stop;
    let mark = end.mark;
    close_term(work, end.cells, root.version);
    RunOutcome::Stopped(stop, mark)
}

// A well-formed book: typed as the check types it, and run.
fn run_types(book: &[u8], work: &mut [u8], root: Root, limit: u32) -> RunOutcome
    requires { Formed book.now work.old root }
    ensures { AfterTyping book.now (reported book.now limit) work.new (run_answer result) }
{
    match find_root(book, work, root) {
        Err(reason) => {
            clear_refused(work);
            RunOutcome::Refused(reason)
        }
        Ok(_) => run_root(work, root, limit),
    }
}

// The steps of `check`, with an outcome of its own. Runs a book for at most limit steps: refused as the check refuses it, or stopped at a value, for steps or for room, with the greatest size
// of any term, and with the term reached encoded from byte 0 in the version of the book.
pub fn run(book: &[u8], work: &mut [u8], limit: u32) -> RunOutcome
    ensures { Ran book.now work.old work.new limit result }
{
    match first_rows(book, work.len()) {
        Err(fault) => {
            clear_refused(work);
            RunOutcome::Refused(fault)
        }
        Ok(root) => run_types(book, work, root, limit),
    }
}
