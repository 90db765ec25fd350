// Every sample of document 01 that is not marked M: each book is made here, checked or run, and its answer printed. Then books whose cells are compared
// as document 02, (iii), says, in the book's own bytes. Kinds are numbers, as in cells; buffers are arrays of fixed length: no heap.
#![tactic(auto)]

ghost use Rattle.std.specs.Prelude.{ℕ, ◌≤◌, ◌<◌, length, Some};
ghost use Rattle.cells.specs.Coded.{CellFits};
ghost use Rattle.samples.specs.Chain.{Leaf, Chain};
ghost use Rattle.samples.specs.Comparison.{ComparesCells, compared_line};

use answers::RunOutcome;
use book::check_form;
use cells::{Cell, write_cell};
use engine::{check, run};
use equality::same_tree;
use std::{fmt, io};

// The fixpoint at Int whose body is its own variable: Int, the variable, the fixpoint.
const FIXPOINT: &[u8] =
    b"\x01\x00\x00\x00\x00\x00\x00\x00\x10\x00\x00\x00\x00\x00\x00\x00\x17\x00\x01\x00\x00\x00\x00\x00\xf0\x01\x03\x00\x02\x00\x00\x00";

// A function that returns 1, its input the intersection of 100 function types, applied to a function with a body of 68 cells.
const IGNORED: &[u8] =
    b"\x01\x00\x00\x00\x00\x00\x00\x00\x03\x00\x00\x00\x00\x00\x00\x00\x04\x00\x01\x00\x01\x00\x00\x00\x04\x00\x02\x00\x02\x00\x00\x00\x04\x00\x03\x00\x03\x00\x00\x00\x04\x00\x04\x00\x04\x00\x00\x00\x04\x00\x05\x00\x05\x00\x00\x00\x04\x00\x06\x00\x06\x00\x00\x00\x04\x00\x07\x00\x06\x00\x00\x00\x04\x00\x08\x00\x03\x00\x00\x00\x11\x00\x00\x00\x01\x00\x00\x00\x15\x00\x0a\x00\x09\x00\x00\x00\x02\x00\x00\x00\x00\x00\x00\x00\x15\x00\x0a\x00\x0c\x00\x00\x00\x12\x00\x00\x00\x00\x00\x00\x00\x16\x00\x0e\x00\x0e\x00\x00\x00\x16\x00\x0f\x00\x0f\x00\x00\x00\x16\x00\x10\x00\x10\x00\x00\x00\x16\x00\x11\x00\x11\x00\x00\x00\x16\x00\x12\x00\x12\x00\x00\x00\x14\x00\x0d\x00\x13\x00\x00\x00\x15\x00\x14\x00\x00\x00\x00\x00\x14\x00\x0b\x00\x15\x00\x00\x00\xf0\x01\x17\x00\x16\x00\x00\x00";

// Functions over two cells of the same variable, the second with another output, merged.
const FUNCTIONS: &[u8] =
    b"\x01\x00\x00\x00\x00\x00\x00\x00\x10\x00\x00\x00\x00\x00\x00\x00\x15\x00\x01\x00\x00\x00\x00\x00\x10\x00\x00\x00\x00\x00\x00\x00\x02\x00\x00\x00\x00\x00\x00\x00\x04\x00\x00\x00\x04\x00\x00\x00\x15\x00\x03\x00\x00\x00\x05\x00\x16\x00\x02\x00\x06\x00\x00\x00\xf0\x01\x08\x00\x07\x00\x00\x00";

// Functions with the body x + x, over one cell for the variable and over two, merged.
const SUMS: &[u8] =
    b"\x01\x00\x00\x00\x00\x00\x00\x00\x10\x00\x00\x00\x00\x00\x00\x00\x1a\x00\x01\x00\x01\x00\x00\x00\x15\x00\x02\x00\x00\x00\x00\x00\x10\x00\x00\x00\x00\x00\x00\x00\x10\x00\x00\x00\x00\x00\x00\x00\x1a\x00\x04\x00\x05\x00\x00\x00\x15\x00\x06\x00\x00\x00\x00\x00\x16\x00\x03\x00\x07\x00\x00\x00\xf0\x01\x09\x00\x08\x00\x00\x00";

// Functions with the bodies -1 and 65535, which differ in field c alone, and the top value for a root.
const NUMBERS: &[u8] =
    b"\x01\x00\x00\x00\x00\x00\x00\x00\x11\x00\x00\x00\xff\xff\xff\xff\x15\x00\x01\x00\x00\x00\x00\x00\x11\x00\x00\x00\xff\xff\x00\x00\x15\x00\x03\x00\x00\x00\x00\x00\x12\x00\x00\x00\x00\x00\x00\x00\xf0\x01\x06\x00\x05\x00\x00\x00";

// Two chains of merges, the top value doubled four times over, neither of which the root reaches.
const CHAINS: &[u8] =
    b"\x12\x00\x00\x00\x00\x00\x00\x00\x12\x00\x00\x00\x00\x00\x00\x00\x16\x00\x01\x00\x01\x00\x00\x00\x16\x00\x02\x00\x02\x00\x00\x00\x16\x00\x03\x00\x03\x00\x00\x00\x16\x00\x04\x00\x04\x00\x00\x00\x12\x00\x00\x00\x00\x00\x00\x00\x16\x00\x06\x00\x06\x00\x00\x00\x16\x00\x07\x00\x07\x00\x00\x00\x16\x00\x08\x00\x08\x00\x00\x00\x16\x00\x09\x00\x09\x00\x00\x00\xf0\x01\x0b\x00\x00\x00\x00\x00";

// The mark stands on a line of its own.
fn print_ran(rt: &impl Print, o: RunOutcome) -> io::Result<()> {
    println!(rt; "{o}")?;
    if let RunOutcome::Stopped(_, mark) = o {
        println!(rt; "mark {mark}")?;
    }
    Ok(())
}

// k cells, the next over cell i being over(i); answers the book's length.
fn chain<F: Fn(usize) -> Cell>(book: &mut [u8], leaf: Cell, over: F, k: usize) -> usize
    requires chain { Chain book.old leaf k }
    requires over { (i : ℕ) → i < k → F.pre over i × ((t : Cell) → F.post over i t → CellFits t) }
    ensures { result ≤ length book.new }
{
    write_cell(book, 0, leaf);
    for i in 0..k {
        write_cell(book, i + 1, over(i));
    }
    write_cell(
        book,
        k + 1,
        Cell {
            kind: 240,
            label: 1,
            a: k + 1,
            b: k,
            c: 0,
        },
    );
    8 * (k + 2)
}

fn check_chain<F: Fn(usize) -> Cell>(
    rt: &impl Print,
    leaf: Cell,
    over: F,
    k: usize,
) -> io::Result<()>
    requires leaf { Leaf leaf k }
    requires over { (i : ℕ) → i < k → F.pre over i × ((t : Cell) → F.post over i t → CellFits t) }
{
    let mut book = [0u8; 32768];
    let mut work = [0u8; 65536];
    let n = chain(&mut book, leaf, over, k);
    let o = check(&book[..n], &mut work);
    println!(rt; "{o}")
}

fn run_and_print(rt: &impl Print, book: &[u8], limit: u32) -> io::Result<()> {
    let mut work = [0u8; 65536];
    print_ran(rt, run(book, &mut work, limit))
}

// What comparing two cells of a book comes to: rows 2 to 10 refuse it, it has no such cell, or both are the same tree or not. No Result:
// a line is printed for each of the four.
#[derive(Clone, Copy)]
pub enum Compared {
    Malformed,
    Missing,
    Same,
    Different,
}

impl fmt::Display for Compared {
    ghost output = { λ x. Some (compared_line x) };

    fn fmt<W: fmt::Write>(&self, f: &mut fmt::Formatter<W>) -> fmt::Result {
        match self {
            Compared::Malformed => write!(f, "malformed"),
            Compared::Missing => write!(f, "no such cell"),
            Compared::Same => write!(f, "same"),
            Compared::Different => write!(f, "different"),
        }
    }
}

// Cells i and j of a book, unshared, compared in its own bytes, which are not loaded.
fn compare_cells(book: &[u8], i: usize, j: usize) -> Compared
    ensures { ComparesCells book.now i j result }
{
    if check_form(book).is_err() {
        return Compared::Malformed;
    }
    let n = book.len() / 8 - 1;
    if n <= i || n <= j {
        return Compared::Missing;
    }
    if same_tree(book, i, j) {
        return Compared::Same;
    }
    Compared::Different
}

fn print_same(rt: &impl Print, book: &[u8], i: usize, j: usize) -> io::Result<()> {
    let compared = compare_cells(book, i, j);
    println!(rt; "{compared}")
}

// A write that fails ends the program with its error.
fn main(rt: HostRuntime) -> io::Result<()> {
    let top = Cell {
        kind: 18,
        label: 0,
        a: 0,
        b: 0,
        c: 0,
    };
    let one = Cell {
        kind: 17,
        label: 0,
        a: 0,
        b: 1,
        c: 0,
    };
    let doubled = |i: usize| Cell {
        kind: 22,
        label: 0,
        a: i,
        b: i,
        c: 0,
    };
    let labelled = |i: usize| Cell {
        kind: 24,
        label: 7,
        a: i,
        b: 0,
        c: 0,
    };
    // the top value, merged with itself 11 times over by sharing, and 12 times
    check_chain(&rt, top, doubled, 11)?;
    check_chain(&rt, top, doubled, 12)?;
    // 4,094 records round a number
    check_chain(&rt, one, labelled, 4094)?;
    run_and_print(&rt, FIXPOINT, 2046)?;
    run_and_print(&rt, FIXPOINT, 2047)?;
    run_and_print(&rt, IGNORED, 10000)?;
    // the variables, the functions, their outputs; a cell past the last
    for (i, j) in [(1, 3), (2, 6), (0, 5), (7, 8)] {
        print_same(&rt, FUNCTIONS, i, j)?;
    }
    for (i, j) in [(2, 6), (3, 7)] {
        print_same(&rt, SUMS, i, j)?;
    }
    for (i, j) in [(1, 3), (2, 4)] {
        print_same(&rt, NUMBERS, i, j)?;
    }
    // the chains, and parts of them
    for (i, j) in [(5, 10), (4, 9), (5, 9)] {
        print_same(&rt, CHAINS, i, j)?;
    }
    Ok(())
}
