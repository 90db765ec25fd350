// The desk program: a book on standard input, checked and run for at most 10,000 steps; the answers and the term reached on standard output.
// Input past 65,536 bytes is not read: a book of that length is refused as too long. Buffers are arrays of fixed length: no heap.
#![tactic(auto)]

ghost use Rattle.std.specs.Prelude.{◌≡◌, ◌≤◌, IfOk, length};

use answers::CheckOutcome;
use cells::read_cell;
use engine::{check, run};
use std::io;
use std::io::Read;

// The cells up to the trailer, a line each: number, kind, label, a, b, c. Kinds are numbers, as document 01 has them: the trailer's is 240.
fn print_cells(rt: &impl Print, work: &[u8]) -> io::Result<()>
    requires { 65536 ≡ length work.now }
{
    for i in 0..4096 {
        let t = read_cell(work, i);
        if t.kind == 240 {
            break;
        }
        println!(rt; "{i} {} {} {} {} {}", t.kind, t.label, t.a, t.b, t.c)?;
    }
    Ok(())
}

fn run_and_print(rt: &impl Print, book: &[u8], work: &mut [u8]) -> io::Result<()>
    requires { 65536 ≡ length work.old }
{
    let o = run(book, work, 10000);
    println!(rt; "{o}")?;
    print_cells(rt, work)
}

fn check_and_print(rt: &impl Print, book: &[u8], work: &mut [u8]) -> io::Result<()>
    requires { 65536 ≡ length work.old }
{
    let o = check(book, work);
    println!(rt; "{o}")?;
    if let CheckOutcome::Accepted(_) = o {
        run_and_print(rt, book, work)?;
    }
    Ok(())
}

// The bytes of the input, as many as there are and the buffer holds; answers how many. By hand: std's `read_exact` fails where the input is shorter.
fn read_full<R: Read>(input: &mut R, buffer: &mut [u8]) -> io::Result<usize>
    ensures { IfOk result (λ n. n ≤ length buffer.new) }
{
    let mut filled = 0;
    while filled < buffer.len() {
        let n = input.read(&mut buffer[filled..])?;
        if n == 0 {
            return Ok(filled);
        }
        filled += n;
    }
    Ok(filled)
}

// A read or a write that fails ends the program with its error.
fn main(rt: HostRuntime) -> io::Result<()> {
    let mut input = [0u8; 65536];
    let mut work = [0u8; 65536];
    let n = read_full(&mut rt.reader(), &mut input)?;
    check_and_print(&rt, &input[..n], &mut work)
}
