// The engine for C and Rust: numbers and byte slices only. A slice is a pointer and then a length.
#![tactic(auto)]

ghost use Rattle.answers.specs.Definition.{definition};
ghost use Rattle.joining.specs.Join.{joined};
ghost use Rattle.sheets.specs.Sheet.{sheeted};
ghost use Rattle.cerealbank.specs.Packed.{FiguresFit, PackedFigures, Packs, PacksSheet, JoinFits, PackedJoin, PacksJoin, PacksPreview};

use answers::Figures;
use engine::{check, run};
use joining::{Joined, join, preview};
use sheets::sheet;

// The tag in bits 32 to 39, its value in bits 0 to 31, a second figure above them.
fn pack<T: Figures + Copy>(o: T, second: u64) -> u64
    requires { FiguresFit (T.answer o) second }
    ensures { PackedFigures (T.answer o) second result }
{
    second * 1099511627776 + (o.tag() as u64) * 4294967296 + (o.value() as u64)
}

#[unsafe(no_mangle)]
pub extern "C" fn cerealbank_check(book: &[u8], work: &mut [u8]) -> u64
    ensures { Packs work.new result (definition.check book.now work.old) }
{
    pack(check(book, work), 0)
}

// The mark of a run stands above.
#[unsafe(no_mangle)]
pub extern "C" fn cerealbank_run(book: &[u8], work: &mut [u8], limit: u32) -> u64
    ensures { Packs work.new result (definition.run book.now work.old limit) }
{
    let o = run(book, work, limit);
    pack(o, o.mark() as u64)
}

// The count of steps stands above.
#[unsafe(no_mangle)]
pub extern "C" fn cerealbank_sheet(book: &[u8], work: &mut [u8]) -> u64
    ensures { PacksSheet work.new result (sheeted book.now work.old) }
{
    let o = sheet(book, work);
    pack(o, o.steps() as u64)
}

// A join and a preview: the book that is meant in bits 40 to 47, the byte count in bits 48 to 63.
fn pack_join(j: Joined) -> u64
    requires { JoinFits j }
    ensures { PackedJoin j result }
{
    pack(
        j.answer,
        (j.bytes as u64) * 256 + u64::from(u8::from(j.which)),
    )
}

#[unsafe(no_mangle)]
pub extern "C" fn cerealbank_join(
    project: &mut [u8],
    length: usize,
    part: &[u8],
    work: &mut [u8],
) -> u64
    ensures { PacksJoin project.new work.new result (joined project.old length part.now work.old) }
{
    pack_join(join(project, length, part, work))
}

// A call of its own: C lends the project as constant.
#[unsafe(no_mangle)]
pub extern "C" fn cerealbank_preview(
    project: &[u8],
    length: usize,
    part: &[u8],
    work: &mut [u8],
) -> u64
    ensures { PacksPreview project.now project.now work.new result (joined project.now length part.now work.old) }
{
    pack_join(preview(project, length, part, work))
}
