// Joining a part to the project. For every project's bytes, told length, part and work buffer the answer, the book that it means, the byte count, each byte
// left in the work buffer and each lent byte of the project are fixed. A join is a judgement on a buffer of its own, and then one copy; a preview is the
// judgement alone. Buffers are arrays of fixed length: no heap.
#![tactic(auto)]

ghost use Rattle.joining.specs.Stages.{RefusesFor, RefusesZeroed, Passes, TurnsDown, JointBuffer, AcceptsJoint, RefusesJoin};
ghost use Rattle.joining.specs.Joins.{Joins};
ghost use Rattle.joining.specs.Previews.{Previews};
ghost use Rattle.std.specs.Prelude.{◌≡◌, MatchResult};
ghost use Rattle.joining.specs.Join.{join_answer};
ghost use Rattle.joining.specs.Exported.{which_number_lem};

use answers::{CheckOutcome, Figures, Refusal};
use engine::check;
use joint::write_joint;

// The length that a project's lent bytes have, that of a book of 4,095 cells.
const LENT: usize = 32768;

// The limit of a joint's cells.
const LIMIT: usize = 4095;

// Which book an answer means.
#[derive(Clone, Copy)]
pub enum Which {
    Project,
    Part,
    Joint,
}

// What a join, or a preview, answers of the book that it means. No Result: `join_answer` (specs/Join) numbers the three cases in one.
#[derive(Clone, Copy)]
pub enum JoinAnswer {
    // the size of the joint's type
    Accepted(usize),
    // rows 1 to 15
    Refused(Refusal),
    // 16: more cells than a book may have
    Full,
}

// The answer, of which book, and the byte count. No Result: `Joins` and `Previews` speak of the three of every answer.
#[derive(Clone, Copy)]
pub struct Joined {
    pub which: Which,
    pub answer: JoinAnswer,
    // how many of the project's lent bytes hold the joint; of a preview, how many bytes would
    pub bytes: usize,
}

// A refusal gives no bytes.
fn refused(which: Which, answer: JoinAnswer) -> Joined
    ensures { RefusesFor which answer result }
{
    Joined {
        which,
        answer,
        bytes: 0,
    }
}

// A refusal that no check gives: the work buffer is zeroed.
fn refuse_zeroed(work: &mut [u8], which: Which, answer: JoinAnswer) -> Joined
    ensures { RefusesZeroed which answer work.old work.new result }
{
    work.fill(0);
    refused(which, answer)
}

// The rows of one of the books: the size of its type, or its refusal.
fn accept(which: Which, book: &[u8], work: &mut [u8]) -> Result<usize, Joined>
    ensures { MatchResult result (Passes book.now work.old work.new) (TurnsDown which book.now work.old work.new) }
{
    match check(book, work) {
        CheckOutcome::Refused(refusal) => Err(refused(which, JoinAnswer::Refused(refusal))),
        CheckOutcome::Accepted(size) => Ok(size),
    }
}

// All that a join says: the joint, accepted, in a buffer of zeros; or the first refusal.
fn judge(
    project: &[u8],
    length: usize,
    part: &[u8],
    joint: &mut [u8],
    work: &mut [u8],
) -> Result<Joined, Joined>
    requires { JointBuffer joint.old }
    ensures { MatchResult result (AcceptsJoint project.now length part.now work.old joint.new work.new) (RefusesJoin project.now length part.now work.old work.new) }
{
    if work.len() != 65536 {
        return Err(refused(Which::Joint, JoinAnswer::Refused(Refusal::Buffer)));
    }
    if project.len() != LENT || LENT < length {
        return Err(refuse_zeroed(work, Which::Project, JoinAnswer::Refused(Refusal::Length)));
    }
    let held = &project[..length];
    accept(Which::Project, held, work)?;
    accept(Which::Part, part, work)?;
    if LIMIT < (held.len() / 8 - 1) + (part.len() / 8 - 1) + 1 {
        return Err(refuse_zeroed(work, Which::Joint, JoinAnswer::Full));
    }
    let bytes = write_joint(held, part, joint);
    let size = accept(Which::Joint, &joint[..bytes], work)?;
    Ok(Joined {
        which: Which::Joint,
        answer: JoinAnswer::Accepted(size),
        bytes,
    })
}

// Joins a part to the project that the first length of its lent bytes hold. Accepted, the joint is written over these, zeros behind it.
// No slice of that length: the C call lends 32,768 bytes and tells the length.
pub fn join(project: &mut [u8], length: usize, part: &[u8], work: &mut [u8]) -> Joined
    ensures { Joins project.old project.new length part.now work.old work.new result }
{
    let mut joint = [0u8; LENT];
    match judge(project, length, part, &mut joint, work) {
        Ok(accepted) => {
            project.copy_from_slice(&joint);
            accepted
        }
        Err(refused) => refused,
    }
}

// What a join of a copy would say. Not a byte of the project is written.
pub fn preview(project: &[u8], length: usize, part: &[u8], work: &mut [u8]) -> Joined
    ensures { Previews project.now project.now length part.now work.old work.new result }
{
    let mut joint = [0u8; LENT];
    match judge(project, length, part, &mut joint, work) {
        Ok(joined) | Err(joined) => joined,
    }
}

// The number of a book, its place in the order of checks.
impl From<Which> for u8 {
    ghost from_gives = { λ which n. n ≡ which_number_lem which };

    fn from(which: Which) -> u8 {
        match which {
            Which::Project => 1,
            Which::Part => 2,
            Which::Joint => 3,
        }
    }
}

impl Figures for JoinAnswer {
    ghost answer = { join_answer };

    fn tag(self) -> usize {
        match self {
            JoinAnswer::Accepted(_) => 32,
            JoinAnswer::Refused(refusal) => refusal.row(),
            JoinAnswer::Full => 16,
        }
    }

    fn value(self) -> usize {
        match self {
            JoinAnswer::Accepted(size) => size,
            JoinAnswer::Refused(refusal) => refusal.cell(),
            JoinAnswer::Full => 0,
        }
    }
}
