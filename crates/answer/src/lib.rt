// An answer file: one head, its groups, its flips, one end. The operations "read an answer" and "write an answer".
// Promises: every byte string is taken or refused as document 01 says, what is written is the file of what is given, and
// file and content determine each other. Rests on taxa and record.
#![tactic(auto)]

mod given;
pub mod reader;
mod rules;
mod writer;

ghost use Rattle.answer.specs.Reading.{Reads};
ghost use Rattle.answer.specs.Writing.{WritesLists};

use given::pass_given;
use reader::{answer_in, fill, pass_file};
use record::number::u16_at;
use record::refusal::{Reason, Refusal};
use writer::put_answer;

// What an answer holds beside its flips, in file widths; the groups have 63 places, those past the last 0. As C lays it out, so that C can lend one.
#[repr(C)]
#[derive(Clone, Copy)]
pub struct Answer {
    pub n: u16,
    pub m: u16,
    pub groups: u16,
    pub flips: u16,
    pub total: u32,
    pub taxa: [u64; 63],
    pub costs: [u32; 63],
}

// The list stands in three parts here and in `write`, as crate tree keeps its flips; crate entries has document 01's form, one list of entries.
// The operation "read an answer": first all tests, then the lent list is filled.
pub fn read(
    file: &[u8],
    columns: &mut [u64],
    raised: &mut [u64],
    lowered: &mut [u64],
) -> Result<Answer, Refusal>
    ensures { Reads file.now columns.old raised.old lowered.old result
        columns.new raised.new lowered.new }
{
    pass_file(file)?;
    let flips = u16_at(file, 10) as usize;
    let room = columns.len().min(raised.len().min(lowered.len()));
    if room < flips {
        return Err(Reason::Room.at(0));
    }
    let groups = u16_at(file, 8) as usize;
    fill(file, 16 + 16 * groups, flips, columns, raised, lowered);
    Ok(answer_in(file))
}

// The operation "write an answer": first all tests, then the records one after the other.
pub fn write(
    answer: Answer,
    columns: &[u64],
    raised: &[u64],
    lowered: &[u64],
    out: &mut [u8],
) -> Result<usize, Refusal>
    ensures { WritesLists answer columns.now raised.now lowered.now out.old result out.new }
{
    let entries = columns.len().min(raised.len().min(lowered.len()));
    pass_given(answer, columns, raised, lowered, entries)?;
    let size = 20 + 16 * answer.groups as usize + 22 * answer.flips as usize;
    if out.len() < size {
        return Err(Reason::Room.at(0));
    }
    put_answer(out, answer, columns, raised, lowered);
    Ok(size)
}
