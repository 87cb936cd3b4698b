// The operations on an answer, each called and nothing else: one that promised less, or that required something, would break a proof here.
ghost use Rattle.answer.specs.Reading.{Reads};
ghost use Rattle.answer.specs.Writing.{WritesLists};
ghost use Rattle.record.specs.Bytes.{File};
ghost use Rattle.flipcut.specs.Packed.{ReadsPacked, WritesPacked};
ghost use Rattle.promises.specs.Held.{InWidths};

use answer::Answer;
use entries::Flip;
use flipcut::answers::{flipcut_read, flipcut_write};
use matrix::Shape;
use record::refusal::Refusal;

// Read an answer, as C calls it: `entries::read_answer`, and what it answers packed.
pub fn read_from_c(file: &[u8], list: &mut [Flip], res: &mut [u64; 131]) -> u64
    ensures { ReadsPacked file.now list.old res.old result list.new res.new }
{
    flipcut_read(file, list, res)
}

// Write an answer, as C calls it: `entries::write_answer`, and what it answers packed.
pub fn write_from_c(answer: &Answer, list: &[Flip], out: &mut [u8]) -> u64
    ensures { WritesPacked answer.now list.now out.old result out.new }
{
    flipcut_write(answer, list, out)
}

pub fn read_lists(
    file: &[u8],
    columns: &mut [u64],
    raised: &mut [u64],
    lowered: &mut [u64],
) -> Result<Answer, Refusal>
    ensures { Reads file.now columns.old raised.old lowered.old result
        columns.new raised.new lowered.new }
{
    answer::read(file, columns, raised, lowered)
}

pub fn write_lists(
    answer: Answer,
    columns: &[u64],
    raised: &[u64],
    lowered: &[u64],
    out: &mut [u8],
) -> Result<usize, Refusal>
    ensures { WritesLists answer columns.now raised.now lowered.now out.old result out.new }
{
    answer::write(answer, columns, raised, lowered, out)
}

// What the theorems assume of a file holds of each that there is in code: it is made of bytes. (The prover tells so of a slice that is used.)
pub fn any_file(file: &[u8]) -> Result<Shape, Refusal>
    ensures { File file.now }
{
    matrix::check(file)
}

// And what they assume of an answer's value.
pub fn any_answer(answer: Answer)
    ensures { InWidths answer }
{}
