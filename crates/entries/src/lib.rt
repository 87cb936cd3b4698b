// The flip list as a lent list of entries: document 01's form of the operations "read an answer" and "write an answer".
// Promises: what crate answer promises of the list in three parts, of the entries of one list.
// Rests on answer and record. A function that has the list only fills it or takes it apart.
#![tactic(auto)]

ghost use Rattle.std.specs.Prelude.{◌≡◌, ◌≤◌, length, take};
ghost use Rattle.answer.specs.Content.{content_of};
ghost use Rattle.answer.specs.Writing.{Writes};
ghost use Rattle.entries.specs.Entries.{zipped, entry_columns, entry_raised, entry_lowered, ReadsEntries, WritesEntries};
ghost use Rattle.entries.specs.inner.Parts.{with_first, narrow, InParts};

use answer::{Answer, read, write};
use record::refusal::Refusal;

// A column with its raised and lowered taxa, the column in its file width. As C lays it out, so that C can lend a list of them.
#[repr(C)]
#[derive(Clone, Copy)]
pub struct Flip {
    pub column: u16,
    pub raised: u64,
    pub lowered: u64,
}

// "m is 0 to 256": no more entries than that are ever read.
const MOST: usize = 256;

// The first entries of the list become those of the three parts.
fn fill(list: &mut [Flip], columns: &[u64], raised: &[u64], lowered: &[u64], count: usize)
    requires { (count ≤ length list.old) × (count ≤ length columns.now) × (count ≤ length raised.now) × (count ≤ length lowered.now) × narrow columns.now count }
    ensures { list.new
        ≡ with_first count (zipped columns.now raised.now lowered.now) list.old }
{
    for k in 0..count {
        list[k] = Flip {
            column: columns[k] as u16,
            raised: raised[k],
            lowered: lowered[k],
        };
    }
}

// The first entries of the list go into the three parts.
fn take_apart(
    list: &[Flip],
    columns: &mut [u64],
    raised: &mut [u64],
    lowered: &mut [u64],
    count: usize,
)
    requires { (count ≤ length list.now) × (count ≤ length columns.old) × (count ≤ length raised.old) × (count ≤ length lowered.old) }
    ensures columns_after { columns.new ≡ with_first count (entry_columns list.now) columns.old }
    ensures raised_after { raised.new ≡ with_first count (entry_raised list.now) raised.old }
    ensures lowered_after { lowered.new ≡ with_first count (entry_lowered list.now) lowered.old }
{
    for k in 0..count {
        let flip = list[k];
        columns[k] = u64::from(flip.column);
        raised[k] = flip.raised;
        lowered[k] = flip.lowered;
    }
}

// Reads into the three parts, as for a list of so many entries.
fn read_parts(
    file: &[u8],
    entries: usize,
    columns: &mut [u64],
    raised: &mut [u64],
    lowered: &mut [u64],
) -> Result<Answer, Refusal>
    requires { (length columns.old ≡ 256) × (length raised.old ≡ 256) × (length lowered.old ≡ 256) }
    ensures { InParts file.now entries result columns.new raised.new lowered.new }
{
    let room = entries.min(MOST);
    read(
        file,
        &mut columns[..room],
        &mut raised[..room],
        &mut lowered[..room],
    )
}

// Writes from the first entries of the three parts.
fn write_parts(
    answer: Answer,
    columns: &[u64],
    raised: &[u64],
    lowered: &[u64],
    count: usize,
    out: &mut [u8],
) -> Result<usize, Refusal>
    requires { (count ≤ length columns.now) × (count ≤ length raised.now) × (count ≤ length lowered.now) }
    ensures { Writes (content_of answer (take count columns.now) (take count raised.now) (take count lowered.now))
        count out.old result out.new }
{
    write(
        answer,
        &columns[..count],
        &raised[..count],
        &lowered[..count],
        out,
    )
}

// The operation "read an answer".
pub fn read_answer(file: &[u8], list: &mut [Flip]) -> Result<Answer, Refusal>
    ensures { ReadsEntries file.now list.old result list.new }
{
    let mut columns = [0u64; MOST];
    let mut raised = [0u64; MOST];
    let mut lowered = [0u64; MOST];
    let answer = read_parts(file, list.len(), &mut columns, &mut raised, &mut lowered)?;
    fill(list, &columns, &raised, &lowered, answer.flips as usize);
    Ok(answer)
}

// The operation "write an answer".
pub fn write_answer(answer: Answer, list: &[Flip], out: &mut [u8]) -> Result<usize, Refusal>
    ensures { WritesEntries answer list.now out.old result out.new }
{
    let mut columns = [0u64; MOST];
    let mut raised = [0u64; MOST];
    let mut lowered = [0u64; MOST];
    let count = list.len().min(MOST);
    take_apart(list, &mut columns, &mut raised, &mut lowered, count);
    write_parts(answer, &columns, &raised, &lowered, count, out)
}
