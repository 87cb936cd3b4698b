// An answer and a name list written as Newick text: the tree of the answer's groups, parts by lowest taxon, with the names of the list.
// Promises: for any two byte strings and any lent output the answer and every byte are those of specs/Write.antt; proofs/Promises.antt has what the text
// says. Rests on taxa, record, answer, grammar, clades and names.
#![tactic(auto)]

mod spell;

ghost use Rattle.std.specs.Prelude.{◌≡◌, length};
ghost use Rattle.spelling.specs.Write as text;
ghost use Rattle.spelling.specs.inner.Spell.{text_for, groups_of, Readable, Tellable, Put};

use answer::Answer;
use answer::reader::{answer_in, pass_file};
use record::refusal::{Reason, Refusal};
use record::writer::put_bytes;

// No text is longer: 64 names of 32 bytes, 63 brackets that open and close, a comma after each name but the last, and the semicolon.
pub const LONGEST: usize = 64 * 32 + 63 * 2 + 64;

// The whole text of an answer, at the front of the room. Returns its length.
fn spell_all(value: Answer, list: &[u8], room: &mut [u8]) -> usize
    requires { Tellable value list.now room.old }
    ensures { Put (text_for (groups_of value) list.now value.n) 0 room.old room.new result }
{
    let groups = value.taxa;
    let k = value.groups as usize;
    let end = spell::spell(&groups[..k], list, taxa::all(u32::from(value.n)), room, 0);
    room[end] = b';';
    end + 1
}

// An answer and a list that were read: the number of names has to be the answer's. The text is made aside, so that its length is known before the first
// byte of the output is written.
fn write_read(answer: &[u8], list: &[u8], count: usize, out: &mut [u8]) -> Result<usize, Refusal>
    requires { Readable answer.now list.now count }
    ensures { (result ≡ text.after_both answer.now list.now count (length out.old))
        × (out.new ≡ text.output_after answer.now list.now result out.old) }
{
    let value = answer_in(answer);
    if count != value.n as usize {
        return Err(Reason::Differ.at(0));
    }
    let mut room = [0u8; LONGEST];
    let size = spell_all(value, list, &mut room);
    if out.len() < size {
        return Err(Reason::Room.at(0));
    }
    put_bytes(out, &room[..size]);
    Ok(size)
}

// The operation "write as Newick": how many bytes were written.
pub fn write(answer: &[u8], list: &[u8], out: &mut [u8]) -> Result<usize, Refusal>
    ensures { text.Spells answer.now list.now out.old result out.new }
{
    pass_file(answer)?;
    let count = names::check(list)?;
    write_read(answer, list, count, out)
}
