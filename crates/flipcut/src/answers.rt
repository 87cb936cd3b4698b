// The operations on an answer file, as C calls them: these two only call.
ghost use Rattle.flipcut.specs.Packed.{ReadsPacked, WritesPacked};

use super::pack;
use super::pack::READ_RESULTS;
use answer::Answer;
use entries::Flip;

pub fn flipcut_read(file: &[u8], list: &mut [Flip], res: &mut [u64; READ_RESULTS]) -> u64
    ensures { ReadsPacked file.now list.old res.old result list.new res.new }
{
    pack::read(entries::read_answer(file, list), res)
}

pub fn flipcut_write(answer: &Answer, list: &[Flip], out: &mut [u8]) -> u64
    ensures { WritesPacked answer.now list.now out.old result out.new }
{
    pack::write(entries::write_answer(*answer, list, out))
}
