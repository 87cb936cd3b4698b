// The operations on Newick text and name lists, as C calls them.
ghost use Rattle.std.specs.Prelude.{◌≡◌};
ghost use Rattle.names.specs.Check.{checked};
ghost use Rattle.flipcut.specs.Packed.{packed_names, ReadsNewickPacked, WritesNewickPacked};

use super::pack;

pub fn flipcut_check_names(names: &[u8]) -> u64
    ensures { result ≡ packed_names (checked names.now) }
{
    pack::check_names(names::check(names))
}

pub fn flipcut_read_newick(text: &[u8], matrix: &mut [u8], names: &mut [u8]) -> u64
    ensures { ReadsNewickPacked text.now matrix.old names.old result matrix.new names.new }
{
    pack::read_newick(newick::read(text, matrix, names))
}

pub fn flipcut_write_newick(answer: &[u8], names: &[u8], out: &mut [u8]) -> u64
    ensures { WritesNewickPacked answer.now names.now out.old result out.new }
{
    pack::write_newick(spelling::write(answer, names, out))
}
