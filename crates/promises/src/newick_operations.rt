// The operations on Newick text and name lists, each called and nothing else, as in operations.rt: here, and as C calls them.
ghost use Rattle.std.specs.Prelude.{◌≡◌};
ghost use Rattle.names.specs.Check.{Checks, checked};
ghost use Rattle.newick.specs.Read.{Reads};
ghost use Rattle.spelling.specs.Write.{Spells};
ghost use Rattle.flipcut.specs.Packed.{packed_names, ReadsNewickPacked, WritesNewickPacked};

use flipcut::trees::{flipcut_check_names, flipcut_read_newick, flipcut_write_newick};
use newick::Derived;
use record::refusal::Refusal;

// Check a name list.
pub fn check_names(file: &[u8]) -> Result<usize, Refusal>
    ensures { Checks file.now result }
{
    names::check(file)
}

// Read source trees.
pub fn read_newick(text: &[u8], matrix: &mut [u8], names: &mut [u8]) -> Result<Derived, Refusal>
    ensures { Reads text.now matrix.old names.old result matrix.new names.new }
{
    newick::read(text, matrix, names)
}

// Write as Newick.
pub fn write_newick(answer: &[u8], names: &[u8], out: &mut [u8]) -> Result<usize, Refusal>
    ensures { Spells answer.now names.now out.old result out.new }
{
    spelling::write(answer, names, out)
}

pub fn check_names_from_c(names: &[u8]) -> u64
    ensures { result ≡ packed_names (checked names.now) }
{
    flipcut_check_names(names)
}

pub fn read_newick_from_c(text: &[u8], matrix: &mut [u8], names: &mut [u8]) -> u64
    ensures { ReadsNewickPacked text.now matrix.old names.old result matrix.new names.new }
{
    flipcut_read_newick(text, matrix, names)
}

pub fn write_newick_from_c(answer: &[u8], names: &[u8], out: &mut [u8]) -> u64
    ensures { WritesNewickPacked answer.now names.now out.old result out.new }
{
    flipcut_write_newick(answer, names, out)
}
