// The static library that C links: every operation of crate flipcut under the name and with the arguments that include/flipcut.h declares. Each export
// only calls the function of that name there, and states its clauses again. Rests on flipcut, and on the crates whose types and definitions those name.
#![tactic(auto)]

ghost use Rattle.std.specs.Prelude.{◌≡◌};
ghost use Rattle.matrix.specs.Check.{checked};
ghost use Rattle.names.specs.Check.{checked as names_checked};
ghost use Rattle.score.specs.Operation.{scored};
ghost use Rattle.flipcut.specs.Packed.{packed, packed_names, packed_score};
ghost use Rattle.flipcut.specs.Packed.{BuildsPacked, GivesTreePacked, GivesFlipsPacked, SplitsPacked, ReadsPacked, WritesPacked};
ghost use Rattle.flipcut.specs.Packed.{ReadsNewickPacked, WritesNewickPacked};

use answer::Answer;
use entries::Flip;
use flipcut::{answers, matrices, trees};

// How many numbers are lent for what a split finds, and for what is read.
const SPLIT_RESULTS: usize = 3;

const READ_RESULTS: usize = 131;

#[unsafe(no_mangle)]
pub extern "C" fn flipcut_check(file: &[u8]) -> u64
    ensures { result ≡ packed (checked file.now) }
{
    matrices::flipcut_check(file)
}

#[unsafe(no_mangle)]
pub extern "C" fn flipcut_build(matrix: &[u8], workspace: &mut [i32], out: &mut [u8]) -> u64
    ensures { BuildsPacked matrix.now workspace.old out.old result workspace.new out.new }
{
    matrices::flipcut_build(matrix, workspace, out)
}

#[unsafe(no_mangle)]
pub extern "C" fn flipcut_tree(matrix: &[u8], workspace: &mut [i32], out: &mut [u8]) -> u64
    ensures { GivesTreePacked matrix.now workspace.old out.old result workspace.new out.new }
{
    matrices::flipcut_tree(matrix, workspace, out)
}

#[unsafe(no_mangle)]
pub extern "C" fn flipcut_flips(
    matrix: &[u8],
    tree: &[u8],
    workspace: &mut [i32],
    out: &mut [u8],
) -> u64
    ensures { GivesFlipsPacked matrix.now tree.now workspace.old out.old result workspace.new out.new }
{
    matrices::flipcut_flips(matrix, tree, workspace, out)
}

#[unsafe(no_mangle)]
pub extern "C" fn flipcut_split(
    matrix: &[u8],
    group: u64,
    workspace: &mut [i32],
    res: &mut [u64; SPLIT_RESULTS],
) -> u64
    ensures { SplitsPacked matrix.now group workspace.old res.old result workspace.new res.new }
{
    matrices::flipcut_split(matrix, group, workspace, res)
}

#[unsafe(no_mangle)]
pub extern "C" fn flipcut_score(matrix: &[u8], answer: &[u8]) -> u64
    ensures { result ≡ packed_score (scored matrix.now answer.now) }
{
    matrices::flipcut_score(matrix, answer)
}

#[unsafe(no_mangle)]
pub extern "C" fn flipcut_read(file: &[u8], list: &mut [Flip], res: &mut [u64; READ_RESULTS]) -> u64
    ensures { ReadsPacked file.now list.old res.old result list.new res.new }
{
    answers::flipcut_read(file, list, res)
}

#[unsafe(no_mangle)]
pub extern "C" fn flipcut_write(answer: &Answer, list: &[Flip], out: &mut [u8]) -> u64
    ensures { WritesPacked answer.now list.now out.old result out.new }
{
    answers::flipcut_write(answer, list, out)
}

#[unsafe(no_mangle)]
pub extern "C" fn flipcut_check_names(names: &[u8]) -> u64
    ensures { result ≡ packed_names (names_checked names.now) }
{
    trees::flipcut_check_names(names)
}

#[unsafe(no_mangle)]
pub extern "C" fn flipcut_read_newick(text: &[u8], matrix: &mut [u8], names: &mut [u8]) -> u64
    ensures { ReadsNewickPacked text.now matrix.old names.old result matrix.new names.new }
{
    trees::flipcut_read_newick(text, matrix, names)
}

#[unsafe(no_mangle)]
pub extern "C" fn flipcut_write_newick(answer: &[u8], names: &[u8], out: &mut [u8]) -> u64
    ensures { WritesNewickPacked answer.now names.now out.old result out.new }
{
    trees::flipcut_write_newick(answer, names, out)
}
