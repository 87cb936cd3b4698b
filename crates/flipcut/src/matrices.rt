// The operations on a matrix file, as C calls them.
ghost use Rattle.std.specs.Prelude.{◌≡◌};
ghost use Rattle.matrix.specs.Check.{checked};
ghost use Rattle.score.specs.Operation.{scored};
ghost use Rattle.flipcut.specs.Packed.{packed, packed_score, BuildsPacked, GivesTreePacked, GivesFlipsPacked, SplitsPacked};

use super::pack;
use super::pack::SPLIT_RESULTS;

pub fn flipcut_check(file: &[u8]) -> u64
    ensures { result ≡ packed (checked file.now) }
{
    pack::check(matrix::check(file))
}

pub fn flipcut_build(matrix: &[u8], workspace: &mut [i32], out: &mut [u8]) -> u64
    ensures { BuildsPacked matrix.now workspace.old out.old result workspace.new out.new }
{
    pack::build(tree::build(matrix, workspace, out))
}

pub fn flipcut_tree(matrix: &[u8], workspace: &mut [i32], out: &mut [u8]) -> u64
    ensures { GivesTreePacked matrix.now workspace.old out.old result workspace.new out.new }
{
    pack::build(tree::tree(matrix, workspace, out))
}

pub fn flipcut_flips(matrix: &[u8], tree: &[u8], workspace: &mut [i32], out: &mut [u8]) -> u64
    ensures { GivesFlipsPacked matrix.now tree.now workspace.old out.old result workspace.new out.new }
{
    pack::build(tree::flips(matrix, tree, workspace, out))
}

pub fn flipcut_split(
    matrix: &[u8],
    group: u64,
    workspace: &mut [i32],
    res: &mut [u64; SPLIT_RESULTS],
) -> u64
    ensures { SplitsPacked matrix.now group workspace.old res.old result workspace.new res.new }
{
    pack::split(split::split(matrix, group, workspace), res)
}

pub fn flipcut_score(matrix: &[u8], answer: &[u8]) -> u64
    ensures { result ≡ packed_score (scored matrix.now answer.now) }
{
    pack::score(score::score(matrix, answer))
}
