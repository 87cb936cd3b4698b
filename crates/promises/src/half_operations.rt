// The operations of a build in two steps, called as any caller calls them; as in operations.rt.
ghost use Rattle.tree.specs.Tree.{GivesTree};
ghost use Rattle.tree.specs.Flips.{GivesFlips};
ghost use Rattle.flipcut.specs.Packed.{GivesTreePacked, GivesFlipsPacked};

use flipcut::matrices::{flipcut_flips, flipcut_tree};
use record::refusal::Refusal;
use tree::Built;

// Tree.
pub fn tree(file: &[u8], workspace: &mut [i32], out: &mut [u8]) -> Result<Built, Refusal>
    ensures { GivesTree file.now workspace.old out.old result workspace.new out.new }
{
    tree::tree(file, workspace, out)
}

// Flips.
pub fn flips(
    file: &[u8],
    tree: &[u8],
    workspace: &mut [i32],
    out: &mut [u8],
) -> Result<Built, Refusal>
    ensures { GivesFlips file.now tree.now workspace.old out.old result workspace.new out.new }
{
    tree::flips(file, tree, workspace, out)
}

// Tree, as C calls it.
pub fn tree_from_c(matrix: &[u8], workspace: &mut [i32], out: &mut [u8]) -> u64
    ensures { GivesTreePacked matrix.now workspace.old out.old result workspace.new out.new }
{
    flipcut_tree(matrix, workspace, out)
}

// Flips, as C calls it.
pub fn flips_from_c(matrix: &[u8], tree: &[u8], workspace: &mut [i32], out: &mut [u8]) -> u64
    ensures { GivesFlipsPacked matrix.now tree.now workspace.old out.old result workspace.new out.new }
{
    flipcut_flips(matrix, tree, workspace, out)
}
