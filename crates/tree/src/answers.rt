// What is written of a tree that has grown: its groups and costs alone, or the whole answer.
ghost use Rattle.std.specs.Prelude.{◌≡◌, ◌≤◌, length};
ghost use Rattle.record.specs.Bytes.{equal};
ghost use Rattle.answer.specs.Content.{file_of, length_of};
ghost use Rattle.answer.specs.Writing.{writing};
ghost use Rattle.method.specs.Tree.{column, flip_list};
ghost use Rattle.split.specs.Columns.{matrix_in};
ghost use Rattle.tree.specs.Build.{with_flips, tree_room};
ghost use Rattle.tree.specs.inner.Lists.{unweighed};
ghost use Rattle.tree.specs.inner.Grow.{written_as, tree_of, Flipped, Answers};

use super::{Built, order};
use answer::Answer;
use record::refusal::Refusal;
use split::loaded::Loaded;

// What the groups of 64 taxa take, without flips.
const MOST_TREE: usize = 1028;

// What was written, with its total.
fn as_built(written: Result<usize, Refusal>, total: u32) -> Result<Built, Refusal>
    ensures { result ≡ written_as total written }
{
    let size = written?;
    Ok(Built { size, total })
}

// Groups and costs as an answer file without flips.
pub fn write_tree(tree: Answer, out: &mut [u8]) -> Result<Built, Refusal>
    requires { tree.flips ≡ 0 }
    ensures { Answers (tree_of tree) 0 out.old result out.new }
{
    let none = [0u64; 0];
    as_built(answer::write(tree, &none, &none, &none, out), tree.total)
}

// Whether a file is, byte for byte, what is so written.
pub fn is_tree(file: &[u8], tree: Answer) -> bool
    requires { (tree.flips ≡ 0) × (writing (tree_of tree) 0 (tree_room 64) ≡ Ok (length_of (tree_of tree))) × (length_of (tree_of tree) ≤ tree_room 64) }
    ensures { result ≡ equal file.now (file_of (tree_of tree)) }
{
    let mut own = [0u8; MOST_TREE];
    match write_tree(tree, &mut own) {
        Ok(built) => record::same(file, &own[..built.size]),
        Err(_) => false,
    }
}

// The whole answer: the flips are listed from what became of the file's columns, and their lists take the columns' places.
pub fn write_whole(
    file: &[u8],
    tree: Answer,
    matrix: &mut Loaded,
    out: &mut [u8],
) -> Result<Built, Refusal>
    requires { Flipped file.now tree.m }
    ensures { Answers
        (with_flips (tree_of tree)
        (flip_list tree.m (column (matrix_in file.now).columns) (unweighed matrix.old.ones matrix.old.zeros)))
        256 out.old result out.new }
{
    let mut columns = [0u64; 256];
    let flips = order::list_flips(
        file,
        tree.m as usize,
        &mut columns,
        &mut matrix.ones,
        &mut matrix.zeros,
    );
    let whole = Answer {
        flips: flips as u16,
        ..tree
    };
    as_built(
        answer::write(whole, &columns, &matrix.ones, &matrix.zeros, out),
        tree.total,
    )
}
