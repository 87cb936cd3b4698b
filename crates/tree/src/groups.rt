// Groups and costs: the walk from all taxa, its groups put into file order.
ghost use Rattle.std.specs.Prelude.{◌≡◌, ◌+◌, ◌≤◌, length};
ghost use Rattle.search.specs.Workspace.{cleared};
ghost use Rattle.split.specs.Columns.{matrix_in};
ghost use Rattle.taxa.specs.Sets.{all};
ghost use Rattle.method.specs.Tree.{one_entries, ordered};
ghost use Rattle.tree.specs.Lists.{listed};
ghost use Rattle.tree.specs.Build.{tree_with};
ghost use Rattle.tree.specs.inner.Grow.{Walked, tree_of, Growable, Grew};
ghost use Rattle.tree.specs.inner.On as on;

use super::group_list::Groups;
use super::grow;
use answer::Answer;
use search::{Lists, net};
use split::loaded::Loaded;

// The walk from all taxa. The lists of the search and of the parts stand only while the tree grows.
fn grow_all(matrix: &mut Loaded, workspace: &mut [i32], groups: &mut Groups)
    requires ready { on.Ready matrix.old (all matrix.old.n) workspace.old }
    requires room { groups.old.count + length (on.walk_from matrix.old (all matrix.old.n)).groups ≤ 63 }
    ensures { on.Grown matrix.old matrix.new workspace.old workspace.new
        (on.walk_from matrix.old (all matrix.old.n)) groups.old groups.new }
{
    let mut list = [0u64; 128];
    let mut lists = Lists::new();
    let everyone = taxa::all(matrix.n as u32);
    grow::grow(matrix, workspace, everyone, &mut list, &mut lists, groups);
}

// A walk's groups in file order, with their costs and the total, as what an answer holds that has no flips.
fn in_file_order(n: u16, m: u16, walked: &Groups) -> Answer
    requires { Walked n walked.now.taxa walked.now.costs walked.now.count }
    ensures { (tree_of result ≡ tree_with n m (ordered 64 n (listed walked.now))) × (result.flips ≡ 0) }
{
    let rising = walked.in_order(u32::from(n));
    Answer {
        n,
        m,
        groups: rising.count as u16,
        flips: 0,
        total: rising.total(),
        taxa: rising.taxa,
        costs: rising.costs,
    }
}

// The tree of a matrix that is taken: it is loaded into the room lent, and its columns are flipped there as the tree grows. The workspace is cleared once:
// each split leaves it so.
pub fn grow_tree(
    file: &[u8],
    n: u16,
    m: u16,
    needed: usize,
    workspace: &mut [i32],
    matrix: &mut Loaded,
) -> Answer
    requires { Growable file.now n m (length workspace.old) × (needed ≡ one_entries (matrix_in file.now)) }
    ensures { Grew file.now result matrix.new.ones matrix.new.zeros
        × (workspace.new ≡ cleared (one_entries (matrix_in file.now)) workspace.old) }
{
    matrix.load(file, n as usize, m as usize);
    net::clear(workspace, needed);
    let mut walked = Groups::new();
    grow_all(matrix, workspace, &mut walked);
    in_file_order(n, m, &walked)
}
