// One split in code: the flips of a division, the parts of what remains, and the operation "split".
// Promises: flips and parts are the method's, column by column and part by part; the operation answers as document 01 says, for any bytes.
// Rests on taxa, record, matrix, method and search.
#![tactic(auto)]

pub mod columns;
pub mod group;
pub mod loaded;
mod parts;

ghost use Rattle.std.specs.Prelude.{◌≡◌, length};
ghost use Rattle.matrix.specs.Check.{shape, checked};
ghost use Rattle.method.specs.Tree.{one_entries};
ghost use Rattle.search.specs.Workspace.{cleared};
ghost use Rattle.split.specs.inner.Handing.{Splittable};
ghost use Rattle.split.specs.Columns.{matrix_in};
ghost use Rattle.split.specs.Operation.{split_of, answered, workspace_after, Splits};

use loaded::Loaded;
use matrix::Shape;
use record::refusal::{Reason, Refusal};
use search::{Lists, Split};

// The split of a group that nothing refuses. The numbers that document 02's C-13 lends are cleared first, and the search of the group uses no others.
fn split_loaded(
    file: &[u8],
    group: u64,
    n: usize,
    m: usize,
    needed: usize,
    workspace: &mut [i32],
) -> Split
    requires { Splittable file.now group n m (length workspace.old) × (needed ≡ one_entries (matrix_in file.now)) }
    ensures { (Ok result ≡ split_of (matrix_in file.now) group) × (workspace.new ≡ cleared needed workspace.old) }
{
    let mut matrix = Loaded::new();
    matrix.load(file, n, m);
    search::net::clear(workspace, needed);
    let mut lists = Lists::new();
    matrix.divide(group, workspace, &mut lists)
}

// A matrix that is taken: the refusals of the group and of the workspace, and else the division.
fn split_matrix(
    file: &[u8],
    group: u64,
    n: usize,
    m: usize,
    workspace: &mut [i32],
) -> Result<Split, Refusal>
    requires { Ok (shape n m) ≡ checked file.now }
    ensures { (result ≡ answered (Ok (shape n m)) file.now group (length workspace.old))
        × (workspace.new ≡ workspace_after file.now result workspace.old) }
{
    if taxa::size(group) < 2 {
        return Err(Reason::GroupToSplit.at(0));
    }
    if !taxa::subset(group, taxa::all(n as u32)) {
        return Err(Reason::GroupToSplit.at(0));
    }
    let needed = columns::one_entries(file, m);
    if workspace.len() < needed {
        return Err(Reason::Workspace.at(0));
    }
    Ok(split_loaded(file, group, n, m, needed, workspace))
}

// The operation "split": the division's cost, its side A and the taxon t.
pub fn split(file: &[u8], group: u64, workspace: &mut [i32]) -> Result<Split, Refusal>
    ensures { Splits file.now group workspace.old result workspace.new }
{
    let Shape { n, m } = matrix::check(file)?;
    split_matrix(file, group, n as usize, m as usize, workspace)
}
