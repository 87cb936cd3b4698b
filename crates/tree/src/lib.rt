// The build, whole or in two steps. A group hands its parts on, and each part is again a group; then the answer file, groups in file order, then flips.
// Promises: for any bytes and any lengths of the lent buffers, every number and every byte is that of specs/Build.antt, specs/Tree.antt and
// specs/Flips.antt. Rests on taxa, method, record, matrix, answer, search and split.
#![tactic(auto)]

mod answers;
mod group_list;
mod groups;
mod grow;
mod order;

ghost use Rattle.std.specs.Prelude.{◌≡◌, ◌&&◌, ◌≤◌, ◌<◌, eqb, length};
ghost use Rattle.matrix.specs.Check.{shape, checked};
ghost use Rattle.answer.specs.Content.{content_in};
ghost use Rattle.tree.specs.inner.Grow.{lent_checked};
ghost use Rattle.tree.specs.Build.{tree_room, room_for, answered, output_after, workspace_after, Builds};
ghost use Rattle.tree.specs.Tree.{tree_answered, tree_output, GivesTree};
ghost use Rattle.tree.specs.Flips.{agreed, flips_workspace, GivesFlips};

use answer::reader::pass_file;
use matrix::Shape;
use record::number::u16_at;
use record::refusal::{Reason, Refusal};
use split::columns;
use split::loaded::Loaded;

// What the build answers, and each of its steps: the length written and the total.
#[derive(Clone, Copy)]
pub struct Built {
    pub size: usize,
    pub total: u32,
}

// What is lent and too short: the workspace, or else the output.
fn check_lent(space: usize, needed: usize, room: usize, wanted: usize) -> Result<(), Refusal>
    ensures { result ≡ lent_checked space needed room wanted }
{
    if space < needed {
        return Err(Reason::Workspace.at(0));
    }
    if room < wanted {
        return Err(Reason::Room.at(0));
    }
    Ok(())
}

// How many bytes the groups of n taxa take at most.
fn tree_room(n: u16) -> usize
    requires { 0 < n }
    ensures { result ≡ tree_room n }
{
    20 + 16 * (n as usize - 1)
}

// And with the flips of m columns.
fn answer_room(n: u16, m: u16) -> usize
    requires { 0 < n }
    ensures { result ≡ room_for n m }
{
    tree_room(n) + 22 * m as usize
}

// A matrix that is taken, built: the refusals of the workspace and of the output, and else the tree and then its flips.
fn build_taken(
    file: &[u8],
    n: u16,
    m: u16,
    workspace: &mut [i32],
    out: &mut [u8],
) -> Result<Built, Refusal>
    requires { Ok (shape n m) ≡ checked file.now }
    ensures { (result ≡ answered (Ok (shape n m)) file.now (length workspace.old) (length out.old))
        × (out.new ≡ output_after file.now result out.old)
        × (workspace.new ≡ workspace_after file.now result workspace.old) }
{
    let needed = columns::one_entries(file, m as usize);
    check_lent(workspace.len(), needed, out.len(), answer_room(n, m))?;
    let mut matrix = Loaded::new();
    let tree = groups::grow_tree(file, n, m, needed, workspace, &mut matrix);
    answers::write_whole(file, tree, &mut matrix, out)
}

// The operation "build".
pub fn build(file: &[u8], workspace: &mut [i32], out: &mut [u8]) -> Result<Built, Refusal>
    ensures { Builds file.now workspace.old out.old result workspace.new out.new }
{
    let Shape { n, m } = matrix::check(file)?;
    build_taken(file, n, m, workspace, out)
}

// A matrix that is taken: the refusals of the workspace and of the output, and else its tree. (Beside `build_taken`: other room, other writing, another promise.)
fn tree_taken(
    file: &[u8],
    n: u16,
    m: u16,
    workspace: &mut [i32],
    out: &mut [u8],
) -> Result<Built, Refusal>
    requires { Ok (shape n m) ≡ checked file.now }
    ensures { (result ≡ tree_answered (Ok (shape n m)) file.now (length workspace.old) (length out.old))
        × (out.new ≡ tree_output file.now result out.old)
        × (workspace.new ≡ workspace_after file.now result workspace.old) }
{
    let needed = columns::one_entries(file, m as usize);
    check_lent(workspace.len(), needed, out.len(), tree_room(n))?;
    let mut matrix = Loaded::new();
    let tree = groups::grow_tree(file, n, m, needed, workspace, &mut matrix);
    answers::write_tree(tree, out)
}

// The operation "tree": groups and costs, as an answer file without flips.
pub fn tree(file: &[u8], workspace: &mut [i32], out: &mut [u8]) -> Result<Built, Refusal>
    ensures { GivesTree file.now workspace.old out.old result workspace.new out.new }
{
    let Shape { n, m } = matrix::check(file)?;
    tree_taken(file, n, m, workspace, out)
}

// Whether a tree file has so many taxa and columns.
fn agrees(tree: &[u8], n: u16, m: u16) -> bool
    requires { 16 ≤ length tree.now }
    ensures { result ≡ (eqb (content_in tree.now).n n && eqb (content_in tree.now).m m) }
{
    if u16_at(tree, 4) != n {
        return false;
    }
    u16_at(tree, 6) == m
}

// Two files that were read: what refuses them together or what is lent, and else the flips. That the tree is this matrix's can be known only from the
// divisions, and these only from the search: so the tree grows again.
fn flips_taken(
    file: &[u8],
    tree: &[u8],
    n: u16,
    m: u16,
    workspace: &mut [i32],
    out: &mut [u8],
) -> Result<Built, Refusal>
    requires { (Ok (shape n m) ≡ checked file.now) × (16 ≤ length tree.now) }
    ensures { (result ≡ agreed file.now tree.now n m (length workspace.old) (length out.old))
        × (out.new ≡ output_after file.now result out.old)
        × (workspace.new ≡ flips_workspace file.now result workspace.old) }
{
    if !agrees(tree, n, m) {
        return Err(Reason::Differ.at(0));
    }
    let needed = columns::one_entries(file, m as usize);
    let wanted = answer_room(n, m);
    check_lent(workspace.len(), needed, out.len(), wanted)?;
    let mut matrix = Loaded::new();
    let own = groups::grow_tree(file, n, m, needed, workspace, &mut matrix);
    if !answers::is_tree(tree, own) {
        return Err(Reason::OtherTree.at(0));
    }
    answers::write_whole(file, own, &mut matrix, out)
}

// The operation "flips": a matrix and its tree, as an answer file without flips, to the whole answer.
pub fn flips(
    file: &[u8],
    tree: &[u8],
    workspace: &mut [i32],
    out: &mut [u8],
) -> Result<Built, Refusal>
    ensures { GivesFlips file.now tree.now workspace.old out.old result workspace.new out.new }
{
    let Shape { n, m } = matrix::check(file)?;
    pass_file(tree)?;
    flips_taken(file, tree, n, m, workspace, out)
}
