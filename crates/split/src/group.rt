// One split of a group, on columns in three slices and of a loaded matrix: the division, its flips, and the parts that the group hands on.
ghost use Rattle.std.specs.Prelude.{◌≡◌, ◌≤◌, length};
ghost use Rattle.taxa.specs.Sets.{multiplicity_in, count};
ghost use Rattle.method.specs.Flow.{arc_count};
ghost use Rattle.search.specs.Search.{cols_of, Given};
ghost use Rattle.search.specs.Workspace.{cleared};
ghost use Rattle.split.specs.Groups.{IsSplit};
ghost use Rattle.split.specs.inner.Handing.{Parallel, HandsOn};
ghost use Rattle.split.specs.inner.On as on;

use crate::loaded::Loaded;
use crate::{columns, parts};
use search::{Lists, Split};

// The division that document 01 takes. The search's flow is cleared away.
pub fn divide(
    weights: &[u16],
    planes: &[u64; 72],
    ones: &[u64],
    zeros: &[u64],
    group: u64,
    n: usize,
    m: usize,
    workspace: &mut [i32],
    lists: &mut Lists,
) -> Split
    requires { Given weights.now planes.now ones.now zeros.now group n m
        × (arc_count m (cols_of weights.now ones.now zeros.now) group ≤ length workspace.old) }
    ensures { IsSplit (multiplicity_in planes.now) m (cols_of weights.now ones.now zeros.now) group result.cost result.side result.other
        × (workspace.new ≡ cleared (arc_count m (cols_of weights.now ones.now zeros.now) group) workspace.old) }
{
    let found = search::divide(weights, planes, ones, zeros, group, n, m, workspace, lists);
    search::net::clear_places(workspace, &lists.offsets, m);
    found
}

// What a group hands on: the split's cost, and how many parts were listed.
#[derive(Clone, Copy)]
pub struct Handed {
    pub cost: u32,
    pub number: usize,
}

// The split of a group of n taxa: the columns are flipped, and the parts go into the first places of a lent list. (`Loaded` has the same for its own
// columns, which no function can be lent in part to be written.)
pub fn split_group(
    weights: &[u16],
    planes: &[u64; 72],
    ones: &mut [u64],
    zeros: &mut [u64],
    group: u64,
    n: usize,
    workspace: &mut [i32],
    list: &mut [u64],
    lists: &mut Lists,
) -> Handed
    requires { Given weights.now planes.now ones.old zeros.old group n (length weights.now)
        × Parallel weights.now ones.old zeros.old
        × (arc_count (length weights.now) (cols_of weights.now ones.old zeros.old) group ≤ length workspace.old)
        × (count 64 group ≤ length list.old) }
    ensures { HandsOn weights.now planes.now ones.old zeros.old ones.new zeros.new group
        list.old list.new result.cost result.number
        × (workspace.new ≡ cleared (arc_count (length weights.now) (cols_of weights.now ones.old zeros.old) group) workspace.old) }
{
    let found = divide(
        weights,
        planes,
        ones,
        zeros,
        group,
        n,
        weights.len(),
        workspace,
        lists,
    );
    columns::flip_columns(weights, planes, ones, zeros, group, found.side);
    let number = parts::parts(ones, zeros, group, list);
    Handed {
        cost: found.cost,
        number,
    }
}

impl Loaded {
    // The division that document 01 takes.
    pub fn divide(&self, group: u64, workspace: &mut [i32], lists: &mut Lists) -> Split
        requires { on.Given self.now group × (on.arcs self.now group ≤ length workspace.old) }
        ensures { IsSplit (on.multiplicities self.now) self.now.m (on.columns self.now) group result.cost result.side result.other
            × (workspace.new ≡ cleared (on.arcs self.now group) workspace.old) }
    {
        let m = self.m;
        divide(
            &self.weights[..m],
            &self.planes,
            &self.ones[..m],
            &self.zeros[..m],
            group,
            self.n,
            m,
            workspace,
            lists,
        )
    }

    // The split of a group: the columns are flipped, and the parts go into the first places of a lent list.
    pub fn split_group(
        &mut self,
        group: u64,
        workspace: &mut [i32],
        list: &mut [u64],
        lists: &mut Lists,
    ) -> Handed
        requires { on.Given self.old group × (on.arcs self.old group ≤ length workspace.old) × (count 64 group ≤ length list.old) }
        ensures { on.HandsOn self.old self.new group list.old list.new result.cost result.number
            × on.Kept self.old self.new
            × (workspace.new ≡ cleared (on.arcs self.old group) workspace.old) }
    {
        let found = self.divide(group, workspace, lists);
        self.flip(group, found.side);
        let m = self.m;
        let number = parts::parts(&self.ones[..m], &self.zeros[..m], group, list);
        Handed {
            cost: found.cost,
            number,
        }
    }
}
