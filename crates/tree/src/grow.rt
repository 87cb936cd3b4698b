// Building a group: it is split, and the walk over its parts builds each of them; the taxon count falls.
// All lists of parts stand in one lent list: a group's first, those of the groups below it after them. All else that a level works on is lent as one
// reference each, which takes less of each level's stack than slices do.
ghost use Rattle.std.specs.Prelude.{◌+◌, ◌-◌, ◌*◌, ◌≤◌, ◌<◌, length, take};
ghost use Rattle.taxa.specs.Sets.{count};
ghost use Rattle.tree.specs.inner.Grow.{AllSmall};
ghost use Rattle.tree.specs.inner.On as on;

use super::group_list::Groups;
use search::Lists;
use split::loaded::Loaded;

// The group and all below it, after those that are found.
#[cycle(grow_walk)]
pub fn grow(
    matrix: &mut Loaded,
    ws: &mut [i32],
    group: u64,
    list: &mut [u64],
    lists: &mut Lists,
    groups: &mut Groups,
)
    requires ready { on.Ready matrix.old group ws.old × (2 * count 64 group ≤ length list.old) }
    requires room { groups.old.count + length (on.walk_from matrix.old group).groups ≤ 63 }
    ensures { on.Grown matrix.old matrix.new ws.old ws.new (on.walk_from matrix.old group) groups.old groups.new }
{
    let size = taxa::size(group);
    if size < 2 {
        return;
    }
    let handed = matrix.split_group(group, ws, list, lists);
    groups.put(group, handed.cost);
    walk(matrix, ws, list, handed.number, size, lists, groups)
}

// The first k parts of a list built one after the other; each has fewer than `bound` taxa.
#[cycle(grow_walk)]
fn walk(
    matrix: &mut Loaded,
    ws: &mut [i32],
    list: &mut [u64],
    k: usize,
    bound: u32,
    lists: &mut Lists,
    groups: &mut Groups,
)
    requires all_small { AllSmall (take k list.old) matrix.old.n bound (length list.old - k)
        × (k ≤ length list.old)
        × (0 < bound) }
    requires loaded { on.Sound matrix.old × on.TurnsClear matrix.old (take k list.old) ws.old }
    requires room { groups.old.count + length (on.walk_over matrix.old (take k list.old)).groups ≤ 63 }
    ensures { on.Grown matrix.old matrix.new ws.old ws.new (on.walk_over matrix.old (take k list.old)) groups.old groups.new }
{
    for i in 0usize..k {
        let part = list[i];
        grow(matrix, ws, part, &mut list[k..], lists, groups);
    }
}
