// The search for the least division of a group: a largest flow to each taxon from all that are lower, in the lent workspace.
// Promises that a flow of the division's cost stands there, that side A is what hops reach past it, and that cost, A and t are what listing gives.
// Rests on taxa and on method; signed numbers are confined to module net.
#![tactic(auto)]

pub mod net;
mod networks;
mod push;
mod reach;
mod ties;

ghost use Rattle.std.specs.Prelude.{◌≡◌, cond, ℕ, ◌+◌, ◌≤◌, ◌<◌, ◌^◌, ltb, length};
ghost use Rattle.taxa.specs.Sets.{count, low};
ghost use Rattle.method.specs.Flow.{arc_count};
ghost use Rattle.search.specs.Workspace.{cleared, Kept};
ghost use Rattle.search.specs.Search.{nth, cols_of, Given, DividedByFlow};
ghost use Rattle.search.specs.inner.Network.{Offsets};
ghost use Rattle.search.specs.inner.Trying.{Joins, Limits};
ghost use Rattle.search.specs.inner.On as on;

use networks::Network;

// x, unless z is empty.
fn unless_none(z: u64, x: u64) -> u64
    ensures { result ≡ cond (ltb 0 z) x 0 }
{
    if 0 < z { x } else { 0 }
}

// The lists that are lent for the search of a group: three for its network, one that counts what runs through each column, and one that the tree of the taxa
// reached grows in.
#[derive(Drop)]
pub struct Lists {
    pub joined: [u64; 256],
    pub limits: [u32; 320],
    pub offsets: [u16; 257],
    pub used: [u32; 256],
    pub tree: [u32; 256],
}

impl Lists {
    pub fn new() -> Lists {
        Lists {
            joined: [0; 256],
            limits: [0; 320],
            offsets: [0; 257],
            used: [0; 256],
            tree: [0; 256],
        }
    }
}

// Where each column's places in the workspace start, and after them how many numbers all columns take.
fn offsets_of(joined: &[u64; 256], m: usize, offsets: &mut [u16; 257])
    requires { m ≤ 256 }
    ensures { Offsets joined.now offsets.new m }
{
    let mut sum: u16 = 0;
    for c in 0..m {
        offsets[c] = sum;
        sum = sum + taxa::size(joined[c]) as u16;
    }
    offsets[m] = sum;
}

// The network of the group: each column joins its ones in it, if it has a zero there, and lets its weight through for each specimen of its zeros.
fn network_of(
    weights: &[u16],
    planes: &[u64; 72],
    ones: &[u64],
    zeros: &[u64],
    group: u64,
    m: usize,
    lists: &mut Lists,
)
    requires { (m ≤ 256)
        × (m ≤ length weights.now)
        × (m ≤ length ones.now)
        × (m ≤ length zeros.now) }
    ensures { Joins ones.now zeros.now group m lists.new.joined
        × Limits weights.now planes.now zeros.now group m lists.new.limits
        × Offsets lists.new.joined lists.new.offsets m }
{
    for c in 0..m {
        let z = taxa::common(zeros[c], group);
        lists.joined[c] = unless_none(z, taxa::common(ones[c], group));
        lists.limits[c] = u32::from(weights[c]) * taxa::mass_in(planes, z);
    }
    offsets_of(&lists.joined, m, &mut lists.offsets);
}

// The least cost so far, and the taxon that it was met at first; `NOBODY`, while it is a bound that was not met.
#[derive(Clone, Copy)]
struct Best {
    cost: u32,
    other: usize,
}

// What a division costs, the side A of the group's lowest taxon, and t, the lowest taxon of the other side.
#[derive(Clone, Copy)]
pub struct Split {
    pub cost: u32,
    pub side: u64,
    pub other: usize,
}

impl Network<'_> {
    // The taxa that hops reach from the sources past no flow.
    fn connected(
        &self,
        ws: &mut [i32],
        used: &mut [u32; 256],
        tree: &mut [u32; 256],
        sources: u64,
    ) -> u64
        requires { on.Room self.now ws.old × (sources < 2 ^ self.now.n) }
        ensures { on.Side self.now ws.new sources result × (ws.new ≡ cleared (on.places self.now) ws.old) }
    {
        net::clear_places(ws, self.offsets, self.m);
        push::unused(used, self.m);
        // No path came before: the first sweep is left out, and whole ones do.
        self.reach(ws, used, tree, sources, 0, self.m)
    }

    // Taxon u is tried. Only sets with all taxa of the group below u, and without u, can cost less than the best: what ties u to those taxa, and a flow
    // from all of them to u, is what such a set costs at least.
    fn attempt(
        &self,
        group: u64,
        ws: &mut [i32],
        used: &mut [u32; 256],
        tree: &mut [u32; 256],
        best: Best,
        u: usize,
    ) -> Best
        requires { on.Room self.now ws.old
            × (group < 2 ^ self.now.n)
            × (low self.now.n group < u)
            × (u < self.now.n)
            × on.Ties self.now group }
        ensures { ((bound : ℕ) → on.Trying self.now group bound u best.cost best.other
            → on.Trying self.now group bound (u + 1) result.cost result.other)
            × on.Kept self.now ws.old ws.new }
    {
        if !taxa::contains(group, u as u32) {
            return best;
        }
        if best.cost <= self.limits[ties::TIES + u] {
            return best;
        }
        let lower = taxa::common(group, taxa::all(u as u32));
        let cut = self.largest(ws, used, tree, lower, u, best.cost);
        if cut.size < best.cost {
            Best {
                cost: cut.size,
                other: u,
            }
        } else {
            best
        }
    }

    // The least that parts a taxon of the group from its lowest, and the first such taxon.
    fn cheapest(
        &self,
        group: u64,
        ws: &mut [i32],
        used: &mut [u32; 256],
        tree: &mut [u32; 256],
    ) -> Best
        requires { on.Room self.now ws.old
            × (group < 2 ^ self.now.n)
            × (1 < count self.now.n group)
            × on.Ties self.now group
            × on.Weighed self.now group used.old }
        ensures { on.Tried self.now group result.cost result.other × on.Kept self.now ws.old ws.new }
    {
        let bound = self.bound_of(used, group);
        let mut best = Best {
            cost: bound,
            other: reach::NOBODY,
        };
        let s = taxa::lowest(group) as usize;
        for u in s + 1..self.n {
            best = self.attempt(group, ws, used, tree, best, u);
        }
        best
    }

    // The division by the taxon that is parted for the least; the flow to it, run last, stands in the workspace.
    fn by_flows(
        &self,
        group: u64,
        ws: &mut [i32],
        used: &mut [u32; 256],
        tree: &mut [u32; 256],
    ) -> Split
        requires { on.Room self.now ws.old
            × (group < 2 ^ self.now.n)
            × (1 < count self.now.n group)
            × on.Ties self.now group
            × on.Weighed self.now group used.old }
        ensures { on.NetworkDivided self.now group ws.new result.cost result.other result.side × on.Kept self.now ws.old ws.new }
    {
        let t = self.cheapest(group, ws, used, tree).other;
        let s = taxa::single(taxa::lowest(group));
        let cut = self.largest(ws, used, tree, s, t, reach::UNBOUNDED);
        Split {
            cost: cut.size,
            side: cut.side,
            other: t,
        }
    }
}

// The division that document 01 takes. Cost 0 is found without a flow; else the flow of the taxon that is parted stands in the workspace, whose places
// the offsets tell.
pub fn divide(
    weights: &[u16],
    planes: &[u64; 72],
    ones: &[u64],
    zeros: &[u64],
    group: u64,
    n: usize,
    m: usize,
    ws: &mut [i32],
    lists: &mut Lists,
) -> Split
    requires { Given weights.now planes.now ones.now zeros.now group n m
        × (arc_count m (cols_of weights.now ones.now zeros.now) group ≤ length ws.old) }
    ensures { DividedByFlow weights.now planes.now ones.now zeros.now group n m ws.new result.cost result.other result.side
        × (nth lists.new.offsets m ≡ arc_count m (cols_of weights.now ones.now zeros.now) group)
        × Kept (arc_count m (cols_of weights.now ones.now zeros.now) group) ws.old ws.new }
{
    network_of(weights, planes, ones, zeros, group, m, lists);
    let s = taxa::single(taxa::lowest(group));
    let free = Network {
        weights,
        planes,
        joined: &lists.joined,
        limits: &lists.limits,
        offsets: &lists.offsets,
        n,
        m,
    };
    let met = free.connected(ws, &mut lists.used, &mut lists.tree, s);
    let off = taxa::difference(group, met);
    if 0 < off {
        return Split {
            cost: 0,
            side: met,
            other: taxa::lowest(off) as usize,
        };
    }
    ties::ties_of(
        weights,
        &lists.joined,
        group,
        m,
        &mut lists.limits,
        &mut lists.used,
    );
    let tied = Network {
        weights,
        planes,
        joined: &lists.joined,
        limits: &lists.limits,
        offsets: &lists.offsets,
        n,
        m,
    };
    tied.by_flows(group, ws, &mut lists.used, &mut lists.tree)
}
