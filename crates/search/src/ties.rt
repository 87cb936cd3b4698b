// What ties the taxa of a group to the lower ones, in one pass over the columns; and a bound of what it costs to part one taxon alone. The sums stand in lent lists:
// behind the limits of 256 columns what ties each of 64 taxa, and in a list that no flow uses yet what each taxon's own columns weigh, those that it is the lowest of.
ghost use Rattle.std.specs.Prelude.{◌≡◌, true, ℕ, ◌+◌, ◌≤◌, ◌<◌, length};
ghost use Rattle.taxa.specs.Sets.{has, count};
ghost use Rattle.search.specs.Search.{nth};
ghost use Rattle.search.specs.inner.Network.{weight_most};
ghost use Rattle.search.specs.inner.Trying.{Ties, Weighed, sum_most, Few, SameLimits, ColumnAdded, Added};
ghost use Rattle.search.specs.inner.On as on;

use crate::networks::Network;
use crate::{push, reach};

// Where the ties start, and where they end.
pub const TIES: usize = 256;

const ENDS: usize = 320;

// No taxon is tied. (By index: that `fill` of a part in the middle leaves what stands before it was not proved.)
fn untied(limits: &mut [u32; 320])
    ensures { SameLimits limits.old limits.new
        × ((u : ℕ) → u < 64 → nth limits.new (256 + u) ≡ 0) }
{
    for p in TIES..ENDS {
        limits[p] = 0;
    }
}

// The taxa of x are tied by a weight.
fn tie(limits: &mut [u32; 320], x: u64, weight: u16)
    requires { (u : ℕ) → u < 64 → nth limits.old (256 + u) ≤ sum_most }
    ensures { Added x weight limits.old limits.new }
{
    let mut left = x;
    while 0 < left {
        let p = TIES + taxa::lowest(left) as usize;
        limits[p] = limits[p] + u32::from(weight);
        left = taxa::rest(left);
    }
}

// A column that joins x ties all its taxa but the lowest to that, and is the lowest's own.
fn tie_column(limits: &mut [u32; 320], own: &mut [u32; 256], x: u64, weight: u16)
    requires { Few sum_most limits.old own.old }
    ensures { ColumnAdded x weight limits.old limits.new own.old own.new }
{
    if x == 0 {
        return;
    }
    tie(limits, taxa::rest(x), weight);
    let first = taxa::lowest(x) as usize;
    own[first] = own[first] + u32::from(weight);
}

// What ties each taxon of the group to the lower ones goes behind the limits; and what its own columns weigh, those that it is the lowest of.
pub fn ties_of(
    weights: &[u16],
    joined: &[u64; 256],
    group: u64,
    m: usize,
    limits: &mut [u32; 320],
    own: &mut [u32; 256],
)
    requires { (m ≤ 256) × (m ≤ length weights.now) }
    ensures { Ties weights.now joined.now m group limits.new
        × Weighed weights.now joined.now m group limits.new own.new
        × SameLimits limits.old limits.new }
{
    untied(limits);
    push::unused(own, 64);
    for c in 0..m {
        tie_column(limits, own, taxa::common(joined[c], group), weights[c]);
    }
}

impl Network<'_> {
    // To part some taxon of the group but its lowest alone costs less than this.
    pub fn bound_of(&self, own: &[u32; 256], group: u64) -> u32
        requires { (1 < count 64 group)
            × ((u : ℕ) → has group u ≡ true → nth self.now.limits.now (256 + u) + nth own.now u ≤ weight_most) }
        ensures { on.Loose self.now group own.now result }
    {
        let mut bound = reach::UNBOUNDED;
        let mut left = taxa::rest(group);
        while 0 < left {
            let i = taxa::lowest(left);
            let u = i as usize;
            let weight = self.limits[TIES + u] + own[u];
            bound = bound.min(weight * taxa::multiplicity(self.planes, i) + 1);
            left = taxa::rest(left);
        }
        bound
    }
}
