// The parts of a group: the connected components of what remains, taxa joined through the ones of columns with a 0 in the group.
ghost use Rattle.std.specs.Prelude.{◌≡◌, List, ℕ, ◌≤◌, length};
ghost use Rattle.taxa.specs.Sets.{◌∈◌, Positive, count};
ghost use Rattle.method.specs.Split as method;
ghost use Rattle.search.specs.Search.{cols_of};
ghost use Rattle.split.specs.inner.Parts.{grown, swept, Listed};

// The taxa met, with those that a column joins to one of them.
fn grow(ones: u64, zeros: u64, group: u64, met: u64) -> u64
    ensures { result ≡ grown group ones zeros met }
{
    if taxa::common(zeros, group) == 0 {
        return met;
    }
    if taxa::common(ones, met) == 0 {
        return met;
    }
    taxa::union(met, taxa::common(ones, group))
}

// One sweep over the columns.
fn sweep(ones: &[u64], zeros: &[u64], group: u64, met: u64) -> u64
    requires { length zeros.now ≡ length ones.now }
    ensures { result ≡ swept ones.now zeros.now group (length ones.now) met }
{
    let mut all = met;
    for c in 0..ones.len() {
        all = grow(ones[c], zeros[c], group, all);
    }
    all
}

// The part of taxon i of the group: sweeps until nothing changes. Weights and multiplicities make no difference.
fn part(ones: &[u64], zeros: &[u64], group: u64, i: u32) -> u64
    requires { (length zeros.now ≡ length ones.now) × (i ∈ group) }
    ensures { (μ : ℕ → ℕ) → Positive μ → (ws : List ℕ) → result ≡ method.part 64 μ (length ones.now) (cols_of ws ones.now zeros.now) group i }
{
    let mut met = taxa::single(i);
    let mut next = sweep(ones, zeros, group, met);
    while met < next {
        met = next;
        next = sweep(ones, zeros, group, met);
    }
    met
}

// The parts of the group by lowest taxon go into the first places of a lent list; how many they are comes back.
pub fn parts(ones: &[u64], zeros: &[u64], group: u64, list: &mut [u64]) -> usize
    requires { (length zeros.now ≡ length ones.now) × (count 64 group ≤ length list.old) }
    ensures { Listed ones.now zeros.now group list.old list.new result }
{
    let mut left = group;
    let mut number = 0;
    'each_part: while 0 < left {
        let it = part(ones, zeros, group, taxa::lowest(left));
        list[number] = it;
        left = taxa::difference(left, it);
        number += 1;
    }
    number
}
