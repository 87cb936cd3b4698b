// The network of a group, in lists that the search of the group only reads. What it writes, the workspace, the counts and the tree, is lent beside: of `&mut`s in a
// struct whoever lent them knows nothing that its proof can name, once the struct is gone.
ghost use Rattle.search.specs.inner.Network.{Net};

// n taxa and m columns: each column's weight, the taxa that it joins and what it lets through; where its places in the workspace start, and after the last where
// they all end. The planes hold what each taxon stands for.
#[derive(Clone, Copy)]
pub struct Network<'a> {
    pub weights: &'a [u16],
    pub planes: &'a [u64; 72],
    pub joined: &'a [u64; 256],
    pub limits: &'a [u32; 320],
    pub offsets: &'a [u16; 257],
    pub n: usize,
    pub m: usize,
    pub ghost sound: { Net weights.now planes.now joined.now limits.now offsets.now n m },
}
