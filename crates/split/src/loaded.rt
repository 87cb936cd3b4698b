// A matrix as it is loaded and flipped.
ghost use Rattle.std.specs.Prelude.{◌≡◌, ◌≤◌};

// n taxa, with the planes that tell what each stands for, and m columns, each an entry in front in three lists: a split flips ones and zeros in place.
#[derive(Drop)]
pub struct Loaded {
    pub planes: [u64; 72],
    pub weights: [u16; 256],
    pub ones: [u64; 256],
    pub zeros: [u64; 256],
    pub n: usize,
    pub m: usize,
    pub ghost few_taxa: { n ≤ 64 },
    pub ghost few_columns: { m ≤ 256 },
}

impl Loaded {
    // Room for a matrix: so far it has no taxon and no column.
    pub fn new() -> Loaded
        ensures { (result.n ≡ 0) × (result.m ≡ 0) }
    {
        Loaded {
            planes: [0; 72],
            weights: [0; 256],
            ones: [0; 256],
            zeros: [0; 256],
            n: 0,
            m: 0,
        }
    }
}
