// A list of groups.
ghost use Rattle.std.specs.Prelude.{◌≡◌, ◌≤◌};

// Groups, each with its cost. Every group but the first is a part of one before it, so 64 taxa have no more than 63.
#[derive(Drop)]
pub struct Groups {
    pub taxa: [u64; 63],
    pub costs: [u32; 63],
    pub count: usize,
    pub ghost few: { count ≤ 63 },
}

impl Groups {
    pub fn new() -> Groups
        ensures { result.count ≡ 0 }
    {
        Groups {
            taxa: [0; 63],
            costs: [0; 63],
            count: 0,
        }
    }
}
