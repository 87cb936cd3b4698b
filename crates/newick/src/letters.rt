// Letters of a text: which bytes are letters, and where a run of them ends.
ghost use Rattle.std.specs.Prelude.{◌≡◌, ◌+◌, ◌≤◌, ◌<◌, length, get_or};
ghost use Rattle.grammar.specs.Bytes.{is_letter};
ghost use Rattle.grammar.specs.inner.Standing.{Run};
ghost use Rattle.newick.specs.inner.Runs.{Lettered, Of};

// For each byte, whether it is a letter: a table is asked faster than the byte itself.
#[derive(Drop)]
pub struct Letters {
    table: [bool; 256],
    ghost lettered: { Lettered table },
}

impl Letters {
    // The table.
    pub fn new() -> Self {
        let mut table = [false; 256];
        for (b, letter) in table.iter_mut().enumerate() {
            *letter = grammar::is_letter(b as u8);
        }
        Letters { table }
    }

    // Whether the byte at a place is a letter.
    pub fn is_at(&self, text: &[u8], at: usize) -> bool
        requires { at < length text.now }
        ensures { result ≡ is_letter (get_or text.now at 0) }
    {
        self.table[text[at] as usize]
    }

    // How many of the four bytes at a place are letters, up to the first that is none.
    fn of_four(&self, text: &[u8], at: usize) -> usize
        requires { at + 4 ≤ length text.now }
        ensures { Of 4 is_letter text.now at result }
    {
        for more in 0..4 {
            if !self.is_at(text, at + more) {
                return more;
            }
        }
        4
    }

    // The end of the letters that start at a place, one by one. (A scan up to the first that is none: no index is counted to an end that is known.)
    fn end_one_by_one(&self, text: &[u8], from: usize) -> usize
        requires { from ≤ length text.now }
        ensures { Run is_letter text.now from result }
    {
        let mut at = from;
        while at < text.len() && self.is_at(text, at) {
            at += 1;
        }
        at
    }

    // The end of the letters that start at a place: four by four while there are four bytes, so that the text's end is asked for once in four.
    pub fn end(&self, text: &[u8], from: usize) -> usize
        requires { from ≤ length text.now }
        ensures { Run is_letter text.now from result }
    {
        let mut at = from;
        while 4 <= text.len() - at {
            let more = self.of_four(text, at);
            at += more;
            if more < 4 {
                return at;
            }
        }
        self.end_one_by_one(text, at)
    }
}
