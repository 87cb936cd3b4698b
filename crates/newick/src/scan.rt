// Blanks in a text, and the names that it is found to have: which taxon has one.
ghost use Rattle.std.specs.Prelude.{◌≡◌, ◌+◌, ◌≤◌, length};
ghost use Rattle.grammar.specs.Bytes.{is_blank};
ghost use Rattle.record.specs.Bytes.{equal};
ghost use Rattle.grammar.specs.Limits.{number};
ghost use Rattle.grammar.specs.inner.Standing.{Run, piece};
ghost use Rattle.newick.specs.inner.Names.{Placed, names_in};

use super::Book;

// The end of the blanks that start at a place. (A scan, as for letters.)
pub fn after_blanks(text: &[u8], from: usize) -> usize
    requires { from ≤ length text.now }
    ensures { Run is_blank text.now from result }
{
    let mut at = from;
    while at < text.len() && grammar::is_blank(text[at]) {
        at += 1;
    }
    at
}

// Whether two names in a text are the same.
fn same_names(text: &[u8], a: usize, size: usize, b: usize, other: usize) -> bool
    requires { (a + size ≤ length text.now) × (b + other ≤ length text.now) }
    ensures { result ≡ equal (piece text.now a size) (piece text.now b other) }
{
    record::same(&text[a..a + size], &text[b..b + other])
}

impl Book {
    // The number of a name among the first n taxa, or n where it is none of theirs. (Never inlined: in the reader's loop it made short names slower, docs/DECISIONS.md.)
    #[inline(never)]
    pub fn number_of(&self, text: &[u8], n: usize, at: usize, size: usize) -> usize
        requires { Placed text.now self.now.starts self.now.sizes n × (at + size ≤ length text.now) }
        ensures { result ≡ number (names_in text.now self.now.starts self.now.sizes n) (piece text.now at size) }
    {
        for i in 0..n {
            if same_names(text, at, size, self.starts[i], self.sizes[i]) {
                return i;
            }
        }
        n
    }
}
