// Hints: a list with, at a place that is found from a name's bytes, the taxon that was last met there. A hint is tested before it is taken, so that
// nothing rests on what stands in the list.
ghost use Rattle.std.specs.Prelude.{◌≡◌, true, ◌+◌, ◌≤◌, ◌<◌, length};
ghost use Rattle.grammar.specs.Limits.{number};
ghost use Rattle.grammar.specs.inner.Standing.{piece};
ghost use Rattle.newick.specs.inner.Names.{Placed, names_in};
ghost use Rattle.newick.specs.inner.Words.{short_word, words_at, Legible};

use super::{Book, HINTS, Words};
use record::number::u64_at;

// The bytes of a word.
const WORD: usize = 8;

// Half a word; an odd number of 27 bits that mixes its digits; and the digits below those that are best mixed.
const HALF: u64 = 0x1_0000_0000;

const MIXER: u64 = 97_990_693;

const BELOW: u64 = 0x10_0000;

// The place of the hint for a word: its two halves together, mixed.
fn place_of_word(word: u64) -> usize
    ensures { result < 4096 }
{
    let halves = word / HALF + word % HALF;
    (halves * MIXER / BELOW) as usize % HINTS
}

// A name of less than eight bytes as one number.
fn short_word(text: &[u8], at: usize, size: usize) -> u64
    requires { Legible text.now at size × (size < 8) }
    ensures { result ≡ short_word text.now at size }
{
    u64_at(text, at) << (64 - 8 * size as u32)
}

// A longer one as four.
fn words_at(text: &[u8], at: usize, size: usize) -> Words
    requires { Legible text.now at size × (8 ≤ size) }
    ensures { result ≡ words_at text.now at size }
{
    let last = size - WORD;
    Words {
        first: u64_at(text, at),
        second: u64_at(text, at + last.min(WORD)),
        third: u64_at(text, at + last.min(2 * WORD)),
        last: u64_at(text, at + last),
    }
}

// Whether two names of so many bytes are the same.
fn same_at(text: &[u8], one: usize, other: usize, size: usize) -> bool
    requires { Legible text.now one size × Legible text.now other size }
    ensures { result ≡ true → piece text.now one size ≡ piece text.now other size }
{
    if size < WORD {
        short_word(text, one, size) == short_word(text, other, size)
    } else {
        words_at(text, one, size) == words_at(text, other, size)
    }
}

// The place of the hint for a name.
fn place_of(text: &[u8], at: usize, size: usize) -> usize
    requires { Legible text.now at size }
    ensures { result < 4096 }
{
    if size < WORD {
        place_of_word(short_word(text, at, size))
    } else {
        let words = words_at(text, at, size);
        place_of_word(words.first ^ (words.second >> 1) ^ (words.third >> 2) ^ (words.last >> 3))
    }
}

impl Book {
    // The number of a name among the first n taxa, where the hint at it is right, and else n.
    pub fn hinted(&self, text: &[u8], n: usize, at: usize, size: usize) -> usize
        requires { Placed text.now self.now.starts self.now.sizes n × (1 ≤ size) × (size ≤ 32) × (at + size ≤ length text.now) }
        ensures { result < n → result ≡ number (names_in text.now self.now.starts self.now.sizes n) (piece text.now at size) }
    {
        if text.len() - at < WORD {
            return n;
        }
        let i = self.hints[place_of(text, at, size)] as usize;
        if i < n
            && self.sizes[i] == size
            && self.starts[i] <= at
            && same_at(text, at, self.starts[i], size)
        {
            i
        } else {
            n
        }
    }

    // Hints at taxon i from the name at a place.
    pub fn hint(&mut self, text: &[u8], at: usize, size: usize, i: usize)
        requires { (1 ≤ size) × (size ≤ 32) × (at + size ≤ length text.now) × (i < 64) }
        ensures { self.new ≡ record self.old { hints = self.new.hints } }
    {
        if WORD <= text.len() - at {
            self.hints[place_of(text, at, size)] = i as u8;
        }
    }
}
