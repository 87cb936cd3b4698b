// Newick text as document 02 has it: trees, the texts that spell them, the reader that goes byte by byte with its limits, and the text of a tree without
// blanks. Promises the theorems of proofs/Reading.antt and proofs/Promises.antt about any text; the code tells what a byte is. Rests on nothing.
#![tactic(auto)]

ghost use Rattle.std.specs.Prelude.{◌≡◌};
ghost use Rattle.grammar.specs.Bytes.{is_blank, is_letter};

// A byte that may stand around any token.
pub fn is_blank(b: u8) -> bool
    ensures { result ≡ is_blank b }
{
    (b == 32) | (b == 9) | (b == 13) | (b == 10)
}

// A byte of a name.
pub fn is_letter(b: u8) -> bool
    ensures { result ≡ is_letter b }
{
    (65 <= b) & (b <= 90)
        | (97 <= b) & (b <= 122)
        | (48 <= b) & (b <= 57)
        | (b == 46)
        | (b == 45)
        | (b == 95)
}
