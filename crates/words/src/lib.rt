// Words, written into a lent slice and looked for in a text. Each writer answers where its bytes end; every other byte is as it was.
#![tactic(auto)]

ghost use Rattle.std.specs.Prelude.{◌+◌, ◌≤◌, length};
ghost use Rattle.ground.specs.Inner.Put.{Wrote};
ghost use Rattle.words.specs.Words.{named_text};
ghost use Rattle.words.specs.Inner.Tells.{Tells};

use ground::write;

pub fn put_word(text: &mut [u8], at: usize, word: &[u8]) -> usize
    requires { at + length word.now ≤ length text.old }
    ensures { Wrote text.old at word.now text.new result }
{
    for i in 0..word.len() {
        write::put_u8(text, at + i, word[i]);
    }
    at + word.len()
}

// A word, and the number that it leads to.
pub fn put_named(text: &mut [u8], at: usize, word: &[u8], x: u64) -> usize
    requires { at + length (named_text word.now x) ≤ length text.old }
    ensures { Wrote text.old at (named_text word.now x) text.new result }
{
    let e = put_word(text, at, word);
    decimal::put_whole(text, e, x)
}

// Whether the bytes of a word stand here.
pub fn starts(text: &[u8], at: usize, word: &[u8]) -> bool
    requires { 1 ≤ length word.now }
    ensures { Tells word.now text.now at result }
{
    let n = word.len();
    if text.len() < at {
        return false;
    }
    if text.len() - at < n {
        return false;
    }
    &text[at..at + n] == word
}
