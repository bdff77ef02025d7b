// Words and numbers as text in a buffer.

#![tactic(auto)]

ghost use Rattle.std.specs.Prelude.{◌∷◌, ◌+◌, ◌≤◌, length};
ghost use Rattle.rules.specs.Fields.{signed};
ghost use Rattle.rules.specs.Print.{kind_word, ending_word, spaced, spaced_value};
ghost use Rattle.text.specs.Puts.{Puts};

use itoa::{Buffer, Integer};
use values::signed;

// Each `put` writes a text from the byte `at` on and gives the index behind it. (kept: a lent buffer and an index. `print_recipe` promises what the buffer that
// it is lent holds; a text of its own, as `ArrayString`, would be copied there, and of `write!` the library says what it wrote only where it succeeds.)
// Inlined, so that a word of known length is stored without a call.
#[inline(always)]
pub fn put_word(b: &mut [u8], at: usize, word: &[u8]) -> usize
    requires { at + length word.now ≤ length b.old }
    ensures { Puts b.old at word.now result b.new }
{
    let end = at + word.len();
    b[at..end].copy_from_slice(word);
    end
}

// The word of a log record's kind. (kept: a number, as it stands in the log; for one that is no kind's the definition has a word too.)
#[tactic(auto, unfolding(rules::specs::Print::kind_word))]
pub fn put_kind(b: &mut [u8], at: usize, kind: u8) -> usize
    requires { at + 7 ≤ length b.old }
    ensures { Puts b.old at (kind_word kind) result b.new }
{
    match kind {
        1 => put_word(b, at, b"spawned"),
        2 => put_word(b, at, b"taken"),
        3 => put_word(b, at, b"gave"),
        4 => put_word(b, at, b"waits"),
        5 => put_word(b, at, b"turned"),
        6 => put_word(b, at, b"ended"),
        _ => put_word(b, at, b"valve"),
    }
}

// The word of a run's ending. (kept: a number, as in the answer that C callers get.)
#[tactic(auto, unfolding(rules::specs::Print::ending_word))]
pub fn put_ending(b: &mut [u8], at: usize, number: u32) -> usize
    requires { at + 8 ≤ length b.old }
    ensures { Puts b.old at (ending_word number) result b.new }
{
    match number {
        0 => put_word(b, at, b"finished"),
        1 => put_word(b, at, b"paused"),
        2 => put_word(b, at, b"stuck"),
        3 => put_word(b, at, b"tasks"),
        4 => put_word(b, at, b"spent"),
        5 => put_word(b, at, b"logfull"),
        _ => put_word(b, at, b"novalue"),
    }
}

// A space, and a number of any width in decimal.
fn put_spaced<I: Integer>(b: &mut [u8], at: usize, n: I) -> usize
    requires { at + 1 + length (I.text n) ≤ length b.old }
    ensures { Puts b.old at (32 ∷ I.text n) result b.new }
{
    let first = put_word(b, at, b" ");
    let mut digits = Buffer::new();
    put_word(b, first, digits.format(n).as_bytes())
}

// A single digit, as many numbers of a log are, is written without a buffer for its digits.
pub fn put_number(b: &mut [u8], at: usize, n: u32) -> usize
    requires { at + length (spaced n) ≤ length b.old }
    ensures { Puts b.old at (spaced n) result b.new }
{
    if n < 10 {
        return put_word(b, at, &[b' ', b'0' + n as u8]);
    }
    put_spaced(b, at, n)
}

// The value that these 32 bits spell.
pub fn put_value(b: &mut [u8], at: usize, w: u32) -> usize
    requires { at + length (spaced_value (signed w)) ≤ length b.old }
    ensures { Puts b.old at (spaced_value (signed w)) result b.new }
{
    if w < 10 {
        return put_number(b, at, w);
    }
    put_spaced(b, at, signed(w))
}
