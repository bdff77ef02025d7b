// Fields of several bytes, little-endian, in a buffer.

#![tactic(auto)]

ghost use Rattle.std.specs.Prelude.{◌≡◌, ◌+◌, ◌≤◌, length};
ghost use Rattle.std.proofs.lemmas.List.Edits.{sets};
ghost use Rattle.rules.specs.Fields.{half, word, signed, bits, bytes2, bytes4};

use values::{signed, unsigned};

// kept: each width is a line over the library's own method. The library has no trait over the widths, and one of our own would have the same six bodies.
pub fn half_at(b: &[u8], at: usize) -> u16
    requires { at + 2 ≤ length b.now }
    ensures { result ≡ half b.now at }
{
    u16::from_le_bytes([b[at], b[at + 1]])
}

pub fn word_at(b: &[u8], at: usize) -> u32
    requires { at + 4 ≤ length b.now }
    ensures { result ≡ word b.now at }
{
    u32::from_le_bytes([b[at], b[at + 1], b[at + 2], b[at + 3]])
}

pub fn value_at(b: &[u8], at: usize) -> i32
    requires { at + 4 ≤ length b.now }
    ensures { result ≡ signed (word b.now at) }
{
    signed(word_at(b, at))
}

pub fn put_half(b: &mut [u8], at: usize, x: u16)
    requires { at + 2 ≤ length b.old }
    ensures { b.new ≡ sets b.old at (bytes2 x) }
{
    b[at..at + 2].copy_from_slice(&x.to_le_bytes());
}

pub fn put_word(b: &mut [u8], at: usize, w: u32)
    requires { at + 4 ≤ length b.old }
    ensures { b.new ≡ sets b.old at (bytes4 w) }
{
    b[at..at + 4].copy_from_slice(&w.to_le_bytes());
}

pub fn put_value(b: &mut [u8], at: usize, v: i32)
    requires { at + 4 ≤ length b.old }
    ensures { b.new ≡ sets b.old at (bytes4 (bits v)) }
{
    put_word(b, at, unsigned(v));
}
