// Reads a recipe's table from standard input and prints its run with budget 10,000 and a log of 4,096 records: what `print_recipe` says of it.

#![tactic(auto)]

use input::read_full;
use print::print_recipe;
use std::io;

// More than 32,768 bytes fit the table's buffer, so that a table that is too long is seen as such.
fn main(rt: HostRuntime) -> io::Result<()> {
    let mut table = [0u8; 65536];
    let mut out = [0u8; 131072];
    let len = read_full(&mut rt.stdin(), &mut table)?;
    let written = print_recipe(&table[..len], &mut out);
    rt.write_all(&out[..written])
}
