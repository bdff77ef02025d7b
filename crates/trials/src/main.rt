// Calls start, run, why_stuck, print and check_all on cases from standard input and prints what they return, a line each, with a checksum of each
// buffer that they may write. A case is a record of 8 bytes (byte 0: what is called; bytes 4-7: the budget) and its buffers: table and, but for
// print, state and, for run, log or, for why_stuck, chain; for check_all recipes, lengths and outcomes.
// A buffer is a record of 8 bytes (bytes 2-3: how many bytes follow; bytes 4-7: the buffer's length) and these bytes; from there on each byte is as
// the one 8 before it, so that a long row of one record is short.

#![tactic(auto)]

ghost use Rattle.std.specs.Prelude.{◌≤◌, length, IfOk};

use batch::check_all;
use input::read_full;
use print::print_recipe;
use runner::{run, start};
use std::io;
use std::io::Read;
use table::record::{span_of, word_of};
use why::why_stuck;

const MOST_CASES: u32 = 100000;

const MOST_CALLS: u32 = 100000;

// What a case calls.
#[derive(Clone, Copy)]
enum Call {
    Start,
    Run,
    RunOn,
    Print,
    WhyStuck,
    CheckAll,
}

impl From<u8> for Call {
    fn from(number: u8) -> Self {
        match number {
            0 => Call::Start,
            1 => Call::Run,
            3 => Call::Print,
            4 => Call::WhyStuck,
            5 => Call::CheckAll,
            _ => Call::RunOn,
        }
    }
}

// Fills the buffer up to its length.
fn repeat(buf: &mut [u8], given: usize, len: usize)
    requires { len ≤ length buf.old }
{
    if given < 8 {
        return;
    }
    for i in given..len {
        buf[i] = buf[i - 8];
    }
}

// The next buffer's length.
fn read_buffer(input: &mut impl Read, buf: &mut [u8]) -> io::Result<usize>
    ensures { IfOk result (λ n. n ≤ length buf.new) }
{
    let mut head = [0u8; 8];
    read_full(input, &mut head)?;
    let given = span_of(&head);
    let len = word_of(&head) as usize;
    if buf.len() < len || len < given {
        return Ok(0);
    }
    read_full(input, &mut buf[..given])?;
    repeat(buf, given, len);
    Ok(len)
}

// The bytes as the digits of a number to the base 257, reduced by a prime.
fn checksum(bytes: &[u8]) -> u64 {
    let mut sum: u64 = 1;
    for byte in bytes {
        sum = (257 * sum + u64::from(*byte)) % 4294967291;
    }
    sum
}

// A number and a space.
fn print(rt: &impl Print, n: u64) -> io::Result<()> {
    print!(rt; "{n} ")
}

// A checksum and the line's end.
fn print_last(rt: &impl Print, bytes: &[u8]) -> io::Result<()> {
    let sum = checksum(bytes);
    println!(rt; "{sum}")
}

fn try_start(rt: &impl Print, table: &[u8], state: &mut [u8]) -> io::Result<()> {
    let s = start(table, state);
    print(rt, u64::from(s.number))?;
    print(rt, u64::from(s.place))?;
    print_last(rt, state)
}

fn try_run(
    rt: &impl Print,
    table: &[u8],
    state: &mut [u8],
    budget: u32,
    log: &mut [u8],
) -> io::Result<()> {
    let a = run(table, state, budget, log);
    print(rt, u64::from(a.number))?;
    print(rt, u64::from(a.steps))?;
    print(rt, u64::from(a.records))?;
    print(rt, u64::from(a.place))?;
    print(rt, checksum(state))?;
    print_last(rt, log)
}

// Paused, or the log is full. (kept: the numbers of the answer that C callers get.)
fn goes_on(number: u32) -> bool {
    matches!(number, 1 | 5)
}

// Goes on where a call pauses or its log is full, and adds the steps up.
fn try_on(
    rt: &impl Print,
    table: &[u8],
    state: &mut [u8],
    budget: u32,
    log: &mut [u8],
) -> io::Result<()> {
    let mut steps: u64 = 0;
    let mut number: u32 = 1;
    for _ in 0..MOST_CALLS {
        let a = run(table, state, budget, log);
        number = a.number;
        steps += u64::from(a.steps);
        if !goes_on(number) {
            break;
        }
    }
    print(rt, u64::from(number))?;
    print(rt, steps)?;
    print_last(rt, state)
}

fn try_why(rt: &impl Print, table: &[u8], state: &[u8], chain: &mut [u8]) -> io::Result<()> {
    let e = why_stuck(table, state, chain);
    print(rt, u64::from(e.number))?;
    print(rt, u64::from(e.count))?;
    print(rt, u64::from(e.end))?;
    print(rt, u64::from(e.place))?;
    print_last(rt, chain)
}

fn try_batch(
    rt: &impl Print,
    recipes: &[u8],
    lengths: &[u8],
    outcomes: &mut [u8],
) -> io::Result<()> {
    let number = check_all(recipes, lengths, outcomes)
        .err()
        .map_or(0, u32::from);
    print(rt, u64::from(number))?;
    print_last(rt, outcomes)
}

// The length of the text and its checksum.
fn try_print(rt: &impl Print, table: &[u8]) -> io::Result<()> {
    let mut out = [0u8; 131072];
    let n = print_recipe(table, &mut out);
    print(rt, n as u64)?;
    print_last(rt, &out[..n])
}

fn try_case(rt: &impl Print, input: &mut impl Read, call: Call, budget: u32) -> io::Result<()> {
    let mut first = [0u8; 65536];
    let mut second = [0u8; 4096];
    let mut third = [0u8; 4096];
    let f = read_buffer(input, &mut first)?;
    if let Call::Print = call {
        return try_print(rt, &first[..f]);
    }
    let s = read_buffer(input, &mut second)?;
    if let Call::Start = call {
        return try_start(rt, &first[..f], &mut second[..s]);
    }
    let t = read_buffer(input, &mut third)?;
    let (table, state, log) = (&first[..f], &mut second[..s], &mut third[..t]);
    match call {
        Call::Run => try_run(rt, table, state, budget, log),
        Call::WhyStuck => try_why(rt, table, state, log),
        Call::CheckAll => try_batch(rt, table, state, log),
        _ => try_on(rt, table, state, budget, log),
    }
}

// Whether there was another case.
fn next(rt: &impl Print, input: &mut impl Read) -> io::Result<bool> {
    let mut head = [0u8; 8];
    let got = read_full(input, &mut head)?;
    if got < 8 {
        return Ok(false);
    }
    try_case(rt, input, head[0].into(), word_of(&head))?;
    Ok(true)
}

fn main(rt: HostRuntime) -> io::Result<()> {
    let mut input = rt.stdin();
    for _ in 0..MOST_CASES {
        if !next(&rt, &mut input)? {
            break;
        }
    }
    Ok(())
}
