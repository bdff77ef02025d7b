// A recipe's run as text: what the print program writes.

#![tactic(auto)]

ghost use Rattle.std.specs.Prelude.{◌≡◌, [], ◌++◌, ◌+◌, ◌*◌, ◌≤◌, length, drop};
ghost use Rattle.rules.specs.Fields.{signed};
ghost use Rattle.rules.specs.Print.{line, line_at, lines, ending_line, refused_line, ends, run_text, text_on, printed};
ghost use Rattle.rules.specs.Run.{room_of};
ghost use Rattle.runner.specs.Calls.{outcome_of};
ghost use Rattle.text.specs.Puts.{Puts};
ghost use Rattle.print.specs.Counts.{Counts};

use fields::{half_at, word_at};
use runner::{Answer, run, start};
use text::{put_ending, put_kind, put_number, put_value, put_word};

// A line of a log record. (kept: a lent buffer and the index in it, as in `text`. `print_recipe` promises that its buffer of 131,072 bytes
// starts with the text and is as it was behind it; an `ArrayString` would have to be copied into it.)
fn put_line(b: &mut [u8], at: usize, kind: u8, task: u16, valve: u8, value: u32) -> usize
    requires { at + 30 ≤ length b.old }
    ensures puts { Puts b.old at (line kind task valve (signed value)) result b.new }
    ensures upper_bound { result ≤ at + 30 }
{
    let k = put_kind(b, at, kind);
    let t = put_number(b, k, u32::from(task));
    let v = put_number(b, t, u32::from(valve));
    let z = put_value(b, v, value);
    put_word(b, z, b"\n")
}

// The line of the log record that these bytes are.
fn put_record(b: &mut [u8], at: usize, bytes: &[u8]) -> usize
    requires whole { length bytes.now ≡ 8 }
    requires at_in_bounds { at + 30 ≤ length b.old }
    ensures puts { Puts b.old at (line_at bytes.now 0) result b.new }
    ensures upper_bound { result ≤ at + 30 }
{
    put_line(
        b,
        at,
        bytes[0],
        half_at(bytes, 2),
        bytes[1],
        word_at(bytes, 4),
    )
}

// The lines of the first so many records of a log.
fn put_lines(b: &mut [u8], log: &[u8], records: usize) -> usize
    requires in_log { 8 * records ≤ length log.now }
    requires in_buffer { 30 * records ≤ length b.old }
    ensures puts { Puts b.old 0 (lines log.now records) result b.new }
    ensures upper_bound { result ≤ 30 * records }
{
    let mut at: usize = 0;
    for record in log.chunks_exact(8).take(records) {
        at = put_record(b, at, record);
    }
    at
}

fn put_last(b: &mut [u8], at: usize, number: u32, steps: u32) -> usize
    requires { at + 30 ≤ length b.old }
    ensures { Puts b.old at (ending_line number steps) result b.new }
{
    let n = put_ending(b, at, number);
    let s = put_number(b, n, steps);
    put_word(b, s, b"\n")
}

fn put_refused(b: &mut [u8], at: usize, number: u32, place: u32) -> usize
    requires { at + 30 ≤ length b.old }
    ensures { Puts b.old at (refused_line number place) result b.new }
{
    let w = put_word(b, at, b"refused");
    let n = put_number(b, w, number);
    let i = put_number(b, n, place);
    put_word(b, i, b"\n")
}

// Whether a run ended with this number, and was not refused. (kept: these are the numbers of the answer of `runner::run`, and the 0 in
// `put_text` is one of `start`'s: their form is prescribed for C.)
fn is_ending(number: u32) -> bool
    ensures { result ≡ ends number }
{
    number <= 5 || number == 24
}

// A run's text.
fn put_run(b: &mut [u8], a: Answer, log: &[u8]) -> usize
    requires in_log { 8 * a.records ≤ length log.now }
    requires in_buffer { 30 * a.records + 30 ≤ length b.old }
    ensures { Puts b.old 0 (run_text (outcome_of a [] log.now)) result b.new }
{
    if !is_ending(a.number) {
        return put_refused(b, 0, a.number, a.place);
    }
    let at = put_lines(b, log, a.records as usize);
    put_last(b, at, a.number, a.steps)
}

// The text for a table, with a block to start on and a log buffer.
fn put_text(b: &mut [u8], table: &[u8], state: &mut [u8], log: &mut [u8]) -> usize
    requires { 30 * room_of log.old + 30 ≤ length b.old }
    ensures { Puts b.old 0 (text_on table.now state.old log.old) result b.new }
{
    let s = start(table, state);
    if s.number != 0 {
        return put_refused(b, 0, s.number, s.place);
    }
    let a = run(table, state, 10000, log);
    put_run(b, a, log)
}

// What is printed for a table, of at most 30 bytes a line: its length, and the bytes at the start of `out`.
pub fn print_recipe(table: &[u8], out: &mut [u8; 131072]) -> usize
    ensures text { (result ≡ length (printed table.now)) × (out.new ≡ printed table.now ++ drop result out.old) }
    ensures counts { Counts result out.new }
{
    let mut state = [0u8; 776];
    let mut log = [0u8; 32768];
    put_text(out, table, &mut state, &mut log)
}
