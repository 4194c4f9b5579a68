// The reply to a run as the program prints it: lines of text in a lent buffer. 1,437 bytes are enough for each reply.

#![tactic(auto)]

ghost use Rattle.std.specs.Prelude.{◌++◌, ◌+◌, ◌*◌, ◌<◌, ◌≤◌, length};
ghost use Rattle.model.specs.Stored.{table_in};
ghost use Rattle.refusals.specs.Numbers.{number_of};
ghost use Rattle.lines.specs.Put.{Put, told};
ghost use Rattle.printing.specs.Lines.{value, value_line, line_of, value_lines, refused_line, counts_line, no_line, yes_line};
ghost use Rattle.printing.specs.Promise.{ReplyPromise};

use casefile::Case;
use cells::{Words, is_variable};
use lines::put_text;
use refusals::Refusal;

// Puts a text and a number below 1,000 behind it.
fn put_told(text: &[u8], n: usize, at: usize, out: &mut [u8]) -> usize
    requires { (n < 1000) × (at + (length text.now + 3) ≤ length out.old) }
    ensures { Put (told text.now n) out.old at out.new result × (result ≤ at + (length text.now + 3)) }
{
    lines::put_told(text, n, at, out)
}

// Puts the line of a refusal at the front.
fn put_refusal(refusal: Refusal, out: &mut [u8]) -> usize
    requires { (refusal.place < 1000) × (1437 ≤ length out.old) }
    ensures { Put (refused_line (number_of refusal.fault) refusal.place) out.old 0 out.new result }
{
    let number = usize::from(refusal.fault.number());
    let numbered = put_told(b"refused ", number, 0, out);
    let placed = put_told(b" at ", refusal.place, numbered, out);
    put_text(b"\n", placed, out)
}

// Puts the line of counts at the front.
fn put_counts(case: &Case, out: &mut [u8]) -> usize
    requires { 1437 ≤ length out.old }
    ensures { Put (counts_line case.now.table.count case.now.run.count) out.old 0 out.new result × (result ≤ 21) }
{
    let first = put_told(b"cells ", case.table.count, 0, out);
    let second = put_told(b" events ", case.run.count, first, out);
    put_text(b"\n", second, out)
}

// Puts a value: its cell, or his own name.
fn put_entry(entry: u8, at: usize, out: &mut [u8]) -> usize
    requires { at + 7 ≤ length out.old }
    ensures { Put (value entry) out.old at out.new result × (result ≤ at + 7) }
{
    if entry == 255 {
        return put_text(b" = own\n", at, out);
    }
    let named = put_told(b" = ", usize::from(entry), at, out);
    put_text(b"\n", named, out)
}

// Puts the line of the variable v.
fn put_value(v: usize, entry: u8, at: usize, out: &mut [u8]) -> usize
    requires { (v < 1000) × (at + 11 ≤ length out.old) }
    ensures { Put (value_line v entry) out.old at out.new result × (result ≤ at + 11) }
{
    let named = put_told(b"v", v, at, out);
    put_entry(entry, named, out)
}

// Puts the line of the cell v, if it is a variable.
fn put_line(words: &Words, v: usize, entry: u8, at: usize, out: &mut [u8]) -> usize
    requires { (v < 1000) × (at + 11 ≤ length out.old) }
    ensures { Put (line_of (table_in words.now v) v entry) out.old at out.new result × (result ≤ at + 11) }
{
    if is_variable(words, v) {
        put_value(v, entry, at, out)
    } else {
        at
    }
}

// Puts one line for each variable of n cells.
fn put_values(words: &Words, list: &[u8; 128], n: usize, at: usize, out: &mut [u8]) -> usize
    requires { (n ≤ 128) × (at + 11 * n ≤ length out.old) }
    ensures { Put (value_lines (table_in words.now) list.now n) out.old at out.new result }
{
    let mut next = at;
    for v in 0..n {
        next = put_line(words, v, list[v], next, out);
    }
    next
}

// Puts the counts and "no".
fn put_no(case: &Case, out: &mut [u8]) -> usize
    requires { 1437 ≤ length out.old }
    ensures { Put (counts_line case.now.table.count case.now.run.count ++ no_line) out.old 0 out.new result }
{
    let counted = put_counts(case, out);
    put_text(b"run no\n", counted, out)
}

// Puts the counts, "yes" and the values of a list.
fn put_yes(case: &Case, list: &[u8; 128], out: &mut [u8]) -> usize
    requires { 1437 ≤ length out.old }
    ensures { Put (counts_line case.now.table.count case.now.run.count ++ (yes_line ++ value_lines (table_in case.now.table.words) list.now case.now.table.count)) out.old 0 out.new result }
{
    let counted = put_counts(case, out);
    let told = put_text(b"run yes\n", counted, out);
    put_values(&case.table.words, list, case.table.count, told, out)
}

// Writes the reply to the run of a file, any bytes, to the front of the buffer, and replies how many bytes it has. A buffer of less than 1,437 bytes is left
// as it is; the reply is then 0.
pub fn write_reply(file: &[u8], out: &mut [u8]) -> usize
    ensures { ReplyPromise file.now out.old result out.new }
{
    if out.len() < 1437 {
        return 0;
    }
    let mut list = [0u8; 128];
    let case = match casefile::read_case(file) {
        Ok(case) => case,
        Err(refusal) => return put_refusal(refusal, out),
    };
    match running::run(file, &mut list) {
        Ok(Some(_)) => put_yes(&case, &list, out),
        Ok(None) => put_no(&case, out),
        Err(refusal) => put_refusal(refusal, out),
    }
}
