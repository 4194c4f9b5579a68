// A question for each letter. `head` is the case from its letter to the file's length, `file` the file, or the typed text;
// a reply is laid into `out`, which is longer than any room that a case asks for.
use crate::print::{print, print_hex, print_list, print_marks, print_number, print_refused};
use refusals::Refusal;
use std::io;
use std::io::Write;

// The byte at `i`, or 0 where there is none.
fn byte(s: &[u8], i: usize) -> u8 {
    s.get(i).copied().unwrap_or(0)
}

// The number that two bytes make, the high one first.
pub fn number_of(high: u8, low: u8) -> usize {
    usize::from(u16::from_be_bytes([high, low]))
}

// An accepted file: how many cells and events, and where the first variable stands.
fn print_accepted<W: Write>(
    to: &mut W,
    cells: usize,
    events: usize,
    variable: Option<usize>,
) -> io::Result<()> {
    print(to, b"accepted ")?;
    print_number(to, cells)?;
    print(to, b" ")?;
    print_number(to, events)?;
    print(to, b" ")?;
    match variable {
        Some(place) => print_number(to, place)?,
        None => print(to, b"-")?,
    }
    print(to, b"\n")
}

// f: is the file accepted?
fn ask_file<W: Write>(to: &mut W, file: &[u8]) -> io::Result<()> {
    match casefile::read_case(file) {
        Err(refusal) => print_refused(to, refusal),
        Ok(case) => print_accepted(to, case.table.count, case.run.count, case.variable),
    }
}

// m: build marks
fn ask_marks<W: Write>(to: &mut W, room: usize, file: &[u8], out: &mut [u8]) -> io::Result<()> {
    if room > out.len() {
        return Ok(());
    }
    match building::build_marks(file, &mut out[..room]) {
        Err(refusal) => print_refused(to, refusal),
        Ok(n) => {
            print(to, b"marks ")?;
            print_marks(to, out, n)?;
            print(to, b"\n")
        }
    }
}

// r and t: the bytes that a question writes, behind their name
fn ask_bytes<W: Write, F: FnOnce(&mut [u8]) -> Result<usize, Refusal>>(
    to: &mut W,
    name: &[u8],
    room: usize,
    out: &mut [u8],
    question: F,
) -> io::Result<()>
    requires { (room : _) → F.pre question room }
{
    if room > out.len() {
        return Ok(());
    }
    match question(&mut out[..room]) {
        Err(refusal) => print_refused(to, refusal),
        Ok(n) => {
            print(to, name)?;
            print_hex(to, out, n)?;
            print(to, b"\n")
        }
    }
}

// e: can the two cells be made equal? Then a list shows the most general values.
fn ask_equated<W: Write>(
    to: &mut W,
    a: u8,
    b: u8,
    room: usize,
    file: &[u8],
    out: &mut [u8],
) -> io::Result<()> {
    if room > out.len() {
        return Ok(());
    }
    match equating::equate(file, usize::from(a), usize::from(b), &mut out[..room]) {
        Err(refusal) => print_refused(to, refusal),
        Ok(None) => print(to, b"no\n"),
        Ok(Some(n)) => {
            print(to, b"yes")?;
            print_list(to, out, n)?;
            print(to, b"\n")
        }
    }
}

// y: are there right values? A list that is shown is put to the list check.
fn ask_run<W: Write>(to: &mut W, room: usize, file: &[u8], out: &mut [u8]) -> io::Result<()> {
    if room > out.len() {
        return Ok(());
    }
    match running::run(file, &mut out[..room]) {
        Err(refusal) => print_refused(to, refusal),
        Ok(None) => print(to, b"no\n"),
        Ok(Some(n)) => print_run(to, file, out, n),
    }
}

// What the list check says of the first n bytes of `out`.
fn print_run<W: Write>(to: &mut W, file: &[u8], out: &[u8], n: usize) -> io::Result<()> {
    if n > out.len() {
        return Ok(());
    }
    match checking::check(file, &out[..n]) {
        Ok(true) => print(to, b"yes\n"),
        Ok(false) => print(to, b"yes, and the list is wrong\n"),
        Err(_) => print(to, b"yes, and the list is in bad form\n"),
    }
}

// l: the list check
fn ask_list<W: Write>(to: &mut W, list: &[u8], file: &[u8]) -> io::Result<()> {
    match checking::check(file, list) {
        Ok(true) => print(to, b"right\n"),
        Ok(false) => print(to, b"wrong\n"),
        Err(refusal) => print_refused(to, refusal),
    }
}

// p: the lines of the run program
fn ask_lines<W: Write>(to: &mut W, file: &[u8]) -> io::Result<()> {
    let mut lines = [0u8; 1437];
    let n = printing::write_reply(file, &mut lines);
    if n > lines.len() {
        return Ok(());
    }
    print(to, &lines[..n])
}

// Asks the question of the head's letter.
pub fn ask<W: Write>(to: &mut W, head: &[u8], file: &[u8]) -> io::Result<()> {
    let mut out = [0u8; 1024];
    let room = number_of(byte(head, 1), byte(head, 2));
    match byte(head, 0) {
        b'f' => ask_file(to, file),
        b'm' => ask_marks(to, room, file, &mut out),
        b'r' => ask_bytes(
            to,
            b"reduced ",
            room,
            &mut out,
            |out| reducing::reduce(file, out),
        ),
        b'y' => ask_run(to, room, file, &mut out),
        b't' => ask_bytes(
            to,
            b"typed ",
            room,
            &mut out,
            |out| typing::read_text(file, out),
        ),
        b'e' => ask_equated(
            to,
            byte(head, 1),
            byte(head, 2),
            usize::from(byte(head, 3)),
            file,
            &mut out,
        ),
        b'l' => {
            if head.len() > 1 {
                return ask_list(to, &head[2..], file);
            }
            Ok(())
        }
        b'p' => ask_lines(to, file),
        _ => print(to, b"no such question\n"),
    }
}
