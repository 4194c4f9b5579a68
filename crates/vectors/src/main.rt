// Reads a row of cases from standard input, asks each case's question, and prints one line for each reply.
// A case is a letter for the question, what the question asks besides, two bytes for the file's length, high byte first, and the file, or a typed text.

#![tactic(auto)]

mod ask;
mod print;

use crate::print::{print, print_number};
use input::read_start;
use std::io;
use std::io::Write;

// How many bytes stand before the file's length, of a case that starts with these two bytes: the letter, and room, cells and room, or a list.
fn head_size(letter: u8, next: u8) -> usize {
    match letter {
        b'm' | b'r' | b'y' | b't' => 3,
        b'e' => 4,
        b'l' => 2 + next as usize,
        _ => 1,
    }
}

// Asks every case of the row, and returns how many there are. A case that the input's end cuts is not asked.
fn ask_all<W: Write>(to: &mut W, input: &[u8]) -> io::Result<usize> {
    let mut count: usize = 0;
    let mut at: usize = 0;
    while at < input.len() {
        let left = input.len() - at;
        if left < 3 {
            return Ok(count);
        }
        let head = head_size(input[at], input[at + 1]);
        if left - 2 < head {
            return Ok(count);
        }
        let middle = at + head;
        let size = ask::number_of(input[middle], input[middle + 1]);
        if left - 2 - head < size {
            return Ok(count);
        }
        let from = middle + 2;
        let end = from + size;
        ask::ask(to, &input[at..middle], &input[from..end])?;
        at = end;
        count += 1;
    }
    Ok(count)
}

fn main(rt: HostRuntime) -> io::Result<()> {
    let mut input = [0u8; 393216];
    let n = read_start(&mut rt.stdin(), &mut input)?;
    let mut to = rt.stdout();
    let count = ask_all(&mut to, &input[..n])?;
    print_number(&mut to, count)?;
    print(&mut to, b" cases\n")
}
