// What the lines are made of: text, numbers, and the bytes of a reply.
use refusals::Refusal;
use std::io;
use std::io::Write;

// These bytes as they are.
pub fn print<W: Write>(to: &mut W, text: &[u8]) -> io::Result<()> {
    to.write_all(text)
}

// A number in decimal.
pub fn print_number<W: Write>(to: &mut W, n: usize) -> io::Result<()> {
    write!(to, "{n}")
}

// A refusal with its number and place, as a line.
pub fn print_refused<W: Write>(to: &mut W, refusal: Refusal) -> io::Result<()> {
    write!(to, "{refusal}\n")
}

// The first n bytes, each as two digits. One function for each format, since a format is no value.
pub fn print_hex<W: Write>(to: &mut W, bytes: &[u8], n: usize) -> io::Result<()> {
    for b in bytes.iter().take(n) {
        write!(to, "{b:02x}")?;
    }
    Ok(())
}

// The first n bytes as numbers, one after the other.
pub fn print_marks<W: Write>(to: &mut W, bytes: &[u8], n: usize) -> io::Result<()> {
    for b in bytes.iter().take(n) {
        write!(to, "{b}")?;
    }
    Ok(())
}

// The first n bytes as numbers, a space before each.
pub fn print_list<W: Write>(to: &mut W, bytes: &[u8], n: usize) -> io::Result<()> {
    for b in bytes.iter().take(n) {
        write!(to, " {b}")?;
    }
    Ok(())
}
