// The printed listing of a message: a line for each row, or the one line of a refusal. No contract can say what is printed; the programs
// over this crate are run and their output is compared.
#![tactic(auto)]

ghost use Rattle.annex.specs.Heads.{most_rows};
ghost use Rattle.annex.specs.Promises.{SpansCheckPromise};

use annex::{Answer, Common, Message, Refusal, Row};
use reader::rows::check;
use std::{fmt, io};
use units::{extent_of, lead};
use walk::cursor::rows_in;

// The hexadecimal digits, in upper case.
const DIGITS: [&str; 16] = [
    "0", "1", "2", "3", "4", "5", "6", "7", "8", "9", "A", "B", "C", "D", "E", "F",
];

// Octets in hexadecimal; `-` for none.
#[derive(Clone, Copy)]
struct Hexadecimal<'a>(&'a [u8]);

impl fmt::Display for Hexadecimal<'_> {
    fn fmt<W: fmt::Write>(&self, f: &mut fmt::Formatter<W>) -> fmt::Result {
        if self.0.is_empty() {
            return f.write_str("-");
        }
        for octet in self.0 {
            f.write_str(DIGITS[usize::from(octet / 16)])?;
            f.write_str(DIGITS[usize::from(octet % 16)])?;
        }
        Ok(())
    }
}

// The contents of a row of the message; none of C5, whose rows follow.
fn contents(m: &[u8], row: Row) -> Option<&[u8]> {
    if row.header == Common::TRANSFER_DATA {
        return None;
    }
    let behind_header = m.get(row.offset..)?.get(1..)?;
    // the transfer rule serves common parameters too: only C5 has a length octet there
    let before = lead(extent_of(row.header));
    behind_header.get(before..)?.get(..row.len)
}

fn print_row(rt: &impl Print, m: &[u8], row: Row) -> io::Result<()> {
    let shown = Hexadecimal(contents(m, row).unwrap_or(b""));
    println!(rt; "{} {:02X} {} {}", row.offset, row.header, row.len, shown)
}

fn print_rows(rt: &impl Print, m: &[u8]) -> io::Result<()> {
    println!(rt; "OFFSET HEAD LEN CONTENTS")?;
    for row in rows_in(m) {
        print_row(rt, m, row)?;
    }
    Ok(())
}

fn print_answer(rt: &impl Print, m: &[u8], a: Answer) -> io::Result<()> {
    match a {
        Ok(_) => print_rows(rt, m),
        Err(Refusal(number, place)) => println!(rt; "REFUSED {number} {place}"),
    }
}

// Prints the listing, and answers with its row count, or number and place, and with whether all of it was written.
pub fn list(rt: &impl Print, m: &[u8]) -> (Answer, io::Result<()>)
    ensures { SpansCheckPromise m.now most_rows result.0 }
{
    let a = check(m, Message::MOST_ROWS);
    (a, print_answer(rt, m, a))
}
