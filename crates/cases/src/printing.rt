// What a case prints: its answer, and the whole lent memory after it.
use annex::{Answer, Refusal};
use std::{fmt, io};

// Octets in hexadecimal, in lower case. The listing has its own: upper case, and `-` for none, as document 01 prints a row; one type for
// both would hold the case and the dash, and be no plainer.
#[derive(Clone, Copy)]
struct Hexadecimal<'a>(&'a [u8]);

impl fmt::Display for Hexadecimal<'_> {
    fn fmt<W: fmt::Write>(&self, f: &mut fmt::Formatter<W>) -> fmt::Result {
        for octet in self.0 {
            write!(f, "{octet:02x}")?;
        }
        Ok(())
    }
}

// The answer, then what was lent.
pub fn print_outcome(rt: &impl Print, a: Answer, lent: &[u8]) -> io::Result<()> {
    let octets = Hexadecimal(lent);
    match a {
        Ok(n) => println!(rt; "ACCEPTED {n} {octets}"),
        Err(Refusal(number, place)) => println!(rt; "REFUSED {number} {place} {octets}"),
    }
}
