// Edits, each in a buffer of its own.
use super::MOST;
use super::printing::print_outcome;
use annex::Answer;
use editor::{append, remove, replace};
use octets::copy_in;
use std::io;

#[derive(Clone, Copy)]
pub enum Kind {
    Replace,
    Append,
    Remove,
}

// An edit of the first n octets of a buffer that holds those given, by the new octets, for a removal the name first.
#[derive(Clone, Copy)]
pub struct Case<'a> {
    pub kind: Kind,
    pub n: usize,
    pub which: usize,
    pub given: &'a [u8],
    pub new: &'a [u8],
}

impl Case<'_> {
    fn edit(self, buffer: &mut [u8]) -> Answer {
        match self.kind {
            Kind::Replace => replace(buffer, self.n, self.new, self.which),
            Kind::Append => append(buffer, self.n, self.new),
            Kind::Remove => {
                let name = self.new.first().copied().unwrap_or(255);
                remove(buffer, self.n, name, self.which)
            }
        }
    }

    pub fn print(self, rt: &impl Print) -> io::Result<()> {
        let mut room = [0u8; MOST];
        let Some(buffer) = room.get_mut(..self.given.len()) else {
            return Ok(());
        };
        copy_in(buffer, 0, self.given);
        let a = self.edit(buffer);
        print_outcome(rt, a, buffer)
    }
}
