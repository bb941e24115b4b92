// Records written, each in a room of its own.
use super::MOST;
use super::printing::print_outcome;
use annex::Record;
use from_image::from_image;
use std::io;
use writer::write;

// what the room holds before
const BEFORE: u8 = 0xEE;

// What is changed of the struct: its count of common parameters, the first one's count of transfer parameters, the first transfer
// parameter's count of values.
#[derive(Clone, Copy)]
pub enum Change {
    Nothing,
    Commons,
    Transfers,
    Values,
}

impl Change {
    // A struct whose counts need not be right.
    fn of(self, held: Record, to: u16) -> Record {
        let mut q = held;
        match self {
            Change::Nothing => {}
            Change::Commons => q.commons = (to % 256) as u8,
            Change::Transfers => q.common[0].transfers = (to % 256) as u8,
            Change::Values => q.transfer[0].len = to,
        }
        q
    }
}

// The struct of a record's image, changed, and written in room of so many octets.
#[derive(Clone, Copy)]
pub struct Case<'a> {
    pub change: Change,
    pub to: u16,
    pub len: usize,
    pub image: &'a [u8],
}

impl Case<'_> {
    pub fn print(self, rt: &impl Print) -> io::Result<()> {
        let mut memory = [BEFORE; MOST];
        let Some(room) = memory.get_mut(..self.len) else {
            return Ok(());
        };
        let held = from_image(self.image).held;
        let a = write(self.change.of(held, self.to), room);
        print_outcome(rt, a, room)
    }
}
