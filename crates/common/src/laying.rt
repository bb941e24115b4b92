// Laying a common parameter out, its transfer parameters aside, within lent room.
ghost use Rattle.std.specs.Prelude.{◌%◌, []};
ghost use Rattle.annex.specs.Layout.{octet_of};
ghost use Rattle.annex.specs.Memory.{laying_head};
ghost use Rattle.annex.specs.Promises.{Gives, Keeps};
ghost use Rattle.annex.specs.Records.{raw_part};

use crate::call::{call_octets, is_call};
use annex::Common;
use octets::copy_in;

// The octet of 01, 04 or 06, modulo 256: of 04, the more-data mark above the number.
fn octet_of(c: Common) -> u8
    ensures { Gives (octet_of (raw_part c []) % 256) result }
{
    let low = c.value % 256;
    if c.header == Common::SEQUENCE {
        ((128 * c.more_data as u32 + low) % 256) as u8
    } else {
        low as u8
    }
}

// Writes the parameter from index at on, each number modulo 256: its header, then a call number's octets or its own, and of a C5 the length
// octet 0. Where the room is too short, nothing.
pub fn lay_head(c: Common, room: &mut [u8], at: usize) -> bool
    ensures { Keeps (laying_head c room.old at) result room.new }
{
    if c.header == Common::TRANSFER_DATA {
        copy_in(room, at, &[c.header, 0])
    } else if is_call(c.header) {
        let [low, middle, high] = call_octets(c.value);
        copy_in(room, at, &[c.header, low, middle, high])
    } else {
        copy_in(room, at, &[c.header, octet_of(c)])
    }
}
