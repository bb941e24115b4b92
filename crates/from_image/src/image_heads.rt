// The heads of a record's image: the parameter at the front of octets. An octet that is not there is taken as 0.
ghost use Rattle.std.specs.Prelude.{cond, eqb, leb, length, get_or};
ghost use Rattle.annex.specs.Image.{head_front, item_size, four_from, common_front};
ghost use Rattle.annex.specs.Promises.{Gives};

use annex::{Common, Imaged, Transfer};
use octets::octet_at;

// The head of the transfer parameter at the front.
pub fn transfer_head(s: &[u8]) -> Transfer
    ensures { Gives (head_front s.now) result }
{
    Transfer {
        header: octet_at(s, 0),
        notification: octet_at(s, 1),
        verification: octet_at(s, 2),
        dialling: octet_at(s, 3),
        number_type: octet_at(s, 4),
        incomplete: octet_at(s, 5),
        plan: octet_at(s, 6),
        presentation: octet_at(s, 7),
        screening: octet_at(s, 8),
        len: u16::from_le_bytes([octet_at(s, 9), octet_at(s, 10)]),
    }
}

// Whether the transfer parameter at the front is whole: its head is there, and as many values as it tells.
pub fn is_whole(s: &[u8]) -> bool
    ensures { Gives (leb (item_size s.now) (length s.now)) result }
{
    Imaged::TRANSFER_HEAD + transfer_head(s).len as usize <= s.len()
}

// The value of the common parameter at the front: four octets, least first.
fn value_of(s: &[u8]) -> u32
    ensures { Gives (four_from 1 s.now) result }
{
    u32::from_le_bytes([
        octet_at(s, 1),
        octet_at(s, 2),
        octet_at(s, 3),
        octet_at(s, 4),
    ])
}

// The octet at index i where the header is the one that has it; with any other it is not looked at, and taken as 0.
fn octet_with(header: u8, owner: u8, s: &[u8], i: usize) -> u8
    ensures { Gives (cond (eqb header owner) (get_or s.now i 0) 0) result }
{
    if header == owner { octet_at(s, i) } else { 0 }
}

// The head of the common parameter at the front; its mark is looked at where it is a 04, and its count where it is a C5.
pub fn common_head(s: &[u8]) -> Common
    ensures { Gives (common_front s.now) result }
{
    let header = octet_at(s, 0);
    Common {
        header,
        value: value_of(s),
        more_data: octet_with(header, Common::SEQUENCE, s, 5),
        transfers: octet_with(header, Common::TRANSFER_DATA, s, 6),
    }
}
