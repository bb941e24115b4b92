// Runs edits and writes records, and prints each answer with the whole lent memory after it. Standard input has the cases one after the
// other: the kind, four numbers (2 octets each, least first) and octets. 0 replace, 1 append, 2 remove: n, the buffer's length, the new
// octets' length and which of those with the name, counted from 0; the buffer and the new octets, for a removal the name first. 3 to 6
// write a record: to what a part of the struct is changed (3 nothing, 4 its count of common parameters, 5 the first one's count of transfer
// parameters, 6 the first transfer parameter's count of values), the room's length, the image's length and 0; the record's image.
#![tactic(auto)]

mod edits;
mod printing;
mod records;

ghost use Rattle.std.specs.Prelude.{◌<◌, IfSome, length};

use input::read_full;
use records::Change;
use std::io;

// the longest buffer and room
const MOST: usize = 400;

// the longest input
const INPUT: usize = 131072;

// What a case does.
#[derive(Clone, Copy)]
enum Kind {
    Edit(edits::Kind),
    Write(Change),
}

impl From<u8> for Kind {
    fn from(octet: u8) -> Kind {
        match octet {
            0 => Kind::Edit(edits::Kind::Replace),
            1 => Kind::Edit(edits::Kind::Append),
            2 => Kind::Edit(edits::Kind::Remove),
            4 => Kind::Write(Change::Commons),
            5 => Kind::Write(Change::Transfers),
            6 => Kind::Write(Change::Values),
            _ => Kind::Write(Change::Nothing),
        }
    }
}

#[derive(Clone, Copy)]
enum Case<'a> {
    Edit(edits::Case<'a>),
    Write(records::Case<'a>),
}

// The number in the first two octets of s, least first, and what is behind it.
fn first_number(s: &[u8]) -> Option<(u16, &[u8])>
    ensures { IfSome result (λ r. length r.1.now < length s.now) }
{
    let (octets, behind) = s.split_first_chunk::<2>()?;
    Some((u16::from_le_bytes(*octets), behind))
}

// The case at the front of s, and what is behind it; none where it is cut.
fn first_case(s: &[u8]) -> Option<(Case<'_>, &[u8])>
    ensures { IfSome result (λ r. length r.1.now < length s.now) }
{
    let (kind, left) = s.split_first()?;
    let (first, left) = first_number(left)?;
    let (second, left) = first_number(left)?;
    let (third, left) = first_number(left)?;
    let (fourth, left) = first_number(left)?;
    match Kind::from(*kind) {
        Kind::Edit(kind) => {
            let (given, left) = left.split_at_checked(usize::from(second))?;
            let (new, behind) = left.split_at_checked(usize::from(third))?;
            let case = edits::Case {
                kind,
                n: usize::from(first),
                which: usize::from(fourth),
                given,
                new,
            };
            Some((Case::Edit(case), behind))
        }
        Kind::Write(change) => {
            let (image, behind) = left.split_at_checked(usize::from(third))?;
            let case = records::Case {
                change,
                to: first,
                len: usize::from(second),
                image,
            };
            Some((Case::Write(case), behind))
        }
    }
}

fn run(rt: &impl Print, s: &[u8]) -> io::Result<()> {
    let mut left = s;
    while let Some((case, behind)) = first_case(left) {
        match case {
            Case::Edit(edit) => edit.print(rt)?,
            Case::Write(write) => write.print(rt)?,
        }
        left = behind;
    }
    Ok(())
}

fn main(rt: HostRuntime) -> io::Result<()> {
    let mut input = [0u8; INPUT];
    let n = read_full(&mut rt.reader(), &mut input)?;
    run(&rt, &input[..n])
}
