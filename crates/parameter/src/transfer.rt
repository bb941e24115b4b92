// One transfer parameter, its header and the octets after it: 8 to 11 and what is wrong with its contents, in their order. 13 is placed at
// its octet, every other number at the header.
ghost use Rattle.std.specs.Prelude.{◌≡◌, ◌+◌, ◌^◌, ◌<◌};
ghost use Rattle.annex.specs.Promises.{Gives};
ghost use Rattle.annex.specs.Answers.{offset_of, sound_then, reading_at, Accepted};
ghost use Rattle.annex.specs.Reading.{transfer_of};
ghost use Rattle.heads.specs.Asked.{Asks};

use crate::contents::fault_under;
use annex::{Answer, Fault, Flaw, Refusal};
use heads::{Asked, head_number, head_of, often_of};
use octets::octet_at;
use units::after_header;

// A fault of contents that start so many octets behind the header is refused at its octet if it is 13, and else at the header; where there
// is none, n is accepted.
fn at_octet(f: Fault, start: usize, n: usize) -> Answer
    requires { start + offset_of f < 2 ^ 64 }
    ensures { result ≡ sound_then (reading_at start) f (Accepted n) }
{
    match f {
        Ok(()) => Ok(n),
        Err(Flaw(Refusal::BAD_DIGIT, i)) => Err(Refusal(Refusal::BAD_DIGIT, start + i)),
        Err(Flaw(k, _)) => Err(Refusal(k, 0)),
    }
}

// The parameter's name stood `times` before; `asked` is what a look-up says of its header; xs are the octets after it, to the end of the
// transfer data. The layout's function judges values and not octets, so one over both would be no plainer.
fn judged(asked: Asked, times: u8, header: u8, xs: &[u8]) -> Answer
    requires { Asks header asked }
    ensures { result ≡ transfer_of times header xs.now }
{
    if !asked.right {
        return Err(Refusal(head_number(header), 0));
    }
    if often_of(header % 64) <= times {
        return Err(Refusal(Refusal::REPEATED_NAME, 0));
    }
    let after = after_header(header, octet_at(xs, 0));
    if xs.len() < after.octets {
        return Err(Refusal(Refusal::CUT_CONTENTS, 0));
    }
    let f = fault_under(asked.zeroes, asked.form, &xs[after.lead..after.octets]);
    at_octet(f, 1 + after.lead, after.octets)
}

// What refuses a parameter whose name stood `times` before, or how many of the octets xs after its header are its own.
pub fn transfer(times: u8, header: u8, xs: &[u8]) -> Answer
    ensures { Gives (transfer_of times header xs.now) result }
{
    judged(head_of(header), times, header, xs)
}
