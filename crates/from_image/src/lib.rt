// A record from its image: the struct is filled parameter by parameter, as far as the octets are a whole record within the limits.
#![tactic(auto)]

pub mod image_heads;

ghost use Rattle.std.specs.Prelude.{◌≡◌, ◌≤◌, length, drop};
ghost use Rattle.annex.specs.Heads.{most_values};
ghost use Rattle.annex.specs.Image.{items_front, parts_front, imaged_by};
ghost use Rattle.annex.specs.Promises.{FromImagePromise};
ghost use Rattle.from_image.specs.Filling.{fits_at, unfilled, filled_by, Begun, PartPut, imaged};

use crate::image_heads::{common_head, is_whole, transfer_head};
use annex::{Common, Imaged, Record, Refusal, Transfer};
use octets::copy_in;
use reader::reading::empty;

// A record's struct as far as it is filled in: how many of its transfer parameters and values are, and how many octets were read for it.
// Reading has its own without these, filled from a message's octets: what puts a parameter in has little in common.
#[derive(Clone, Copy)]
struct Filled {
    held: Record,
    transfers: usize,
    used: usize,
    octets: usize,
}

impl Filled {
    // Nothing filled in.
    fn none() -> Filled
        ensures { result ≡ unfilled }
    {
        Filled {
            held: empty(),
            transfers: 0,
            used: 0,
            octets: 0,
        }
    }

    // Whether the transfer parameter at the front is whole, and has room behind those that are filled in, and room for its values.
    fn takes(&self, s: &[u8]) -> bool
        requires { self.now.used ≤ most_values }
        ensures { result ≡ fits_at s.now self.now.transfers self.now.used }
    {
        is_whole(s)
            && transfer_head(s).len as usize <= Transfer::MOST_VALUES - self.used
            && self.transfers < Transfer::MOST
    }

    // With so many transfer parameters put in; none where they are not whole or have no room.
    fn with_transfers(mut self, s: &[u8], count: usize) -> Option<Filled>
        requires { Begun (length s.now) self }
        ensures { result ≡ filled_by self (items_front count (drop self.octets s.now)) }
    {
        for _ in 0..count {
            let rest = &s[self.octets..];
            if !self.takes(rest) {
                return None;
            }
            let t = transfer_head(rest);
            let from = self.octets + Imaged::TRANSFER_HEAD;
            let to = from + t.len as usize;
            let used = self.used;
            copy_in(&mut self.held.values, used, &s[from..to]);
            self.held.transfer[self.transfers] = t;
            self.transfers += 1;
            self.used += t.len as usize;
            self.octets = to;
        }
        Some(self)
    }

    // With the next common parameter and its transfer parameters put in.
    fn with_common(mut self, s: &[u8]) -> Option<Filled>
        requires { Begun (length s.now) self }
        ensures { PartPut s.now self result }
    {
        let k = self.held.commons as usize;
        if Common::MOST <= k || s.len() - self.octets < Imaged::COMMON_HEAD {
            return None;
        }
        let c = common_head(&s[self.octets..]);
        self.octets += Imaged::COMMON_HEAD;
        let mut filled = self.with_transfers(s, c.transfers as usize)?;
        filled.held.common[k] = c;
        filled.held.commons += 1;
        Some(filled)
    }
}

// The record of so many common parameters, which are to take all octets; none where they do not, or are over the limits.
fn fill(s: &[u8], count: usize) -> Option<Record>
    ensures { imaged result ≡ imaged_by (length s.now) (parts_front count s.now) }
{
    let mut filled = Filled::none();
    for _ in 0..count {
        filled = filled.with_common(s)?;
    }
    if filled.octets == s.len() {
        Some(filled.held)
    } else {
        None
    }
}

// What there is of a record: itself and the count of its common parameters, or 1 at 0 and the empty record.
fn imaged(held: Option<Record>) -> Imaged
    ensures { result ≡ imaged held }
{
    match held {
        Some(held) => Imaged {
            answer: Ok(held.commons as usize),
            held,
        },
        None => Imaged {
            answer: Err(Refusal(Refusal::OVER_LIMITS, 0)),
            held: empty(),
        },
    }
}

// The record of an image; where it is no whole record, has octets left over or is over the limits, 1 at 0 and the empty record.
pub fn from_image(image: &[u8]) -> Imaged
    ensures { FromImagePromise image.now result }
{
    let [count, s @ ..] = image else {
        return imaged(None);
    };
    imaged(fill(s, *count as usize))
}
