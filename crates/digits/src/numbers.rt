// A number as in D7: two octets of fields, then digits. How many digits it has, and what is wrong with it.
ghost use Rattle.std.specs.Prelude.{drop};
ghost use Rattle.annex.specs.Promises.{Gives};
ghost use Rattle.annex.specs.Digits.{count_behind, count_of, number_fault_in};

use crate::judging::digits_fault;
use annex::{Alphabet, Fault, Flaw, HalfOctets, Refusal};
use octets::{octet_at, octets_from};

// What the octets behind the first k hold, and one half less where the odd mark is set, which is in the first of them all.
pub fn count_behind(s: &[u8], k: usize) -> HalfOctets
    ensures { Gives (count_behind k s.now) result }
{
    let odd = usize::from(octet_at(s, 0) / 128);
    HalfOctets(HalfOctets::of(octets_from(s, k)).0.saturating_sub(odd))
}

// The digits of a number, behind its two octets of fields.
pub fn count_of(s: &[u8]) -> HalfOctets
    ensures { Gives (count_of s.now) result }
{
    count_behind(s, 2)
}

// The number that starts at the offset `at` of the contents s, its digits in some code. Past the end there is none, which is bad form.
#[tactic(auto, unfolding(annex::specs::Digits::number_fault_in))]
pub fn number_fault(z: Alphabet, s: &[u8], at: usize) -> Fault
    ensures { Gives (number_fault_in z at (drop at s.now)) result }
{
    let number = octets_from(s, at);
    let n = number.len();
    if n < 2 {
        return Err(Flaw(Refusal::BAD_FORM, 0));
    }
    let odd = number[0] / 128;
    if odd == 1 && n == 2 {
        return Err(Flaw(Refusal::BAD_FORM, 0));
    }
    digits_fault(z, count_of(number), s, at + 2)
}
