// A carrier code: an octet with the odd mark, then digits.
ghost use Rattle.annex.specs.Carriers.{code_formed, code_count};
ghost use Rattle.annex.specs.Promises.{Gives};

use annex::{Carriers, HalfOctets};
use digits::numbers::count_behind;

// The first octet is there, with nothing but the odd mark in it, and behind the mark a digit octet.
#[tactic(auto, unfolding(annex::specs::Carriers::code_formed))]
pub fn code_formed(s: &[u8]) -> bool
    ensures { Gives (code_formed s.now) result }
{
    matches!(s, [Carriers::EVEN_COUNT, ..] | [Carriers::ODD_COUNT, _, ..])
}

// How many digits it has.
pub fn code_count(s: &[u8]) -> HalfOctets
    ensures { Gives (code_count s.now) result }
{
    count_behind(s, Carriers::CODE_HEAD)
}
