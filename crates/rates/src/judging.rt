// What is wrong with charging information: kind and length, then each octet, then the check digit.
ghost use Rattle.std.specs.Prelude.{◌≡◌, ◌+◌, ◌-◌, ◌≤◌, length, drop};
ghost use Rattle.annex.specs.Promises.{Gives};
ghost use Rattle.annex.specs.Contents.{charging_fault};
ghost use Rattle.annex.specs.Rates.{drawn_fault, numbers_drawn, total};
ghost use Rattle.rates.specs.Asked.{behind, characters_sum};

use crate::drawing::{asked_of, is_right, sum_in};
use annex::{Charges, Drawn, Fault, Flaw, Refusal};
use digits::characters::characters_fault;
use octets::octet_at;

// The first octet behind the kind that is not as it is drawn: the first one as `first`, the others as characters.
fn drawn_fault(first: Drawn, s: &[u8]) -> Fault
    ensures { result ≡ drawn_fault 2 (behind first (length s.now - 2)) (drop 2 s.now) }
{
    let Some(&lead) = s.get(Charges::HEAD) else {
        return Ok(());
    };
    if !is_right(first, lead) {
        return Err(Flaw(Refusal::BAD_DIGIT, Charges::HEAD));
    }
    characters_fault(false, s, Charges::HEAD + 1)
}

// What characters add up to.
fn characters_sum(s: &[u8]) -> u16
    requires { length s.now ≤ 255 }
    ensures { result ≡ characters_sum s.now }
{
    s.iter().map(|x| sum_in(Drawn::Character, *x)).sum()
}

// What the kind and the numbers behind it add up to.
fn check_sum(kind: u8, first: Drawn, s: &[u8]) -> usize
    requires { length s.now ≤ 257 }
    ensures { result ≡ kind + total (numbers_drawn (behind first (length s.now - 2)) (drop 2 s.now)) }
{
    let Some(&lead) = s.get(Charges::HEAD) else {
        return kind as usize;
    };
    let rest = &s[Charges::HEAD + 1..];
    kind as usize + sum_in(first, lead) as usize + characters_sum(rest) as usize
}

// 12, 13 or 18 of the contents of F7.
pub fn charging_fault(s: &[u8]) -> Fault
    ensures { Gives (charging_fault s.now) result }
{
    let kind = octet_at(s, Charges::KIND_AT);
    let Some(asked) = asked_of(kind) else {
        return Err(Flaw(Refusal::BAD_FORM, 0));
    };
    if s.len() != Charges::HEAD + asked.octets as usize {
        return Err(Flaw(Refusal::BAD_FORM, 0));
    }
    drawn_fault(asked.first, s)?;
    if asked.checked && check_sum(kind, asked.first, s) % 10 != 9 {
        return Err(Flaw(Refusal::CHECK_DIGIT, s.len() - 1));
    }
    Ok(())
}
