// What is wrong with the contents of CC: its form from end to end first, then its digits.
ghost use Rattle.std.specs.Prelude.{◌≡◌, true};
ghost use Rattle.annex.specs.Carriers.{carriers_formed, carriers_fault, entries_fault, carrier_fault, carriers_in, is_tag};
ghost use Rattle.annex.specs.Promises.{Gives};
ghost use Rattle.entries.specs.Left.{entry_formed, entry_fault};

use crate::code::{code_count, code_formed};
use crate::cursor::{entries, inside, is_code};
use annex::{Alphabet, Carriers, Cursor, Fault, Flaw, Refusal};
use digits::judging::digits_fault;

// The tags of a level, from its lowest on.
fn is_tag(lowest: u8, tag: u8) -> bool
    ensures { result ≡ is_tag lowest tag }
{
    lowest <= tag && tag <= Carriers::HIGHEST_TAG
}

// The entry at a cursor: it is not cut, its tag is one of its level, and a code has its form.
#[tactic(auto, using(crate::specs::Left::entry_stands))]
fn entry_formed(s: &[u8], c: Cursor) -> bool
    ensures { result ≡ entry_formed s.now c }
{
    let Some((from, to)) = inside(s, c) else {
        return false;
    };
    let lowest = if c.at < c.end {
        Carriers::LOWEST_DEPENDENT
    } else {
        Carriers::LOWEST_CARRIER
    };
    is_tag(lowest, s[c.at]) && (!is_code(s, c) || code_formed(&s[from..to]))
}

// The contents: the direction octet, and every entry.
#[tactic(auto, unfolding(annex::specs::Carriers::carriers_formed))]
fn carriers_formed(s: &[u8]) -> bool
    ensures { result ≡ carriers_formed s.now }
{
    let Some(&direction) = s.first() else {
        return false;
    };
    direction <= Carriers::MOST_DIRECTION && entries(s).all(|c| entry_formed(s, c))
}

// The digits of the entry at a cursor, where it holds a code.
#[tactic(auto, using(crate::specs::Left::entry_stands), unfolding(annex::specs::Carriers::code_fault))]
fn entry_fault(s: &[u8], c: Cursor) -> Fault
    ensures { result ≡ entry_fault s.now c }
{
    match inside(s, c) {
        Some((from, to)) if is_code(s, c) => digits_fault(
            Alphabet::Decimal,
            code_count(&s[from..to]),
            &s[..to],
            from + Carriers::CODE_HEAD,
        ),
        _ => Ok(()),
    }
}

// The digits of every code, in contents of the right form.
fn codes_fault(s: &[u8]) -> Fault
    requires { carriers_formed s.now ≡ true }
    ensures { result ≡ entries_fault carrier_fault (carriers_in s.now) }
{
    for c in entries(s) {
        entry_fault(s, c)?;
    }
    Ok(())
}

// 12 or 13 of the contents of CC.
#[tactic(auto, unfolding(annex::specs::Carriers::carriers_fault))]
pub fn carriers_fault(s: &[u8]) -> Fault
    ensures { Gives (carriers_fault s.now) result }
{
    if !carriers_formed(s) {
        return Err(Flaw(Refusal::BAD_FORM, 0));
    }
    codes_fault(s)
}
