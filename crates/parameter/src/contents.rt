// What is wrong with the contents of one transfer parameter: the refusal's number, and the offset of the octet in the contents.
ghost use Rattle.std.specs.Prelude.{◌≡◌};
ghost use Rattle.annex.specs.Promises.{Gives};
ghost use Rattle.annex.specs.Answers.{sound_then, header_at, Accepted};
ghost use Rattle.annex.specs.Contents.{calling_fault, generic_fault, dialled_fault, two_fault, check_fault, fault_by, fault_under, fault_of};

use annex::{Alphabet, Answer, Check, Fault, Flaw, Form, HalfOctets, Refusal, Transfer};
use digits::judging::digits_fault;
use digits::numbers::number_fault;
use entries::judging::carriers_fault;
use heads::head_of;
use octets::octet_at;
use orders::judging::order_fault;
use rates::judging::charging_fault;

// PLI 10: the count octet, then its digits.
#[tactic(auto, unfolding(annex::specs::Contents::dialled_fault))]
fn dialled_fault(s: &[u8]) -> Fault
    ensures { result ≡ dialled_fault s.now }
{
    let count = HalfOctets::counted_by(octet_at(s, 0));
    digits_fault(Alphabet::Dialled, count, s, 1)
}

// DC: as D7, but with presentation 2 nothing is told.
#[tactic(auto, unfolding(annex::specs::Contents::calling_fault))]
fn calling_fault(s: &[u8]) -> Fault
    ensures { result ≡ calling_fault s.now }
{
    let second = octet_at(s, 1);
    if second / 4 % 4 != Transfer::WITHHELD {
        return number_fault(Alphabet::Numbered, s, 0);
    }
    Flaw::unless(s.len() == 2 && s[0] == 0 && second < 16)
}

// DA: 06 and then a number, or anything else but nothing.
#[tactic(auto, unfolding(annex::specs::Contents::generic_fault))]
fn generic_fault(s: &[u8]) -> Fault
    ensures { result ≡ generic_fault s.now }
{
    match s {
        [] => Err(Flaw(Refusal::BAD_FORM, 0)),
        [Transfer::ADDED_CALLING_NUMBER, ..] => number_fault(Alphabet::Numbered, s, 1),
        _ => Ok(()),
    }
}

// DB and CF: two octets, and these bits of the second 0.
#[tactic(auto, unfolding(annex::specs::Contents::two_fault))]
fn two_fault(mask: u8, s: &[u8]) -> Fault
    ensures { result ≡ two_fault mask s.now }
{
    Flaw::unless(s.len() == 2 && s[1] & mask == 0)
}

// What a check finds wrong with contents that are held as they are.
fn check_fault(check: Check, s: &[u8]) -> Fault
    ensures { result ≡ check_fault check s.now }
{
    match check {
        Check::Nothing => Ok(()),
        Check::Long(n) => Flaw::unless(s.len() == n as usize),
        Check::Two(mask) => two_fault(mask, s),
        Check::Charging => charging_fault(s),
        Check::Order => order_fault(s),
        Check::Carriers => carriers_fault(s),
    }
}

// What a form asks. It stays out of `fault_under`, which most contents never leave for it.
#[inline(never)]
fn form_fault(form: Form, s: &[u8]) -> Fault
    ensures { result ≡ fault_by form s.now }
{
    match form {
        Form::Checked(check) => check_fault(check, s),
        Form::Digits(_) => dialled_fault(s),
        Form::Number => number_fault(Alphabet::Numbered, s, 0),
        Form::Calling => calling_fault(s),
        Form::Generic => generic_fault(s),
    }
}

// The contents s: first the bits of their first octet that must be 0, then the form. Of most contents no more is asked, which is seen
// here.
pub fn fault_under(zeroes: u8, form: Form, s: &[u8]) -> Fault
    ensures { Gives (fault_under zeroes form s.now) result }
{
    if octet_at(s, 0) & zeroes != 0 {
        return Err(Flaw(Refusal::BAD_FORM, 0));
    }
    match form {
        Form::Checked(Check::Nothing) => Ok(()),
        _ => form_fault(form, s),
    }
}

// What is wrong with the contents s under a header, any at all.
#[tactic(auto, unfolding(annex::specs::Contents::fault_of))]
pub fn contents_fault(header: u8, s: &[u8]) -> Fault
    ensures { Gives (fault_of header s.now) result }
{
    let asked = head_of(header);
    fault_under(asked.zeroes, asked.form, s)
}

// A fault is refused at the header, whatever its offset; where there is none, n is accepted.
pub fn at_header(f: Fault, n: usize) -> Answer
    ensures { Gives (sound_then (header_at 0) f (Accepted n)) result }
{
    f.map_err(|Flaw(k, _)| Refusal(k, 0))?;
    Ok(n)
}
