// What is wrong with octets that hold digits: the place of the first half-octet that is not as it must be.
ghost use Rattle.std.specs.Prelude.{◌≡◌, true, cond, ℕ, ◌+◌, ◌^◌, ◌<◌, eqb, length, drop};
ghost use Rattle.annex.specs.Promises.{Gives};
ghost use Rattle.annex.specs.Digits.{is_code, digits_fault};
ghost use Rattle.annex.specs.Allowed.{every};
ghost use Rattle.annex.specs.Answers.{Sound};
ghost use Rattle.digits.specs.Pairs.{is_pair};

use annex::{Alphabet, Fault, Flaw, HalfOctets, Refusal};
use codes::{half_at, is_code};
use octets::octets_from;

// A half-octet that must be a digit, or else filler.
fn half_right(z: Alphabet, digit: bool, h: u8) -> bool
    ensures { result ≡ cond digit (is_code z h) (eqb h 0) }
{
    if digit { is_code(z, h) } else { h == 0 }
}

// Whether both halves of an octet are digits. Both are looked at, so that the compiler can take many octets at once.
fn pair_right(z: Alphabet, x: u8) -> bool
    ensures { result ≡ is_pair z x }
{
    is_code(z, x % 16) & is_code(z, x / 16)
}

// Whether both halves of every octet are digits. No turn leaves early, so that the compiler can take many octets at once.
fn are_pairs(z: Alphabet, s: &[u8]) -> bool
    ensures { result ≡ every (is_pair z) s.now }
{
    s.iter()
        .copied()
        .fold(true, |good, x| good & pair_right(z, x))
}

// True only where the octets hold n digits and filler: they are as many as n digits take, and nothing in them is wrong.
fn are_sound(z: Alphabet, n: HalfOctets, s: &[u8]) -> bool
    ensures { result ≡ true → (at : ℕ) → digits_fault z n at s.now ≡ Sound }
{
    let k = n.0 / 2;
    // of an odd count the last octet holds one digit, and no code is over 12: its high half is then the filler, 0
    s.len() == n.octets().0 && are_pairs(z, &s[..k]) && (n.0 % 2 == 0 || is_code(z, s[k]))
}

// The place of the first half-octet that is not as it must be.
fn first_fault(z: Alphabet, n: HalfOctets, at: usize, s: &[u8]) -> Fault
    requires { at + length s.now < 2 ^ 64 }
    ensures { result ≡ digits_fault z n at s.now }
{
    let end = HalfOctets::of(s).0;
    for i in 0..end {
        let h = half_at(s, i);
        if !half_right(z, i < n.0, h) {
            return Err(Flaw(Refusal::BAD_DIGIT, at + i / 2));
        }
    }
    Ok(())
}

// The octets of the contents s from the offset `at` on hold n digits and filler. The place is looked for only where something is wrong.
pub fn digits_fault(z: Alphabet, n: HalfOctets, s: &[u8], at: usize) -> Fault
    ensures { Gives (digits_fault z n at (drop at s.now)) result }
{
    let rest = octets_from(s, at);
    if are_sound(z, n, rest) {
        return Ok(());
    }
    first_fault(z, n, at, rest)
}
