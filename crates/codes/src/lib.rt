// Half-octets, the low half of an octet first, and the digits that they stand for.
#![tactic(auto)]

ghost use Rattle.std.specs.Prelude.{◌≡◌, get_or};
ghost use Rattle.annex.specs.Promises.{Gives};
ghost use Rattle.annex.specs.Digits.{halves, zero_to, digit_of, code_of, last_code, other_zero, is_code};

use annex::Alphabet;

// The half-octet at i, and 0 past the end.
pub fn half_at(octets: &[u8], i: usize) -> u8
    ensures { Gives (get_or (halves octets.now) i 0) result }
{
    let pair = octets.get(i / 2).copied().unwrap_or(0);
    if i % 2 == 0 { pair % 16 } else { pair / 16 }
}

// The code of a zero.
fn zero_code(z: Alphabet) -> u8
    ensures { result ≡ zero_to z 0 }
{
    match z {
        Alphabet::Dialled => 10,
        Alphabet::Numbered | Alphabet::Decimal => 0,
    }
}

// The digit that a half-octet stands for. Codes 11 and 12 are * and #, which a record holds as 10 and 11; what is no code stays as it is.
#[tactic(auto, using(crate::proofs::Zeroes::zero_from_lem, crate::proofs::Zeroes::other_from), unfolding(annex::specs::Digits::digit_of))]
pub fn digit_of(z: Alphabet, h: u8) -> u8
    ensures { Gives (digit_of z h) result }
{
    match h {
        11 => 10,
        12 => 11,
        _ if h == zero_code(z) => 0,
        _ => h,
    }
}

// The half-octet that stands for a digit; what is no digit stays as it is.
#[tactic(auto, using(crate::proofs::Zeroes::other_to), unfolding(annex::specs::Digits::code_of))]
pub fn code_of(z: Alphabet, d: u8) -> u8
    ensures { Gives (code_of z d) result }
{
    match d {
        10 => 11,
        11 => 12,
        0 => zero_code(z),
        _ => d,
    }
}

// The last code: # where there is one, and else 9.
fn last_code(z: Alphabet) -> u8
    ensures { result ≡ last_code z }
{
    match z {
        Alphabet::Dialled | Alphabet::Numbered => 12,
        Alphabet::Decimal => 9,
    }
}

// The code that is a zero elsewhere, and here spare.
fn other_zero(z: Alphabet) -> u8
    ensures { result ≡ other_zero z }
{
    match z {
        Alphabet::Dialled => 0,
        Alphabet::Numbered | Alphabet::Decimal => 10,
    }
}

// Whether a half-octet stands for a digit. Both tests are made, so that the compiler can take many at once.
#[tactic(auto, unfolding(annex::specs::Digits::is_code))]
pub fn is_code(z: Alphabet, h: u8) -> bool
    ensures { Gives (is_code z h) result }
{
    (h <= last_code(z)) & (h != other_zero(z))
}
