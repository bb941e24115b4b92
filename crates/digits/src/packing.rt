// Digits packed into octets, and out of them into lent room for values. Where they do not fit, nothing is written and the answer is false.
ghost use Rattle.std.specs.Prelude.{◌≡◌, ◌+◌, ◌*◌, ◌%◌, ◌≤◌, min, length};
ghost use Rattle.std.proofs.lemmas.List.Edits.{sets};
ghost use Rattle.annex.specs.Promises.{Gives, Keeps};
ghost use Rattle.annex.specs.Units.{octets_of, halves_in};
ghost use Rattle.annex.specs.Digits.{is_digit, digits_of, packed, halves_for};
ghost use Rattle.annex.specs.Allowed.{every};
ghost use Rattle.annex.specs.Memory.{at_front, packing, unpacking, values_fit};

use annex::{Alphabet, HalfOctets, Octets, Transfer};
use codes::{code_of, digit_of};

// Whether each value is a digit. No turn leaves early, so that the compiler can take many at once.
pub fn are_digits(values: &[u8]) -> bool
    ensures { Gives (every is_digit values.now) result }
{
    values
        .iter()
        .copied()
        .fold(true, |good, d| good & (d <= 11))
}

// How many octets hold these digits.
pub fn packed_len(digits: &[u8]) -> Octets
    ensures { Gives (octets_of (halves_for digits.now)) result }
{
    HalfOctets(digits.len()).octets()
}

// How many of n digits the octets have, which end before the last where they are too few.
pub fn digits_in(n: HalfOctets, octets: &[u8]) -> HalfOctets
    ensures { Gives (min n.0 (halves_in octets.now).0) result.0 }
{
    HalfOctets(n.0.min(HalfOctets::of(octets).0))
}

// Whether so many values, no more than a record holds, fit in the room after the used ones.
pub fn has_room(room: usize, used: usize, count: usize) -> bool
    ensures { Gives (values_fit room used count) result }
{
    count <= Transfer::MOST_VALUES && used <= room && count <= room - used
}

// The octet of two half-octets, modulo 256 as the definition has it, since any numbers may be given.
fn joined(low: u8, high: u8) -> u8
    ensures { result ≡ (low + 16 * high) % 256 }
{
    ((u16::from(low) + 16 * u16::from(high)) % 256) as u8
}

// Writes digits at the front of room that suffices.
fn pack_fitting(z: Alphabet, digits: &[u8], room: &mut [u8])
    requires { (octets_of (halves_for digits.now)).0 ≤ length room.old }
    ensures { room.new ≡ at_front (packed z digits.now) room.old }
{
    let n = digits.len() / 2;
    for i in 0..n {
        room[i] = joined(code_of(z, digits[2 * i]), code_of(z, digits[2 * i + 1]));
    }
    if digits.len() % 2 == 1 {
        room[n] = joined(code_of(z, digits[2 * n]), 0);
    }
}

// Writes digits at the front of the room, two to an octet, low half first.
pub fn pack_digits(z: Alphabet, digits: &[u8], room: &mut [u8]) -> bool
    ensures { Keeps (packing z digits.now room.old) result room.new }
{
    let fits = packed_len(digits).0 <= room.len();
    if fits {
        pack_fitting(z, digits, room);
    }
    fits
}

// Stores the first `count` digits of `octets` in `values` from `used` on, the two of an octet together.
fn unpack_fitting(z: Alphabet, octets: &[u8], count: HalfOctets, values: &mut [u8], used: usize)
    requires { (used + count.0 ≤ length values.old) × (count.0 ≤ (halves_in octets.now).0) }
    ensures { values.new ≡ sets values.old used (digits_of z count octets.now) }
{
    let pairs = count.0 / 2;
    for i in 0..pairs {
        let x = octets[i];
        let at = used + 2 * i;
        values[at] = digit_of(z, x % 16);
        values[at + 1] = digit_of(z, x / 16);
    }
    if count.0 % 2 == 1 {
        values[used + 2 * pairs] = digit_of(z, octets[pairs] % 16);
    }
}

// Stores the first n digits of `octets` in `values` from `used` on, fewer where the octets end.
#[tactic(auto, using(crate::specs::Unpacked::there, crate::specs::Unpacked::length_there))]
pub fn unpack_digits(
    z: Alphabet,
    octets: &[u8],
    n: HalfOctets,
    values: &mut [u8],
    used: usize,
) -> bool
    ensures { Keeps (unpacking z octets.now n values.old used) result values.new }
{
    let count = digits_in(n, octets);
    let fits = has_room(values.len(), used, count.0);
    if fits {
        unpack_fitting(z, octets, count, values, used);
    }
    fits
}
