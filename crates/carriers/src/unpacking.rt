// The digits of a carrier code, by the row that it has in the listing.
ghost use Rattle.annex.specs.Promises.{CarrierDigitsPromise};
ghost use Rattle.carriers.specs.Codes.{DigitsTold};
ghost use Rattle.carriers.specs.Rows.{Going};

use super::held;
use annex::{Alphabet, Answer, Carriers, Cursor, Key, Refusal, Transfer};
use digits::packing::unpack_digits;
use entries::code::code_count;
use entries::cursor::{entries, is_code};
use octets::octets_from;
use reader::finding::find_both;

// The digits of the entry at a cursor: 16 where it holds no code, then 15.
fn digits_at(s: &[u8], c: Cursor, out: &mut [u8]) -> Answer
    requires { Going s.now c }
    ensures { DigitsTold s.now c out.old result out.new }
{
    if !is_code(s, c) {
        return Err(Refusal(Refusal::ABSENT, 0));
    }
    let code = held(s, c);
    let count = code_count(code);
    let octets = octets_from(code, Carriers::CODE_HEAD);
    if !unpack_digits(Alphabet::Decimal, octets, count, out, 0) {
        return Err(Refusal(Refusal::NO_ROOM, 0));
    }
    Ok(count.0)
}

// The digits of the code in row number `row` of the CC with the number `which`, both counted from 0, one an octet, from the front of the
// lent octets on. Octets past the last stay, and a refusal leaves all.
pub fn carrier_digits(m: &[u8], which: usize, row: usize, out: &mut [u8]) -> Answer
    ensures { CarrierDigitsPromise m.now which row out.old result out.new }
{
    let (_, s) = find_both(m, Key::Name(Transfer::CARRIERS % 64, which))?;
    if row == 0 {
        return Err(Refusal(Refusal::ABSENT, 0));
    }
    let Some(c) = entries(s).nth(row - 1) else {
        return Err(Refusal(Refusal::ABSENT, 0));
    };
    digits_at(s, c, out)
}
