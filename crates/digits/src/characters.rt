// Digits as IA5 characters, and beside them the characters that part and end the parameters of an ARE (request b).
ghost use Rattle.std.specs.Prelude.{◌≡◌, cond, drop};
ghost use Rattle.annex.specs.Orders.{is_figure, is_are_character, outside_fault};
ghost use Rattle.annex.specs.Promises.{Gives};
ghost use Rattle.digits.specs.Characters.{is_known};

use annex::{Fault, Flaw, Order, Refusal};

// Whether a character is one of 0 to 9.
pub fn is_figure(octet: u8) -> bool
    ensures { Gives (is_figure octet) result }
{
    octet.is_ascii_digit()
}

// The same, or in the parameters of an ARE also one of the other two.
fn is_known(are: bool, octet: u8) -> bool
    ensures { result ≡ is_known are octet }
{
    is_figure(octet) || are && (octet == Order::SEPARATOR || octet == Order::ETX)
}

// The first octet from an offset on that is no such character. The set is a flag: two types with a trait and its law, for a set
// with two octets more, would be no plainer.
pub fn characters_fault(are: bool, s: &[u8], from: usize) -> Fault
    ensures { Gives (outside_fault (cond are is_are_character is_figure) from (drop from s.now)) result }
{
    for i in from..s.len() {
        if !is_known(are, s[i]) {
            return Err(Flaw(Refusal::BAD_DIGIT, i));
        }
    }
    Ok(())
}
