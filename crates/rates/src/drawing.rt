// How the octets of charging information are drawn: what a kind asks of them, what one may be, and which numbers it holds.
ghost use Rattle.std.specs.Prelude.{◌≡◌, Some};
ghost use Rattle.annex.specs.Promises.{Gives};
ghost use Rattle.annex.specs.Digits.{zero_from};
ghost use Rattle.annex.specs.Rates.{is_mbi_code, is_right, numbers_in, total, decimal};
ghost use Rattle.annex.specs.declared.Alphabet.TheVariants.{Dialled};
ghost use Rattle.rates.specs.Asked.{asking, asked_of};

use annex::{Charges, Drawn};
use digits::characters::is_figure;

// What a kind asks of the octets behind it: how many there are, how the first of them is drawn (all others are characters), and whether a
// check digit is among them.
#[derive(Clone, Copy)]
pub struct Asked {
    pub octets: u8,
    pub first: Drawn,
    pub checked: bool,
}

fn listed(octets: u8, first: Drawn, checked: bool) -> Option<Asked>
    ensures { result ≡ Some (asking octets first checked) }
{
    Some(Asked {
        octets,
        first,
        checked,
    })
}

// The kinds; None where the kind is not listed.
#[tactic(auto, unfolding(annex::specs::Rates::is_kind, annex::specs::Rates::fields_of))]
pub fn asked_of(kind: u8) -> Option<Asked>
    ensures { Gives (asked_of kind) result }
{
    match kind {
        Charges::UNITS_AND_TIMES => listed(15, Drawn::Character, true),
        Charges::NO_RATE => listed(0, Drawn::Character, false),
        Charges::MBI_AND_INTERVAL => listed(8, Drawn::Halves, true),
        Charges::MBI_AND_UNITS => listed(9, Drawn::Halves, true),
        Charges::MBI_ALONE => listed(2, Drawn::Halves, true),
        Charges::FEE_AND_TIMES => listed(15, Drawn::Whole, false),
        Charges::FEE_AND_INTERVAL => listed(21, Drawn::Whole, false),
        Charges::FEE_AND_UNITS => listed(22, Drawn::Whole, false),
        _ => None,
    }
}

// Whether a half of MBI stands for a digit.
fn is_mbi_code(code: u8) -> bool
    ensures { result ≡ is_mbi_code code }
{
    matches!(code, 1..=10)
}

// The digit of a half of MBI: code 10 is 0.
fn mbi_digit(code: u8) -> u8
    ensures { result ≡ zero_from Dialled code }
{
    if code == 10 { 0 } else { code }
}

// Whether an octet may be drawn so.
pub fn is_right(drawn: Drawn, octet: u8) -> bool
    ensures { Gives (is_right drawn octet) result }
{
    match drawn {
        Drawn::Whole => true,
        Drawn::Halves => is_mbi_code(octet / 16) && is_mbi_code(octet % 16),
        Drawn::Character => is_figure(octet),
    }
}

// What the numbers add up to that an octet holds: of MBI both digits.
pub fn sum_in(drawn: Drawn, octet: u8) -> u16
    ensures { Gives (total (numbers_in drawn octet)) result }
{
    match drawn {
        Drawn::Whole => octet as u16,
        Drawn::Halves => mbi_digit(octet / 16) as u16 + mbi_digit(octet % 16) as u16,
        Drawn::Character => (octet % 16) as u16,
    }
}

// The number that an octet holds: of MBI tens in the high half, ones in the low.
#[tactic(auto, unfolding(annex::specs::Rates::decimal))]
pub fn number_in(drawn: Drawn, octet: u8) -> u16
    ensures { Gives (decimal 0 (numbers_in drawn octet)) result }
{
    match drawn {
        Drawn::Whole => octet as u16,
        Drawn::Halves => 10 * mbi_digit(octet / 16) as u16 + mbi_digit(octet % 16) as u16,
        Drawn::Character => (octet % 16) as u16,
    }
}
