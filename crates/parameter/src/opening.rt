// Opening a transfer parameter: its contents become a head, and values stored in lent room.
ghost use Rattle.std.specs.Prelude.{◌≡◌, false, List, ℕ, length};
ghost use Rattle.annex.specs.Promises.{Gives};
ghost use Rattle.annex.specs.Items.{holding_by, holding_of, open_by, open_marks};
ghost use Rattle.annex.specs.declared.Holding.TheVariants.{AsContents, AsDigits, AsNumber, AsGeneric};
ghost use Rattle.annex.specs.Records.{head_of};
ghost use Rattle.annex.specs.Opening.{head_for, values_with, opened_head, opened_values};

use annex::{Alphabet, Form, HalfOctets, Holding, Marks, Transfer};
use digits::numbers::count_of;
use digits::packing::{digits_in, has_room, unpack_digits};
use heads::head_of;
use octets::{copy_in, octet_at, octets_from};

// How the values of contents of this form are held; `first` is the first octet of the contents, or 0.
pub fn holding_by(form: Form, first: u8) -> Holding
    ensures { Gives (holding_by form first) result }
{
    match form {
        Form::Digits(marks) => Holding::AsDigits(marks),
        Form::Number => Holding::AsNumber(false),
        Form::Calling => Holding::AsNumber(true),
        Form::Generic if first == Transfer::ADDED_CALLING_NUMBER => Holding::AsGeneric,
        Form::Checked(_) | Form::Generic => Holding::AsContents,
    }
}

// How the values under this header are held.
#[tactic(auto, unfolding(annex::specs::Items::holding_of))]
pub fn holding_of(header: u8, first: u8) -> Holding
    ensures { Gives (holding_of header first) result }
{
    holding_by(head_of(header).form, first)
}

// The head of `len` digits, with the upper two bits of their count octet.
fn marked(marks: Marks, header: u8, upper: u8, len: u16) -> Transfer
    ensures { (vs : List ℕ) → length vs ≡ len → result ≡ head_of (open_marks marks header upper vs) }
{
    match marks {
        Marks::Unmarked => Transfer::dialled(header, 0, 0, 0, len),
        Marks::Notified => Transfer::dialled(header, upper / 2, 0, 0, len),
        Marks::Verified => Transfer::dialled(header, upper / 2, upper % 2, 0, len),
        Marks::Typed => Transfer::dialled(header, 0, 0, upper, len),
    }
}

// The head of a parameter that holds these octets as they are, whatever its header asks. They go into `values` after the used ones; where
// they have no room, the head is empty and nothing is stored.
pub fn open_contents(header: u8, s: &[u8], values: &mut [u8], used: usize) -> Transfer
    ensures head { Gives (head_for (open_by AsContents header s.now) used values.old) result }
    ensures put { Gives (values_with (open_by AsContents header s.now) used values.old) values.new }
{
    let count = s.len();
    if !has_room(values.len(), used, count) {
        return Transfer::none();
    }
    copy_in(values, used, s);
    Transfer::carried(header, count as u16)
}

// Digits of PLI 10, after their count octet: as many as it tells, or fewer where the octets end.
fn open_digits(marks: Marks, header: u8, s: &[u8], values: &mut [u8], used: usize) -> Transfer
    ensures head { result ≡ head_for (open_by (AsDigits marks) header s.now) used values.old }
    ensures put { values.new ≡ values_with (open_by (AsDigits marks) header s.now) used values.old }
{
    let first = octet_at(s, 0);
    let octets = octets_from(s, 1);
    let told = HalfOctets::counted_by(first);
    if !unpack_digits(Alphabet::Dialled, octets, told, values, used) {
        return Transfer::none();
    }
    let count = digits_in(told, octets);
    marked(marks, header, first / 64, count.0 as u16)
}

// A number, as in D7 and DC: whether it may be withheld is nothing to opening it.
fn open_number(header: u8, s: &[u8], values: &mut [u8], used: usize) -> Transfer
    ensures head { result ≡ head_for (open_by (AsNumber false) header s.now) used values.old }
    ensures put { values.new ≡ values_with (open_by (AsNumber false) header s.now) used values.old }
{
    let count = count_of(s);
    if !unpack_digits(Alphabet::Numbered, octets_from(s, 2), count, values, used) {
        return Transfer::none();
    }
    Transfer::number(header, octet_at(s, 0), octet_at(s, 1), count.0 as u16)
}

// A number after its first octet 06, which is held before the digits.
fn open_generic(header: u8, s: &[u8], values: &mut [u8], used: usize) -> Transfer
    ensures head { result ≡ head_for (open_by AsGeneric header s.now) used values.old }
    ensures put { values.new ≡ values_with (open_by AsGeneric header s.now) used values.old }
{
    let number = octets_from(s, 1);
    let count = count_of(number);
    let len = count.0 + 1;
    if !has_room(values.len(), used, len) {
        return Transfer::none();
    }
    values[used] = Transfer::ADDED_CALLING_NUMBER;
    unpack_digits(
        Alphabet::Numbered,
        octets_from(number, 2),
        count,
        values,
        used + 1,
    );
    Transfer::number(header, octet_at(number, 0), octet_at(number, 1), len as u16)
}

// The head of the parameter with this header and contents. Its values go into `values` after the used ones; where they have no room, the
// head is empty and nothing is stored.
#[tactic(auto, unfolding(annex::specs::Items::item_of))]
pub fn open(header: u8, contents: &[u8], values: &mut [u8], used: usize) -> Transfer
    ensures head { Gives (opened_head header contents.now used values.old) result }
    ensures put { Gives (opened_values header contents.now used values.old) values.new }
{
    match holding_of(header, octet_at(contents, 0)) {
        Holding::AsContents => open_contents(header, contents, values, used),
        Holding::AsDigits(marks) => open_digits(marks, header, contents, values, used),
        Holding::AsNumber(_) => open_number(header, contents, values, used),
        Holding::AsGeneric => open_generic(header, contents, values, used),
    }
}
