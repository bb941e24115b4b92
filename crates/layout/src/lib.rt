// Laying a transfer parameter of a record out: what refuses it, how long its contents are, and its octets in lent room.
// The parameter is given as its head and its values.
#![tactic(auto)]

ghost use Rattle.std.specs.Prelude.{◌≡◌, List, [], ℕ, ◌≤◌, leb, length, get_or};
ghost use Rattle.annex.specs.Promises.{Gives, Keeps};
ghost use Rattle.annex.specs.Units.{extent_of};
ghost use Rattle.annex.specs.Answers.{formed_then, Accepted};
ghost use Rattle.annex.specs.Items.{holding_by, holding_of, upper_marks, number_contents, contents_by, contents_of};
ghost use Rattle.annex.specs.declared.Holding.TheVariants.{AsDigits, AsGeneric};
ghost use Rattle.annex.specs.Layout.{layout_item};
ghost use Rattle.annex.specs.Allowed.{length_fits, length_right, marks_right, fields_right, withheld_right, number_right, values_fault, fault_as};
ghost use Rattle.annex.specs.Records.{raw_item, item_from};
ghost use Rattle.annex.specs.Writing.{item_writing};
ghost use Rattle.annex.specs.Memory.{at_front, laid_at, laying};
ghost use Rattle.heads.specs.Asked.{Asks};

use annex::{
    Alphabet, Answer, CountingUnit, Extent, Fault, Flaw, Holding, Marks, Refusal, Transfer,
};
use digits::packing::{are_digits, pack_digits, packed_len};
use heads::{Asked, head_number, head_of, often_of};
use octets::{copy_in, lies_within, octet_at, octets_from};
use parameter::contents::{at_header, fault_under};
use parameter::opening::{holding_by, holding_of};
use units::{extent_of, lead, octets_after};

// A parameter's head, its values and how they are held stay apart, with what ties them a `requires` of each step below: as one struct that
// has it for a ghost invariant they cost writing an eighth more instructions, which misses its bar (docs/DESIGN-PASS.md).

// How the values are held, by what a look-up says of their header.
fn held_by(asked: Asked, values: &[u8]) -> Holding
    ensures { result ≡ holding_by asked.form (get_or values.now 0 0) }
{
    holding_by(asked.form, octet_at(values, 0))
}

// How the values under this header are held.
fn held_as(header: u8, values: &[u8]) -> Holding
    ensures { result ≡ holding_of header (get_or values.now 0 0) }
{
    holding_of(header, octet_at(values, 0))
}

// How many octets the contents have whose values are held so.
fn len_as(held: Holding, t: Transfer, values: &[u8]) -> usize
    ensures { result ≡ length (contents_by held (raw_item t values.now)) }
{
    match held {
        Holding::AsContents => values.len(),
        Holding::AsDigits(_) => 1 + packed_len(values).0,
        Holding::AsNumber(_) => 2 + packed_len(values).0,
        Holding::AsGeneric => 3 + packed_len(octets_from(values, 1)).0,
    }
}

// How many octets the contents have.
pub fn contents_len(t: Transfer, values: &[u8]) -> usize
    ensures { Gives (length (contents_of (item_from t values.now))) result }
{
    len_as(held_as(t.header, values), t, values)
}

// Whether contents that are held as they are have the length that the PLI gives.
fn length_fits(header: u8, s: &[u8]) -> bool
    ensures { result ≡ length_fits (extent_of header) s.now }
{
    match extent_of(header) {
        Extent::Fixed(n) => s.len() == n,
        e @ Extent::Counted(CountingUnit::HalfOctet) => s.len() == octets_after(e, octet_at(s, 0)),
        Extent::Counted(CountingUnit::Octet) => s.len() <= Transfer::MOST_OCTETS,
    }
}

// Whether the contents have the length that the PLI gives, and digits of PLI 10 are not too many.
fn length_right(held: Holding, t: Transfer, values: &[u8]) -> bool
    requires { held ≡ holding_of t.header (get_or values.now 0 0) }
    ensures { result ≡ length_right (raw_item t values.now) }
{
    match held {
        Holding::AsContents => length_fits(t.header, values),
        Holding::AsDigits(_) => values.len() <= Transfer::MOST_DIGITS,
        Holding::AsNumber(_) | Holding::AsGeneric => len_as(held, t, values)
            <= Transfer::MOST_OCTETS,
    }
}

// Whether the marks of a count octet fit their bits.
fn marks_right(marks: Marks, t: Transfer) -> bool
    ensures { (vs : List ℕ) → result ≡ marks_right marks (raw_item t vs) }
{
    match marks {
        Marks::Unmarked => true,
        Marks::Notified => t.notification <= 1,
        Marks::Verified => t.notification <= 1 && t.verification <= 1,
        Marks::Typed => t.dialling <= 3,
    }
}

// Whether the fields of a number fit their bits.
fn fields_right(t: Transfer) -> bool
    ensures { result ≡ fields_right (raw_item t []) }
{
    t.number_type <= 127
        && t.incomplete <= 1
        && t.plan <= 7
        && t.presentation <= 3
        && t.screening <= 3
}

// Whether nothing is told of a number that is withheld.
fn withheld_right(t: Transfer, digits: &[u8]) -> bool
    ensures { result ≡ withheld_right (raw_item t digits.now) }
{
    t.number_type == 0 && t.incomplete == 0 && t.plan == 0 && digits.is_empty()
}

// A number: its fields, and for one that may be withheld, and is, that nothing but its screening is told.
fn number_right(withholdable: bool, t: Transfer, digits: &[u8]) -> bool
    ensures { result ≡ number_right withholdable (raw_item t digits.now) }
{
    fields_right(t)
        && (!withholdable || t.presentation != Transfer::WITHHELD || withheld_right(t, digits))
}

// Digits and numbers: a mark or field too large for its bits, then a value that is no digit.
fn fields_fault(good: bool, digits: &[u8]) -> Fault
    ensures { result ≡ formed_then good (values_fault digits.now) }
{
    Flaw::unless(good)?;
    if are_digits(digits) {
        Ok(())
    } else {
        Err(Flaw(Refusal::BAD_DIGIT, 0))
    }
}

// What is wrong with the values; `asked` is what a look-up says of their header. Those that are held as contents have the faults that
// reading finds.
fn values_fault(asked: Asked, held: Holding, t: Transfer, values: &[u8]) -> Fault
    requires { Asks t.header asked }
    ensures { result ≡ fault_as held (raw_item t values.now) }
{
    match held {
        Holding::AsContents => fault_under(asked.zeroes, asked.form, values),
        Holding::AsDigits(marks) => fields_fault(marks_right(marks, t), values),
        Holding::AsNumber(withholdable) => fields_fault(
            number_right(withholdable, t, values),
            values,
        ),
        Holding::AsGeneric => fields_fault(fields_right(t), octets_from(values, 1)),
    }
}

// The parameter's name stood `times` before; `asked` is what a look-up says of its header: 8 to 11 in their order and then its fault, at
// place 0, or accepted with how many octets it takes.
fn judged(asked: Asked, held: Holding, times: u8, t: Transfer, values: &[u8]) -> Answer
    requires { Asks t.header asked × (held ≡ holding_of t.header (get_or values.now 0 0)) }
    ensures { result ≡ item_writing times 0 (raw_item t values.now) }
{
    if !asked.right {
        return Err(Refusal(head_number(t.header), 0));
    }
    if often_of(t.header % 64) <= times {
        return Err(Refusal(Refusal::REPEATED_NAME, 0));
    }
    if !length_right(held, t, values) {
        return Err(Refusal(Refusal::CUT_CONTENTS, 0));
    }
    let f = values_fault(asked, held, t, values);
    at_header(f, 1 + lead(extent_of(t.header)) + len_as(held, t, values))
}

// The parameter's name stood `times` before: 8 to 11 in their order and then its fault, at place 0, or accepted with how many octets it
// takes.
pub fn refusal(times: u8, t: Transfer, values: &[u8]) -> Answer
    ensures { Gives (item_writing times 0 (item_from t values.now)) result }
{
    let asked = head_of(t.header);
    let held = held_by(asked, values);
    judged(asked, held, times, t, values)
}

// The upper marks of a count octet.
fn upper_marks(marks: Marks, t: Transfer) -> u16
    ensures { (vs : List ℕ) → result ≡ upper_marks marks (raw_item t vs) }
{
    let notification = t.notification as u16;
    match marks {
        Marks::Unmarked => 0,
        Marks::Notified => 2 * notification,
        Marks::Verified => 2 * notification + t.verification as u16,
        Marks::Typed => t.dialling as u16,
    }
}

// Writes digits of PLI 10: the count octet, then the digits. A number is stored modulo 256, here and below, as its definition has it.
fn put_digits(marks: Marks, t: Transfer, digits: &[u8], room: &mut [u8])
    requires { length (contents_by (AsDigits marks) (raw_item t digits.now)) ≤ length room.old }
    ensures { room.new ≡ at_front (contents_by (AsDigits marks) (raw_item t digits.now)) room.old }
{
    let upper = upper_marks(marks, t) as usize;
    let count = 64 * upper + digits.len() % 256;
    room[0] = (count % 256) as u8;
    pack_digits(Alphabet::Dialled, digits, &mut room[1..]);
}

// Writes a number: its two octets of fields, then the digits.
fn put_number(t: Transfer, digits: &[u8], room: &mut [u8])
    requires { length (number_contents (raw_item t digits.now) digits.now) ≤ length room.old }
    ensures { room.new
        ≡ at_front (number_contents (raw_item t digits.now) digits.now) room.old }
{
    let first = 128 * (digits.len() % 2) + t.number_type as usize;
    let upper = 128 * (t.incomplete as usize) + 16 * (t.plan as usize);
    let second = upper + 4 * (t.presentation as usize) + t.screening as usize;
    room[0] = (first % 256) as u8;
    room[1] = (second % 256) as u8;
    pack_digits(Alphabet::Numbered, digits, &mut room[2..]);
}

// Writes 06, then the number.
fn put_generic(t: Transfer, values: &[u8], room: &mut [u8])
    requires { length (contents_by AsGeneric (raw_item t values.now)) ≤ length room.old }
    ensures { room.new ≡ at_front (contents_by AsGeneric (raw_item t values.now)) room.old }
{
    room[0] = Transfer::ADDED_CALLING_NUMBER;
    put_number(t, octets_from(values, 1), &mut room[1..]);
}

// Writes the contents.
fn put_contents(held: Holding, t: Transfer, values: &[u8], room: &mut [u8])
    requires { length (contents_by held (raw_item t values.now)) ≤ length room.old }
    ensures { room.new ≡ at_front (contents_by held (raw_item t values.now)) room.old }
{
    match held {
        Holding::AsContents => {
            copy_in(room, 0, values);
        }
        Holding::AsDigits(marks) => put_digits(marks, t, values, room),
        Holding::AsNumber(_) => put_number(t, values, room),
        Holding::AsGeneric => put_generic(t, values, room),
    }
}

// Writes the header, the length octet that PLI 11 has, and the contents.
fn put_whole(held: Holding, t: Transfer, values: &[u8], room: &mut [u8])
    requires { (held ≡ holding_of t.header (get_or values.now 0 0))
        × (length (layout_item (raw_item t values.now)) ≤ length room.old) }
    ensures { room.new ≡ at_front (layout_item (raw_item t values.now)) room.old }
{
    room[0] = t.header;
    if lead(extent_of(t.header)) == 0 {
        put_contents(held, t, values, &mut room[1..]);
    } else {
        room[1] = (len_as(held, t, values) % 256) as u8;
        put_contents(held, t, values, &mut room[2..]);
    }
}

// Whether so much room holds the parameter.
fn fits_in(held: Holding, t: Transfer, values: &[u8], room: usize) -> bool
    requires { held ≡ holding_of t.header (get_or values.now 0 0) }
    ensures { result ≡ leb (length (layout_item (raw_item t values.now))) room }
{
    lies_within(room, 1 + lead(extent_of(t.header)), len_as(held, t, values))
}

// Writes the parameter at the front of the room, each number modulo 256; where the room is too short, nothing.
pub fn put(t: Transfer, values: &[u8], room: &mut [u8]) -> bool
    ensures { Keeps (laying t values.now room.old) result room.new }
{
    let held = held_as(t.header, values);
    let fits = fits_in(held, t, values, room.len());
    if fits {
        put_whole(held, t, values, room);
    }
    fits
}

// Writes the parameter, which takes `len` octets, from index at on; where the room is too short, nothing.
fn put_at(held: Holding, t: Transfer, values: &[u8], len: usize, room: &mut [u8], at: usize)
    requires { (held ≡ holding_of t.header (get_or values.now 0 0)) × (len ≡ length (layout_item (raw_item t values.now))) }
    ensures { room.new ≡ laid_at (Accepted len) (layout_item (raw_item t values.now)) at room.old }
{
    if lies_within(room.len(), at, len) {
        put_whole(held, t, values, &mut room[at..]);
    }
}

// The parameter's name stood `times` before: the answer of `refusal`, by one look-up of its header; where it is accepted, the parameter is
// written from index at on, where the room suffices.
pub fn lay(times: u8, t: Transfer, values: &[u8], room: &mut [u8], at: usize) -> Answer
    ensures told { Gives (item_writing times 0 (item_from t values.now)) result }
    ensures put { Gives (laid_at (item_writing times 0 (item_from t values.now))
        (layout_item (item_from t values.now)) at room.old) room.new }
{
    let asked = head_of(t.header);
    let held = held_by(asked, values);
    let len = judged(asked, held, times, t, values)?;
    put_at(held, t, values, len, room, at);
    Ok(len)
}
