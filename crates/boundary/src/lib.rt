// The codec for Rust and C: numbers and lent octets alone. An answer is one number: the refusal's number times 2^32, the place times 2^16,
// and the value; number 0 where accepted.
#![tactic(auto)]

ghost use Rattle.std.specs.Prelude.{◌≡◌, length};
ghost use Rattle.annex.specs.Finding.{find_answer, find_part, found_by};
ghost use Rattle.annex.specs.Answers.{class_value_of};
ghost use Rattle.annex.specs.Editing.{Edit.Replacing, Edit.Appending, Edit.Removing};
ghost use Rattle.annex.specs.Packed.{one_number, packed_answer, packed_length};
ghost use Rattle.annex.specs.Promises.{
  TkReadPromise,
  TkWritePromise,
  TkRowsPromise,
  TkFindCommonPromise,
  TkFindTransferPromise,
  TkClassPromise,
  TkChargingPromise,
  TkOrderPromise,
  TkCarriersPromise,
  TkCarrierDigitsPromise,
  TkProfileReadPromise,
  TkProfileWritePromise,
  TkClassesPromise,
  TkEditPromise,
};

use annex::{Answer, Class, Key, Refusal};
use carriers::carriers;
use carriers::unpacking::carrier_digits;
use charging::packing::octet_charging;
use classes::class_of;
use editor::{append, remove, replace};
use image_reader::read_image;
use image_writer::write_image;
use profile::{images, writing};
use reader::finding::find_both;
use rows::in_octets::{octet_order, octet_spans};

fn pack(number: u8, place: usize, value: usize) -> u64
    ensures { result ≡ one_number number place value }
{
    let upper = number as u64 * 4294967296;
    let middle = (place % 65536) as u64 * 65536;
    upper + middle + (value % 65536) as u64
}

fn pack_refusal(refusal: Refusal) -> u64
    ensures { result ≡ one_number refusal.0 refusal.1 0 }
{
    pack(refusal.0, refusal.1, 0)
}

fn pack_answer(answer: Answer) -> u64
    ensures { result ≡ packed_answer answer }
{
    match answer {
        Ok(n) => pack(0, 0, n),
        Err(refusal) => pack_refusal(refusal),
    }
}

// Where the contents of the parameter sought start, and how many octets they have.
fn pack_found(m: &[u8], k: Key) -> u64
    ensures { result ≡ packed_length (find_answer m.now (found_by k m.now)) (length (find_part m.now (found_by k m.now))) }
{
    match find_both(m, k) {
        Ok((start, contents)) => pack(0, start, contents.len()),
        Err(refusal) => pack_refusal(refusal),
    }
}

// The class's number in an answer for C. It stands here and not with the type, whose numbers no other caller knows.
fn class_value(c: Class) -> usize
    ensures { result ≡ class_value_of c }
{
    match c {
        Class::Named => 0,
        Class::HeldBack => 1,
        Class::Spare => 2,
    }
}

// The record of a message, as its image at the front of the lent octets: how many octets it has. A refusal leaves them as they were.
#[unsafe(no_mangle)]
pub extern "C" fn tk_read(message: &[u8], image: &mut [u8]) -> u64
    ensures { TkReadPromise message.now image.old result image.new }
{
    pack_answer(read_image(message, image))
}

// The message of the record of an image, at the front of the room: its length. A refusal leaves the room as it was.
#[unsafe(no_mangle)]
pub extern "C" fn tk_write(image: &[u8], room: &mut [u8]) -> u64
    ensures { TkWritePromise image.now room.old result room.new }
{
    pack_answer(write_image(image, room))
}

// The rows of a message, five octets each, from the table's front on: how many there are. Octets past the last stay, and a refusal leaves
// all.
#[unsafe(no_mangle)]
pub extern "C" fn tk_rows(message: &[u8], table: &mut [u8]) -> u64
    ensures { TkRowsPromise message.now table.old result table.new }
{
    pack_answer(octet_spans(message, table))
}

// The contents of a common parameter: where they start, and how many octets they have.
#[unsafe(no_mangle)]
pub extern "C" fn tk_find_common(message: &[u8], header: u8) -> u64
    ensures { TkFindCommonPromise message.now header result }
{
    pack_found(message, Key::Header(header))
}

// The contents of that one of the transfer parameters with this name, counted from 0.
#[unsafe(no_mangle)]
pub extern "C" fn tk_find_transfer(message: &[u8], name: u8, which: usize) -> u64
    ensures { TkFindTransferPromise message.now name which result }
{
    pack_found(message, Key::Name(name, which))
}

// The class of a code value.
#[unsafe(no_mangle)]
pub extern "C" fn tk_class(header: u8, octet: u8) -> u64
    ensures { TkClassPromise header octet result }
{
    match class_of(header, octet) {
        Ok(class) => pack(0, 0, class_value(class)),
        Err(refusal) => pack_refusal(refusal),
    }
}

// What the charging information says, as octets at the front of the lent ones: how many there are. A refusal leaves them as they were.
#[unsafe(no_mangle)]
pub extern "C" fn tk_charging(message: &[u8], out: &mut [u8]) -> u64
    ensures { TkChargingPromise message.now out.old result out.new }
{
    pack_answer(octet_charging(message, out))
}

// The rows of the connection order, as those of tk_rows: how many there are. A refusal leaves the table as it was.
#[unsafe(no_mangle)]
pub extern "C" fn tk_order(message: &[u8], table: &mut [u8]) -> u64
    ensures { TkOrderPromise message.now table.old result table.new }
{
    pack_answer(octet_order(message, table))
}

// The rows of the CC with the number `which`, counted from 0, eight octets each, from the table's front on: how many there are. A refusal
// leaves the table as it was.
#[unsafe(no_mangle)]
pub extern "C" fn tk_carriers(message: &[u8], which: usize, table: &mut [u8]) -> u64
    ensures { TkCarriersPromise message.now which table.old result table.new }
{
    pack_answer(carriers(message, which, table))
}

// The digits of the code in that row of the CC, one an octet, from the front of the lent octets on: how many there are. A refusal leaves
// them as they were.
#[unsafe(no_mangle)]
pub extern "C" fn tk_carrier_digits(message: &[u8], which: usize, row: usize, out: &mut [u8]) -> u64
    ensures { TkCarrierDigitsPromise message.now which row out.old result out.new }
{
    pack_answer(carrier_digits(message, which, row, out))
}

// The record of a message that keeps the mobile call profile, as tk_read gives it. A refusal leaves the lent octets as they were.
#[unsafe(no_mangle)]
pub extern "C" fn tk_profile_read(message: &[u8], image: &mut [u8]) -> u64
    ensures { TkProfileReadPromise message.now image.old result image.new }
{
    pack_answer(images::read_image(message, image))
}

// The message of a record that keeps the profile, as tk_write gives it. A refusal leaves the room as it was.
#[unsafe(no_mangle)]
pub extern "C" fn tk_profile_write(image: &[u8], room: &mut [u8]) -> u64
    ensures { TkProfileWritePromise image.now room.old result room.new }
{
    pack_answer(writing::write_image(image, room))
}

// The added user classes of a message that keeps the profile, each name before its value, from the front of the lent octets on: how many
// octets there are. A refusal leaves them as they were.
#[unsafe(no_mangle)]
pub extern "C" fn tk_added_classes(message: &[u8], out: &mut [u8]) -> u64
    ensures { TkClassesPromise message.now out.old result out.new }
{
    pack_answer(images::added_classes(message, out))
}

// The parameter of the new octets in the place of that one of those with its name, counted from 0, in the message that the buffer's first
// n octets hold.
#[unsafe(no_mangle)]
pub extern "C" fn tk_replace(buffer: &mut [u8], n: usize, new: &[u8], which: usize) -> u64
    ensures { TkEditPromise (Replacing new.now which) buffer.old n result buffer.new }
{
    pack_answer(replace(buffer, n, new, which))
}

// The parameter of the new octets behind the last of C5.
#[unsafe(no_mangle)]
pub extern "C" fn tk_append(buffer: &mut [u8], n: usize, new: &[u8]) -> u64
    ensures { TkEditPromise (Appending new.now) buffer.old n result buffer.new }
{
    pack_answer(append(buffer, n, new))
}

// That one of the parameters with this name, counted from 0, taken out.
#[unsafe(no_mangle)]
pub extern "C" fn tk_remove(buffer: &mut [u8], n: usize, name: u8, which: usize) -> u64
    ensures { TkEditPromise (Removing name which) buffer.old n result buffer.new }
{
    pack_answer(remove(buffer, n, name, which))
}
