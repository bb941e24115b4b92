// The carriers of a message (CC), told beside its record: a row to the direction and one to each entry, eight octets each.
#![tactic(auto)]

pub mod part;
pub mod unpacking;

ghost use Rattle.std.specs.Prelude.{◌≡◌, true, cond, ◌+◌, ◌*◌, ◌^◌, ◌≤◌, ◌<◌, length, get_or};
ghost use Rattle.std.proofs.lemmas.List.Edits.{sets};
ghost use Rattle.annex.specs.Carriers.{carriers_formed, code_count};
ghost use Rattle.annex.specs.Entering.{in_carrier, entry_inside, is_code_here};
ghost use Rattle.annex.specs.Packed.{octets_to_a_carrier_row, carrier_row_octets};
ghost use Rattle.annex.specs.Promises.{CarriersPromise};
ghost use Rattle.annex.specs.Transit.{direction_entry, entries_of, entry_row};
ghost use Rattle.carriers.specs.Rows.{here_row, rows_octets_of};

use annex::{Answer, CarrierRow, Cursor, Key, Refusal, Transfer};
use entries::code::code_count;
use entries::cursor::{entries, inside, is_code};
use octets::{copy_in, octet_at};
use reader::finding::find_both;

// The level of the entry at a cursor.
fn level_here(c: Cursor) -> u8
    ensures { result ≡ cond (in_carrier c) 2 1 }
{
    if c.at < c.end {
        CarrierRow::DEPENDENT
    } else {
        CarrierRow::CARRIER
    }
}

// The octets that it holds, none where it is cut.
fn held(s: &[u8], c: Cursor) -> &[u8]
    ensures { result.now ≡ entry_inside s.now c }
{
    match inside(s, c) {
        Some((from, to)) => &s[from..to],
        None => &[],
    }
}

// How many digits, where it holds a code.
fn digits_here(s: &[u8], c: Cursor) -> usize
    ensures { result ≡ cond (is_code_here s.now c) (code_count (entry_inside s.now c)).0 0 }
{
    if is_code(s, c) {
        code_count(held(s, c)).0
    } else {
        0
    }
}

// Its row, where the contents s start at the place `start` of the message.
fn row_here(s: &[u8], c: Cursor, start: usize) -> CarrierRow
    requires { start + c.at < 2 ^ 64 }
    ensures { result ≡ here_row s.now c start }
{
    CarrierRow {
        level: level_here(c),
        tag: octet_at(s, c.at),
        offset: start + c.at,
        len: held(s, c).len(),
        digits: digits_here(s, c),
    }
}

// The row of the direction.
fn direction_row(s: &[u8], start: usize) -> CarrierRow
    requires { 0 < length s.now }
    ensures { result ≡ entry_row start (direction_entry (get_or s.now 0 0)) }
{
    CarrierRow {
        level: CarrierRow::DIRECTION,
        tag: s[0],
        offset: start,
        len: 0,
        digits: 0,
    }
}

// How many rows contents of the right form have.
#[tactic(auto, using(entries::specs::Entries::cursors_few))]
fn count(s: &[u8]) -> usize
    requires { carriers_formed s.now ≡ true }
    ensures { result ≡ length (entries_of s.now) }
{
    1 + entries(s).count()
}

// A row: level, tag, and in two octets each, least first, the offset, how many octets it holds, and how many digits.
fn octets_of(row: CarrierRow) -> [u8; CarrierRow::OCTETS]
    ensures { result ≡ carrier_row_octets row }
{
    let [offset_low, offset_high, ..] = row.offset.to_le_bytes();
    let [len_low, len_high, ..] = row.len.to_le_bytes();
    let [digits_low, digits_high, ..] = row.digits.to_le_bytes();
    [
        row.level,
        row.tag,
        offset_low,
        offset_high,
        len_low,
        len_high,
        digits_low,
        digits_high,
    ]
}

// Writes a row from `at` on.
fn put_row(row: CarrierRow, at: usize, table: &mut [u8])
    requires { at + octets_to_a_carrier_row ≤ length table.old }
    ensures { table.new ≡ sets table.old at (carrier_row_octets row) }
{
    copy_in(table, at, &octets_of(row));
}

// Writes the rows of contents of the right form from the table's front on.
fn put_rows(s: &[u8], start: usize, table: &mut [u8])
    requires { (carriers_formed s.now ≡ true) × (start + length s.now < 2 ^ 64) ×
        (octets_to_a_carrier_row * length (entries_of s.now) ≤ length table.old) }
    ensures { table.new ≡ sets table.old 0 (rows_octets_of start s.now) }
{
    put_row(direction_row(s, start), 0, table);
    // by enumerate the place would be (i + 1) * OCTETS, which is no plainer
    let mut place = CarrierRow::OCTETS;
    for c in entries(s) {
        put_row(row_here(s, c, start), place, table);
        place += CarrierRow::OCTETS;
    }
}

// The rows of the CC with the number `which`, counted from 0, from the table's front on. Octets past the last stay, and a refusal leaves
// all.
pub fn carriers(m: &[u8], which: usize, table: &mut [u8]) -> Answer
    ensures { CarriersPromise m.now which table.old result table.new }
{
    let (start, s) = find_both(m, Key::Name(Transfer::CARRIERS % 64, which))?;
    let n = count(s);
    if table.len() / CarrierRow::OCTETS < n {
        return Err(Refusal(Refusal::NO_ROOM, 0));
    }
    put_rows(s, start, table);
    Ok(n)
}
