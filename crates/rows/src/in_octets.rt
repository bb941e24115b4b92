// The table of rows as octets, for callers that lend no structs.
ghost use Rattle.std.specs.Prelude.{◌≡◌, ◌+◌, ◌*◌, ◌≤◌, length};
ghost use Rattle.std.proofs.lemmas.List.Edits.{sets};
ghost use Rattle.annex.specs.Ordering.{order_rows_from};
ghost use Rattle.annex.specs.Packed.{octets_to_a_row, row_octets, rows_octets, octet_spans};
ghost use Rattle.annex.specs.Promises.{OctetSpansPromise, OctetOrderPromise};
ghost use Rattle.annex.specs.Walking.{first_cursor};
ghost use Rattle.laws.specs.Runs.{Puts};
ghost use Rattle.rows.specs.Tables.{count_after};
ghost use Rattle.walk.specs.Ahead.{Ahead};
ghost use Rattle.walk.specs.Cursors.{rows_from};

use crate::opened;
use crate::opened::check_order;
use annex::{Answer, Message, Row};
use reader::rows::check;
use reader::verdict::verdict;
use walk::cursor::{first, next, row_here};

// Writes a row from `at` on: offset, header, length of the contents; the two numbers in two octets each, least first.
fn put_row(row: Row, at: usize, table: &mut [u8])
    requires { at + octets_to_a_row ≤ length table.old }
    ensures { table.new ≡ sets table.old at (row_octets row) }
{
    let [offset_low, offset_high, ..] = row.offset.to_le_bytes();
    let [len_low, len_high, ..] = row.len.to_le_bytes();
    let behind = at + Row::OCTETS;
    // no copy_in: by its loop a row takes a sixth more
    table[at..behind].copy_from_slice(&[offset_low, offset_high, row.header, len_low, len_high]);
}

// Writes the rows of an accepted message from the table's front on: where they end.
fn put_rows(m: &[u8], table: &mut [u8]) -> usize
    requires { Ahead m.now first_cursor × (length (rows_octets (rows_from m.now first_cursor)) ≤ length table.old) }
    ensures { Puts (rows_octets (rows_from m.now first_cursor)) 0 table.old result table.new }
{
    let mut place = 0;
    let mut c = first();
    // no `for`: how long a walk is it tells turn by turn
    while c.at < m.len() {
        put_row(row_here(m, c), place, table);
        place += Row::OCTETS;
        c = next(m, c);
    }
    place
}

// Writes the rows of its connection order, which are so many, in the same way. Two functions and no generic one: whether an order has one
// more row takes as long to ask as the row itself, and their count is known.
fn put_order(m: &[u8], count: usize, table: &mut [u8])
    requires { (count ≡ length (order_rows_from m.now first_cursor)) × (count * octets_to_a_row ≤ length table.old) }
    ensures { Puts (rows_octets (order_rows_from m.now first_cursor)) 0 table.old (count * octets_to_a_row) table.new }
{
    let mut c = first();
    for k in 0..count {
        put_row(opened::row_here(m, c), k * Row::OCTETS, table);
        c = opened::next(m, c);
    }
}

// What refuses a listing into a table of so many octets; else accepted. One with room for the most rows that a message has is not too
// short for any, so that only for a shorter one are they counted beforehand.
fn refusal(m: &[u8], octets: usize) -> Answer
    ensures { octet_spans m.now octets ≡ count_after result m.now }
{
    if octets < Message::MOST_ROWS * Row::OCTETS {
        return check(m, octets / Row::OCTETS);
    }
    verdict(m)
}

// The rows of a message, five octets each, from the table's front on. Octets past the last stay, and a refusal leaves all.
pub fn octet_spans(m: &[u8], table: &mut [u8]) -> Answer
    ensures { OctetSpansPromise m.now table.old result table.new }
{
    refusal(m, table.len())?;
    Ok(put_rows(m, table) / Row::OCTETS)
}

// The rows of its connection order, in the same way.
pub fn octet_order(m: &[u8], table: &mut [u8]) -> Answer
    ensures { OctetOrderPromise m.now table.old result table.new }
{
    let n = check_order(m, table.len() / Row::OCTETS)?;
    put_order(m, n, table);
    Ok(n)
}
