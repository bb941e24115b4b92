// The connection order of a message (E0), listed by the length rule alone: a row to the form and one to each parameter behind it, up to the
// first that is cut, whatever its form and its headers are.
ghost use Rattle.std.specs.Prelude.{◌≡◌, ltb, length, get_or};
ghost use Rattle.annex.specs.Opened.{order_listing};
ghost use Rattle.annex.specs.Promises.{Gives, OrderCheckPromise};
ghost use Rattle.annex.specs.Walking.{no_row};
ghost use Rattle.annex.specs.Ordering.{order_span, order_left, parameter_rows, order_rows_plain, order_rows_from, order_row_here, order_next};
ghost use Rattle.rows.specs.Orders.{own_size};

use annex::{Answer, Cursor, Key, Refusal, Row, Transfer};
use orders::lengths::order_size;
use reader::finding::{find_both, transfer_by_length};

// The octets from a cursor on; none where it is past its end, or that is past the message.
fn left(m: &[u8], c: Cursor) -> &[u8]
    ensures { result.now ≡ order_left m.now c }
{
    m.get(c.at..c.end).unwrap_or(&[])
}

// How many octets the first parameter has behind its header: none where it is cut, or there is none.
fn own_size(rest: &[u8]) -> Option<usize>
    ensures { result ≡ own_size rest.now }
{
    let [header, next, ..] = rest else {
        return None;
    };
    let n = order_size(*header, *next);
    (n < rest.len()).then_some(n)
}

// How many rows contents have.
fn count(contents: &[u8]) -> usize
    ensures { result ≡ length (order_listing 0 contents.now) }
{
    if contents.is_empty() {
        return 0;
    }
    let mut n: usize = 1;
    let mut i: usize = 1;
    while let Some(own) = own_size(&contents[i..]) {
        n += 1;
        i += own + 1;
    }
    n
}

// The row count, or number and place: reading's, then 16 where there is no E0, then 15 where there is room for fewer rows.
pub fn check_order(m: &[u8], room: usize) -> Answer
    ensures { OrderCheckPromise m.now room result }
{
    let (_, contents) = find_both(m, Key::Name(Transfer::CONNECTION_ORDER % 64, 0))?;
    let n = count(contents);
    if room < n {
        return Err(Refusal(Refusal::NO_ROOM, 0));
    }
    Ok(n)
}

// From the first octet of E0's contents to behind their last; at 0 none, where there is no E0.
fn span(m: &[u8]) -> Cursor
    ensures { result ≡ order_span m.now }
{
    let (at, end) = transfer_by_length(m, Transfer::CONNECTION_ORDER % 64, 0).unwrap_or((0, 0));
    Cursor { at, end }
}

// The empty row.
fn no_row() -> Row
    ensures { result ≡ no_row }
{
    Row {
        offset: 0,
        header: 0,
        len: 0,
    }
}

// The row of the form, or the empty row where E0 is not there or is empty.
fn form_row(m: &[u8]) -> Row
    ensures { result ≡ get_or (order_rows_plain m.now) 0 no_row }
{
    let s = span(m);
    let [form, ..] = left(m, s) else {
        return no_row();
    };
    Row {
        offset: s.at,
        header: *form,
        len: 0,
    }
}

// The row of the parameter at a cursor, or the empty row where it is cut, or there is none.
fn parameter_row(m: &[u8], c: Cursor) -> Row
    ensures { result ≡ get_or (parameter_rows c.at (order_left m.now c)) 0 no_row }
{
    let rest = left(m, c);
    let Some(len) = own_size(rest) else {
        return no_row();
    };
    Row {
        offset: c.at,
        header: rest[0],
        len,
    }
}

// The row at a cursor; one at 0 stands before the form. The empty row where none is left.
pub fn row_here(m: &[u8], c: Cursor) -> Row
    ensures { Gives (order_row_here m.now c) result }
{
    if c.at == 0 {
        return form_row(m);
    }
    parameter_row(m, c)
}

// The cursor behind that row; where a parameter is cut the order ends.
pub fn next(m: &[u8], c: Cursor) -> Cursor
    ensures { Gives (order_next m.now c) result }
{
    if c.at == 0 {
        let s = span(m);
        return Cursor {
            at: s.at + 1,
            end: s.end,
        };
    }
    let Some(own) = own_size(left(m, c)) else {
        return Cursor {
            at: c.at,
            end: c.at,
        };
    };
    Cursor {
        at: c.at + own + 1,
        end: c.end,
    }
}
