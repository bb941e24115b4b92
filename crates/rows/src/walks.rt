// The two walks that tell rows one by one, each from `walk::cursor::first` on: over a message, and over its connection order.
ghost use Rattle.std.specs.Prelude.{◌≡◌, ⊤};
ghost use Rattle.annex.specs.Ordering.{order_rows_from, order_row_here, order_next};
ghost use Rattle.annex.specs.Walking.{row_here, next_of};
ghost use Rattle.rows.specs.Orders.{order_turn};
ghost use Rattle.rows.specs.Walks.{Lists, Stands, Tells, Goes, Turns, message_turn};
ghost use Rattle.walk.specs.Ahead.{Ahead};
ghost use Rattle.walk.specs.Cursors.{rows_from};

use crate::opened;
use annex::{Cursor, Row};
use walk::cursor;

pub trait Walk {
    // The rows from a cursor on, where it may stand, the first of the rows, and the cursor behind that.
    ghost left: { Lists };

    ghost ahead: { Stands };

    ghost row: { Tells };

    ghost behind: { Goes };

    fn row_here(m: &[u8], c: Cursor) -> Row
        ensures { result ≡ row m.now c };

    fn next(m: &[u8], c: Cursor) -> Cursor
        ensures { result ≡ behind m.now c };

    ghost turns: { Turns left ahead row behind };
}

// Over the rows of an accepted message.
pub struct Parameters;

impl Walk for Parameters {
    ghost left = { rows_from };

    ghost ahead = { Ahead };

    ghost row = { row_here };

    ghost behind = { next_of };

    ghost turns = { message_turn };

    fn row_here(m: &[u8], c: Cursor) -> Row {
        cursor::row_here(m, c)
    }

    fn next(m: &[u8], c: Cursor) -> Cursor {
        cursor::next(m, c)
    }
}

// Over those of its connection order; no cursor is amiss there.
pub struct Order;

impl Walk for Order {
    ghost left = { order_rows_from };

    ghost ahead = { λ m c. ⊤ };

    ghost row = { order_row_here };

    ghost behind = { order_next };

    ghost turns = { order_turn };

    fn row_here(m: &[u8], c: Cursor) -> Row {
        opened::row_here(m, c)
    }

    fn next(m: &[u8], c: Cursor) -> Cursor {
        opened::next(m, c)
    }
}
