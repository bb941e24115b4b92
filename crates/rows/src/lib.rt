// The lent table of rows, as octets and as structs: here thin functions over the count of the rows and the walk from one to the next.
#![tactic(auto)]

pub mod in_octets;
pub mod opened;
mod walks;

ghost use Rattle.std.specs.Prelude.{◌≡◌, length};
ghost use Rattle.annex.specs.Promises.{SpansPromise, OrderPromise};
ghost use Rattle.annex.specs.Walking.{first_cursor};

use annex::{Answer, Row};
use opened::check_order;
use reader::rows::check;
use walk::cursor::first;
use walks::{Order, Parameters, Walk};

// Stores the rows of a walk over as many places.
fn fill<W: Walk>(m: &[u8], rows: &mut [Row])
    requires { W.ahead m.now first_cursor × (length (W.left m.now first_cursor) ≡ length rows.old) }
    ensures { rows.new ≡ W.left m.now first_cursor }
{
    let mut c = first();
    for row in rows.iter_mut() {
        *row = W::row_here(m, c);
        c = W::next(m, c);
    }
}

// The rows of a message, into the caller's table. Rows past the last stay, and a refusal leaves all.
pub fn spans(m: &[u8], rows: &mut [Row]) -> Answer
    ensures { SpansPromise m.now rows.old result rows.new }
{
    let n = check(m, rows.len())?;
    fill::<Parameters>(m, &mut rows[..n]);
    Ok(n)
}

// The rows of its connection order, in the same way.
pub fn order(m: &[u8], rows: &mut [Row]) -> Answer
    ensures { OrderPromise m.now rows.old result rows.new }
{
    let n = check_order(m, rows.len())?;
    fill::<Order>(m, &mut rows[..n]);
    Ok(n)
}
