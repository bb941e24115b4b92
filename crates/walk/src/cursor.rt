// The rows of octets, any at all, by the length rule alone: one to a parameter, in order of offset, those of a C5 right after its own. Of
// an accepted message they are the rows of its listing.
ghost use Rattle.std.specs.Prelude.{◌≡◌};
ghost use Rattle.std.specs.Iterator.{YieldsFirst, item_count};
ghost use Rattle.annex.specs.Promises.{Gives};
ghost use Rattle.annex.specs.Walking.{first_cursor, stretch_here, row_here, next_of, rows_left};

use super::stretch::stretch_at;
use annex::{Common, Cursor, Found, Row};
use octets::octet_at;
use units::{common_extent_of, extent_of};

// The functions on a cursor take the octets beside it: their promises name both. `rows_in` below holds the two together.

// At the first octet.
pub fn first() -> Cursor
    ensures { Gives first_cursor result }
{
    Cursor { at: 0, end: 0 }
}

// Where the contents of the next parameter stand: in C5 by the transfer rule, else by the common one.
#[tactic(auto, unfolding(annex::specs::Walking::stretch_here))]
fn stretch_here(m: &[u8], c: Cursor) -> Found
    ensures { result ≡ stretch_here m.now c }
{
    let header = octet_at(m, c.at);
    let extent = if c.at < c.end {
        extent_of(header)
    } else {
        common_extent_of(header)
    };
    stretch_at(m, c.at, extent)
}

// The row of the next parameter, by where its contents were found.
#[tactic(auto, unfolding(annex::specs::Walking::row_here))]
fn row_between(m: &[u8], c: Cursor, found: Found) -> Row
    requires { found ≡ stretch_here m.now c }
    ensures { result ≡ row_here m.now c }
{
    let Some((start, end)) = found else {
        return Row {
            offset: 0,
            header: 0,
            len: 0,
        };
    };
    Row {
        offset: c.at,
        header: octet_at(m, c.at),
        len: end - start,
    }
}

// The cursor behind it, by the same.
#[tactic(auto, unfolding(annex::specs::Walking::next_of))]
fn next_behind(m: &[u8], c: Cursor, found: Found) -> Cursor
    requires { found ≡ stretch_here m.now c }
    ensures { result ≡ next_of m.now c }
{
    match found {
        None => Cursor {
            at: m.len(),
            end: m.len(),
        },
        Some((_, end)) if c.at < c.end => Cursor {
            at: end,
            end: c.end,
        },
        Some((start, end)) if octet_at(m, c.at) == Common::TRANSFER_DATA => Cursor {
            at: start,
            end,
        },
        Some((_, end)) => Cursor { at: end, end },
    }
}

// The row of the next parameter, or the empty row where it is cut or the octets end before it.
pub fn row_here(m: &[u8], c: Cursor) -> Row
    ensures { Gives (row_here m.now c) result }
{
    row_between(m, c, stretch_here(m, c))
}

// Behind the next parameter, and behind a C5's header and length octet; behind all octets where it is cut or they end before it.
pub fn next(m: &[u8], c: Cursor) -> Cursor
    ensures { Gives (next_of m.now c) result }
{
    next_behind(m, c, stretch_here(m, c))
}

// The rows from a cursor on.
#[derive(Drop)]
pub struct Rows<'a> {
    pub m: &'a [u8],
    pub c: Cursor,
}

impl<'a> Iterator for Rows<'a> {
    type Item = Row;

    ghost next_gives = { YieldsFirst (λ r. rows_left r.m.now r.c) };

    ghost remaining = { item_count (λ r. rows_left r.m.now r.c) };

    #[tactic(auto, using(crate::specs::Rows::rows_more, crate::specs::Rows::rows_past))]
    fn next(&mut self) -> Option<Row> {
        let here = self.c;
        if self.m.len() <= here.at {
            return None;
        }
        // found once: the row and the cursor behind it are both told by it
        let found = stretch_here(self.m, here);
        self.c = next_behind(self.m, here, found);
        Some(row_between(self.m, here, found))
    }
}

// All of them.
pub fn rows_in(m: &[u8]) -> Rows<'_>
    ensures { Gives (rows_left m.now first_cursor) (rows_left result.m.now result.c) }
{
    Rows { m, c: first() }
}
