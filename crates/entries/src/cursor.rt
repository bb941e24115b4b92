// From one entry to the next, at both levels: a carrier entry is entered, a dependent entry is passed over.
ghost use Rattle.std.specs.Iterator.{YieldsFirst, item_count};
ghost use Rattle.annex.specs.Entering.{first_entry, entry_stretch, entry_next, is_code_here, cursors_from};
ghost use Rattle.annex.specs.Promises.{Gives};

use annex::{Carriers, CountingUnit, Cursor, Extent, Found};
use octets::octet_at;
use walk::stretch::stretch_at;

// The first entry, behind the direction octet.
pub fn first() -> Cursor
    ensures { Gives first_entry result }
{
    Cursor {
        at: Carriers::HEAD,
        end: Carriers::HEAD,
    }
}

// Where the octets stand that the next entry holds: nowhere where it is cut by the end of its carrier entry or of CC, or there is none.
#[tactic(auto, unfolding(annex::specs::Entering::entry_stretch))]
pub fn inside(s: &[u8], c: Cursor) -> Found
    ensures { Gives (entry_stretch s.now c) result }
{
    let extent = Extent::Counted(CountingUnit::Octet);
    if c.end <= c.at {
        return stretch_at(s, c.at, extent);
    }
    stretch_at(s.get(..c.end)?, c.at, extent)
}

// The cursor behind it, or in it where it is a carrier entry.
#[tactic(auto, unfolding(annex::specs::Entering::entry_next))]
pub fn next(s: &[u8], c: Cursor) -> Cursor
    ensures { Gives (entry_next s.now c) result }
{
    match inside(s, c) {
        None => Cursor {
            at: s.len(),
            end: s.len(),
        },
        Some((_, to)) if c.at < c.end => Cursor { at: to, end: c.end },
        Some((from, to)) => Cursor { at: from, end: to },
    }
}

// Whether the next entry holds a code.
pub fn is_code(s: &[u8], c: Cursor) -> bool
    ensures { Gives (is_code_here s.now c) result }
{
    c.at < c.end && octet_at(s, c.at) == Carriers::CODE
}

// The entries from a cursor on, one cursor to each.
#[derive(Drop)]
pub struct Cursors<'a> {
    pub s: &'a [u8],
    pub c: Cursor,
}

impl<'a> Iterator for Cursors<'a> {
    type Item = Cursor;

    ghost next_gives = { YieldsFirst (λ e. cursors_from e.s.now e.c) };

    ghost remaining = { item_count (λ e. cursors_from e.s.now e.c) };

    #[tactic(auto, using(crate::specs::Entries::cursors_more, crate::specs::Entries::cursors_none))]
    fn next(&mut self) -> Option<Cursor> {
        let here = self.c;
        if self.s.len() <= here.at {
            return None;
        }
        self.c = next(self.s, here);
        Some(here)
    }
}

// All of them.
pub fn entries(s: &[u8]) -> Cursors<'_>
    ensures { Gives (cursors_from s.now first_entry) (cursors_from result.s.now result.c) }
{
    Cursors { s, c: first() }
}
