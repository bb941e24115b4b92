// Writing a record: where nothing refuses it, it is laid out at the front of lent room.
#![tactic(auto)]

ghost use Rattle.std.specs.Prelude.{◌≡◌, ◌+◌, ◌≤◌, length};
ghost use Rattle.annex.specs.Heads.{most_values};
ghost use Rattle.annex.specs.Layout.{layout_item, layout_items, layout};
ghost use Rattle.annex.specs.Records.{view, item_from};
ghost use Rattle.annex.specs.Promises.{WritePromise};
ghost use Rattle.annex.specs.Memory.{at_front};
ghost use Rattle.limits.specs.Along.{items_at, Within, Whole};
ghost use Rattle.refusing.specs.Laying.{data_laid};

use annex::{Answer, Common, Record, Refusal, Transfer};
use common::laying::lay_head;
use layout::{contents_len, put};
use limits::items_at;
use refusing::{head_len, record_refusal};
use units::{extent_of, lead};

// How many octets a transfer parameter takes.
fn item_len(t: Transfer, values: &[u8]) -> usize
    requires { length values.now ≤ most_values }
    ensures { result ≡ length (layout_item (item_from t values.now)) }
{
    1 + lead(extent_of(t.header)) + contents_len(t, values)
}

// Lays out the n transfer parameters from index `first` of the array on, and tells how many octets they take. (q, first and n, which one
// more function hands on, in a struct would be no plainer.)
fn put_items(q: Record, first: usize, n: usize, room: &mut [u8]) -> usize
    requires { Within q (first + n) × (length (layout_items (items_at q first n)) ≤ length room.old) }
    ensures { (result ≡ length (layout_items (items_at q first n)))
        × (room.new ≡ at_front (layout_items (items_at q first n)) room.old) }
{
    let mut at = 0;
    for (t, values) in items_at(&q, first, n) {
        put(t, values, &mut room[at..]);
        at += item_len(t, values);
    }
    at
}

// Lays out C5 with those parameters, and tells how many octets it takes. Its length octet is known once they are laid out.
fn put_data(q: Record, first: usize, n: usize, room: &mut [u8]) -> usize
    requires { Within q (first + n) × (length (data_laid (items_at q first n)) ≤ length room.old) }
    ensures { (result ≡ length (data_laid (items_at q first n)))
        × (room.new ≡ at_front (data_laid (items_at q first n)) room.old) }
{
    let len = put_items(q, first, n, &mut room[2..]);
    let whole = len + 2;
    room[0] = Common::TRANSFER_DATA;
    room[1] = (len % 256) as u8; // modulo 256, as the definition stores it
    whole
}

// Lays out a record within its limits: its common parameters in their order, then the end mark.
fn put_parts(q: Record, room: &mut [u8])
    requires { Whole q × (length (layout (view q)) ≤ length room.old) }
    ensures { room.new ≡ at_front (layout (view q)) room.old }
{
    let mut at = 0;
    let mut first = 0;
    for c in &q.common[..q.commons as usize] {
        if c.header != Common::TRANSFER_DATA {
            lay_head(*c, room, at);
            at += head_len(c.header);
            continue;
        }
        let count = c.transfers as usize;
        at += put_data(q, first, count, &mut room[at..]);
        first += count;
    }
    room[at] = Common::END_MARK;
}

// Writes a record at the front of the room: the message's length, or the first refusal, and then the room stays as it was.
pub fn write(held: Record, room: &mut [u8]) -> Answer
    ensures { WritePromise held room.old result room.new }
{
    let n = record_refusal(held)?;
    if room.len() < n {
        return Err(Refusal(Refusal::NO_ROOM, 0));
    }
    put_parts(held, room);
    Ok(n)
}
