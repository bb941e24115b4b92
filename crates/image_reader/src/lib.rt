// The image of a message's record, written straight from the message's octets.
#![tactic(auto)]

ghost use Rattle.std.specs.Prelude.{◌≡◌, ◌+◌, ◌≤◌, length};
ghost use Rattle.std.proofs.lemmas.List.Edits.{sets};
ghost use Rattle.annex.specs.Heads.{most_transfers, most_values};
ghost use Rattle.annex.specs.Items.{item_of};
ghost use Rattle.annex.specs.Reading.{verdict_of, record_of};
ghost use Rattle.annex.specs.Records.{values_of};
ghost use Rattle.annex.specs.Answers.{Accepted};
ghost use Rattle.annex.specs.Image.{image_head, image_item, image_items, image_common, image_of, octets_to_a_common_head, octets_to_a_transfer_head};
ghost use Rattle.annex.specs.Promises.{ImageReadPromise};
ghost use Rattle.laws.specs.Runs.{Puts};
ghost use Rattle.reader.specs.Filling.{items_from};
ghost use Rattle.image_reader.specs.Laying.{items_under, part_octets};

use annex::{Answer, Common, Imaged, Refusal, Transfer};
use octets::{copy_in, octet_at};
use parameter::opening::open;
use reader::reading::part_head;
use reader::verdict::verdict;
use units::{common_extent_of, extent_of};
use walk::stretch::stretch_at;

// How many transfer parameters were written, and where the last ends.
#[derive(Drop)]
struct Laid {
    count: u8,
    end: usize,
}

// Writes the head of a transfer parameter from `at` on.
fn put_transfer(t: Transfer, at: usize, out: &mut [u8])
    requires { at + octets_to_a_transfer_head ≤ length out.old }
    ensures { out.new ≡ sets out.old at (image_head t) }
{
    let [low, high] = t.len.to_le_bytes();
    let behind = at + Imaged::TRANSFER_HEAD;
    out[at..behind].copy_from_slice(&[
        t.header,
        t.notification,
        t.verification,
        t.dialling,
        t.number_type,
        t.incomplete,
        t.plan,
        t.presentation,
        t.screening,
        low,
        high,
    ]);
}

// Writes a transfer parameter from `at` on, the values behind the place of its head and then the head: where it ends.
fn put_item(header: u8, contents: &[u8], at: usize, out: &mut [u8]) -> usize
    requires { (at + length (image_item (item_of header contents.now)) ≤ length out.old)
        × (length (item_of header contents.now).values ≤ most_values) }
    ensures { Puts (image_item (item_of header contents.now)) at out.old result out.new }
{
    let from = at + Imaged::TRANSFER_HEAD;
    let t = open(header, contents, out, from);
    put_transfer(t, at, out);
    from + t.len as usize
}

// Writes the parameters of the transfer data t from `first` on.
fn put_items(t: &[u8], first: usize, out: &mut [u8]) -> Laid
    requires { (first + length (image_items (items_from t.now)) ≤ length out.old)
        × (length (items_from t.now) ≤ most_transfers)
        × (length (values_of (items_from t.now)) ≤ most_values) }
    ensures { (result.count ≡ length (items_from t.now))
        × Puts (image_items (items_from t.now)) first out.old result.end out.new }
{
    let mut count: u8 = 0;
    let mut at = first;
    let mut i = 0;
    while let Some((start, to)) = stretch_at(t, i, extent_of(octet_at(t, i))) {
        at = put_item(t[i], &t[start..to], at, out);
        count += 1;
        i = to;
    }
    Laid { count, end: at }
}

// Writes the head of a common parameter from `at` on.
fn put_common(c: Common, at: usize, out: &mut [u8])
    requires { at + octets_to_a_common_head ≤ length out.old }
    ensures { out.new ≡ sets out.old at (image_common c) }
{
    let [first, second, third, fourth] = c.value.to_le_bytes();
    let behind = at + Imaged::COMMON_HEAD;
    out[at..behind].copy_from_slice(&[
        c.header,
        first,
        second,
        third,
        fourth,
        c.more_data,
        c.transfers,
    ]);
}

// Writes a common parameter from `at` on, the parameters of a C5 behind the place of its head and then the head: where it ends.
fn put_part(header: u8, own: &[u8], contents: &[u8], at: usize, out: &mut [u8]) -> usize
    requires { (at + length (part_octets header own.now contents.now) ≤ length out.old)
        × (length (items_under header contents.now) ≤ most_transfers)
        × (length (values_of (items_under header contents.now)) ≤ most_values) }
    ensures { Puts (part_octets header own.now contents.now) at out.old result out.new }
{
    let behind = at + Imaged::COMMON_HEAD;
    let laid = if header == Common::TRANSFER_DATA {
        put_items(contents, behind, out)
    } else {
        Laid {
            count: 0,
            end: behind,
        }
    };
    put_common(part_head(header, own, laid.count), at, out);
    laid.end
}

// Writes the image of an accepted message's record at the front: its length.
fn put_image(m: &[u8], out: &mut [u8]) -> usize
    requires { (verdict_of m.now ≡ Accepted (length m.now)) × (length (image_of (record_of m.now)) ≤ length out.old) }
    ensures { Puts (image_of (record_of m.now)) 0 out.old result out.new }
{
    let mut count: u8 = 0;
    let mut at: usize = 1;
    let mut i = 0;
    while let Some((start, to)) = stretch_at(m, i, common_extent_of(octet_at(m, i))) {
        let header = m[i];
        if header != Common::END_MARK {
            at = put_part(header, &m[i + 1..to], &m[start..to], at, out);
            count += 1;
        }
        i = to;
    }
    out[0] = count;
    at
}

// The image of an accepted message's record in room that may be too short for it: it is written elsewhere first, and copied if it fits.
fn put_short(m: &[u8], image: &mut [u8]) -> Answer
    requires { verdict_of m.now ≡ Accepted (length m.now) }
    ensures { ImageReadPromise m.now image.old result image.new }
{
    let mut written = [0u8; Imaged::MOST];
    let n = put_image(m, &mut written);
    if image.len() < n {
        return Err(Refusal(Refusal::NO_ROOM, 0));
    }
    copy_in(image, 0, &written[..n]);
    Ok(n)
}

// The record of a message, as its image at the front of the lent octets: how many octets it has. A refusal leaves them as they were.
pub fn read_image(m: &[u8], image: &mut [u8]) -> Answer
    ensures { ImageReadPromise m.now image.old result image.new }
{
    verdict(m)?;
    if image.len() < Imaged::MOST {
        return put_short(m, image);
    }
    Ok(put_image(m, image))
}
