// Writing by the profile: the message is laid out in a draft, and handed out where it keeps the profile and the room suffices.
ghost use Rattle.std.specs.Prelude.{length};
ghost use Rattle.annex.specs.Promises.{ProfileWritePromise, ProfileImageWritePromise};
ghost use Rattle.profile.specs.Answering.{Within, HandsOut};

use crate::keeping::keeps;
use annex::{Answer, Message, Record, Refusal};
use octets::copy_in;

// What writing gave in a draft: refused, or the message at its front, then 20 at its end mark, then 15, or its octets at the front of the
// room.
fn hand_out(a: Answer, draft: &[u8], room: &mut [u8]) -> Answer
    requires { Within a (length draft.now) }
    ensures { HandsOut a draft.now room.old result room.new }
{
    let n = a?;
    let m = &draft[..n];
    if !keeps(m) {
        return Err(Refusal(Refusal::PROFILE, n - 1));
    }
    if !copy_in(room, 0, m) {
        return Err(Refusal(Refusal::NO_ROOM, 0));
    }
    Ok(n)
}

// Writes a record that keeps the profile at the front of the room: the message's length, or the first refusal, and then the room stays as
// it was.
pub fn write(held: Record, room: &mut [u8]) -> Answer
    ensures { ProfileWritePromise held room.old result room.new }
{
    let mut draft = [0u8; Message::MOST_OCTETS];
    let a = writer::write(held, &mut draft);
    hand_out(a, &draft, room)
}

// The same of the record of an image.
pub fn write_image(image: &[u8], room: &mut [u8]) -> Answer
    ensures { ProfileImageWritePromise image.now room.old result room.new }
{
    let mut draft = [0u8; Message::MOST_OCTETS];
    let a = image_writer::write_image(image, &mut draft);
    hand_out(a, &draft, room)
}
