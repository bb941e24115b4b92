// Reading by the profile for Rust and C: the record's image, and the added user classes as octets.
ghost use Rattle.annex.specs.Promises.{ProfileImageReadPromise, ClassesPromise};

use crate::keeping::{contents, keeps, stands};
use crate::verdict::profile_verdict;
use annex::{Answer, Refusal, Transfer};
use octets::copy_in;

// The record of a message that keeps the profile, as its image at the front of the lent octets: how many octets it has. A refusal leaves
// them as they were. What the profile asks is asked of any octets, and where they do not keep it, the message is refused, by reading or
// with 20; all others are read as reading reads them.
pub fn read_image(m: &[u8], image: &mut [u8]) -> Answer
    ensures { ProfileImageReadPromise m.now image.old result image.new }
{
    if !keeps(m) {
        return profile_verdict(m);
    }
    image_reader::read_image(m, image)
}

// The pairs of D6 at the front of the lent octets, each name before its value: how many octets there are. A refusal leaves them as they
// were.
pub fn added_classes(m: &[u8], out: &mut [u8]) -> Answer
    ensures { ClassesPromise m.now out.old result out.new }
{
    profile_verdict(m)?;
    if !stands(m, Transfer::ADDED_USER_CLASS) {
        return Err(Refusal(Refusal::ABSENT, 0));
    }
    let pairs = contents(m, Transfer::ADDED_USER_CLASS);
    if !copy_in(out, 0, pairs) {
        return Err(Refusal(Refusal::NO_ROOM, 0));
    }
    Ok(pairs.len())
}
