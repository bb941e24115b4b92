// The mobile call profile: a call enquiry from a PHS or mobile network, taken by reading's rules and then by those of the profile.
#![tactic(auto)]

mod added;
pub mod images;
mod keeping;
pub mod verdict;
pub mod writing;

ghost use Rattle.std.specs.Prelude.{ℕ, ◌≡◌, true};
ghost use Rattle.annex.specs.Profile.{pairs_in, pairs_right, profile_verdict, profile_of};
ghost use Rattle.annex.specs.Promises.{ProfileReadPromise};
ghost use Rattle.annex.specs.Reading.{record_of};
ghost use Rattle.annex.specs.Answers.{Accepted};
ghost use Rattle.profile.specs.Keeping.{network_said};
ghost use Rattle.profile.specs.Pairs.{opened_to};
ghost use Rattle.profile.specs.Telling.{refused_with};

use annex::{AddedClass, Answer, Network, Profile, ProfileReading, Reading, Transfer};
use keeping::{contents, keeps};
use octets::octet_at;
use reader::reading;
use reader::reading::empty;
use verdict::profile_verdict;

// The pairs of a D6, the first `count` of `class`: nothing is allocated, so that there is room for the most.
#[derive(Clone, Copy)]
struct Opened {
    count: u8,
    class: [AddedClass; AddedClass::MOST],
}

// The pairs of contents that are pairs with names as they must be, in their order.
fn open_pairs(s: &[u8]) -> Opened
    requires { pairs_right s.now ≡ true }
    ensures { result ≡ opened_to (pairs_in s.now) }
{
    let mut class = [AddedClass::none(); AddedClass::MOST];
    let mut count: u8 = 0;
    let mut rest = s;
    while let [name, value, behind @ ..] = rest {
        class[count as usize] = AddedClass {
            name: *name,
            value: *value,
        };
        count += 1;
        rest = behind;
    }
    Opened { count, class }
}

// The network that 7E says. It is how the profile reads an octet, and no conversion of the type, which stands in annex.
fn network_of(octet: u8) -> Network
    ensures { result ≡ network_said octet }
{
    match octet {
        Network::PHS => Network::Phs,
        Network::MOBILE => Network::Mobile,
        _ => Network::Other,
    }
}

// A refusal, with the record of nothing beside it, and what that tells.
fn refused(answer: Answer) -> ProfileReading
    ensures { result ≡ refused_with answer }
{
    ProfileReading {
        answer,
        record: empty(),
        profile: Profile {
            network: Network::Other,
            classes: 0,
            class: [AddedClass::none(); AddedClass::MOST],
        },
    }
}

// What a message that keeps the profile tells beside its record.
fn told(m: &[u8]) -> Profile
    requires { (n : ℕ) × (profile_verdict m.now ≡ Accepted n) }
    ensures { result ≡ profile_of (record_of m.now) }
{
    let network = network_of(octet_at(contents(m, Transfer::ADJACENT_NETWORK), 0));
    let opened = open_pairs(contents(m, Transfer::ADDED_USER_CLASS));
    let class = opened.class;
    Profile {
        network,
        classes: opened.count,
        class,
    }
}

// The record of a message that keeps the profile, with its network and its added user classes, and the verdict beside it; where refused,
// those of nothing. What the profile asks is asked of any octets, and where they do not keep it, the message is refused, by reading or
// with 20; all others are read as reading reads them.
pub fn read(m: &[u8]) -> ProfileReading
    ensures { ProfileReadPromise m.now result }
{
    if !keeps(m) {
        return refused(profile_verdict(m));
    }
    // no `?`, since a reading of a profile is no Result: beside a refusal it has an empty record
    let Reading { answer, record } = reading::read(m);
    let Ok(_) = answer else {
        return refused(answer);
    };
    ProfileReading {
        answer,
        record,
        profile: told(m),
    }
}
