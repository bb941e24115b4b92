// What the profile asks, of any octets, by what the length rule alone finds in them. Of a message that reading accepts this is what it asks
// of the record.
ghost use Rattle.std.specs.Prelude.{◌≡◌, true, cond, ◌||◌, eqb};
ghost use Rattle.annex.specs.Profile.{phs, mobile};
ghost use Rattle.theorems.specs.Places.{is_found};
ghost use Rattle.profile.specs.Keeping.{headed, contents_under, kind_in, keeps_plain};

use crate::added::pairs_right;
use annex::{Common, Found, Network, Signal, Transfer};
use octets::octet_at;
use reader::finding::{common_by_length, transfer_by_length};

// Where the contents of the first transfer parameter with this header's name stand.
fn sought(m: &[u8], header: u8) -> Found
    ensures { result ≡ headed header m.now }
{
    transfer_by_length(m, header % 64, 0)
}

// Whether there is one.
pub fn stands(m: &[u8], header: u8) -> bool
    ensures { result ≡ is_found (headed header m.now) }
{
    sought(m, header).is_some()
}

// Its contents, the empty stretch where there is none.
pub fn contents(m: &[u8], header: u8) -> &[u8]
    ensures { result.now ≡ contents_under header m.now }
{
    let Some((start, end)) = sought(m, header) else {
        return &m[..0];
    };
    &m[start..end]
}

// What 06 says, 0 where it does not stand.
fn signal_kind(m: &[u8]) -> u8
    ensures { result ≡ kind_in m.now }
{
    let Some((start, end)) = common_by_length(m, Common::SIGNAL_KIND) else {
        return 0;
    };
    octet_at(&m[start..end], 0)
}

// Whether 7E says that the call comes from PHS or a mobile network.
fn is_network(octet: u8) -> bool
    ensures { result ≡ eqb octet phs || eqb octet mobile }
{
    matches!(octet, Network::PHS | Network::MOBILE)
}

// Whether D6 stands, where the call comes from a mobile network.
fn is_enough(network: u8, added: bool) -> bool
    ensures { result ≡ cond (eqb network mobile) added true }
{
    network != Network::MOBILE || added
}

// Whether the profile is kept.
pub fn keeps(m: &[u8]) -> bool
    ensures { result ≡ keeps_plain m.now }
{
    // the kind first: in octets of another kind nothing is looked for
    if signal_kind(m) != Signal::DATA_ENQUIRY {
        return false;
    }
    let network = octet_at(contents(m, Transfer::ADJACENT_NETWORK), 0);
    is_network(network)
        && stands(m, Transfer::ORIGINATING_REGION)
        && is_enough(network, stands(m, Transfer::ADDED_USER_CLASS))
        && pairs_right(contents(m, Transfer::ADDED_USER_CLASS))
}
