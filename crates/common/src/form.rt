// One common parameter: its header, its length, and the values that are allowed.
ghost use Rattle.annex.specs.Promises.{Gives};
ghost use Rattle.annex.specs.Heads.{among, listed_headers, signal_kinds, value_allowed};
ghost use Rattle.annex.specs.Reading.{octet_allowed, common_form, end_of};

use annex::{Answer, Common, Refusal, Signal};
use octets::octet_at;
use units::{common_extent_of, octets_after};

// Whether the header is one of a message's.
pub fn listed(header: u8) -> bool
    ensures { Gives (among header listed_headers) result }
{
    matches!(
        header,
        Common::END_MARK
            | Common::USER_CLASS
            | Common::SEQUENCE
            | Common::SIGNAL_KIND
            | Common::PARTNERS_CALL
            | Common::OWN_CALL
            | Common::TRANSFER_DATA
    )
}

// Whether the kind is one of the listed.
fn signal_listed(kind: Signal) -> bool
    ensures { Gives (among kind.0 signal_kinds) result }
{
    matches!(
        kind.0,
        Signal::DATA_ENQUIRY
            | Signal::DATA_RESPONSE
            | Signal::RECONTROL_REQUEST
            | Signal::RECONTROL_RESPONSE
            | Signal::RECONTROL_ORDER
            | Signal::CONNECTION_REPORT
            | Signal::CALL_TRANSFER
            | Signal::CHARGING
            | Signal::CHARGING_RESPONSE
            | Signal::CHANNEL_CHECK
            | Signal::CHANNEL_RESPONSE
            | Signal::CHANNEL_INITIAL
            | Signal::CHANNEL_INITIAL_RESPONSE
    )
}

// Whether the value is a signal kind: none is over an octet.
fn is_signal_kind(value: u32) -> bool
    ensures { Gives (among value signal_kinds) result }
{
    value < 256 && signal_listed(Signal(value as u8))
}

// Whether the value that stands with the header is allowed: of 01 the user class, of 06 a signal kind, of 04 the number of a sequence, of
// any other header every value.
#[tactic(auto, unfolding(annex::specs::Heads::value_allowed))]
pub fn value_allowed(header: u8, value: u32) -> bool
    ensures { Gives (value_allowed header value) result }
{
    match header {
        Common::USER_CLASS => value == Common::ADVANCED_TELEPHONY as u32,
        Common::SIGNAL_KIND => is_signal_kind(value),
        Common::SEQUENCE => value == Common::SEQUENCE_NUMBER as u32,
        _ => true,
    }
}

// Whether what the octet right after the header says is allowed.
fn octet_allowed(header: u8, octet: u8) -> bool
    ensures { Gives (octet_allowed header octet) result }
{
    value_allowed(header, Common::octet(header, octet).value)
}

// 2 to 5 of a common parameter whose name stood so many times before, or how many of the octets xs after its header are its own.
#[tactic(auto, unfolding(annex::specs::Reading::common_form))]
pub fn common_form(times: u8, header: u8, xs: &[u8]) -> Answer
    ensures { Gives (common_form times header xs.now) result }
{
    if !listed(header) {
        return Err(Refusal(Refusal::UNLISTED, 0));
    }
    if 0 < times {
        return Err(Refusal(Refusal::REPEATED, 0));
    }
    let x = octet_at(xs, 0);
    let n = octets_after(common_extent_of(header), x);
    if xs.len() < n {
        return Err(Refusal(Refusal::CUT_SHORT, 0));
    }
    if !octet_allowed(header, x) {
        return Err(Refusal(Refusal::NOT_ALLOWED, 0));
    }
    Ok(n)
}

// The end mark: 6, then 7 at the first octet after it, or that no octet is its own. whole: 01 and 06 have been seen.
#[tactic(auto, unfolding(annex::specs::Reading::end_of))]
pub fn end_mark(whole: bool, xs: &[u8]) -> Answer
    ensures { Gives (end_of whole xs.now) result }
{
    if !whole {
        return Err(Refusal(Refusal::MISSING, 0));
    }
    if !xs.is_empty() {
        return Err(Refusal(Refusal::LEFT_OVER, 1));
    }
    Ok(0)
}
