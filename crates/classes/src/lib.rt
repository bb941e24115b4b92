// The class of a code value: document 01, "Classes of code values". A function for each list of values, `class_in` picks it by the
// header, and `class_of` asks the bits that must be 0 after it.
#![tactic(auto)]

ghost use Rattle.std.specs.Prelude.{◌≡◌};
ghost use Rattle.annex.specs.Promises.{ClassPromise};
ghost use Rattle.annex.specs.Answers.{Is};
ghost use Rattle.classes.specs.Listed.{listed_class};

use annex::{Class, ClassAnswer, Refusal, Transfer};
use heads::head_of;

// 42
fn release_event(octet: u8) -> Class
    ensures { Is result ≡ listed_class 0x42 octet }
{
    match octet {
        0..=6 | 8..=15 => Class::Named,
        _ => Class::Spare,
    }
}

// 46
fn initial_setting(octet: u8) -> Class
    ensures { Is result ≡ listed_class 0x46 octet }
{
    match octet {
        1..=2 => Class::Named,
        _ => Class::Spare,
    }
}

// 52: bits 3-0 are looked at.
fn calling_user_class(octet: u8) -> Class
    ensures { Is result ≡ listed_class 0x52 octet }
{
    match octet % 16 {
        0..=4 | 14..=15 => Class::Named,
        _ => Class::Spare,
    }
}

// 67
fn charging_form(octet: u8) -> Class
    ensures { Is result ≡ listed_class 0x67 octet }
{
    match octet {
        0..=3 => Class::Named,
        _ => Class::Spare,
    }
}

// 68
fn rejected_call(octet: u8) -> Class
    ensures { Is result ≡ listed_class 0x68 octet }
{
    match octet {
        1..=3 => Class::Named,
        _ => Class::Spare,
    }
}

// 6E
fn channel_request(octet: u8) -> Class
    ensures { Is result ≡ listed_class 0x6E octet }
{
    match octet {
        0 | 2..=3 | 8..=10 => Class::Named,
        _ => Class::Spare,
    }
}

// 6F
fn isup_link(octet: u8) -> Class
    ensures { Is result ≡ listed_class 0x6F octet }
{
    match octet {
        0..=2 => Class::Named,
        _ => Class::Spare,
    }
}

// 75: each half is looked at.
fn section_mbi(octet: u8) -> Class
    ensures { Is result ≡ listed_class 0x75 octet }
{
    match octet / 16 {
        1..=12 => match octet % 16 {
            1..=12 => Class::Named,
            _ => Class::Spare,
        },
        _ => Class::Spare,
    }
}

// 79 and 7A
fn result_event(octet: u8) -> Class
    ensures { Is result ≡ listed_class 0x79 octet }
{
    match octet {
        1..=2 => Class::Named,
        _ => Class::Spare,
    }
}

// 7C
fn charging_order(octet: u8) -> Class
    ensures { Is result ≡ listed_class 0x7C octet }
{
    match octet {
        0..=1 => Class::Named,
        _ => Class::Spare,
    }
}

// 7E
fn adjacent_network(octet: u8) -> Class
    ensures { Is result ≡ listed_class 0x7E octet }
{
    match octet {
        2..=7 => Class::Named,
        _ => Class::Spare,
    }
}

// D7 and DC: the number type, bits 6-0.
fn number_type(octet: u8) -> Class
    ensures { Is result ≡ listed_class 0xD7 octet }
{
    match octet % 128 {
        1 | 3..=4 | 126 => Class::Named,
        2 | 112..=125 => Class::HeldBack,
        _ => Class::Spare,
    }
}

// The class of an octet by its header's list.
fn class_in(header: u8, octet: u8) -> ClassAnswer
    ensures { result ≡ listed_class header octet }
{
    match header {
        Transfer::RELEASE_EVENT => Ok(release_event(octet)),
        Transfer::INITIAL_SETTING => Ok(initial_setting(octet)),
        Transfer::CALLING_USER_CLASS => Ok(calling_user_class(octet)),
        Transfer::CHARGING_FORM => Ok(charging_form(octet)),
        Transfer::REJECTED_CALL => Ok(rejected_call(octet)),
        Transfer::CHANNEL_REQUEST => Ok(channel_request(octet)),
        Transfer::ISUP_LINK => Ok(isup_link(octet)),
        Transfer::SECTION_MBI => Ok(section_mbi(octet)),
        Transfer::CONNECTION_RESULT | Transfer::ARE_RESULT => Ok(result_event(octet)),
        Transfer::CHARGING_ORDER => Ok(charging_order(octet)),
        Transfer::ADJACENT_NETWORK => Ok(adjacent_network(octet)),
        Transfer::CALLING_USER_NUMBER | Transfer::CALLING_NUMBER => Ok(number_type(octet)),
        _ => Err(Refusal(Refusal::NO_CLASS_LIST, 0)),
    }
}

// The class of an octet under a header: 17 where it has no list, 12 where a bit that must be 0 is set.
pub fn class_of(header: u8, octet: u8) -> ClassAnswer
    ensures { ClassPromise header octet result }
{
    let class = class_in(header, octet)?;
    let asked = head_of(header);
    if octet & asked.zeroes != 0 {
        return Err(Refusal(Refusal::BAD_FORM, 0));
    }
    Ok(class)
}
