// The headers of transfer parameters: all that the lists ask of one and of the contents under it, by one look-up.
#![tactic(auto)]

ghost use Rattle.std.specs.Prelude.{◌≡◌, cond};
ghost use Rattle.annex.specs.Promises.{Gives};
ghost use Rattle.annex.specs.Answers.{unused_name, other_pli, Accepted};
ghost use Rattle.annex.specs.Heads.{among, heads, free_names, often_of, name_used, pli_right, zeroes_of, form_of};
ghost use Rattle.annex.specs.Writing.{head_writing};
ghost use Rattle.heads.specs.Asked.{listed_asked, unlisted_asked, counted_heads, octet_heads, asked_in};

use annex::{Answer, Check, Form, Marks, Refusal, Transfer};

// What is asked of a header and of the contents under it. No `Option`: the form is that of a header that is not right too, by which a
// record holds its values (`Heads.form_of`).
#[derive(Clone, Copy)]
pub struct Asked {
    pub right: bool,
    pub zeroes: u8,
    pub form: Form,
}

// What a row of the lists asks: the bits of the first octet of the contents that must be 0, and the form.
fn listed(zeroes: u8, form: Form) -> Asked
    ensures { result ≡ listed_asked zeroes form }
{
    Asked {
        right: true,
        zeroes,
        form,
    }
}

// The list under PLI 01, an arm to a row. A header that is not in it goes on to the next list, and so on, so that the compiler makes one
// table of the three.
fn one_octet(header: u8) -> Asked
    ensures { result ≡ asked_in heads header }
{
    let carried = Form::Checked(Check::Nothing);
    match header {
        Transfer::CHARGING_REQUEST => listed(0xFE, carried),
        Transfer::RELEASE_EVENT => listed(0xF0, carried),
        Transfer::CHARGING_RESEND => listed(0xFE, carried),
        Transfer::CHANNEL_CHECK => listed(0xFE, carried),
        Transfer::RECONTROL_OBJECT => listed(0xFE, carried),
        Transfer::INITIAL_SETTING => listed(0xFC, carried),
        Transfer::CALLING_USER_CLASS => listed(0x30, carried),
        Transfer::HOST_OR_MATE => listed(0xFE, carried),
        Transfer::NETWORK_FUNCTION => listed(0x00, carried),
        Transfer::CHARGING_FORM => listed(0xF8, carried),
        Transfer::REJECTED_CALL => listed(0x00, carried),
        Transfer::FUNCTION_LEVEL => listed(0x80, carried),
        Transfer::CHANNEL_REQUEST => listed(0x00, carried),
        Transfer::ISUP_LINK => listed(0xFC, carried),
        Transfer::ANNOUNCEMENTS => listed(0x00, carried),
        Transfer::SECTION_MBI => listed(0x00, carried),
        Transfer::CONNECTION_RESULT => listed(0x00, carried),
        Transfer::ARE_RESULT => listed(0x00, carried),
        Transfer::CHARGING_ORDER => listed(0x00, carried),
        Transfer::ADJACENT_NETWORK => listed(0x00, carried),
        _ => counted_digits(header),
    }
}

// The list under PLI 10.
fn counted_digits(header: u8) -> Asked
    ensures { result ≡ asked_in counted_heads header }
{
    match header {
        Transfer::ORIGINATING_AREA => listed(0x40, Form::Digits(Marks::Notified)),
        Transfer::ORIGINATING_ID => listed(0x00, Form::Digits(Marks::Verified)),
        Transfer::CALLED_TERMINAL => listed(0x40, Form::Digits(Marks::Notified)),
        Transfer::DIALLED_DIGITS => listed(0x00, Form::Digits(Marks::Typed)),
        Transfer::RECONTROL_DIGITS => listed(0xC0, Form::Digits(Marks::Unmarked)),
        _ => counted_octets(header),
    }
}

// The list under PLI 11.
fn counted_octets(header: u8) -> Asked
    ensures { result ≡ asked_in octet_heads header }
{
    let carried = Form::Checked(Check::Nothing);
    match header {
        Transfer::CARRIERS => listed(0x00, Form::Checked(Check::Carriers)),
        Transfer::CALLED_IN_NUMBER => listed(0x00, carried),
        Transfer::TEST_CALL => listed(0x00, carried),
        Transfer::FORWARD_CALL => listed(0x00, Form::Checked(Check::Two(0x08))),
        Transfer::CALLED_USER_NUMBER => listed(0x00, carried),
        Transfer::ADDED_USER_CLASS => listed(0x00, carried),
        Transfer::CALLING_USER_NUMBER => listed(0x00, Form::Number),
        Transfer::WITHHELD_REASON => listed(0x00, carried),
        Transfer::GENERIC_NUMBER => listed(0x00, Form::Generic),
        Transfer::SECOND_FUNCTION => listed(0x00, Form::Checked(Check::Two(0xFC))),
        Transfer::CALLING_NUMBER => listed(0x00, Form::Calling),
        Transfer::CONNECTION_ORDER => listed(0x00, Form::Checked(Check::Order)),
        Transfer::REJECTION_CONTROL => listed(0x00, carried),
        Transfer::SIGNALLING_POINT => listed(0x00, carried),
        Transfer::REASON => listed(0x00, carried),
        Transfer::USER_SET_NUMBER => listed(0x00, carried),
        Transfer::CALL_DURATION => listed(0x00, Form::Checked(Check::Long(4))),
        Transfer::CHARGE_NOTICE => listed(0x00, carried),
        Transfer::IP_NUMBER => listed(0x00, carried),
        Transfer::CHARGING_INFORMATION => listed(0x00, Form::Checked(Check::Charging)),
        Transfer::NSP_SETTING => listed(0x00, carried),
        Transfer::ORIGINATING_REGION => listed(0x00, carried),
        _ => unlisted(header),
    }
}

// Whether a name has no layout.
fn is_free(name: u8) -> bool
    ensures { result ≡ among name free_names }
{
    matches!(
        name,
        Transfer::RESULT_REQUEST_NAME
            | Transfer::CALL_IDENTITY_NAME
            | Transfer::CALL_START_NAME
            | Transfer::CALL_END_NAME
            | Transfer::WAITING_START_NAME
    )
}

// A header in no list: right if its name has no layout; else digits under PLI 10.
fn unlisted(header: u8) -> Asked
    ensures { result ≡ unlisted_asked header }
{
    let right = is_free(header % 64);
    let form = if header / 64 == 2 && !right {
        Form::Digits(Marks::Unmarked)
    } else {
        Form::Checked(Check::Nothing)
    };
    Asked {
        right,
        zeroes: 0,
        form,
    }
}

// All that is asked of a header: whether its name is used under this PLI; which bits of the first octet of its contents must be 0; their
// form.
pub fn head_of(header: u8) -> Asked
    ensures { Gives (pli_right header) result.right × Gives (zeroes_of header) result.zeroes × Gives (form_of header) result.form }
{
    one_octet(header)
}

// Whether the name of a header is used, under any PLI.
#[tactic(auto, using(crate::specs::Asked::used_under))]
fn name_used(header: u8) -> bool
    ensures { result ≡ name_used header }
{
    let name = header % 64;
    head_of(64 + name).right | head_of(128 + name).right | head_of(192 + name).right
}

// What refuses a header that is not right: 8 where its name is unused, else 9.
pub fn head_number(header: u8) -> u8
    ensures { Gives (cond (name_used header) other_pli unused_name) result }
{
    if name_used(header) {
        Refusal::OTHER_PLI
    } else {
        Refusal::UNUSED_NAME
    }
}

// 8, then 9, of a header that is to be written, in a record or as the new parameter of an edit; else accepted with 0.
#[tactic(auto, using(crate::specs::Asked::right_head, crate::specs::Asked::wrong_head))]
pub fn head_writing(header: u8) -> Answer
    ensures { Gives (head_writing 0 header (Accepted 0)) result }
{
    if head_of(header).right {
        Ok(0)
    } else {
        Err(Refusal(head_number(header), 0))
    }
}

// How often a name may stand: that of carriers oftener than once.
#[tactic(auto, unfolding(annex::specs::Heads::often_of))]
pub fn often_of(name: u8) -> u8
    ensures { Gives (often_of name) result }
{
    if name == Transfer::CARRIERS % 64 {
        Transfer::MOST_CARRIERS
    } else {
        1
    }
}
