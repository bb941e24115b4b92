// The types of document 01 and of document 02's requests, with the constants and constructors of the common, transfer and signal kinds.
// What they mean is said in specs/, which a reader has to believe; docs/TRUST.md says what else.
#![tactic(auto)]

ghost use Rattle.annex.specs.Promises.{Gives};
ghost use Rattle.annex.specs.Answers.{formed};
ghost use Rattle.annex.specs.Units.{counted_by, whole_count, octets_of, halves_in};
ghost use Rattle.annex.specs.Records.{value_head, octet_head, data_head, carried_head, dialled_head, number_head, no_common, no_transfer};
ghost use Rattle.annex.specs.Profile.{no_class};

// Why a call refuses: the refusal's number, and the place.
#[derive(Clone, Copy)]
pub struct Refusal(pub u8, pub usize);

// What a call answers: accepted, with a count, or refused.
pub type Answer = Result<usize, Refusal>;

// The refusal numbers, no enum: the theorems speak of any number (tight: `Wrong.places_at_0`).
impl Refusal {
    pub const OVER_LIMITS: u8 = 1;

    pub const UNLISTED: u8 = 2;

    pub const REPEATED: u8 = 3;

    pub const CUT_SHORT: u8 = 4;

    pub const NOT_ALLOWED: u8 = 5;

    pub const MISSING: u8 = 6;

    pub const LEFT_OVER: u8 = 7;

    pub const UNUSED_NAME: u8 = 8;

    pub const OTHER_PLI: u8 = 9;

    pub const REPEATED_NAME: u8 = 10;

    pub const CUT_CONTENTS: u8 = 11;

    pub const BAD_FORM: u8 = 12;

    pub const BAD_DIGIT: u8 = 13;

    pub const TRANSFER_OVER: u8 = 14;

    pub const NO_ROOM: u8 = 15;

    pub const ABSENT: u8 = 16;

    pub const NO_CLASS_LIST: u8 = 17;

    pub const CHECK_DIGIT: u8 = 18;

    pub const CONNECTION_ORDER: u8 = 19;

    pub const PROFILE: u8 = 20;
}

// What is wrong with contents: the refusal's number, and the offset of the octet in the contents.
#[derive(Clone, Copy)]
pub struct Flaw(pub u8, pub usize);

// Sound contents, or what is wrong with them.
pub type Fault = Result<(), Flaw>;

impl Flaw {
    // Sound, or bad form.
    pub fn unless(good: bool) -> Fault
        ensures { Gives (formed good) result }
    {
        if good {
            Ok(())
        } else {
            Err(Flaw(Refusal::BAD_FORM, 0))
        }
    }
}

// A count of half-octets (PLI 10) and one of octets (PLI 11). They meet only through the conversion.
#[derive(Clone, Copy)]
pub struct HalfOctets(pub usize);

#[derive(Clone, Copy)]
pub struct Octets(pub usize);

impl HalfOctets {
    // What a count octet counts, in its bits 5-0.
    pub fn counted_by(octet: u8) -> HalfOctets
        ensures { Gives (counted_by octet) result }
    {
        HalfOctets((octet % 64) as usize)
    }

    // What a whole octet of count counts (91 of a connection order).
    pub fn counted_whole(octet: u8) -> HalfOctets
        ensures { Gives (whole_count octet) result }
    {
        HalfOctets(octet as usize)
    }

    // What octets hold: two half-octets each.
    pub fn of(octets: &[u8]) -> HalfOctets
        ensures { Gives (halves_in octets.now) result }
    {
        HalfOctets(2 * octets.len())
    }

    // Two half-octets to an octet, rounded up.
    pub fn octets(self) -> Octets
        ensures { Gives (octets_of self) result }
    {
        let n = self.0;
        Octets(n / 2 + n % 2)
    }
}

// In what the octet right after a header counts: half-octets, by bits 5-0 of a count octet (PLI 10), or octets, by a length octet (PLI 11).
#[derive(Clone, Copy)]
pub enum CountingUnit {
    HalfOctet,
    Octet,
}

// What a PLI says of the octets after a header: how many there are, or that the first counts the others.
#[derive(Clone, Copy)]
pub enum Extent {
    Fixed(usize),
    Counted(CountingUnit),
}

// How half-octets stand for digits: zero is code 10 where digits are dialled (PLI 10), and code 0 in a number (D7); decimal digits are
// those of a number with neither * nor #.
#[derive(Clone, Copy)]
pub enum Alphabet {
    Dialled,
    Numbered,
    Decimal,
}

// The upper two bits of a count octet: none told, notification (bit 7), notification and verification (7, 6), or the type of dialling.
#[derive(Clone, Copy)]
pub enum Marks {
    Unmarked,
    Notified,
    Verified,
    Typed,
}

// What is checked of contents that a record holds as they are: nothing more, so many octets, two octets, these bits of the second 0,
// charging information, a connection order, or carriers.
#[derive(Clone, Copy)]
pub enum Check {
    Nothing,
    Long(u8),
    Two(u8),
    Charging,
    Order,
    Carriers,
}

// The forms of contents: held as they are, with a check; digits of PLI 10; a number as in D7, as in DC, as in DA.
#[derive(Clone, Copy)]
pub enum Form {
    Checked(Check),
    Digits(Marks),
    Number,
    Calling,
    Generic,
}

// How a record holds a parameter's values: as the contents, as digits with marks, as a number, as a number after 06. A number is held with
// whether it may be withheld: then, with presentation 2, nothing but its screening is told of it.
#[derive(Clone, Copy)]
pub enum Holding {
    AsContents,
    AsDigits(Marks),
    AsNumber(bool),
    AsGeneric,
}

// A message. Its headers are octets with names, no enum: any octet may stand there, and is refused at its place.
#[derive(Clone, Copy)]
pub struct Message;

impl Message {
    pub const MOST_OCTETS: usize = 272;

    pub const MOST_ROWS: usize = Common::MOST + 1 + Transfer::MOST;
}

// A common parameter. value: the octet of 01 and 06, the number of 82, 83 and 04. more_data: the mark of 04. transfers: how many parameters
// a C5 holds.
#[derive(Clone, Copy)]
pub struct Common {
    pub header: u8,
    pub value: u32,
    pub more_data: u8,
    pub transfers: u8,
}

impl Common {
    pub const END_MARK: u8 = 0x00;

    pub const USER_CLASS: u8 = 0x01;

    pub const PARTNERS_CALL: u8 = 0x82;

    pub const OWN_CALL: u8 = 0x83;

    pub const SEQUENCE: u8 = 0x04;

    pub const SIGNAL_KIND: u8 = 0x06;

    pub const TRANSFER_DATA: u8 = 0xC5;

    // the one user class that is not spare
    pub const ADVANCED_TELEPHONY: u8 = 0x01;

    // the one number of a sequence that is allowed
    pub const SEQUENCE_NUMBER: u8 = 1;

    pub const MOST: usize = 6;

    pub const CALL_NUMBER_BELOW: u32 = 0x1000000;

    // The zero that fills unused room.
    pub fn none() -> Common
        ensures { Gives no_common result }
    {
        Common {
            header: 0,
            value: 0,
            more_data: 0,
            transfers: 0,
        }
    }

    // A parameter of one octet: 01, 06, or 04, of which bit 7 is the more-data mark and bits 6-0 are the number.
    pub fn octet(header: u8, octet: u8) -> Common
        ensures { Gives (octet_head header octet) result }
    {
        if header == Common::SEQUENCE {
            Common {
                header,
                value: (octet % 128) as u32,
                more_data: octet / 128,
                ..Common::none()
            }
        } else {
            Common {
                header,
                value: octet as u32,
                ..Common::none()
            }
        }
    }

    // A call number: 82 or 83.
    pub fn call_number(header: u8, number: u32) -> Common
        ensures { Gives (value_head header number) result }
    {
        Common {
            header,
            value: number,
            ..Common::none()
        }
    }

    // C5, with so many transfer parameters.
    pub fn transfer_data(transfers: u8) -> Common
        ensures { Gives (data_head transfers) result }
    {
        Common {
            header: Common::TRANSFER_DATA,
            transfers,
            ..Common::none()
        }
    }
}

// A transfer parameter: its header, its upper marks and fields, and how many values it has: digits, or the octets that it carries.
#[derive(Clone, Copy)]
pub struct Transfer {
    pub header: u8,
    pub notification: u8,
    pub verification: u8,
    pub dialling: u8,
    pub number_type: u8,
    pub incomplete: u8,
    pub plan: u8,
    pub presentation: u8,
    pub screening: u8,
    pub len: u16,
}

impl Transfer {
    // PLI 01
    pub const CHARGING_REQUEST: u8 = 0x41;

    pub const RELEASE_EVENT: u8 = 0x42;

    pub const CHARGING_RESEND: u8 = 0x43;

    pub const CHANNEL_CHECK: u8 = 0x44;

    pub const RECONTROL_OBJECT: u8 = 0x45;

    pub const INITIAL_SETTING: u8 = 0x46;

    pub const CALLING_USER_CLASS: u8 = 0x52;

    pub const HOST_OR_MATE: u8 = 0x65;

    pub const NETWORK_FUNCTION: u8 = 0x66;

    pub const CHARGING_FORM: u8 = 0x67;

    pub const REJECTED_CALL: u8 = 0x68;

    pub const FUNCTION_LEVEL: u8 = 0x6C;

    pub const CHANNEL_REQUEST: u8 = 0x6E;

    pub const ISUP_LINK: u8 = 0x6F;

    pub const ANNOUNCEMENTS: u8 = 0x73;

    pub const SECTION_MBI: u8 = 0x75;

    pub const CONNECTION_RESULT: u8 = 0x79;

    pub const ARE_RESULT: u8 = 0x7A;

    pub const CHARGING_ORDER: u8 = 0x7C;

    pub const ADJACENT_NETWORK: u8 = 0x7E;

    // PLI 10
    pub const ORIGINATING_AREA: u8 = 0x90;

    pub const ORIGINATING_ID: u8 = 0x91;

    pub const CALLED_TERMINAL: u8 = 0x95;

    pub const DIALLED_DIGITS: u8 = 0x98;

    pub const RECONTROL_DIGITS: u8 = 0xA3;

    // PLI 11
    pub const CARRIERS: u8 = 0xCC;

    pub const CALLED_IN_NUMBER: u8 = 0xCD;

    pub const TEST_CALL: u8 = 0xCE;

    pub const FORWARD_CALL: u8 = 0xCF;

    pub const CALLED_USER_NUMBER: u8 = 0xD3;

    pub const ADDED_USER_CLASS: u8 = 0xD6;

    pub const CALLING_USER_NUMBER: u8 = 0xD7;

    pub const WITHHELD_REASON: u8 = 0xD9;

    pub const GENERIC_NUMBER: u8 = 0xDA;

    pub const SECOND_FUNCTION: u8 = 0xDB;

    pub const CALLING_NUMBER: u8 = 0xDC;

    pub const CONNECTION_ORDER: u8 = 0xE0;

    pub const REJECTION_CONTROL: u8 = 0xE9;

    pub const SIGNALLING_POINT: u8 = 0xEA;

    pub const REASON: u8 = 0xEB;

    pub const USER_SET_NUMBER: u8 = 0xED;

    pub const CALL_DURATION: u8 = 0xF2;

    pub const CHARGE_NOTICE: u8 = 0xF4;

    pub const IP_NUMBER: u8 = 0xF6;

    pub const CHARGING_INFORMATION: u8 = 0xF7;

    pub const NSP_SETTING: u8 = 0xF8;

    pub const ORIGINATING_REGION: u8 = 0xFD;

    // names with no layout, under any PLI
    pub const RESULT_REQUEST_NAME: u8 = 0x07;

    pub const CALL_IDENTITY_NAME: u8 = 0x24;

    pub const CALL_START_NAME: u8 = 0x30;

    pub const CALL_END_NAME: u8 = 0x31;

    pub const WAITING_START_NAME: u8 = 0x3B;

    // the first octet of a generic number that holds digits
    pub const ADDED_CALLING_NUMBER: u8 = 0x06;

    // the presentation with which a calling number is withheld
    pub const WITHHELD: u8 = 2;

    // how often carriers may stand; any other name stands once
    pub const MOST_CARRIERS: u8 = 3;

    pub const NAMES: usize = 64;

    pub const MOST: usize = 54;

    pub const MOST_DIGITS: usize = 63;

    pub const MOST_OCTETS: usize = 255;

    pub const MOST_VALUES: usize = 512;

    // The zero that fills unused room.
    pub fn none() -> Transfer
        ensures { Gives no_transfer result }
    {
        Transfer::carried(0, 0)
    }

    // A parameter that holds its contents, so many octets.
    pub fn carried(header: u8, len: u16) -> Transfer
        ensures { Gives (carried_head header len) result }
    {
        Transfer {
            header,
            notification: 0,
            verification: 0,
            dialling: 0,
            number_type: 0,
            incomplete: 0,
            plan: 0,
            presentation: 0,
            screening: 0,
            len,
        }
    }

    // A parameter of digits, so many of them, with its marks.
    pub fn dialled(
        header: u8,
        notification: u8,
        verification: u8,
        dialling: u8,
        len: u16,
    ) -> Transfer
        ensures { Gives (dialled_head header notification verification dialling len) result }
    {
        Transfer {
            notification,
            verification,
            dialling,
            ..Transfer::carried(header, len)
        }
    }

    // A number with its first two octets, as in D7.
    pub fn number(header: u8, first: u8, second: u8, len: u16) -> Transfer
        ensures { Gives (number_head header first second len) result }
    {
        Transfer {
            number_type: first % 128,
            incomplete: second / 128,
            plan: second / 16 % 8,
            presentation: second / 4 % 4,
            screening: second % 4,
            ..Transfer::carried(header, len)
        }
    }
}

// A signal kind: H0 in bits 7-4, H1 in bits 3-0.
#[derive(Clone, Copy)]
pub struct Signal(pub u8);

impl Signal {
    pub const DATA_ENQUIRY: u8 = 0x11;

    pub const DATA_RESPONSE: u8 = 0x12;

    pub const RECONTROL_REQUEST: u8 = 0x23;

    pub const RECONTROL_RESPONSE: u8 = 0x24;

    pub const RECONTROL_ORDER: u8 = 0x25;

    pub const CONNECTION_REPORT: u8 = 0x26;

    pub const CALL_TRANSFER: u8 = 0x31;

    pub const CHARGING: u8 = 0x61;

    pub const CHARGING_RESPONSE: u8 = 0x62;

    pub const CHANNEL_CHECK: u8 = 0x71;

    pub const CHANNEL_RESPONSE: u8 = 0x72;

    pub const CHANNEL_INITIAL: u8 = 0x73;

    pub const CHANNEL_INITIAL_RESPONSE: u8 = 0x74;
}

// A record: the first `commons` of `common`; the parameters of its C5s one after the other in `transfer`; their values one after
// the other in `values`. Unused room is zero in a record handed out. Arrays with counts, since memory is fixed and nothing is allocated.
#[derive(Clone, Copy)]
pub struct Record {
    pub commons: u8,
    pub common: [Common; Common::MOST],
    pub transfer: [Transfer; Transfer::MOST],
    pub values: [u8; Transfer::MOST_VALUES],
}

// What reading gives: the verdict, and the record beside it, empty where refused, which demand 2 says (demands: `none`); so no `Result`.
#[derive(Clone, Copy)]
pub struct Reading {
    pub answer: Answer,
    pub record: Record,
}

// What a record's image gives: accepted with the count of common parameters, and the record; or refused, and the empty record (tight:
// `WrongPacked.refuses_images`).
#[derive(Clone, Copy)]
pub struct Imaged {
    pub answer: Answer,
    pub held: Record,
}

impl Imaged {
    // the octets of a common parameter before its transfer parameters, and of a transfer parameter before its values
    pub const COMMON_HEAD: usize = 7;

    pub const TRANSFER_HEAD: usize = 11;

    // the longest image of a record that may be read
    pub const MOST: usize = 1
        + Imaged::COMMON_HEAD * Common::MOST
        + Imaged::TRANSFER_HEAD * Transfer::MOST
        + 2 * Transfer::MOST_OCTETS;
}

// What a parameter is found by: a common one by its header, a transfer one by its name and which of those with the name, counted from 0.
#[derive(Clone, Copy)]
pub enum Key {
    Header(u8),
    Name(u8, usize),
}

// Where a parameter or its contents stand: from an octet to before another.
pub type Found = Option<(usize, usize)>;

// A row of a listing: offset of the header, header, length of the contents. Laid out as in C, so that any caller can lend a table of them.
#[repr(C)]
#[derive(Clone, Copy)]
pub struct Row {
    pub offset: usize,
    pub header: u8,
    pub len: usize,
}

impl Row {
    // the octets of a row in a table of octets
    pub const OCTETS: usize = 5;
}

// Where a walk over a message stands. at: the next header. end: where the C5 ends that this header is in, and outside C5 `at` too.
#[derive(Clone, Copy)]
pub struct Cursor {
    pub at: usize,
    pub end: usize,
}

// How an octet of charging information is drawn: one whole number, a digit in each half, or an IA5 character for a digit.
#[derive(Clone, Copy)]
pub enum Drawn {
    Whole,
    Halves,
    Character,
}

// The fields of charging information.
#[derive(Clone, Copy)]
pub enum Field {
    UnitFee,
    InitialUnits,
    Day,
    Night,
    LateNight1,
    LateNight2,
    Mbi,
    InformationInterval,
    InformationUnits,
    FreeTime,
    CheckDigit,
}

// What charging information says: its kind, and its fields as whole numbers, times in half seconds; 0 where the kind has no such field.
#[derive(Clone, Copy)]
pub struct Charges {
    pub kind: u8,
    pub unit_fee: u16,
    pub initial_units: u16,
    pub day: u16,
    pub night: u16,
    pub late_night_1: u16,
    pub late_night_2: u16,
    pub mbi: u16,
    pub information_interval: u16,
    pub information_units: u16,
    pub free_time: u16,
    pub check_digit: u16,
}

impl Charges {
    // the kinds, by what they tell: numbers and no enum, since a record may hold any octet here
    pub const UNITS_AND_TIMES: u8 = 1;

    pub const NO_RATE: u8 = 2;

    pub const MBI_AND_INTERVAL: u8 = 3;

    pub const MBI_AND_UNITS: u8 = 4;

    pub const MBI_ALONE: u8 = 5;

    pub const FEE_AND_TIMES: u8 = 8;

    pub const FEE_AND_INTERVAL: u8 = 9;

    pub const FEE_AND_UNITS: u8 = 10;

    // the octets before the fields: who is charged and how, carried unread, and the kind; and where the kind stands
    pub const HEAD: usize = 2;

    pub const KIND_AT: usize = 1;

    // the octets of the answer for Rust and C: the kind, and two for each field
    pub const OCTETS: usize = 23;
}

// What the charging information of a message says, or why there is none.
pub type ChargingAnswer = Result<Charges, Refusal>;

// How a parameter of a connection order is laid out behind its header: one octet; a length octet, which is 1, and one octet; one octet with
// bit 7 set; a whole octet of count and digits; and behind a length octet a number, what controls an ARE, what controls its logic, or
// guidance, which is carried; three figures.
#[derive(Clone, Copy)]
pub enum OrderLayout {
    TrunkKind,
    ReleaseKind,
    RedirectReason,
    SentDigits,
    ForwardNumber,
    AreControl,
    AreLogic,
    Guidance,
    WaitingTime,
}

// A connection order.
#[derive(Clone, Copy)]
pub struct Order;

impl Order {
    // the headers of its parameters
    pub const TRUNK: u8 = 0x41;

    pub const RELEASE: u8 = 0x42;

    pub const REDIRECT_REASON: u8 = 0x43;

    pub const SENT_DIGITS: u8 = 0x91;

    pub const FORWARD_NUMBER: u8 = 0x92;

    pub const CALLING_ARE: u8 = 0xC9;

    pub const CALLED_ARE: u8 = 0xCA;

    pub const CALLING_GUIDANCE: u8 = 0xCB;

    pub const CALLED_ARE_LOGIC: u8 = 0xCC;

    pub const TIMEOUT_ARE: u8 = 0xCD;

    pub const CALLED_GUIDANCE: u8 = 0xCE;

    pub const TIMEOUT_GUIDANCE: u8 = 0xCF;

    pub const WAITING_TIME: u8 = 0xD2;

    // how many these are
    pub const HEADERS: usize = 13;

    // the form, before the parameters
    pub const HEAD: usize = 1;

    // the code or the kind and the repeat count, before the characters or the key; and where the repeat count stands, and the most that it
    // says
    pub const REPEATED_HEAD: usize = 2;

    pub const REPEATS_AT: usize = 1;

    pub const MOST_REPEATS: u8 = 3;

    // bit 7, which says that no octet of the redirection's reason follows
    pub const LAST_OCTET: u8 = 0x80;

    // beside the figures: between two parameters of an ARE, and behind them
    pub const SEPARATOR: u8 = b';';

    pub const ETX: u8 = 0x03;
}

// The carriers of CC.
#[derive(Clone, Copy)]
pub struct Carriers;

impl Carriers {
    // what the direction octet says at most: two bits
    pub const MOST_DIRECTION: u8 = 3;

    // the tags of carrier entries: the SCP's carrier before and after a move, the SCP's, the originating, the terminating, the selected
    // transit and the route's carrier
    pub const SCP_BEFORE: u8 = 0xF8;

    pub const SCP_AFTER: u8 = 0xF9;

    pub const SCP: u8 = 0xFA;

    pub const ORIGINATING: u8 = 0xFB;

    pub const TERMINATING: u8 = 0xFC;

    pub const SELECTED_TRANSIT: u8 = 0xFD;

    pub const ROUTE: u8 = 0xFE;

    // the lowest tag of each level, and the highest of both
    pub const LOWEST_CARRIER: u8 = Carriers::SCP_BEFORE;

    pub const LOWEST_DEPENDENT: u8 = Carriers::POI_STAGE;

    pub const HIGHEST_TAG: u8 = Carriers::ROUTE;

    // the tags of dependent entries: the stage and the charging area of a point of interface, and a carrier's code
    pub const POI_STAGE: u8 = 0xFC;

    pub const POI_AREA: u8 = 0xFD;

    pub const CODE: u8 = 0xFE;

    // the direction octet, before the entries
    pub const HEAD: usize = 1;

    // the first octet of a code, before its digits, by whether they are an even or an odd number
    pub const CODE_HEAD: usize = 1;

    pub const EVEN_COUNT: u8 = 0x00;

    pub const ODD_COUNT: u8 = 0x80;
}

// A row of the listing of CC: the level (0 the direction, 1 a carrier entry, 2 a dependent entry), the tag, of the direction its value,
// the offset of that octet in the message, how many octets the entry holds, and how many digits, where it holds a code.
#[derive(Clone, Copy)]
pub struct CarrierRow {
    pub level: u8,
    pub tag: u8,
    pub offset: usize,
    pub len: usize,
    pub digits: usize,
}

impl CarrierRow {
    // the levels: numbers and no enum, since a table for C holds them as octets
    pub const DIRECTION: u8 = 0;

    pub const CARRIER: u8 = 1;

    pub const DEPENDENT: u8 = 2;

    // the octets of a row in a table of octets
    pub const OCTETS: usize = 8;
}

// The class of a code value.
#[derive(Clone, Copy)]
pub enum Class {
    Named,
    HeldBack,
    Spare,
}

// What the class of a code value is, or why there is none.
pub type ClassAnswer = Result<Class, Refusal>;

// The network that a call enquiry comes from, as the mobile call profile knows it.
#[derive(Clone, Copy)]
pub enum Network {
    Other,
    Phs,
    Mobile,
}

impl Network {
    // what 7E says
    pub const PHS: u8 = 2;

    pub const MOBILE: u8 = 3;
}

// An added user class: a pair of D6, its name and its value.
#[derive(Clone, Copy)]
pub struct AddedClass {
    pub name: u8,
    pub value: u8,
}

impl AddedClass {
    // the names
    pub const LONG_DISTANCE_1: u8 = 0x01;

    pub const LONG_DISTANCE_2: u8 = 0x02;

    pub const MOBILE_3: u8 = 0xFB;

    pub const MOBILE_2: u8 = 0xFC;

    pub const MOBILE_1: u8 = 0xFD;

    pub const FIXED_1: u8 = 0xFE;

    // how many these are
    pub const MOST: usize = 6;

    // the octets of a pair
    pub const OCTETS: usize = 2;

    // The zero that fills unused room.
    pub fn none() -> AddedClass
        ensures { Gives no_class result }
    {
        AddedClass { name: 0, value: 0 }
    }
}

// What a call enquiry of the profile tells beside its record: its network, and the first `classes` of `class`, in the order of arrival.
// Unused room is zero. An array with its count, as in a record.
#[derive(Clone, Copy)]
pub struct Profile {
    pub network: Network,
    pub classes: u8,
    pub class: [AddedClass; AddedClass::MOST],
}

// What reading by the profile gives: the verdict, and beside it the record and what it tells, those of nothing where refused (demands:
// `profile_none`).
#[derive(Clone, Copy)]
pub struct ProfileReading {
    pub answer: Answer,
    pub record: Record,
    pub profile: Profile,
}
