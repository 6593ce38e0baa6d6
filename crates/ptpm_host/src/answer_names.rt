//! The names of the numbers that calls answer: those of the constants in the header for C, without `PTPM_`.

ghost use Rattle.std.specs.Prelude.{◌≡◌, option_map};
ghost use Rattle.ptpm_host.specs.AnswerNames.{answer_name, clock_member_names, datagram_names, name_in, port_member_names, refusal_names};

/// The name of the number that a call answers, for example `ANSWERED_NEW`. `None` for a number that no call answers, and for
/// 0, by which each call says that it was done.
pub fn answer_name(number: u32) -> Option<&'static str>
    ensures { option_map (λ name. name.now) result ≡ answer_name number }
{
    datagram_name(number)
        .or(refusal_name(number))
        .or(clock_member_name(number))
        .or(port_member_name(number))
}

/// What became of a datagram or of a request, 1 to 31.
#[tactic(auto, unfolding(crate::specs::AnswerNames::name_in))]
fn datagram_name(number: u32) -> Option<&'static str>
    ensures { option_map (λ name. name.now) result ≡ name_in datagram_names number }
{
    match number {
        1 => Some("OTHER_DOMAIN"),
        2 => Some("OWN_MESSAGE"),
        3 => Some("NOT_ADDRESSED"),
        4 => Some("NOT_A_REQUEST"),
        5 => Some("ANSWERED_NEW"),
        6 => Some("ANSWERED_REPEAT"),
        7 => Some("DROPPED_OLD"),
        8 => Some("DROPPED_CONFLICT"),
        9 => Some("ANSWERED_UNNUMBERED"),
        10 => Some("NOT_A_REPLY"),
        11 => Some("OTHER_TARGET"),
        12 => Some("OTHER_SOURCE"),
        13 => Some("NOTHING_ASKED"),
        14 => Some("OTHER_NUMBER"),
        15 => Some("OTHER_CONTENT"),
        16 => Some("TOO_SHORT"),
        17 => Some("NOT_MANAGEMENT"),
        18 => Some("BAD_VERSION"),
        19 => Some("BAD_LENGTH"),
        20 => Some("BAD_ACTION"),
        21 => Some("BAD_TLV_TYPE"),
        22 => Some("BAD_TLV_LENGTH"),
        23 => Some("BAD_TEXT"),
        25 => Some("DONE"),
        26 => Some("REFUSED"),
        27 => Some("AGAIN"),
        28 => Some("FULL"),
        29 => Some("ASKED_CHANGE"),
        30 => Some("ASKED_VALUE"),
        31 => Some("ACT_NOW"),
        _ => None,
    }
}

/// Why a call changed nothing, 32 to 57 and 104 to 138.
#[tactic(auto, unfolding(crate::specs::AnswerNames::name_in))]
fn refusal_name(number: u32) -> Option<&'static str>
    ensures { option_map (λ name. name.now) result ≡ name_in refusal_names number }
{
    match number {
        32 => Some("NO_CLOCK"),
        33 => Some("NO_PORT"),
        34 => Some("NO_ROOM"),
        35 => Some("NO_MEMORY"),
        36 => Some("NOT_READABLE"),
        37 => Some("NO_SESSION"),
        38 => Some("BUSY"),
        39 => Some("NEEDS_PORT"),
        40 => Some("NOT_PERMITTED"),
        41 => Some("BAD_VALUE"),
        42 => Some("COUNT_AT_MAXIMUM"),
        43 => Some("IDLE"),
        44 => Some("GAVE_UP"),
        45 => Some("NO_REPORT"),
        46 => Some("NO_SURVEY"),
        47 => Some("OTHER_SIZES"),
        48 => Some("NO_PORTS"),
        49 => Some("TOO_MANY_PORTS"),
        50 => Some("GRANDMASTER_DIFFERS"),
        51 => Some("TOO_MANY_MANAGERS"),
        52 => Some("MANAGER_TWICE"),
        53 => Some("MANAGER_IS_EVERY"),
        54 => Some("TARGET_IS_EVERY"),
        55 => Some("SAME_CLOCK"),
        56 => Some("IDENTITY_IS_ZERO"),
        57 => Some("TARGET_IS_ZERO"),
        104 => Some("NOT_AN_IMAGE"),
        105 => Some("OTHER_VERSION"),
        106 => Some("OTHER_KIND"),
        107 => Some("DAMAGED"),
        108 => Some("OTHER_CLOCK"),
        109 => Some("OTHER_PORTS"),
        110 => Some("OTHER_SESSION"),
        112 => Some("OUT_OF_REACH"),
        113 => Some("NOT_WORDS"),
        114 => Some("UNKNOWN_ID"),
        115 => Some("WORD_COUNT"),
        116 => Some("OTHER_NAME"),
        117 => Some("NO_VALUE"),
        118 => Some("UNSAVED"),
        119 => Some("OTHER_IMAGE"),
        120 => Some("NO_ASKER"),
        121 => Some("BAD_SAY"),
        123 => Some("UNDER_WAY"),
        124 => Some("NOTHING_UNDER_WAY"),
        126 => Some("NO_JOURNAL"),
        127 => Some("NO_RECORD"),
        128 => Some("NOT_ALLOWED"),
        129 => Some("JOURNAL_WHOLE"),
        130 => Some("NO_ROLLOUT"),
        131 => Some("HAS_ENDED"),
        132 => Some("OUT_OF_TURN"),
        133 => Some("TOO_MANY_IDS"),
        134 => Some("CLOCK_HAS_ID"),
        135 => Some("RELAYED_TWICE"),
        136 => Some("BAD_SCOPE"),
        137 => Some("BAD_ACTIONS"),
        138 => Some("BAD_SIZES"),
        _ => None,
    }
}

/// Which member of a clock is out of its range, 64 to 93.
#[tactic(auto, unfolding(crate::specs::AnswerNames::name_in))]
fn clock_member_name(number: u32) -> Option<&'static str>
    ensures { option_map (λ name. name.now) result ≡ name_in clock_member_names number }
{
    match number {
        64 => Some("BAD_IDENTITY"),
        65 => Some("BAD_DOMAIN"),
        66 => Some("BAD_USER_DESCRIPTION"),
        67 => Some("BAD_TWO_STEP"),
        68 => Some("BAD_PRIORITY1"),
        69 => Some("BAD_CLOCK_CLASS"),
        70 => Some("BAD_CLOCK_ACCURACY"),
        71 => Some("BAD_VARIANCE"),
        72 => Some("BAD_PRIORITY2"),
        73 => Some("BAD_STEPS_REMOVED"),
        74 => Some("BAD_OFFSET_FROM_MASTER"),
        75 => Some("BAD_MEAN_PATH_DELAY"),
        76 => Some("BAD_PARENT_PORT"),
        77 => Some("BAD_PARENT_STATS"),
        78 => Some("BAD_OBSERVED_VARIANCE"),
        79 => Some("BAD_OBSERVED_RATE"),
        80 => Some("BAD_GRANDMASTER_PRIORITY1"),
        81 => Some("BAD_GRANDMASTER_CLASS"),
        82 => Some("BAD_GRANDMASTER_ACCURACY"),
        83 => Some("BAD_GRANDMASTER_VARIANCE"),
        84 => Some("BAD_GRANDMASTER_PRIORITY2"),
        85 => Some("BAD_GRANDMASTER"),
        86 => Some("BAD_UTC_OFFSET"),
        87 => Some("BAD_LEAP61"),
        88 => Some("BAD_LEAP59"),
        89 => Some("BAD_UTC_VALID"),
        90 => Some("BAD_PTP_TIMESCALE"),
        91 => Some("BAD_TIME_TRACEABLE"),
        92 => Some("BAD_FREQUENCY_TRACEABLE"),
        93 => Some("BAD_TIME_SOURCE"),
        _ => None,
    }
}

/// Which member of a port is out of its range, 94 to 101.
#[tactic(auto, unfolding(crate::specs::AnswerNames::name_in))]
fn port_member_name(number: u32) -> Option<&'static str>
    ensures { option_map (λ name. name.now) result ≡ name_in port_member_names number }
{
    match number {
        94 => Some("BAD_STATE"),
        95 => Some("BAD_LOG_MIN_DELAY_REQ"),
        96 => Some("BAD_PEER_DELAY"),
        97 => Some("BAD_LOG_ANNOUNCE"),
        98 => Some("BAD_RECEIPT_TIMEOUT"),
        99 => Some("BAD_LOG_SYNC"),
        100 => Some("BAD_DELAY_MECHANISM"),
        101 => Some("BAD_LOG_MIN_PDELAY"),
        _ => None,
    }
}
