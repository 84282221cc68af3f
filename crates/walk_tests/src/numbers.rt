// The numbers of kinds, slots and fields, and refusals as they are told and in words.
use std::test::Fail;
use wire::{Field, Kind, Refusal, Report, Row, Slot, UnknownNumber, Walked};

const KINDS: [(u8, Kind); 7] = [
    (4, Kind::Sign),
    (5, Kind::T),
    (10, Kind::Sp),
    (11, Kind::Rand),
    (14, Kind::Idr),
    (21, Kind::Ext),
    (26, Kind::Sakke),
];

#[test]
fn codes_of_kinds(rt: HostRuntime) {
    for (code, kind) in KINDS {
        assert_eq!(rt; kind.code(), code);
        assert_eq!(rt; Kind::try_from(code), Ok(kind));
        assert_eq!(rt; Kind::of(code), Some(kind));
    }
}

#[test]
fn codes_of_no_kind(rt: HostRuntime) {
    for number in [0, 1, 6, 12, 20, 27, 255] {
        assert_eq!(rt; Kind::try_from(number), Err(UnknownNumber { number }));
    }
}

const SLOTS: [Slot; 12] = [
    Slot::T,
    Slot::Rand,
    Slot::Idri,
    Slot::Idrr,
    Slot::Idrkmsi,
    Slot::Idrkmsr,
    Slot::Sp,
    Slot::Sakke,
    Slot::ExtSakke,
    Slot::ExtParams,
    Slot::Sign,
    Slot::Other,
];

#[test]
fn numbers_of_slots(rt: HostRuntime) {
    for (number, slot) in (1..=12).zip(SLOTS) {
        assert_eq!(rt; slot.number(), number);
        assert_eq!(rt; Slot::try_from(number), Ok(slot));
    }
}

#[test]
fn numbers_of_no_slot(rt: HostRuntime) {
    for number in [0, 13, 255] {
        assert_eq!(rt; Slot::try_from(number), Err(UnknownNumber { number }));
    }
}

const FIELDS: [Field; 10] = [
    Field::Version,
    Field::Prf,
    Field::Purpose,
    Field::Sessions,
    Field::RandLength,
    Field::IdType,
    Field::Protocol,
    Field::SakkeParams,
    Field::IdScheme,
    Field::SignType,
];

#[test]
fn numbers_of_fields(rt: HostRuntime) {
    for (number, field) in (1..=10).zip(FIELDS) {
        assert_eq!(rt; field.number(), number);
        assert_eq!(rt; Field::try_from(number), Ok(field));
    }
}

#[test]
fn numbers_of_no_field(rt: HostRuntime) {
    for number in [0, 11, 255] {
        assert_eq!(rt; Field::try_from(number), Err(UnknownNumber { number }));
    }
}

const SLOT_WORDS: [&str; 12] = [
    "T",
    "RAND",
    "IDR of role 1",
    "IDR of role 2",
    "IDR of role 6",
    "IDR of role 7",
    "SP",
    "SAKKE",
    "EXT of type 6",
    "EXT of type 7",
    "SIGN",
    "another IDR or EXT",
];

#[test]
fn slots_in_words(rt: HostRuntime) -> Result<(), Fail> {
    for (slot, words) in SLOTS.iter().zip(SLOT_WORDS) {
        assert_eq!(rt; format!(in rt.alloc(); "{slot}")?.as_str(), words);
    }
    Ok(())
}

const FIELD_WORDS: [&str; 10] = [
    "V",
    "PRF func",
    "the purpose",
    "#CS",
    "RAND len",
    "ID type",
    "Prot type",
    "SAKKE params",
    "ID scheme",
    "S type",
];

#[test]
fn fields_in_words(rt: HostRuntime) -> Result<(), Fail> {
    for (field, words) in FIELDS.iter().zip(FIELD_WORDS) {
        assert_eq!(rt; format!(in rt.alloc(); "{field}")?.as_str(), words);
    }
    Ok(())
}

#[test]
fn an_unknown_number_in_words(rt: HostRuntime) -> Result<(), Fail> {
    let unknown = UnknownNumber { number: 13 };
    assert_eq!(rt;
        format!(in rt.alloc(); "{unknown}")?.as_str(),
        "nothing has the number 13"
    );
    Ok(())
}

const TOLD: [(Refusal, &str); 5] = [
    (Refusal::FewRows, "1 0 0"),
    (Refusal::TooLong, "2 8192 0"),
    (Refusal::FieldNotTaken { byte: 3, field: 2 }, "14 3 2"),
    (
        Refusal::BelowLeast {
            length: 32,
            slot: 1,
        },
        "17 32 1",
    ),
    (Refusal::RowOutside, "26 0 0"),
];

#[test]
fn refusals_as_they_are_told(rt: HostRuntime) -> Result<(), Fail> {
    for (refusal, text) in TOLD {
        let told = Report::from(refusal);
        assert_eq!(rt; told, refusal.report());
        assert_eq!(rt; format!(in rt.alloc(); "{told}")?.as_str(), text);
    }
    Ok(())
}

#[test]
fn rows_and_numbers_as_they_are_told(rt: HostRuntime) -> Result<(), Fail> {
    let row = Row {
        code: 26,
        slot: 8,
        start: 95,
        length: 85,
    };
    assert_eq!(rt; format!(in rt.alloc(); "{row}")?.as_str(), "26 8 95 85");
    let walked = Walked {
        count: 10,
        header: 12,
        span: 279,
    };
    assert_eq!(rt; format!(in rt.alloc(); "{walked}")?.as_str(), "10 12 279");
    Ok(())
}

const WORDS: [(Refusal, &str); 8] = [
    (Refusal::TooLong, "the message is longer than 8192 bytes"),
    (Refusal::TooShort(3), "the message is shorter than 10 bytes"),
    (
        Refusal::PayloadCut(277),
        "a payload runs past the end, byte 277",
    ),
    (
        Refusal::FieldNotTaken { byte: 3, field: 2 },
        "the profile does not take this value: PRF func, byte 3",
    ),
    (
        Refusal::FieldNotTaken { byte: 0, field: 11 },
        "the profile does not take this value: an unknown field",
    ),
    (
        Refusal::RankFalls { start: 95, slot: 1 },
        "a payload has a lower rank than the one before it: T, byte 95",
    ),
    (
        Refusal::AboveMost {
            start: 16,
            slot: 13,
        },
        "a payload stands more often than the profile allows: another IDR or EXT, byte 16",
    ),
    (
        Refusal::BelowLeast {
            length: 32,
            slot: 4,
        },
        "a payload stands less often than the profile asks: IDR of role 2",
    ),
];

#[test]
fn refusals_in_words(rt: HostRuntime) -> Result<(), Fail> {
    for (refusal, text) in WORDS {
        assert_eq!(rt; format!(in rt.alloc(); "{refusal}")?.as_str(), text);
    }
    Ok(())
}
