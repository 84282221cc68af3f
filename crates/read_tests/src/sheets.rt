use profile::{Bounds, Fixed, Profile, Sheet, SheetRefusal};
use std::process::Abort;
use std::test::Fail;
use wire::Report;

// Each text is refused so, or is a sheet where there is no refusal.
fn each(rt: &impl Abort, refusal: Option<SheetRefusal>, texts: &[&[u8]]) {
    for text in texts {
        assert_eq!(rt; Sheet::parse(text).err(), refusal);
    }
}

#[test]
fn texts_that_are_sheets(rt: HostRuntime) {
    let texts: [&[u8]; 4] = [
        b"slot least most rank\n",
        b"slot least most rank\n1 0 0 0\n",
        b"slot least most rank\n12 24 24 24\n",
        b"slot least most rank\n2 1 1 0\n11 1 1 9\n",
    ];
    each(&rt, None, &texts);
}

// A slot has what its line says, and zeros without one.
#[test]
fn tables_of_sheets(rt: HostRuntime) -> Result<(), Fail> {
    let sheet = Sheet::parse(b"slot least most rank\n1 0 24 3\n11 1 2 24\n")?;
    for (slot, least, most, rank) in [
        (0, 0, 0, 0),
        (1, 0, 24, 3),
        (2, 0, 0, 0),
        (10, 0, 0, 0),
        (11, 1, 2, 24),
        (12, 0, 0, 0),
        (13, 0, 0, 0),
        (255, 0, 0, 0),
    ] {
        assert_eq!(rt; sheet.bounds(slot), Bounds { least, most });
        assert_eq!(rt; sheet.rank(slot), rank);
    }
    let names_only = Sheet::parse(b"slot least most rank\n")?;
    for slot in 0..=255 {
        assert_eq!(rt; names_only.bounds(slot), Bounds { least: 0, most: 0 });
        assert_eq!(rt; names_only.rank(slot), 0);
    }
    Ok(())
}

// Those of group keys, but for every purpose.
#[test]
fn fields_of_sheets(rt: HostRuntime) -> Result<(), Fail> {
    let sheet = Sheet::parse(b"slot least most rank\n")?;
    for value in 0..=255 {
        assert_eq!(rt; sheet.takes(3, value), value <= 15);
        for field in [0, 1, 2, 4, 5, 6, 7, 8, 9, 10, 11, 255] {
            assert_eq!(rt; sheet.takes(field, value), Fixed::Gmk.takes(field, value));
        }
    }
    Ok(())
}

#[test]
fn first_lines(rt: HostRuntime) {
    let texts: [&[u8]; 5] = [
        b"",
        b"slot least most rank",
        b"slot least most rank\r\n",
        b"slot  least most rank\n",
        b"1 0 0 0\n",
    ];
    each(&rt, Some(SheetRefusal::FirstLine), &texts);
}

#[test]
fn lines_that_are_not_four_numbers(rt: HostRuntime) {
    let first: [&[u8]; 9] = [
        b"slot least most rank\n2 1,5 1 0\n",
        b"slot least most rank\n2 1 1 0\r\n",
        b"slot least most rank\n2 1 1 0",
        b"slot least most rank\n2 100 1 0\n",
        b"slot least most rank\n02 1 1 0\n",
        b"slot least most rank\n2 1 1\n",
        b"slot least most rank\n2 1 1 0 \n",
        b"slot least most rank\n2  1 1 0\n",
        b"slot least most rank\n\n",
    ];
    each(&rt, Some(SheetRefusal::LineForm(21)), &first);
    let second: [&[u8]; 1] = [b"slot least most rank\n2 1 1 0\n3 -1 1 0\n"];
    each(&rt, Some(SheetRefusal::LineForm(29)), &second);
}

const TOLD: [(&[u8], u8, usize, &str); 3] = [
    (
        b"slot least most\n2 1 1\n",
        29,
        0,
        "the first line is not 'slot least most rank' and a line feed",
    ),
    (
        b"slot least most rank\n2 1,5 1 0\n",
        30,
        21,
        "a line is not four numbers, one space between, and a line feed, byte 21",
    ),
    (
        b"slot least most rank\n2 1 1 0\n2 2 1 0\n",
        31,
        29,
        "a line's numbers are out of bounds, or its slot does not rise, byte 29",
    ),
];

// The two numbers that are told of a sheet's line, and its words.
#[test]
fn refusals_of_sheets_as_they_are_told(rt: HostRuntime) -> Result<(), Fail> {
    for (text, number, place, words) in TOLD {
        let refusal = Sheet::parse(text).err().expect(&rt, "a refusal");
        let told = Report {
            number,
            place,
            detail: 0,
        };
        assert_eq!(rt; refusal.report(), told);
        assert_eq!(rt; Report::from(refusal), told);
        assert_eq!(rt; format!(in rt.alloc(); "{refusal}")?.as_str(), words);
    }
    Ok(())
}

#[test]
fn lines_out_of_bounds(rt: HostRuntime) {
    let first: [&[u8]; 5] = [
        b"slot least most rank\n2 2 1 0\n",
        b"slot least most rank\n0 0 1 0\n",
        b"slot least most rank\n13 0 1 0\n",
        b"slot least most rank\n2 0 25 0\n",
        b"slot least most rank\n2 0 1 25\n",
    ];
    each(&rt, Some(SheetRefusal::LineBounds(21)), &first);
    let second: [&[u8]; 2] = [
        b"slot least most rank\n3 1 1 0\n3 1 1 0\n",
        // the first line that is wrong is the one told
        b"slot least most rank\n3 1 1 0\n2 1 1 0\nx\n",
    ];
    each(&rt, Some(SheetRefusal::LineBounds(29)), &second);
}
