use crate::messages::{BEFORE, KEY, Report, SHEET, refused, signed};
use boundary::{TABLE_BYTES, read_fixed, read_sheet, redraft_fixed, redraft_sheet};
use std::test::Fail;

fn read_by_number(message: &[u8], profile: u32, trusted: &[u8]) -> (u32, Report) {
    let Report {
        mut count,
        mut header,
        mut span,
        mut place,
        mut detail,
    } = BEFORE;
    let mut rows = [0; TABLE_BYTES];
    let code = read_fixed(
        message,
        &mut rows,
        profile,
        KEY,
        trusted,
        &mut count,
        &mut header,
        &mut span,
        &mut place,
        &mut detail,
    );
    let told = Report {
        count,
        header,
        span,
        place,
        detail,
    };
    (code, told)
}

fn read_by_sheet(message: &[u8], rows: &mut [u8], sheet: &[u8], trusted: &[u8]) -> (u32, Report) {
    let Report {
        mut count,
        mut header,
        mut span,
        mut place,
        mut detail,
    } = BEFORE;
    let code = read_sheet(
        message,
        rows,
        sheet,
        KEY,
        trusted,
        &mut count,
        &mut header,
        &mut span,
        &mut place,
        &mut detail,
    );
    let told = Report {
        count,
        header,
        span,
        place,
        detail,
    };
    (code, told)
}

#[test]
fn what_the_sheet_admits(rt: HostRuntime) -> Result<(), Fail> {
    let message = signed(rt.alloc())?;
    let mut rows = [0xee; TABLE_BYTES];
    let told = Report {
        count: 2,
        header: 10,
        span: 18,
        ..BEFORE
    };
    let read = read_by_sheet(&message, &mut rows, SHEET, &[1, b'b', 1, b'a']);
    assert_eq!(rt; read, (0, told));
    assert_eq!(rt;
        &rows[..13],
        [14, 3, 0, 10, 0, 6, 4, 11, 0, 16, 0, 10, 0].as_slice()
    );
    Ok(())
}

#[test]
fn what_is_not_trusted_or_not_lent(rt: HostRuntime) -> Result<(), Fail> {
    let message = signed(rt.alloc())?;
    let mut few = [0xee; TABLE_BYTES - 1];
    assert_eq!(rt;
        read_by_sheet(&message, &mut few, SHEET, &[1, b'a']),
        (1, refused(0, 0))
    );
    let mut rows = [0xee; TABLE_BYTES];
    assert_eq!(rt;
        read_by_sheet(&message, &mut rows, SHEET, &[1, b'b']),
        (18, refused(18, 0))
    );
    assert_eq!(rt; rows, [0xee; TABLE_BYTES]);
    Ok(())
}

#[test]
fn sheets_that_are_refused(rt: HostRuntime) -> Result<(), Fail> {
    let message = signed(rt.alloc())?;
    let mut rows = [0xee; TABLE_BYTES];
    let names = b"slot least most rank\n";
    assert_eq!(rt;
        read_by_sheet(&message, &mut rows, b"slot", &[]),
        (29, refused(0, 0))
    );
    assert_eq!(rt;
        read_by_sheet(&message, &mut rows, names, &[]),
        (16, refused(10, 3))
    );
    assert_eq!(rt;
        read_by_sheet(&message, &mut rows, b"slot least most rank\n1 1\n", &[]),
        (30, refused(21, 0))
    );
    assert_eq!(rt;
        read_by_sheet(&message, &mut rows, b"slot least most rank\n1 2 1 0\n", &[]),
        (31, refused(21, 0))
    );
    assert_eq!(rt; rows, [0xee; TABLE_BYTES]);
    Ok(())
}

#[test]
fn numbers_of_profiles(rt: HostRuntime) -> Result<(), Fail> {
    let message = signed(rt.alloc())?;
    assert_eq!(rt; read_by_number(&message, 0, &[]), (100, refused(0, 0)));
    assert_eq!(rt; read_by_number(&message, 4, &[9]), (100, refused(0, 0)));
    // purpose 0 is that of a group key, field 3; then no T stands, slot 1
    assert_eq!(rt; read_by_number(&message, 1, &[]), (14, refused(4, 3)));
    assert_eq!(rt; read_by_number(&message, 2, &[]), (14, refused(4, 3)));
    assert_eq!(rt; read_by_number(&message, 3, &[]), (17, refused(26, 1)));
    Ok(())
}

#[test]
fn trust_lists_that_are_refused(rt: HostRuntime) -> Result<(), Fail> {
    let message = signed(rt.alloc())?;
    assert_eq!(rt;
        read_by_number(&message, 3, &[1, b'a', 2, b'b']),
        (101, refused(2, 0))
    );
    assert_eq!(rt;
        read_by_number(&message, 3, &[1, b'a', 0]),
        (27, refused(0, 0))
    );
    let eight = *b"\x01a\x01b\x01c\x01d\x01e\x01f\x01g\x01h";
    assert_eq!(rt; read_by_number(&message, 3, &eight), (17, refused(26, 1)));
    let nine = *b"\x01a\x01b\x01c\x01d\x01e\x01f\x01g\x01h\x01i";
    assert_eq!(rt; read_by_number(&message, 3, &nine), (28, refused(0, 0)));
    Ok(())
}

// What it returns, and the length, the place and the detail afterwards.
fn again(message: &[u8], key: u64, buffer: &mut [u8]) -> (u32, u32, u32, u32) {
    let mut length = 7;
    let mut place = 8;
    let mut detail = 9;
    let code = redraft_sheet(
        message,
        SHEET,
        key,
        &[1, b'a'],
        buffer,
        &mut length,
        &mut place,
        &mut detail,
    );
    (code, length, place, detail)
}

#[test]
fn a_message_drafted_again(rt: HostRuntime) -> Result<(), Fail> {
    let message = signed(rt.alloc())?;
    let mut buffer = [0xee; 26];
    assert_eq!(rt; again(&message, KEY, &mut buffer), (0, 26, 8, 9));
    assert_eq!(rt; buffer.as_slice(), message.as_slice());
    Ok(())
}

#[test]
fn a_message_not_drafted_again(rt: HostRuntime) -> Result<(), Fail> {
    let message = signed(rt.alloc())?;
    let mut buffer = [0xee; 25];
    assert_eq!(rt; again(&message, KEY, &mut buffer), (23, 7, 0, 0));
    assert_eq!(rt; again(&message, KEY / 2, &mut buffer), (18, 7, 18, 0));
    assert_eq!(rt; buffer, [0xee; 25]);
    Ok(())
}

fn again_by_number(message: &[u8], profile: u32, buffer: &mut [u8]) -> (u32, u32, u32, u32) {
    let mut length = 7;
    let mut place = 8;
    let mut detail = 9;
    let code = redraft_fixed(
        message,
        profile,
        KEY,
        &[1, b'a'],
        buffer,
        &mut length,
        &mut place,
        &mut detail,
    );
    (code, length, place, detail)
}

#[test]
fn a_message_drafted_again_by_number(rt: HostRuntime) -> Result<(), Fail> {
    let message = signed(rt.alloc())?;
    let mut buffer = [0xee; 26];
    assert_eq!(rt; again_by_number(&message, 3, &mut buffer), (17, 7, 26, 1));
    assert_eq!(rt; again_by_number(&message, 5, &mut buffer), (100, 7, 0, 0));
    assert_eq!(rt; buffer, [0xee; 26]);
    Ok(())
}
