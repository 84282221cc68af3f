use crate::messages::{BEFORE, Report, refused};
use boundary::{TABLE_BYTES, time_bytes, walk_bytes};
use std::test::Fail;

fn walk(message: &[u8], rows: &mut [u8]) -> (u32, Report) {
    let Report {
        mut count,
        mut header,
        mut span,
        mut place,
        mut detail,
    } = BEFORE;
    let code = walk_bytes(
        message,
        rows,
        &mut count,
        &mut header,
        &mut span,
        &mut place,
        &mut detail,
    );
    let told = Report {
        count,
        header,
        span,
        place,
        detail,
    };
    (code, told)
}

// RAND of 250 bytes, then SIGN of one byte.
fn long(rt: &HostRuntime) -> Result<Vec<u8>, Fail> {
    let mut bytes = Vec::from_slice(rt.alloc(), &[1, 26, 11, 1, 0, 0, 0, 1, 0, 1, 4, 250])?;
    for _ in 0..250 {
        bytes.push(0)?;
    }
    bytes.extend_from_slice(&[0x20, 1, 0xaa])?;
    Ok(bytes)
}

#[test]
fn rows_are_six_bytes_each(rt: HostRuntime) -> Result<(), Fail> {
    let mut rows = [0xee; TABLE_BYTES + 1];
    let told = Report {
        count: 2,
        header: 10,
        span: 264,
        ..BEFORE
    };
    assert_eq!(rt; walk(&long(&rt)?, &mut rows), (0, told));
    assert_eq!(rt;
        &rows[..12],
        [11, 2, 0, 10, 0, 252, 4, 11, 1, 6, 0, 3].as_slice()
    );
    assert_eq!(rt; &rows[12..TABLE_BYTES], [0; 132].as_slice());
    assert_eq!(rt; rows[TABLE_BYTES], 0xee);
    Ok(())
}

#[test]
fn a_refusal_leaves_rows_and_numbers(rt: HostRuntime) -> Result<(), Fail> {
    let mut rows = [0xee; TABLE_BYTES];
    let mut bytes = long(&rt)?;
    bytes.push(0)?;
    assert_eq!(rt; walk(&bytes, &mut rows), (13, refused(265, 0)));
    assert_eq!(rt; rows, [0xee; TABLE_BYTES]);
    assert_eq!(rt;
        walk(&[1, 25, 4, 0, 0, 0, 0, 0, 0, 1], &mut rows),
        (5, refused(1, 0))
    );
    Ok(())
}

#[test]
fn too_few_bytes_for_rows(rt: HostRuntime) -> Result<(), Fail> {
    let mut rows = [0xee; TABLE_BYTES - 1];
    assert_eq!(rt; walk(&long(&rt)?, &mut rows), (1, refused(0, 0)));
    assert_eq!(rt; rows, [0xee; TABLE_BYTES - 1]);
    Ok(())
}

#[test]
fn time_stamps(rt: HostRuntime) {
    let mut seconds = 7;
    let mut place = 8;
    let mut detail = 9;
    let payload = [11, 0, 0xee, 0xa6, 0x17, 0x80, 0, 0, 0, 1];
    assert_eq!(rt;
        time_bytes(&payload, &mut seconds, &mut place, &mut detail),
        0
    );
    assert_eq!(rt; (seconds, place, detail), (0xeea6_1780_0000_0001, 8, 9));
    assert_eq!(rt;
        time_bytes(&payload[..9], &mut seconds, &mut place, &mut detail),
        11
    );
    assert_eq!(rt; (seconds, place, detail), (0xeea6_1780_0000_0001, 0, 0));
}
