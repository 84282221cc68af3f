// The call of a line with its bytes, and what the reading leaves of the scratch.
use plain::{Call, Head};
use profile::Fixed;
use script::{LineError, parse, read};

// What a reading into a scratch of four bytes gives: how many bytes, and the scratch afterwards.
fn reading(text: &str) -> (Result<usize, LineError>, [u8; 4]) {
    let mut scratch = [0xe0, 0xe1, 0xe2, 0xe3];
    let length = read(text, &mut scratch).map(|line| line.length);
    (length, scratch)
}

#[test]
fn bytes_stand_at_the_front_of_the_scratch(rt: HostRuntime) {
    assert_eq!(rt; reading("sign 0aB0"), (Ok(2), [0x0a, 0xb0, 0xe2, 0xe3]));
    assert_eq!(rt; reading("add 0 11 01"), (Ok(1), [0x01, 0xe1, 0xe2, 0xe3]));
    assert_eq!(rt; reading("replace 0 11 01020304"), (Ok(4), [1, 2, 3, 4]));
    assert_eq!(rt;
        reading("head 1 2 0 1 ff00"),
        (Ok(2), [0xff, 0x00, 0xe2, 0xe3])
    );
    assert_eq!(rt;
        reading("add 0 11 - # none"),
        (Ok(0), [0xe0, 0xe1, 0xe2, 0xe3])
    );
    assert_eq!(rt; reading("close csk 2 4"), (Ok(0), [0xe0, 0xe1, 0xe2, 0xe3]));
    assert_eq!(rt; reading(""), (Ok(0), [0xe0, 0xe1, 0xe2, 0xe3]));
}

// A line that was parsed before is read as its text is.
#[test]
fn bytes_of_a_parsed_line(rt: HostRuntime) {
    let mut scratch = [0xe0, 0xe1, 0xe2, 0xe3];
    let line = parse("add 0 11 0aB0 # a T").expect(&rt, "a call");
    assert_eq!(rt; line.read(&mut scratch).map(|read| read.length), Ok(2));
    assert_eq!(rt; scratch, [0x0a, 0xb0, 0xe2, 0xe3]);
    let mut short = [0xe4];
    assert_eq!(rt;
        line.read(&mut short).map(|read| read.length),
        Err(LineError::NoRoom)
    );
    assert_eq!(rt; short, [0xe4]);
    let wrong = parse("sign 0g").expect(&rt, "a call");
    assert_eq!(rt;
        wrong.read(&mut scratch).map(|read| read.length),
        Err(LineError::Spelling)
    );
    assert_eq!(rt; scratch, [0x0a, 0xb0, 0xe2, 0xe3]);
}

#[test]
fn a_line_that_is_not_read_leaves_the_scratch(rt: HostRuntime) {
    let untouched = [0xe0, 0xe1, 0xe2, 0xe3];
    assert_eq!(rt; reading("sing 0a"), (Err(LineError::NoCall), untouched));
    assert_eq!(rt; reading("sign 0a0"), (Err(LineError::Spelling), untouched));
    assert_eq!(rt; reading("sign #0a"), (Err(LineError::Spelling), untouched));
    assert_eq!(rt;
        reading("sign 0a0b0g"),
        (Err(LineError::Spelling), untouched)
    );
    assert_eq!(rt; reading("sign 0a -"), (Err(LineError::NoCall), untouched));
    assert_eq!(rt;
        reading("sign 0102030405"),
        (Err(LineError::NoRoom), untouched)
    );
    assert_eq!(rt;
        reading("sign 0g020304051"),
        (Err(LineError::NoRoom), untouched)
    );
    assert_eq!(rt;
        reading("sing 0102030405"),
        (Err(LineError::NoCall), untouched)
    );
}

// A call with its arguments, by its letter.
fn shown<'b>(call: Option<Call<'b, Fixed>>) -> Option<(char, usize, u8, &'b [u8])> {
    Some(match call? {
        Call::Head(
            Head {
                byte3,
                csb,
                map_info,
                ..
            },
        ) => ('h', csb as usize, byte3, map_info),
        Call::Add {
            position,
            code,
            body,
        } => ('a', position, code, body),
        Call::Replace {
            position,
            code,
            body,
        } => ('r', position, code, body),
        Call::Remove { position } => ('d', position, 0, &[]),
        Call::Close {
            sign_type,
            length,
            ..
        } => ('c', length, sign_type, &[]),
        Call::Sign(signature) => ('s', 0, 0, signature),
        Call::Withdraw => ('w', 0, 0, &[]),
        Call::Release => ('e', 0, 0, &[]),
    })
}

fn made(letter: char, number: usize, byte: u8, bytes: &[u8]) -> Option<(char, usize, u8, &[u8])> {
    Some((letter, number, byte, bytes))
}

// The call of a line, read into a scratch, under a profile.
fn call<'b>(
    text: &str,
    scratch: &'b mut [u8; 4],
    profile: Option<&'b Fixed>,
) -> Option<(char, usize, u8, &'b [u8])> {
    let line = read(text, scratch).ok()?;
    shown(line.call(scratch, profile))
}

#[test]
fn each_line_is_its_call(rt: HostRuntime) {
    let mut scratch = [0; 4];
    assert_eq!(rt;
        call("add 7 11 0102", &mut scratch, None),
        made('a', 7, 11, &[1, 2])
    );
    assert_eq!(rt;
        call("replace 7 11 03", &mut scratch, None),
        made('r', 7, 11, &[3])
    );
    assert_eq!(rt; call("remove 7", &mut scratch, None), made('d', 7, 0, &[]));
    assert_eq!(rt;
        call("head 3 9 0 1 0405", &mut scratch, None),
        made('h', 9, 3, &[4, 5])
    );
    assert_eq!(rt;
        call("sign 06070809", &mut scratch, None),
        made('s', 0, 0, &[6, 7, 8, 9])
    );
    assert_eq!(rt; call("withdraw", &mut scratch, None), made('w', 0, 0, &[]));
    assert_eq!(rt; call("release", &mut scratch, None), made('e', 0, 0, &[]));
}

#[test]
fn a_close_wants_the_profile_that_it_names(rt: HostRuntime) {
    let mut scratch = [0; 4];
    let found = Some(&Fixed::Csk);
    assert_eq!(rt;
        call("close csk 2 9", &mut scratch, found),
        made('c', 9, 2, &[])
    );
    assert_eq!(rt; call("close csk 2 9", &mut scratch, None), None);
    assert_eq!(rt; call("begin 8 0", &mut scratch, found), None);
    assert_eq!(rt; call("# add 7 11 0102", &mut scratch, found), None);
}
