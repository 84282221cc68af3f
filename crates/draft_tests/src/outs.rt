use crate::stations::{HEADER, KEY, RAND, head, holds, message, set, sheet};
use drafter::begin;
use plain::Reply;
use profile::Sheet;
use wire::Refusal;

#[test]
fn a_message_is_signed_and_withdrawn(rt: HostRuntime) {
    let sheet = sheet().expect(&rt, "a sheet");
    let mut buffer = [0u8; 64];
    let mut open = begin(&mut buffer);
    assert_eq!(rt; set(&mut open, &head()), Ok(()));
    assert_eq!(rt; open.add(0, 11, &RAND), Ok(()));
    let mut out = open.close(&sheet, 2, 8);
    assert_eq!(rt; out.bytes().len(), 38);
    assert_eq!(rt; out.span().len(), 30);
    let tag = KEY.sign(b"", out.span());
    assert_eq!(rt; out.sign(&[0; 7]), Err(Refusal::SignatureLength));
    assert_eq!(rt; out.sign(&tag), Ok(38));
    assert!(rt; out.bytes().ends_with(&tag));
    let open = out.withdraw();
    assert_eq!(rt; open.bytes().len(), 28);
    let out = open.close(&sheet, 2, 8);
    let (delivered, left) = out.release();
    assert_eq!(rt; delivered, 0);
    assert!(rt; left.ends_with(&[0; 26]));
}

// Closes a draft of a header alone under a profile, and gives what sign tells.
fn fault(sheet: &Sheet, sign_type: u8, size: usize) -> Option<Refusal> {
    let mut buffer = [0u8; 16];
    let mut open = begin(&mut buffer);
    let _ = set(&mut open, &head());
    let mut out = open.close(sheet, sign_type, size);
    let told = out.sign(&[0; 4]).err();
    let (_delivered, _buffer) = out.release();
    told
}

#[test]
fn faults_are_carried(rt: HostRuntime) {
    let sheet = sheet().expect(&rt, "a sheet");
    assert_eq!(rt; fault(&sheet, 2, 4), None);
    assert_eq!(rt; fault(&sheet, 2, 5), Some(Refusal::NoRoom));
    assert_eq!(rt; fault(&sheet, 16, 4), Some(Refusal::SignForm));
    assert_eq!(rt; fault(&sheet, 2, 0), Some(Refusal::SignForm));
    assert_eq!(rt;
        fault(&sheet, 3, 4),
        Some(Refusal::FieldNotTaken {
            byte: 10,
            field: 10
        })
    );
}

#[test]
fn a_fault_is_mended(rt: HostRuntime) {
    let sheet = sheet().expect(&rt, "a sheet");
    let mut buffer = [7u8; 50];
    let mut open = begin(&mut buffer);
    assert_eq!(rt; set(&mut open, &head()), Ok(()));
    assert_eq!(rt; open.add(0, 11, &RAND), Ok(()));
    assert_eq!(rt; open.add(1, 11, &RAND), Ok(()));
    let two = Err(Refusal::AboveMost { start: 28, slot: 2 });
    let mut out = open.close(&sheet, 2, 2);
    assert_eq!(rt; out.sign(&[5, 6]), two);
    assert_eq!(rt; out.sign(&[5]), two);
    assert_eq!(rt; out.bytes().len(), 46);
    assert_eq!(rt; out.span().len(), 0);
    let mut open = out.withdraw();
    assert_eq!(rt; open.bytes().len(), 46);
    assert_eq!(rt; open.remove(1), Ok(()));
    let mut out = open.close(&sheet, 2, 2);
    assert_eq!(rt; out.sign(&[5, 6]), Ok(32));
    let (delivered, left) = out.release();
    assert_eq!(rt; delivered, 32);
    let mut mended = [0u8; 50];
    mended[..11].copy_from_slice(&[1, 26, 11, 1, 32, 0, 0, 1, 0, 1, 4]);
    mended[11..28].copy_from_slice(&RAND);
    mended[28..32].copy_from_slice(&[0x20, 2, 5, 6]);
    assert_eq!(rt; &*left, mended.as_slice());
}

#[test]
fn the_last_signature_stands(rt: HostRuntime) {
    let sheet = sheet().expect(&rt, "a sheet");
    let mut buffer = [7u8; 16];
    let mut open = begin(&mut buffer);
    assert_eq!(rt; set(&mut open, &head()), Ok(()));
    let mut out = open.close(&sheet, 2, 4);
    for wrong in [[].as_slice(), &[9; 3], &[9; 5]] {
        assert_eq!(rt; out.sign(wrong), Err(Refusal::SignatureLength));
        assert_eq!(rt; out.bytes(), message([0; 4]).as_slice());
    }
    assert_eq!(rt; out.sign(&[1, 2, 3, 4]), Ok(16));
    assert_eq!(rt; out.bytes(), message([1, 2, 3, 4]).as_slice());
    assert_eq!(rt; out.sign(&[5, 6, 7, 8]), Ok(16));
    assert_eq!(rt; out.sign(&[9; 3]), Err(Refusal::SignatureLength));
    let (delivered, left) = out.release();
    assert_eq!(rt; delivered, 16);
    assert_eq!(rt; &*left, message([5, 6, 7, 8]).as_slice());
}

// Closes a draft of a header alone and releases it without a signature.
fn unsigned(sheet: &Sheet, sign_type: u8) -> (usize, [u8; 16]) {
    let mut buffer = [7u8; 16];
    let mut open = begin(&mut buffer);
    let _ = set(&mut open, &head());
    let (delivered, _buffer) = open.close(sheet, sign_type, 4).release();
    (delivered, buffer)
}

#[test]
fn released_without_a_signature(rt: HostRuntime) {
    let sheet = sheet().expect(&rt, "a sheet");
    let (delivered, buffer) = unsigned(&sheet, 2);
    assert_eq!(rt; delivered, 0);
    assert_eq!(rt; buffer, message([0; 4]));
    let (delivered, buffer) = unsigned(&sheet, 3);
    assert_eq!(rt; delivered, 0);
    assert!(rt; holds(&buffer, &HEADER, 0));
}

#[test]
fn answers_are_replies(rt: HostRuntime) {
    let edits: [(Result<(), Refusal>, Reply); 2] = [
        (Ok(()), Reply::Done),
        (Err(Refusal::NoRoom), Reply::Refused(Refusal::NoRoom)),
    ];
    for (answer, reply) in edits {
        assert_eq!(rt; Reply::from(answer), reply);
    }
}

#[test]
fn answers_of_sign_are_replies(rt: HostRuntime) {
    let signs: [(Result<usize, Refusal>, Reply); 3] = [
        (Ok(13), Reply::Delivered(13)),
        (Ok(0), Reply::Delivered(0)),
        (Err(Refusal::SignForm), Reply::Refused(Refusal::SignForm)),
    ];
    for (answer, reply) in signs {
        assert_eq!(rt; Reply::from(answer), reply);
    }
}
