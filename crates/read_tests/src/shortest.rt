// The shortest message, under the sheet that asks for SIGN alone and the verifier that pins it.
use profile::{Fixed, Profile, Sheet};
use reader::read;
use std::process::Abort;
use std::test::Fail;
use verifier::{Pinned, TrustList, TrustRefusal, Verifier};
use wire::{MOST_PAYLOADS, Refusal, Row, Walked};

const MESSAGE: [u8; 13] = [1, 26, 4, 1, 0x20, 0, 0, 1, 0, 1, 0x20, 1, 0xaa];

const SPAN: &[u8] = &[1, 26, 4, 1, 0x20, 0, 0, 1, 0, 1, 0x20, 1];

const PINNED: Pinned<'static> = Pinned {
    signer: b"",
    span: SPAN,
    signature: &[0xaa],
};

const SIGN_ALONE: &[u8] = b"slot least most rank\n11 1 1 0\n";

fn told<P: Profile, V: Verifier>(
    message: &[u8],
    profile: &P,
    verifier: &V,
) -> Result<(Walked, Row, Row), Refusal> {
    let mut rows = [Row::BLANK; MOST_PAYLOADS];
    let walked = read(message, &mut rows, profile, verifier)?;
    Ok((walked, rows[0], rows[1]))
}

#[test]
fn the_shortest_message(rt: HostRuntime) -> Result<(), Fail> {
    let sheet = Sheet::parse(SIGN_ALONE)?;
    let walked = Walked {
        count: 1,
        header: 10,
        span: 12,
    };
    let sign = Row {
        code: 4,
        slot: 11,
        start: 10,
        length: 3,
    };
    assert_eq!(rt;
        told(&MESSAGE, &sheet, &PINNED),
        Ok((walked, sign, Row::BLANK))
    );
    // it asks for T
    assert_eq!(rt;
        told(&MESSAGE, &Fixed::Csk, &PINNED),
        Err(Refusal::BelowLeast {
            length: 13,
            slot: 1,
        })
    );
    let mut message = MESSAGE;
    message[3] = 0x81;
    assert_eq!(rt;
        told(&message, &sheet, &PINNED),
        Err(Refusal::FieldNotTaken { byte: 3, field: 1 })
    );
    message[3] = 1;
    message[12] = 0xab;
    assert_eq!(rt;
        told(&message, &sheet, &PINNED),
        Err(Refusal::NotPassed(12))
    );
    Ok(())
}

// Nobody signs it, so that no list passes it.
#[test]
fn a_list_over_the_pinned_verifier(rt: HostRuntime) -> Result<(), Fail> {
    let sheet = Sheet::parse(SIGN_ALONE)?;
    let mut list = TrustList::new(PINNED);
    assert_eq!(rt; list.enter(b""), Err(TrustRefusal::SignerLength));
    assert_eq!(rt; list.enter(b"a"), Ok(()));
    assert_eq!(rt; told(&MESSAGE, &sheet, &list), Err(Refusal::NotPassed(12)));
    Ok(())
}
