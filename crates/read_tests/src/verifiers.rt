use std::test::Fail;
use verifier::{KeyTag, Pinned, TrustList, TrustRefusal, Verifier, same_bytes, same_identity};
use wire::Report;

const ZERO: KeyTag = KeyTag { key: 0 };

#[test]
fn tags(rt: HostRuntime) {
    assert_eq!(rt; ZERO.sign(b"", &[1, 2]), [0, 0, 0, 0, 0, 0, 0, 130]);
    assert_eq!(rt; ZERO.sign(&[1], &[2]), [0, 0, 0, 0, 0, 0, 0, 130]);
    let high = KeyTag { key: 1 << 63 };
    assert_eq!(rt; high.sign(b"", &[1]), [0, 0, 0, 0, 0, 0, 0, 65]);
    let full = KeyTag { key: u64::MAX };
    assert_eq!(rt; full.sign(b"", &[1]), [0; 8]);
    assert!(rt; ZERO.passes(b"", &[1, 2], &[0, 0, 0, 0, 0, 0, 0, 130]));
    assert!(rt; !ZERO.passes(b"", &[1, 2], &[0, 0, 0, 0, 0, 0, 0, 131]));
    assert!(rt; !ZERO.passes(b"", &[1, 2], &[0, 0, 0, 0, 0, 0, 130]));
}

#[test]
fn one_pinned_triple(rt: HostRuntime) {
    let pinned = Pinned {
        signer: b"a",
        span: b"b",
        signature: b"c",
    };
    assert!(rt; pinned.passes(b"a", b"b", b"c"));
    assert!(rt; !pinned.passes(b"b", b"b", b"c"));
    assert!(rt; !pinned.passes(b"a", b"a", b"c"));
    assert!(rt; !pinned.passes(b"a", b"b", b"cc"));
}

#[test]
fn comparisons(rt: HostRuntime) {
    assert!(rt; same_bytes(b"", b""));
    assert!(rt; !same_bytes(b"a", b""));
    assert!(rt; !same_bytes(b"ab", b"ac"));
    assert!(rt; same_identity(b"sip:a@b", b"sip:a@b"));
    assert!(rt; !same_identity(b"sip:a@b", b"sip:a@B"));
}

#[test]
fn a_list_that_is_full(rt: HostRuntime) {
    let mut list = TrustList::new(ZERO);
    let names = *b"abcdefgh";
    for name in names {
        assert_eq!(rt; list.enter(&[name]), Ok(()));
    }
    assert_eq!(rt; list.enter(b"i"), Err(TrustRefusal::ListFull));
    assert_eq!(rt; list.enter(b"h"), Ok(()));
    assert_eq!(rt; list.enter(b""), Err(TrustRefusal::SignerLength));
    assert!(rt; list.passes(b"h", b"", &ZERO.sign(b"h", b"")));
    assert!(rt; !list.passes(b"h", b"", &ZERO.sign(b"g", b"")));
    assert!(rt; !list.passes(b"i", b"", &ZERO.sign(b"i", b"")));
}

const TOLD: [(TrustRefusal, u8, &str); 2] = [
    (
        TrustRefusal::SignerLength,
        27,
        "a signer has 1 to 128 bytes",
    ),
    (TrustRefusal::ListFull, 28, "the trust list is full"),
];

#[test]
fn refusals_of_signers_as_they_are_told(rt: HostRuntime) -> Result<(), Fail> {
    for (refusal, number, words) in TOLD {
        let told = Report {
            number,
            place: 0,
            detail: 0,
        };
        assert_eq!(rt; refusal.report(), told);
        assert_eq!(rt; Report::from(refusal), told);
        assert_eq!(rt; format!(in rt.alloc(); "{refusal}")?.as_str(), words);
    }
    Ok(())
}

#[test]
fn signers_of_the_list(rt: HostRuntime) {
    let mut list = TrustList::new(ZERO);
    let longest = [b'x'; 128];
    assert_eq!(rt; list.enter(&[b'x'; 129]), Err(TrustRefusal::SignerLength));
    assert!(rt; !list.passes(&longest, b"", &ZERO.sign(&longest, b"")));
    assert_eq!(rt; list.enter(&longest), Ok(()));
    // entered twice, it takes one place
    for _ in 0..9 {
        assert_eq!(rt; list.enter(&longest), Ok(()));
    }
    let names = *b"abcdefg";
    for name in names {
        assert_eq!(rt; list.enter(&[name]), Ok(()));
    }
    assert!(rt; list.passes(&longest, b"", &ZERO.sign(&longest, b"")));
    assert!(rt; !list.passes(b"", b"", &ZERO.sign(b"", b"")));
}
