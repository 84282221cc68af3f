use crate::stations::{head, set};
use drafter::begin;
use plain::Head;
use wire::Refusal;

#[test]
fn the_bytes_that_count_are_cleared(rt: HostRuntime) {
    let mut buffer = [7u8; 8193];
    let open = begin(&mut buffer);
    assert!(rt; open.bytes().is_empty());
    drop(open);
    assert_eq!(rt; buffer[0], 0);
    assert_eq!(rt; buffer[8191], 0);
    assert_eq!(rt; buffer[8192], 7);
}

#[test]
fn payloads_are_added_changed_and_removed(rt: HostRuntime) {
    let mut buffer = [7u8; 32];
    let mut open = begin(&mut buffer);
    assert_eq!(rt; open.add(0, 11, &[0]), Err(Refusal::NoHeader));
    assert_eq!(rt; set(&mut open, &head()), Ok(()));
    assert_eq!(rt; open.bytes(), [1, 26, 0, 1, 32, 0, 0, 1, 0, 1].as_slice());
    assert_eq!(rt; open.add(0, 11, &[1, 9]), Ok(()));
    assert_eq!(rt;
        open.bytes(),
        [1, 26, 11, 1, 32, 0, 0, 1, 0, 1, 0, 1, 9].as_slice()
    );
    assert_eq!(rt; open.add(0, 14, &[1, 1, 0, 0]), Ok(()));
    assert_eq!(rt;
        open.bytes(),
        [1, 26, 14, 1, 32, 0, 0, 1, 0, 1, 11, 1, 1, 0, 0, 0, 1, 9].as_slice()
    );
    assert_eq!(rt; open.replace(1, 11, &[0]), Ok(()));
    assert_eq!(rt;
        open.bytes(),
        [1, 26, 14, 1, 32, 0, 0, 1, 0, 1, 11, 1, 1, 0, 0, 0, 0].as_slice()
    );
    assert_eq!(rt; open.remove(2), Err(Refusal::NoPosition));
    assert_eq!(rt; open.remove(0), Ok(()));
    assert_eq!(rt;
        open.bytes(),
        [1, 26, 11, 1, 32, 0, 0, 1, 0, 1, 0, 0].as_slice()
    );
    drop(open);
    assert_eq!(rt; buffer[12], 0);
    assert_eq!(rt; buffer[31], 0);
}

#[test]
fn what_an_edit_refuses(rt: HostRuntime) {
    let mut buffer = [0u8; 14];
    let mut open = begin(&mut buffer);
    assert_eq!(rt;
        set(&mut open, &Head { cs: 1, ..head() }),
        Err(Refusal::SessionMap(0))
    );
    assert_eq!(rt;
        set(
            &mut open,
            &Head {
                map_info: &[0],
                ..head()
            }
        ),
        Err(Refusal::MapInfoLeft)
    );
    assert_eq!(rt; set(&mut open, &head()), Ok(()));
    assert_eq!(rt; open.add(1, 11, &[0]), Err(Refusal::NoPosition));
    assert_eq!(rt; open.add(0, 4, &[0x20, 1, 0]), Err(Refusal::UnknownCode(0)));
    assert_eq!(rt; open.add(0, 11, &[1]), Err(Refusal::PayloadCut(0)));
    assert_eq!(rt; open.add(0, 11, &[1, 2, 3]), Err(Refusal::BytesLeft(0)));
    assert_eq!(rt; open.add(0, 11, &[3, 1, 2, 3]), Err(Refusal::NoRoom));
    assert_eq!(rt; open.add(0, 11, &[2, 1, 2]), Ok(()));
    assert_eq!(rt; open.replace(0, 11, &[3, 1, 2, 3]), Err(Refusal::NoRoom));
    assert_eq!(rt;
        open.bytes(),
        [1, 26, 11, 1, 32, 0, 0, 1, 0, 1, 0, 2, 1, 2].as_slice()
    );
}

#[test]
fn at_most_23_payloads(rt: HostRuntime) {
    let mut buffer = [0u8; 100];
    let mut open = begin(&mut buffer);
    assert_eq!(rt; set(&mut open, &head()), Ok(()));
    for i in 0..23 {
        assert_eq!(rt; open.add(i, 11, &[0]), Ok(()));
    }
    assert_eq!(rt; open.add(0, 11, &[0]), Err(Refusal::DraftFull));
    assert_eq!(rt; open.bytes().len(), 56);
    drop(open);
    let mut full = [0u8; 100];
    full[..10].copy_from_slice(&[1, 26, 11, 1, 32, 0, 0, 1, 0, 1]);
    for i in 0..22 {
        full[10 + 2 * i] = 11;
    }
    assert_eq!(rt; buffer, full);
}
