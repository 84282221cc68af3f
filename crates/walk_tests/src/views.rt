// The fields of payloads, headers and sessions, by views of their bytes.
use layout::{Ext, Idr, Rand, Sakke, Sessions, Sp, T, body_of, header_view};
use wire::{Field, Slot};

#[test]
fn fields_of_payloads(rt: HostRuntime) {
    let t = T {
        body: body_of(&[11, 0, 0, 0, 0, 0, 0xee, 0xa6, 0x17, 0x80]),
    };
    assert_eq!(rt; t.seconds(), 0xeea6_1780);
    assert_eq!(rt; Rand { body: &[2, 8, 9] }.bytes(), [8, 9].as_slice());
    let idr = Idr {
        body: &[6, 1, 0, 2, 97, 98],
    };
    assert_eq!(rt; (idr.role(), idr.id_type()), (6, 1));
    assert_eq!(rt; idr.content(), b"ab".as_slice());
    let sp = Sp {
        body: &[200, 3, 0, 3, 5, 1, 9],
    };
    assert_eq!(rt; (sp.policy(), sp.protocol()), (200, 3));
    assert_eq!(rt; sp.items(), [5, 1, 9].as_slice());
    let sakke = Sakke {
        body: &[1, 2, 0, 1, 7],
    };
    assert_eq!(rt; (sakke.params(), sakke.scheme()), (1, 2));
    assert_eq!(rt; sakke.content(), [7].as_slice());
    let ext = Ext {
        body: &[207, 0, 2, 5, 6],
    };
    assert_eq!(rt; ext.ext_type(), 207);
    assert_eq!(rt; ext.content(), [5, 6].as_slice());
}

// A byte that is not there counts as 0.
#[test]
fn fields_that_are_cut(rt: HostRuntime) {
    assert_eq!(rt; body_of(&[]), [].as_slice());
    assert_eq!(rt; T { body: &[0, 0xff] }.seconds(), 0xff00_0000_0000_0000);
    assert_eq!(rt; Idr { body: &[6] }.id_type(), 0);
    assert_eq!(rt; Sakke { body: &[1, 2, 0] }.content(), [].as_slice());
}

#[test]
fn fields_of_headers(rt: HostRuntime) {
    let bytes = [1, 26, 5, 0x81, 0xa0, 0, 1, 2, 1, 2, 9, 0, 0, 0, 0, 0, 4];
    let header = header_view(&bytes, 16);
    assert_eq!(rt; (header.byte3, header.v(), header.prf()), (0x81, 1, 1));
    assert_eq!(rt; (header.csb, header.purpose()), (0xa000_0102, 10));
    assert_eq!(rt; (header.cs, header.map_type), (1, 2));
    assert_eq!(rt; header.map_info, [9, 0, 0, 0, 0, 0].as_slice());
    assert_eq!(rt; header_view(&bytes, 3).map_info, [].as_slice());
}

// Two sessions of a map at byte 10: the first with policies 5 and 6, the second with none.
#[test]
fn sessions_by_their_places(rt: HostRuntime) {
    let bytes = [
        1, 26, 5, 1, 0, 0, 0, 0, 2, 2, 7, 0, 2, 5, 6, 0, 0, 1, 9, 8, 0, 0, 0, 0, 0, 4,
    ];
    let mut sessions = Sessions::new(2, 10, &bytes);
    let first = sessions.next().expect(&rt, "the first session");
    assert_eq!(rt; (first.at, first.policies_at), (10, 13));
    assert_eq!(rt; first.bytes.len(), 9);
    assert_eq!(rt; first.policies(), [5, 6].as_slice());
    let second = sessions.next().expect(&rt, "the second session");
    assert_eq!(rt; (second.at, second.policies_at), (19, 22));
    assert_eq!(rt; second.policies(), [].as_slice());
    assert!(rt; sessions.next().is_none());
}

// A session whose Prot type is 1, and one that is cut.
#[test]
fn sessions_that_are_not_handed_out(rt: HostRuntime) {
    for bytes in [
        &[7, 1, 0, 0, 0, 0][..],
        &[7, 0, 0, 0, 0],
        &[7, 0, 9, 0, 0, 0],
    ] {
        assert!(rt; Sessions::new(1, 0, bytes).next().is_none());
    }
    assert!(rt; Sessions::new(1, 90, &[7, 0, 0, 0, 0, 0]).next().is_none());
    assert!(rt; Sessions::new(0, 0, &[7, 0, 0, 0, 0, 0]).next().is_none());
}

#[test]
fn all_slots_and_fields(rt: HostRuntime) {
    for (number, slot) in (1..).zip(Slot::ALL) {
        assert_eq!(rt; slot.number(), number);
    }
    assert_eq!(rt; Slot::LAST.number() as usize, Slot::ALL.len());
    assert_eq!(rt; Slot::SIGNER.number(), 3);
    for (number, field) in (1..).zip(Field::ALL) {
        assert_eq!(rt; field.number(), number);
    }
    assert_eq!(rt; Field::LAST.number() as usize, Field::ALL.len());
}
