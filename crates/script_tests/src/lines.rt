// What a line asks for: its numbers, its words and its comment.
use script::{Line, Room, parse};

#[test]
fn numbers_have_no_sign_and_fit(rt: HostRuntime) {
    let room = |text| match parse(text) {
        Some(Line::Begin(Room { length, fill })) => Some((length, fill)),
        _ => None,
    };
    assert_eq!(rt; room("begin 48 0xfF"), Some((48, 255)));
    assert_eq!(rt; room("\tbegin  0x30 007 # 48 bytes"), Some((48, 7)));
    let most = "begin 18446744073709551615 0";
    assert_eq!(rt; room(most), Some((18446744073709551615, 0)));
    assert_eq!(rt; room("begin 18446744073709551616 0"), None);
    assert_eq!(rt; room("begin 48 256"), None);
    assert_eq!(rt; room("begin +48 0"), None);
    assert_eq!(rt; room("begin -0 0"), None);
    assert_eq!(rt; room("begin 0x+30 0"), None);
    assert_eq!(rt; room("begin 0x 0"), None);
    assert_eq!(rt; room("begin 0X30 0"), None);
}

#[test]
fn a_line_is_one_call_or_blank(rt: HostRuntime) {
    let is_blank = |text| matches!(parse(text), Some(Line::Blank));
    assert!(rt; is_blank(""));
    assert!(rt; is_blank(" \t "));
    assert!(rt; is_blank(" #withdraw"));
    assert!(rt; matches!(parse(" withdraw #now"), Some(Line::Withdraw)));
    assert!(rt; matches!(parse("release"), Some(Line::Release)));
    assert!(rt; matches!(parse("remove 0x10"), Some(Line::Remove { position: 16 })));
    assert!(rt;
        matches!(
            parse("close csk 2 4"),
            Some(Line::Close {
                profile: "csk",
                sign_type: 2,
                length: 4
            })
        )
    );
    assert!(rt; parse("release now").is_none());
    assert!(rt; parse("Release").is_none());
    assert!(rt; parse("release#").is_none());
    assert!(rt; parse("sign").is_none());
    assert!(rt; parse("head 1 2 3 4 5 6").is_none());
    assert!(rt; parse("head 1 0x100000000 3 4 -").is_none());
}

#[test]
fn bytes_as_a_line_spells_them(rt: HostRuntime) {
    let spelled = |text| parse(text).map(|line| line.spelled());
    assert_eq!(rt; spelled("head 1 2 3 4 0a0B"), Some("0a0B"));
    assert_eq!(rt; spelled("add 0 11 00 # a T"), Some("00"));
    assert_eq!(rt; spelled("replace 0 11 0102"), Some("0102"));
    assert_eq!(rt; spelled("sign zz"), Some("zz"));
    for text in [
        "",
        "begin 8 0",
        "remove 1",
        "close csk 2 4",
        "withdraw",
        "release",
    ] {
        assert_eq!(rt; spelled(text), Some("-"));
    }
}

#[test]
fn a_comment_stands_after_the_last_argument(rt: HostRuntime) {
    assert!(rt; matches!(parse("sign #aa"), Some(Line::Sign("#aa"))));
    assert!(rt; matches!(parse("sign #aa # 0b"), Some(Line::Sign("#aa"))));
    assert!(rt; matches!(parse("sign 0a #b c"), Some(Line::Sign("0a"))));
    assert!(rt; parse("sign # 0a").is_none());
    assert!(rt;
        matches!(
            parse("add 0 11 #"),
            Some(Line::Add {
                position: 0,
                code: 11,
                body: "#"
            })
        )
    );
    assert!(rt;
        matches!(
            parse("close #csk 2 4 #now"),
            Some(Line::Close {
                profile: "#csk",
                sign_type: 2,
                length: 4
            })
        )
    );
    assert!(rt;
        matches!(
            parse("head 1 2 3 4 #5 #6"),
            Some(Line::Head { map_info: "#5", .. })
        )
    );
    assert!(rt; parse("remove #1").is_none());
    assert!(rt; parse("begin 8 #0").is_none());
    assert!(rt; parse("add 0 11 # 00").is_none());
    assert!(rt; parse("wait #for it").is_none());
}
