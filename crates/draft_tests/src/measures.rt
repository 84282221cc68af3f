use layout::{body_length, extent, info_length, map_fits, sessions_end};
use wire::{Kind, Refusal};

// How drafts measure what they are offered.
#[test]
fn bodies_and_maps_are_measured(rt: HostRuntime) {
    assert_eq!(rt; extent(Kind::Rand, &[3]), 4);
    assert_eq!(rt; body_length(Kind::Rand, 5, &[1, 9, 9]), Ok(2));
    assert_eq!(rt;
        body_length(Kind::Rand, 5, &[3]),
        Err(Refusal::PayloadCut(5))
    );
    assert!(rt; map_fits(0, 1));
    assert!(rt; !map_fits(5, 2));
    assert_eq!(rt; info_length(1, &[0; 7]), Ok(6));
    assert_eq!(rt; info_length(2, &[0; 7]), Err(Refusal::SessionCut(6)));
    assert_eq!(rt; sessions_end(1, 3, &[9, 9, 9, 0, 0, 0, 0, 0, 0, 9]), Ok(9));
    assert_eq!(rt; sessions_end(2, 3, &[0; 10]), Err(Refusal::SessionCut(9)));
}
