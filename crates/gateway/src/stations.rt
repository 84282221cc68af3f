// What the server and the stations have agreed on: the sheets, the key of the tag, and whom to
// trust.
use crate::key::SERVER;
use crate::tell;
use std::io;
use verifier::{KeyTag, TrustList};

/// The key of the tag.
pub const KEY: KeyTag = KeyTag {
    key: 0x0123_4567_89ab_cdef,
};

/// Whom both stations trust, if the tag is right.
pub type Trust = TrustList<KeyTag>;

/// The S type that SIGN is closed with.
pub const SIGN_TYPE: u8 = 2;

/// The length of the signature, in bytes.
pub const SIGN_LENGTH: usize = 8;

/// The length of each buffer, more than any message here has.
pub const ROOM: usize = 320;

/// T and RAND, the identities, SP, SAKKE, the key parameters, SIGN.
pub const FIRST_SHEET: &str = "slot least most rank
1 1 1 0
2 1 1 0
3 1 1 1
4 1 1 1
5 1 1 1
6 1 1 1
7 0 1 2
8 1 1 3
10 1 1 4
11 1 1 5
";

/// SAKKE before all others, and these as at the first station.
pub const SECOND_SHEET: &str = "slot least most rank
1 1 1 1
2 1 1 1
3 1 1 2
4 1 1 2
5 1 1 2
6 1 1 2
7 0 1 3
8 1 1 0
10 1 1 4
11 1 1 5
";

fn enter(rt: &HostRuntime, list: &mut Trust, signer: &[u8]) -> io::Result<()> {
    match list.enter(signer) {
        Ok(()) => println!(rt; "    ok"),
        Err(refusal) => tell::refused(rt, refusal),
    }
}

/// The group server alone is trusted: a signer of no bytes can't be.
pub fn trusted(rt: &HostRuntime) -> io::Result<Trust> {
    let mut list = TrustList::new(KEY);
    println!(rt; "The stations trust a signer of no bytes.")?;
    enter(rt, &mut list, b"")?;
    println!(rt; "The stations trust the group server.")?;
    enter(rt, &mut list, &SERVER)?;
    Ok(list)
}
