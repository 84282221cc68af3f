// Slots: which part a payload plays in its message.

pub const RAND: u8 = 2;

pub const INITIATOR: u8 = 3;

pub const SAKKE: u8 = 8;

pub const INNER_SAKKE: u8 = 9;

pub const SIGN: u8 = 11;
/// Any other IDR or EXT.
pub const OTHER: u8 = 12;

/// The slot of a payload before SIGN, from its code and its body.
pub fn slot_of(code: u8, body: &[u8]) -> u8 {
    match (code, body) {
        (5, _) => 1,
        (11, _) => RAND,
        (14, [role, ..]) => slot_of_role(*role),
        (10, _) => 7,
        (26, _) => SAKKE,
        (21, [6, ..]) => INNER_SAKKE,
        (21, [7, ..]) => 10,
        _ => OTHER,
    }
}

/// The slot of an IDR of this role.
fn slot_of_role(role: u8) -> u8 {
    match role {
        1 => INITIATOR,
        2 => 4,
        6 => 5,
        7 => 6,
        _ => OTHER,
    }
}
