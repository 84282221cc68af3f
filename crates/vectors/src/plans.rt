// The families of lists of calls. Each is for what its name says, and makes other calls too.
use crate::lists::Family;

// While the draft is open, mostly edits; while it is out, mostly sign and withdraw.
const EDITS: [u8; 7] = [4, 46, 25, 20, 5, 0, 0];

const ENDINGS: [u8; 7] = [2, 2, 2, 2, 2, 40, 50];

// Edits and closes by turns.
const BOTH: [u8; 7] = [8, 30, 25, 20, 17, 0, 0];

const HEADS: [u8; 7] = [70, 15, 3, 3, 4, 2, 2];

const ADDS: [u8; 7] = [1, 80, 10, 5, 4, 0, 0];

const CLOSES: [u8; 7] = [5, 10, 15, 10, 60, 0, 0];

const ANY: [u8; 7] = [8, 35, 15, 10, 20, 6, 5];

const ANY_OUT: [u8; 7] = [8, 8, 8, 8, 8, 27, 30];

// The numbers in the order of the fields.
fn family(name: &'static str, numbers: [usize; 8], open: [u8; 7], out: [u8; 7]) -> Family {
    let [lists, room, more, calls, longest, odd, full, whole] = numbers;
    Family {
        name,
        lists,
        room,
        more,
        calls,
        longest,
        odd,
        full,
        whole,
        open,
        out,
    }
}

pub fn families() -> [Family; 8] {
    [
        family("heads", [1000, 0, 120, 24, 6, 40, 2, 0], HEADS, ENDINGS),
        family("edits", [1200, 100, 300, 60, 60, 20, 2, 10], EDITS, ENDINGS),
        family(
            "little room",
            [1500, 10, 120, 40, 16, 10, 30, 5],
            BOTH,
            ENDINGS,
        ),
        family(
            "many payloads",
            [500, 500, 1000, 90, 24, 2, 0, 20],
            ADDS,
            ENDINGS,
        ),
        family(
            "long bodies",
            [300, 8190, 800, 30, 9000, 2, 30, 30],
            BOTH,
            ENDINGS,
        ),
        family(
            "messages",
            [1200, 300, 900, 16, 300, 2, 0, 100],
            CLOSES,
            ENDINGS,
        ),
        family(
            "closes",
            [1500, 180, 300, 30, 40, 4, 1, 90],
            CLOSES,
            ENDINGS,
        ),
        family(
            "anything",
            [1500, 0, 9000, 60, 300, 15, 5, 30],
            ANY,
            ANY_OUT,
        ),
    ]
}
