// Lists of calls on a draft.
use second::draft::Answer;

/// A call with all that it is given.
#[derive(Drop)]
pub enum Call {
    Head {
        byte3: u8,
        csb: u32,
        cs: u8,
        map_type: u8,
        map_info: Vec<u8>,
    },
    Add {
        position: usize,
        code: u8,
        body: Vec<u8>,
    },
    Replace {
        position: usize,
        code: u8,
        body: Vec<u8>,
    },
    Remove(usize),
    Close {
        profile: Vec<u8>,
        sign_type: u8,
        length: usize,
    },
    Sign(Vec<u8>),
    Withdraw,
    Release,
}

/// Calls on a draft in a buffer of this length, each byte `fill` at first.
#[derive(Drop)]
pub struct List {
    pub length: usize,
    pub fill: u8,
    pub calls: Vec<Call>,
}

/// What stands after a call: the answer, the encoding then held, and what a signature is over.
#[derive(PartialEq, Eq, Drop)]
pub struct Step {
    pub answer: Answer,
    pub encoding: Vec<u8>,
    pub span: Vec<u8>,
}
