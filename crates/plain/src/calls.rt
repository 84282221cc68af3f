// The calls on a draft, and what each answers.
ghost use Rattle.std.specs.Prelude.{◌≡◌};
ghost use Rattle.plain.specs.Effects.{edit_reply, sign_reply};

use wire::Refusal;

/// A header, as head is given it.
#[derive(Clone, Copy)]
pub struct Head<'a> {
    pub byte3: u8,
    pub csb: u32,
    pub cs: u8,
    pub map_type: u8,
    pub map_info: &'a [u8],
}

/// A call on a draft. A body is all of a payload after its next-payload byte. A code is a byte that
/// may name no kind, which is a refusal of its own.
#[derive_where(Clone, Copy)]
pub enum Call<'a, P> {
    Head(Head<'a>),
    Add {
        position: usize,
        code: u8,
        body: &'a [u8],
    },
    Replace {
        position: usize,
        code: u8,
        body: &'a [u8],
    },
    Remove {
        position: usize,
    },
    Close {
        profile: &'a P,
        sign_type: u8,
        length: usize,
    },
    Sign(&'a [u8]),
    Withdraw,
    Release,
}

/// What a call answers. One that the state of the draft does not take is misplaced, which is
/// neither an answer nor a refusal: so this is no Result.
#[derive(Clone, Copy, PartialEq, Eq, Debug)]
pub enum Reply {
    Done,
    Delivered(usize),
    Released(usize),
    Refused(Refusal),
    Misplaced,
}

// What an edit answers, as a reply.
impl From<Result<(), Refusal>> for Reply {
    ghost from_gives = { λ answer reply. reply ≡ edit_reply answer };

    fn from(answer: Result<(), Refusal>) -> Reply {
        match answer {
            Ok(()) => Reply::Done,
            Err(refusal) => Reply::Refused(refusal),
        }
    }
}

// What sign answers, as a reply.
impl From<Result<usize, Refusal>> for Reply {
    ghost from_gives = { λ answer reply. reply ≡ sign_reply answer };

    fn from(answer: Result<usize, Refusal>) -> Reply {
        match answer {
            Ok(length) => Reply::Delivered(length),
            Err(refusal) => Reply::Refused(refusal),
        }
    }
}
