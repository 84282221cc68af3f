// What a close asks SIGN to be.
ghost use Rattle.std.specs.Prelude.{◌≡◌, ◌+◌, ◌*◌, ◌<◌, IfSome};
ghost use Rattle.std.specs.Option.{is_some};
ghost use Rattle.wire.specs.Octets.{in_bytes};
ghost use Rattle.plain.specs.Steps.{sign_fits};

use wire::LONGEST_SIGNATURE;

// An S type in four bits, and a signature of 1 to 4,095 bytes.
#[derive(Clone, Copy)]
pub(crate) struct Form {
    pub(crate) sign_type: u8,
    pub(crate) size: usize,
    ghost small: { sign_type < 16 },
    ghost least: { 0 < size },
    ghost most: { size < 4096 },
}

impl Form {
    pub(crate) fn new(sign_type: u8, size: usize) -> Option<Form>
        ensures fits { is_some result ≡ sign_fits sign_type size }
        ensures is { IfSome result (λ form. (form.sign_type ≡ sign_type) × (form.size ≡ size)) }
    {
        if sign_type <= 15 && size >= 1 && size <= LONGEST_SIGNATURE {
            Some(Form { sign_type, size })
        } else {
            None
        }
    }

    // S type and the signature's length, in two bytes.
    pub(crate) fn length(self) -> [u8; 2]
        ensures { result ≡ in_bytes 2 (self.sign_type * 4096 + self.size) }
    {
        (u16::from(self.sign_type) * 4096 + self.size as u16).to_be_bytes()
    }
}
