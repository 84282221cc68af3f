// The fields of an SP.
ghost use Rattle.std.specs.Prelude.{◌≡◌, ℕ, List, drop, slice_index};
ghost use Rattle.wire.specs.Layouts.{sp_body};

use wire::{byte_at, bytes_from};

/// An SP: policy number 1, Prot type 1, length 2, policy parameters.
#[derive(Clone, Copy)]
pub struct Sp<'a> {
    pub body: &'a [u8],
}

impl<'a> Sp<'a> {
    /// The policy number.
    pub fn policy(&self) -> u8
        ensures is { result ≡ slice_index self.now.body.now 0 }
        ensures drawn { (policy prot : ℕ) (params : List ℕ)
            → self.now.body.now ≡ sp_body policy prot params → result ≡ policy }
    {
        byte_at(self.body, 0)
    }

    /// Prot type.
    pub fn protocol(&self) -> u8
        ensures is { result ≡ slice_index self.now.body.now 1 }
        ensures drawn { (policy prot : ℕ) (params : List ℕ)
            → self.now.body.now ≡ sp_body policy prot params → result ≡ prot }
    {
        byte_at(self.body, 1)
    }

    /// The items: for each type 1, length 1, value.
    pub fn items(&self) -> &'a [u8]
        ensures is { result.now ≡ drop 4 self.now.body.now }
        ensures drawn { (policy prot : ℕ) (params : List ℕ)
            → self.now.body.now ≡ sp_body policy prot params → result.now ≡ params }
    {
        bytes_from(self.body, 4)
    }
}
