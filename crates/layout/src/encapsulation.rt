// The fields of a SAKKE.
ghost use Rattle.std.specs.Prelude.{◌≡◌, ℕ, List, drop, slice_index};
ghost use Rattle.wire.specs.Layouts.{sakke_body};

use wire::{byte_at, bytes_from};

/// A SAKKE: SAKKE params 1, ID scheme 1, SAKKE data length 2, SAKKE data.
#[derive(Clone, Copy)]
pub struct Sakke<'a> {
    pub body: &'a [u8],
}

impl<'a> Sakke<'a> {
    /// SAKKE params.
    pub fn params(&self) -> u8
        ensures is { result ≡ slice_index self.now.body.now 0 }
        ensures drawn { (params scheme : ℕ) (content : List ℕ)
            → self.now.body.now ≡ sakke_body params scheme content → result ≡ params }
    {
        byte_at(self.body, 0)
    }

    /// ID scheme.
    pub fn scheme(&self) -> u8
        ensures is { result ≡ slice_index self.now.body.now 1 }
        ensures drawn { (params scheme : ℕ) (content : List ℕ)
            → self.now.body.now ≡ sakke_body params scheme content → result ≡ scheme }
    {
        byte_at(self.body, 1)
    }

    /// SAKKE data.
    pub fn content(&self) -> &'a [u8]
        ensures is { result.now ≡ drop 4 self.now.body.now }
        ensures drawn { (params scheme : ℕ) (content : List ℕ)
            → self.now.body.now ≡ sakke_body params scheme content → result.now ≡ content }
    {
        bytes_from(self.body, 4)
    }
}
