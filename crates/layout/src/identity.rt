// The fields of an IDR.
ghost use Rattle.std.specs.Prelude.{◌≡◌, ℕ, List, drop, slice_index};
ghost use Rattle.wire.specs.Layouts.{idr_body};

use wire::{byte_at, bytes_from};

/// An IDR: ID role 1, ID type 1, ID len 2, ID data.
#[derive(Clone, Copy)]
pub struct Idr<'a> {
    pub body: &'a [u8],
}

impl<'a> Idr<'a> {
    /// ID role.
    pub fn role(&self) -> u8
        ensures is { result ≡ slice_index self.now.body.now 0 }
        ensures drawn { (role type : ℕ) (content : List ℕ)
            → self.now.body.now ≡ idr_body role type content → result ≡ role }
    {
        byte_at(self.body, 0)
    }

    /// ID type.
    pub fn id_type(&self) -> u8
        ensures is { result ≡ slice_index self.now.body.now 1 }
        ensures drawn { (role type : ℕ) (content : List ℕ)
            → self.now.body.now ≡ idr_body role type content → result ≡ type }
    {
        byte_at(self.body, 1)
    }

    /// ID data.
    pub fn content(&self) -> &'a [u8]
        ensures is { result.now ≡ drop 4 self.now.body.now }
        ensures drawn { (role type : ℕ) (content : List ℕ)
            → self.now.body.now ≡ idr_body role type content → result.now ≡ content }
    {
        bytes_from(self.body, 4)
    }
}
