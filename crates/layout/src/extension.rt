// The fields of an EXT.
ghost use Rattle.std.specs.Prelude.{◌≡◌, ℕ, List, drop, slice_index};
ghost use Rattle.wire.specs.Layouts.{ext_body};

use wire::{byte_at, bytes_from};

/// An EXT: type 1, length 2, data. The data of some types is one SAKKE payload.
#[derive(Clone, Copy)]
pub struct Ext<'a> {
    pub body: &'a [u8],
}

impl<'a> Ext<'a> {
    /// Type.
    pub fn ext_type(&self) -> u8
        ensures is { result ≡ slice_index self.now.body.now 0 }
        ensures drawn { (type : ℕ) (content : List ℕ)
            → self.now.body.now ≡ ext_body type content → result ≡ type }
    {
        byte_at(self.body, 0)
    }

    /// Data.
    pub fn content(&self) -> &'a [u8]
        ensures is { result.now ≡ drop 3 self.now.body.now }
        ensures drawn { (type : ℕ) (content : List ℕ)
            → self.now.body.now ≡ ext_body type content → result.now ≡ content }
    {
        bytes_from(self.body, 3)
    }
}
