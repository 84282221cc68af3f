// The fields of a T.
ghost use Rattle.std.specs.Prelude.{◌≡◌, ℕ};
ghost use Rattle.wire.specs.Octets.{value_at};
ghost use Rattle.layout.specs.Views.{t_body};

use wire::byte_at;

/// A T: TS type 1, TS value 8.
#[derive(Clone, Copy)]
pub struct T<'a> {
    pub body: &'a [u8],
}

impl T<'_> {
    /// Seconds since 0h on 1 January 1900.
    pub fn seconds(&self) -> u64
        ensures is { result ≡ value_at 8 1 self.now.body.now }
        ensures drawn { (n : ℕ) → self.now.body.now ≡ t_body n → result ≡ n }
    {
        u64::from_be_bytes([
            byte_at(self.body, 1),
            byte_at(self.body, 2),
            byte_at(self.body, 3),
            byte_at(self.body, 4),
            byte_at(self.body, 5),
            byte_at(self.body, 6),
            byte_at(self.body, 7),
            byte_at(self.body, 8),
        ])
    }
}
