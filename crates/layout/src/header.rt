// The header of a message, read in one place.
ghost use Rattle.std.specs.Prelude.{◌≡◌, ◌-◌, ◌/◌, ◌%◌, ◌^◌, take, drop};
ghost use Rattle.wire.specs.Limits.{fixed_header};
ghost use Rattle.wire.specs.Messages.{Message, encode};
ghost use Rattle.wire.specs.Rows.{header_length};
ghost use Rattle.wire.specs.Walking.{header_of};
ghost use Rattle.layout.specs.Headers.{header_seen};

use wire::{FIXED_HEADER, byte_at, bytes_at};

/// The fields of a header but its version, its data type and the code of the first payload.
#[derive(Clone, Copy)]
pub struct HeaderView<'a> {
    pub byte3: u8,
    /// The CSB ID, whose top four bits are the purpose.
    pub csb: u32,
    /// #CS, how many sessions the map has.
    pub cs: u8,
    pub map_type: u8,
    pub map_info: &'a [u8],
}

impl HeaderView<'_> {
    /// V, the top bit of byte 3.
    pub fn v(&self) -> u8
        ensures { result ≡ self.now.byte3 / 128 }
    {
        self.byte3 / 128
    }

    /// PRF func, the other bits of byte 3.
    pub fn prf(&self) -> u8
        ensures { result ≡ self.now.byte3 % 128 }
    {
        self.byte3 % 128
    }

    /// The purpose, the top four bits of the CSB ID.
    pub fn purpose(&self) -> u8
        ensures { result ≡ self.now.csb / 2 ^ 28 }
    {
        (self.csb >> 28) as u8
    }
}

/// The header in the first `length` bytes of a message. Bytes past the end count as 0.
pub fn header_view(message: &[u8], length: usize) -> HeaderView<'_>
    ensures is { header_seen result
        ≡ header_of message.now (take (length - fixed_header) (drop fixed_header message.now)) }
    // Of the encoding of a message it is that message's header.
    ensures drawn { (m : Message) → encode m ≡ message.now → header_length m ≡ length
        → header_seen result ≡ m.header }
{
    HeaderView {
        byte3: byte_at(message, 3),
        csb: u32::from_be_bytes([
            byte_at(message, 4),
            byte_at(message, 5),
            byte_at(message, 6),
            byte_at(message, 7),
        ]),
        cs: byte_at(message, 8),
        map_type: byte_at(message, 9),
        map_info: bytes_at(message, FIXED_HEADER, length.saturating_sub(FIXED_HEADER)),
    }
}
