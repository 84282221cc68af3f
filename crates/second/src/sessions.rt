// The sessions of the map info.
ghost use Rattle.std.specs.Prelude.{◌<◌, ◌≤◌, ◌+◌, ◌^◌, length, IfOk};

use crate::fault::Fault;
use crate::kind::{byte_or_zero, pair_or_zero};

/// Whether #CS goes with the map type: none with type 1, one to four with type 2.
pub fn is_lawful_map(map_type: u8, cs: u8) -> bool {
    matches!((map_type, cs), (1, 0) | (2, 1..=4))
}

/// How many bytes `count` sessions at the front of `rest` take; `start` is where `rest` begins.
pub fn sessions_length(count: u8, rest: &[u8], start: usize) -> Result<usize, Fault>
    requires { start + length rest.now < 2 ^ 64 }
    ensures { IfOk result (λ n. n ≤ length rest.now) }
{
    if count == 0 {
        return Ok(0);
    }
    let session = Session::at_front(rest);
    let extent = session.extent();
    if extent > rest.len() {
        return Err(Fault::at(7, start));
    }
    if !session.is_lawful() {
        return Err(Fault::at(8, start));
    }
    let further = sessions_length(count - 1, &rest[extent..], start + extent)?;
    Ok(extent + further)
}

/// What a session says of itself; bytes past the end count as 0.
#[derive(Clone, Copy)]
struct Session {
    prot_type: u8,
    /// S, which chooses between the two forms of session data.
    long_data: bool,
    policies: u8,
    data_length: u16,
    spi_length: u8,
}

impl Session {
    fn at_front(rest: &[u8]) -> Session {
        let third = byte_or_zero(rest, 2);
        let policies = third & 0x7f;
        let data_length = pair_or_zero(rest, 3 + u16::from(policies));
        let spi_at = 5 + usize::from(policies) + usize::from(data_length);
        Session {
            prot_type: byte_or_zero(rest, 1),
            long_data: third >= 0x80,
            policies,
            data_length,
            spi_length: byte_or_zero(rest, spi_at),
        }
    }

    fn extent(&self) -> usize {
        6 + usize::from(self.policies)
            + usize::from(self.data_length)
            + usize::from(self.spi_length)
    }

    fn is_lawful(&self) -> bool {
        let lawful_length = if self.long_data { 10 } else { 4 };
        self.prot_type == 0 && (self.data_length == 0 || self.data_length == lawful_length)
    }
}
