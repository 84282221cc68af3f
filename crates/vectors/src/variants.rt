// The bytes of a message cut short, changed, or with one more.
use crate::records::sign;
use crate::tally::Tally;
use crate::vector::run;
use corpus::Station;
use std::alloc::{AllocError, Global};

// A message, and the station that reads its variants, if they are not only walked.
#[derive(Clone, Copy)]
pub struct Variants<'a> {
    pub alloc: Global,
    pub message: &'a [u8],
    pub station: Option<&'a Station>,
}

// What a byte is changed to: the ends of its range, its neighbours, and itself with the top bit flipped.
fn others(byte: u8) -> [u8; 5] {
    [
        0,
        255,
        byte.wrapping_add(1),
        byte.wrapping_sub(1),
        byte ^ 128,
    ]
}

impl Variants<'_> {
    // Cut after each byte, and before the first.
    pub fn cuts(&self, tally: &mut Tally) -> Result<(), AllocError> {
        for end in 0..self.message.len() {
            run(self.alloc, tally, &self.message[..end], self.station)?;
        }
        Ok(())
    }

    // With another byte at one place.
    fn with(&self, at: usize, byte: u8) -> Result<Vec<u8>, AllocError> {
        let mut changed = Vec::from_slice(self.alloc, self.message)?;
        if let Some(place) = changed.get_mut(at) {
            *place = byte;
        }
        Ok(changed)
    }

    // Each byte changed to each of the values above, that it has already among them.
    pub fn changes(&self, tally: &mut Tally) -> Result<(), AllocError> {
        for (at, byte) in self.message.iter().enumerate() {
            for other in others(*byte) {
                run(self.alloc, tally, &self.with(at, other)?, self.station)?;
            }
        }
        Ok(())
    }

    // One byte more at each place, the end among them.
    pub fn additions(&self, tally: &mut Tally) -> Result<(), AllocError> {
        for at in 0..=self.message.len() {
            for byte in [0, 1, 255] {
                let mut longer = Vec::from_slice(self.alloc, &self.message[..at])?;
                longer.push(byte)?;
                longer.extend_from_slice(&self.message[at..])?;
                run(self.alloc, tally, &longer, self.station)?;
            }
        }
        Ok(())
    }

    // Each byte at every value; signed anew where it is read, so that all but the tag is asked of it.
    pub fn values(&self, tally: &mut Tally) -> Result<(), AllocError> {
        for at in 0..self.message.len() {
            for byte in 0..=255 {
                let mut changed = self.with(at, byte)?;
                if let Some(station) = self.station {
                    sign(self.alloc, &mut changed, station.key)?;
                }
                run(self.alloc, tally, &changed, self.station)?;
            }
        }
        Ok(())
    }
}
