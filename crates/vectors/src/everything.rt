// A profile that admits every lawful message, so that a verifier alone decides.
ghost use Rattle.vectors.specs.Everything.{everything};

use profile::{Bounds, Profile};

#[derive(Clone, Copy)]
pub struct Everything;

impl Profile for Everything {
    ghost tables = { everything };

    fn takes(&self, _field: u8, _value: u8) -> bool {
        true
    }

    fn bounds(&self, _slot: u8) -> Bounds {
        Bounds { least: 0, most: 24 }
    }

    fn rank(&self, _slot: u8) -> u8 {
        0
    }
}
