// A profile that is chosen at run time.
ghost use Rattle.std.specs.Prelude.{◌≡◌};
ghost use Rattle.std.specs.Bool.{⊤};
ghost use Rattle.profile.specs.AnyProfiles.{any_tables};

use crate::fixed::Fixed;
use crate::interface::{Bounds, Profile};
use crate::sheet::Sheet;
use std::alloc::AllocError;

/// A fixed profile or a sheet, as a station chooses when it runs.
#[derive(Drop)]
pub enum AnyProfile {
    Fixed(Fixed),
    Sheet(Sheet),
}

// By hand, so that a caller knows the copy to be the same profile.
impl Clone for AnyProfile {
    ghost is_clone = { λ profile copy. copy ≡ profile };

    ghost is_infallible = { λ _. ⊤ };

    fn clone(&self) -> Result<AnyProfile, AllocError> {
        match self {
            AnyProfile::Fixed(fixed) => Ok(AnyProfile::Fixed(*fixed)),
            AnyProfile::Sheet(sheet) => Ok(AnyProfile::Sheet(sheet.clone()?)),
        }
    }
}

// Each question is a match and a direct call: with a `dyn Profile` one match would be left, and
// each question an indirect call.
impl Profile for AnyProfile {
    ghost tables = { any_tables };

    fn takes(&self, field: u8, value: u8) -> bool {
        match self {
            AnyProfile::Fixed(fixed) => fixed.takes(field, value),
            AnyProfile::Sheet(sheet) => sheet.takes(field, value),
        }
    }

    fn bounds(&self, slot: u8) -> Bounds {
        match self {
            AnyProfile::Fixed(fixed) => fixed.bounds(slot),
            AnyProfile::Sheet(sheet) => sheet.bounds(slot),
        }
    }

    fn rank(&self, slot: u8) -> u8 {
        match self {
            AnyProfile::Fixed(fixed) => fixed.rank(slot),
            AnyProfile::Sheet(sheet) => sheet.rank(slot),
        }
    }
}
