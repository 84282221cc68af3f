// What every profile answers.
ghost use Rattle.std.specs.Prelude.{◌≡◌};
ghost use Rattle.profile.specs.Tables.{Tables, bounds_of};

/// The least and the most count of a slot.
#[derive(Clone, Copy, PartialEq, Eq, Debug)]
pub struct Bounds {
    pub least: u8,
    pub most: u8,
}

/// A profile says which values, payloads and orders a station takes. Its meaning is three tables;
/// asking gives the entry and alters nothing. It is asked for every number from 0 to 255, so that
/// fields and slots are numbers here and no enums.
pub trait Profile {
    ghost tables: { Self → Tables };

    // Whether the profile takes a value in a field.
    fn takes(&self, field: u8, value: u8) -> bool
        ensures { result ≡ (tables self.now).takes field value };

    fn bounds(&self, slot: u8) -> Bounds
        ensures { result ≡ bounds_of (tables self.now) slot };

    fn rank(&self, slot: u8) -> u8
        ensures { result ≡ (tables self.now).rank slot };
}
