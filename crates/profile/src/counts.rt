// How often each slot stands among payloads.
ghost use Rattle.std.specs.Prelude.{◌≡◌, ℕ, List, [], ◌∷◌, ◌++◌, nat_le};
ghost use Rattle.profile.specs.Admits.{count};
ghost use Rattle.profile.specs.Counts.{IsCountTable};

// By the slots' numbers, and up to 255, which is as far as a bound goes. Counted as the payloads
// come: to count the rows anew for each question took longer than all the rest of what a profile is
// asked.
#[derive(Drop)]
pub(crate) struct Counts {
    by_slot: [u8; 256],
}

impl Counts {
    pub(crate) fn none() -> Counts
        ensures { IsCountTable [] result.by_slot }
    {
        Counts { by_slot: [0; 256] }
    }

    // One more of a slot.
    pub(crate) fn enter(&mut self, slot: u8)
        ensures { (ss : List ℕ) → IsCountTable ss self.old.by_slot
            → IsCountTable (ss ++ slot ∷ []) self.new.by_slot }
    {
        let place = slot as usize;
        self.by_slot[place] = self.by_slot[place].saturating_add(1);
    }

    // Whether a slot stands as often as that.
    pub(crate) fn reach(&self, slot: u8, bound: u8) -> bool
        ensures { (ss : List ℕ) → IsCountTable ss self.now.by_slot → result
            ≡ nat_le bound (count slot ss) }
    {
        self.by_slot[slot as usize] >= bound
    }
}
