// How vectors came out.
use corpus::Answer;
use std::alloc::{AllocError, Global};
use std::fmt;

// How many differences of a family are told with their bytes. The others are only counted.
const TOLD: usize = 4;

#[derive(Drop)]
pub struct Tally {
    pub vectors: u64,
    pub agreed: u64,
    pub taken: u64,
    // How often each refusal was told.
    pub refused: [u64; 32],
    // The first differences, each a line.
    pub differences: Vec<String>,
}

fn up(count: &mut u64, by: u64) {
    *count = count.saturating_add(by);
}

impl Tally {
    pub fn new(alloc: Global) -> Tally {
        Tally {
            vectors: 0,
            agreed: 0,
            taken: 0,
            refused: [0; 32],
            differences: Vec::new(alloc),
        }
    }

    // An answer by its number, 0 where it takes.
    pub fn count(&mut self, number: u8, agrees: bool) {
        up(&mut self.vectors, 1);
        if agrees {
            up(&mut self.agreed, 1);
        }
        if number == 0 {
            up(&mut self.taken, 1);
        } else if let Some(count) = self.refused.get_mut(usize::from(number)) {
            up(count, 1);
        }
    }

    // An answer of ours and one of the second decoder to these bytes, and whether what they have beside
    // their answers is the same.
    pub fn compare(
        &mut self,
        alloc: Global,
        ours: &Answer,
        theirs: &Answer,
        alike: bool,
        bytes: &[u8],
    ) -> Result<(), AllocError> {
        let agrees = alike && ours == theirs;
        self.count(theirs.number(), agrees);
        if agrees || self.differences.len() >= TOLD {
            return Ok(());
        }
        let spelled = hex::encode(alloc, bytes)?;
        self.tell(format!(in alloc; "ours {ours}, second {theirs}, alike {alike}: {spelled}")?)
    }

    // A difference, if not enough are told already.
    pub fn tell(&mut self, line: String) -> Result<(), AllocError> {
        if self.differences.len() < TOLD {
            self.differences.push(line)?;
        }
        Ok(())
    }

    // With the vectors of another one.
    pub fn gather(&mut self, other: &Tally) {
        up(&mut self.vectors, other.vectors);
        up(&mut self.agreed, other.agreed);
        up(&mut self.taken, other.taken);
        for (count, more) in self.refused.iter_mut().zip(other.refused) {
            up(count, more);
        }
    }
}

// With `NUMBER:COUNT` for each refusal that occurred.
impl fmt::Display for Tally {
    fn fmt<W: fmt::Write>(&self, f: &mut fmt::Formatter<W>) -> fmt::Result {
        write!(f, "{} run, {} taken", self.vectors, self.taken)?;
        for (number, count) in self.refused.iter().enumerate() {
            if *count > 0 {
                write!(f, ", {number}:{count}")?;
            }
        }
        write!(f, "; {} agree", self.agreed)
    }
}
