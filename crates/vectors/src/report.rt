// What is printed, and what the whole run counts.
use crate::drafts::Drafts;
use crate::tally::Tally;
use std::io;

#[derive(Drop)]
pub struct Report<'a> {
    pub rt: &'a HostRuntime,
    pub totals: Tally,
}

impl Report<'_> {
    // The line of a family, and a line for each of its first differences.
    pub fn family(&mut self, name: &str, tally: &Tally) -> io::Result<()> {
        println!(self.rt; "{name}: {tally}")?;
        self.differences(tally)
    }

    pub fn drafts(&mut self, name: &str, drafts: &Drafts) -> io::Result<()> {
        println!(self.rt; "drafts, {name}: {drafts}")?;
        self.differences(&drafts.calls)
    }

    fn differences(&mut self, tally: &Tally) -> io::Result<()> {
        self.totals.gather(tally);
        for line in &tally.differences {
            println!(self.rt; "DISAGREE {line}")?;
        }
        Ok(())
    }

    // How often each refusal was told, and how many vectors agreed.
    pub fn end(&self) -> io::Result<()> {
        for (number, count) in self.totals.refused.iter().enumerate().skip(1) {
            println!(self.rt; "refusal {number}: {count}")?;
        }
        let Tally {
            vectors,
            agreed,
            ..
        } = self.totals;
        let disagreements = vectors.saturating_sub(agreed);
        println!(self.rt; "vectors {vectors}, agreed {agreed}, disagreements {disagreements}")
    }
}
