// A message with its payloads in other orders, or one of them left out or there twice; signed anew each time.
use crate::records::{arranged, signed};
use crate::tally::Tally;
use crate::vector::run;
use corpus::Station;
use second::Message;
use std::alloc::{AllocError, Global};

// The records of a message, and the station that reads its variants.
#[derive(Clone, Copy)]
pub struct Orders<'a> {
    pub message: &'a Message,
    pub station: &'a Station,
}

fn places(alloc: Global, count: usize) -> Result<Vec<usize>, AllocError> {
    (0..count).collect(alloc)
}

impl Orders<'_> {
    fn run(&self, alloc: Global, tally: &mut Tally, order: &[usize]) -> Result<(), AllocError> {
        let message = arranged(alloc, self.message, order)?;
        let bytes = signed(alloc, &message, self.station.key)?;
        run(alloc, tally, &bytes, Some(self.station))
    }

    // Begun with each payload in turn.
    fn rotated(&self, alloc: Global, tally: &mut Tally) -> Result<(), AllocError> {
        let mut order = places(alloc, self.message.payloads.len())?;
        for _ in 0..self.message.payloads.len() {
            self.run(alloc, tally, &order)?;
            if !order.is_empty() {
                order.rotate_left(1);
            }
        }
        Ok(())
    }

    // With one payload and the next in each other's place.
    fn swapped(&self, alloc: Global, tally: &mut Tally) -> Result<(), AllocError> {
        for i in 1..self.message.payloads.len() {
            let mut order = places(alloc, self.message.payloads.len())?;
            if i < order.len() {
                order.swap(i - 1, i);
            }
            self.run(alloc, tally, &order)?;
        }
        Ok(())
    }

    pub fn orders(&self, alloc: Global, tally: &mut Tally) -> Result<(), AllocError> {
        self.rotated(alloc, tally)?;
        self.swapped(alloc, tally)?;
        let mut order = places(alloc, self.message.payloads.len())?;
        order.reverse();
        self.run(alloc, tally, &order)
    }

    // Without each payload in turn, and with it twice.
    pub fn counts(&self, alloc: Global, tally: &mut Tally) -> Result<(), AllocError> {
        for i in 0..self.message.payloads.len() {
            let mut fewer = places(alloc, self.message.payloads.len())?;
            let mut more = places(alloc, self.message.payloads.len())?;
            if i < fewer.len() {
                fewer.remove(i);
            }
            more.push(i)?;
            self.run(alloc, tally, &fewer)?;
            self.run(alloc, tally, &more)?;
        }
        Ok(())
    }
}
