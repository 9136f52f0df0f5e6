//! Airs over a queue, which differ in what a Take lets out.

ghost use Rattle.std.specs.Prelude.{◌≡◌, [], length};
ghost use Rattle.air.specs.Kept.{put_in, Took};
ghost use Rattle.air.specs.Waits.{waits};
ghost use Rattle.protocol.specs.Airs.{aged};
ghost use Rattle.std.specs.Option.{option_map};
ghost use Rattle.std.specs.List.{slice_get};
ghost use Rattle.air.specs.Soundness.{sound_waits};

use crate::airs::Air;
use crate::orders::{Drawn, Oldest, Order};
use crate::queues::Queue;
use std::marker::PhantomData;

/// Holds 8 PDUs and loses the oldest when full. Which one a Take lets out is the order's choice.
#[derive(Drop)]
pub struct QueueAir<O> {
    queue: Queue,
    order: PhantomData<O>,
}

/// Keeps its order: a Take lets the oldest out.
pub type Pipe = QueueAir<Oldest>;

/// Repeats and reorders: which one a Take lets out, and whether it stays, is drawn.
pub type Pool = QueueAir<Drawn>;

impl<O: Order> QueueAir<O> {
    /// Nothing waits in it.
    pub fn new() -> Self
        ensures { waits result.queue ≡ [] }
    {
        QueueAir {
            queue: Queue::new(),
            order: PhantomData,
        }
    }

    // A pair, since the two are shown side by side and nothing else is done with them.
    /// The k-th PDU that waits, counted from 0 at the oldest, and its age.
    pub fn get(&self, k: usize) -> Option<(&[u8], u8)>
        ensures { option_map (λ w. record { pdu = w.0.now; age = w.1 }) result ≡ slice_get (waits self.now.queue) k }
    {
        self.queue.get(k)
    }
}

impl<O: Order> Air for QueueAir<O> {
    ghost waiting = { λ a. waits a.queue };

    ghost puts = { λ a pdu a'. waits a'.queue ≡ put_in pdu (waits a.queue) };

    ghost skips = { λ a a'. waits a'.queue ≡ aged (waits a.queue) };

    ghost gives = { λ a draw buffer answer written a'.
        Took (O.place draw (length (waits a.queue))) (O.keeps draw) draw buffer answer written (waits a.queue) (waits a'.queue) };

    ghost sound = { λ a. sound_waits a.queue };

    fn put(&mut self, pdu: &[u8]) {
        self.queue.put(pdu);
    }

    fn skip(&mut self) {
        self.queue.grow_older();
    }

    fn take(&mut self, draw: u16, buffer: &mut [u8]) -> Option<usize> {
        let k = O::place(draw, self.queue.len())?;
        self.queue.take(k, O::keeps(draw), draw, buffer)
    }
}
