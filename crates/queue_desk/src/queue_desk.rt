// The queue of fetches behind a turn.
ghost use Rattle.std.specs.Prelude.{◌≡◌};

use fetch_queue::Queues;
use std::marker::Model;
use turn_cell::Seq;
use volatile_cell::{QueueCall, QueueReply};

/// A queue that passes ask in turn.
#[derive(Drop)]
pub struct QueueDesk {
    queues: Queues,
}

// Clauses see the queue.
impl Model for QueueDesk {
    ghost use Rattle.fetch_queue.specs.Queue.{Queue};

    ghost Value = { Queue };

    ghost view = { λ desk. desk.queues };
}

impl QueueDesk {
    /// A desk with this queue. It takes no memory.
    pub fn new(queues: Queues) -> QueueDesk
        ensures { result ≡ queues }
    {
        QueueDesk { queues }
    }
}

/// The queue as a machine: a call with a number out of range changes nothing, a put is answered Done then and a clear Cleared(0).
impl Seq for QueueDesk {
    type Call = QueueCall;

    type Reply = QueueReply;

    ghost use Rattle.queue_desk.specs.Desk.{AnswersCall};

    ghost steps = { AnswersCall };

    fn step(&mut self, by: u32, call: QueueCall) -> QueueReply {
        let _ = by;
        match call {
            QueueCall::Put {
                viewer,
                cell,
                priority,
                to_front,
            } => {
                if viewer < self.queues.viewers()
                    && cell < self.queues.cells()
                    && priority < self.queues.priorities()
                {
                    self.queues.put(viewer, cell, priority, to_front);
                }
                QueueReply::Done
            }
            QueueCall::Take => QueueReply::Taken(self.queues.take()),
            QueueCall::Clear { viewer } => {
                if viewer < self.queues.viewers() {
                    QueueReply::Cleared(self.queues.clear(viewer))
                } else {
                    QueueReply::Cleared(0)
                }
            }
        }
    }
}
