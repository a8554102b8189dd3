// What holds of the history of a queue's turn.
ghost use Rattle.queue_desk.specs.Desk.{HistoriesAreAsked};

/// The history of a queue's turn is one of the queue machine: each call, whoever made it, got the machine's reply, and left what the
/// machine makes of the queue.
pub fn histories_are_asked()
    ensures { HistoriesAreAsked }
{}
