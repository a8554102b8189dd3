// Fetches.
ghost use Rattle.std.specs.Prelude.{◌<◌, []};
ghost use Rattle.team_run.specs.Desk.{IsReady, desk};
ghost use Rattle.team_run.specs.Serve.{AnswersTask};
ghost use Rattle.view_script.specs.declared.command.Command.TheVariants.{Fetch};

use crate::outcomes::answer_of_fetch;
use cell_store::Store;
use fetch_queue::Queues;
use fetchers::serve_up_to;
use run_report::Answer;
use sole_cache::SoleCache;
use sole_eyes::SoleEyes;

/// Serves so many requests of the queue, or fewer where it has no more, and counts them.
pub fn fetch<S: Store>(
    cache: &mut SoleCache<S>,
    queue: &mut Queues,
    viewer: u32,
    count: u32,
) -> Answer
    requires ready { IsReady (desk cache.old queue.old) }
    requires viewer { viewer < 16 }
    ensures answers { AnswersTask (desk cache.old queue.old) viewer (Fetch count) result [] (desk cache.new queue.new) }
    ensures ready { IsReady (desk cache.new queue.new) }
{
    let mut eyes = SoleEyes::new(cache, queue, viewer);
    answer_of_fetch(serve_up_to(&mut eyes, count))
}
