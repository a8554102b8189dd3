// Views: a frame each, and a shot.
ghost use Rattle.std.specs.Prelude.{◌≡◌, ◌<◌, false, IfErr, IfOk, OnOk, length};
ghost use Rattle.std.specs.Option.{option_to_list};
ghost use Rattle.hier_paint.specs.Frames.{IsFrame, IsCutOff};
ghost use Rattle.scale_pick.specs.declared.strategy.Strategy.TheVariants.{Blocking};
ghost use Rattle.scale_pick.specs.Painted.{painted_of, IsComplete};
ghost use Rattle.scale_pick.specs.Picture.{IsFilled};
ghost use Rattle.scale_pick.specs.Wanted.{wanted_level};
ghost use Rattle.team_run.specs.Desk.{IsReady, desk, desk_front};
ghost use Rattle.team_run.specs.Serve.{AnswersTask};
ghost use Rattle.team_run.specs.Task.{HasSides};
ghost use Rattle.team_run.specs.Views.{HasLevel};
ghost use Rattle.view_script.specs.declared.command.Command.TheVariants as command;
ghost use Rattle.view_script.specs.Script.{IsViewWithinLimits};

use crate::outcomes::{Outcome, answer_with_shot, lacks_level};
use cell_file::AcquireErr;
use cell_store::Store;
use fetch_queue::Queues;
use hier_paint::{Painted, Picture, View, paint};
use run_report::{Answer, Refusal};
use sole_cache::SoleCache;
use sole_eyes::SoleEyes;
use view_script::Name;

/// Paints a view, and keeps its picture under its name.
pub fn show<S: Store>(
    cache: &mut SoleCache<S>,
    queue: &mut Queues,
    viewer: u32,
    name: Name,
    view: View,
    mut picture: Picture,
) -> Outcome
    requires ready { IsReady (desk cache.old queue.old) }
    requires viewer { viewer < 16 }
    requires limits { IsViewWithinLimits view }
    requires sides { HasSides view picture }
    ensures answers { AnswersTask (desk cache.old queue.old) viewer (command.View name view) result.answer (option_to_list result.shot) (desk cache.new queue.new) }
    ensures ready { IsReady (desk cache.new queue.new) }
    ensures one { length (option_to_list result.shot) ≡ 1 }
{
    if lacks_level(cache.geometry(), &view) {
        return answer_with_shot(Answer::Refused(Refusal::Outside), name, picture, false);
    }
    match frame(cache, queue, viewer, &view, &mut picture) {
        Ok(painted) => answer_with_shot(Answer::Frame(painted), name, picture, true),
        Err(err) => answer_with_shot(Answer::Refused(Refusal::Acquire(err)), name, picture, false),
    }
}

/// Paints a view, whose level exists, over the cache and the queue.
fn frame<S: Store>(
    cache: &mut SoleCache<S>,
    queue: &mut Queues,
    viewer: u32,
    view: &View,
    picture: &mut Picture,
) -> Result<Painted, AcquireErr>
    requires ready { IsReady (desk cache.old queue.old) }
    requires viewer { viewer < 16 }
    requires limits { IsViewWithinLimits view.now }
    requires sides { HasSides view.now picture.old }
    requires exists { HasLevel cache.old.levels view.now }
    ensures filled { IsFilled picture.new }
    ensures painted { IfOk result (λ painted. painted ≡ painted_of (wanted_level cache.old.levels view.now) picture.new) }
    ensures blocking { view.now.strategy ≡ Blocking → OnOk result (IsComplete (wanted_level cache.old.levels view.now) picture.new) }
    ensures frame { OnOk result (IsFrame (desk_front viewer) (desk cache.old queue.old) (desk cache.new queue.new) view.now picture.new) }
    ensures cut_off { IfErr result (λ err. IsCutOff (desk_front viewer) (desk cache.old queue.old) (desk cache.new queue.new) view.now picture.new err) }
    ensures ready { IsReady (desk cache.new queue.new) }
{
    let mut eyes = SoleEyes::new(cache, queue, viewer);
    let painted = paint(&mut eyes, view, picture);
    let _width = picture.width(); // read for what its contract tells the proof
    painted
}
