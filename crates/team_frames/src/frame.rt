// A frame of one of a team.
ghost use Rattle.std.specs.Prelude.{◌≡◌, ◌↔◌, ◌<◌, [], IsTrue, length, IfOk, IfErr, OnOk, IfSome};
ghost use Rattle.turn_cell.specs.Turn as turn;
ghost use Rattle.scale_pick.specs.declared.strategy.Strategy.TheVariants.{Blocking};
ghost use Rattle.scale_pick.specs.Painted.{painted_of, IsComplete};
ghost use Rattle.scale_pick.specs.Wanted.{wanted_level};
ghost use Rattle.pin_rule.specs.Calls.{made_of};
ghost use Rattle.volatile_cell.specs.Requests.{IsQueueFor};
ghost use Rattle.hier_paint.specs.Frames.{IsFrame, IsCutOff};
ghost use Rattle.live_cells.specs.Cells.{table, knows, IsCellPassOf};
ghost use Rattle.team_eyes.specs.Teammate.{teammate_at, team_front};

use cell_file::AcquireErr;
use cell_store::Store;
use hier_paint::{Painted, Picture, View, paint};
use live_cells::{CellPass, Cells};
use queue_desk::QueueDesk;
use std::sync::Wait;
use team_eyes::TeamEyes;
use turn_cell::{Turn, TurnPass};

/// Paints a view for a viewer by a pass of shared cells and a pass of their queue, and answers what became of it. It may wait for other
/// passes. Nothing is pinned then. It takes no memory of its own.
///
/// An error of a look ends the frame with that error, and the picture's pixels may be anything.
pub fn paint_view<S: Store, R: Wait>(
    rt: &R,
    cells: &Cells<S>,
    pass: &mut CellPass<S>,
    queue: &Turn<QueueDesk>,
    asks: &mut TurnPass<QueueDesk>,
    viewer: u32,
    view: &View,
    picture: &mut Picture,
) -> Result<Painted, AcquireErr>
    requires pass { IsCellPassOf cells.now pass.old }
    requires free { (knows pass.old).pins ≡ [] }
    requires asks { turn.IsPassOf queue.now asks.old }
    requires queue { IsQueueFor (turn.opened_at queue.now) (made_of (table cells.now)).levels.value }
    requires viewer { viewer < (turn.opened_at queue.now).viewers }
    requires width { picture.old.width ≡ view.now.width }
    requires height { picture.old.height ≡ view.now.height }
    requires range { view.now.low < view.now.high }
    requires level { IfSome view.now.level (λ level. level < length (made_of (table cells.now)).levels.value) }

    ensures pass { IsCellPassOf cells.now pass.new }
    ensures free { (knows pass.new).pins ≡ [] }
    ensures asks { turn.IsPassOf queue.now asks.new }

    ensures answer { IfOk result (λ painted. painted ≡ painted_of (wanted_level (made_of (table cells.now)).levels.value view.now) picture.new) }
    ensures complete { IfOk result (λ painted. IsTrue painted.complete ↔ IsComplete (wanted_level (made_of (table cells.now)).levels.value view.now) picture.new) }
    ensures blocking { view.now.strategy ≡ Blocking → OnOk result (IsComplete (wanted_level (made_of (table cells.now)).levels.value view.now) picture.new) }
    ensures frame { OnOk result (IsFrame team_front (teammate_at S.contents cells.now viewer pass.old (turn.view asks.old)) (teammate_at S.contents cells.now viewer pass.new (turn.view asks.new)) view.now picture.new) }
    ensures cut_off { IfErr result (λ err. IsCutOff team_front (teammate_at S.contents cells.now viewer pass.old (turn.view asks.old)) (teammate_at S.contents cells.now viewer pass.new (turn.view asks.new)) view.now picture.new err) }

    ensures width { picture.new.width ≡ picture.old.width }
    ensures height { picture.new.height ≡ picture.old.height }
{
    let mut eyes = TeamEyes::new(rt, cells, pass, queue, asks, viewer);
    paint(&mut eyes, view, picture)
}
