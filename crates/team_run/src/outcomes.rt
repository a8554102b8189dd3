// What tasks answer, and the shots that they leave.
ghost use Rattle.std.specs.Prelude.{◌≡◌, ◌+◌, ◌<◌, ◌≤◌, ◌∷◌, [], ◌++◌, false, IsTrue, None, length, vec_len, vec_capacity};
ghost use Rattle.std.specs.Option.{option_to_list};
ghost use Rattle.team_run.specs.Fetches.{fetch_answer};
ghost use Rattle.team_run.specs.Refusals.{refusal_in};
ghost use Rattle.team_run.specs.Views.{HasLevel, LacksLevel};

use cell_file::{AcquireErr, CellErr};
use cell_grid::Geometry;
use fetchers::{Fetched, Memory};
use run_report::{Answer, Refusal, Reply, Shot};
use scale_pick::{Picture, View};
use view_script::Name;

/// What a task answers, and the shot that it leaves, where it is a view.
#[derive(Drop)]
pub struct Outcome {
    pub answer: Answer,
    pub shot: Option<Shot>,
}

/// An answer without a shot.
pub fn answer_alone(answer: Answer) -> Outcome
    ensures answer { result.answer ≡ answer }
    ensures no_shot { result.shot ≡ None }
{
    Outcome { answer, shot: None }
}

/// An answer with the shot of a view.
pub fn answer_with_shot(answer: Answer, name: Name, picture: Picture, shown: bool) -> Outcome
    ensures answer { result.answer ≡ answer }
    ensures shot { option_to_list result.shot ≡ record { name = name; picture = picture; shown = shown } ∷ [] }
{
    let shot = Shot {
        name,
        picture,
        shown,
    };
    Outcome {
        answer,
        shot: Some(shot),
    }
}

/// Whether a view gives a level that doesn't exist.
pub fn lacks_level(geometry: &Geometry, view: &View) -> bool
    ensures lacks { IsTrue result → LacksLevel geometry.now view.now }
    ensures has { result ≡ false → HasLevel geometry.now view.now }
{
    match view.level {
        Some(level) => level >= geometry.levels(),
        None => false,
    }
}

/// The answer that tells what a fetch came to.
pub fn answer_of_fetch(fetched: Result<Fetched, Memory>) -> Answer
    ensures { result ≡ fetch_answer fetched }
{
    match fetched {
        Ok(
            Fetched {
                loaded,
                held,
                refused,
            },
        ) => Answer::Fetched {
            loaded,
            held,
            refused,
        },
        Err(_) => Answer::Refused(Refusal::Acquire(AcquireErr::Memory)),
    }
}

/// The refusal that a reply tells, by that of a cell.
pub fn refusal_of(err: CellErr) -> Refusal
    ensures { result ≡ refusal_in err }
{
    match err {
        CellErr::Outside => Refusal::Outside,
        CellErr::TooLarge { value } => Refusal::TooLarge { value },
        CellErr::Acquire(err) => Refusal::Acquire(err),
    }
}

/// Adds a reply where there is room.
pub fn add_reply(replies: &mut Vec<Reply>, reply: Reply)
    requires room { vec_len replies.old < vec_capacity replies.old }
    ensures added { replies.new.items ≡ replies.old.items ++ reply ∷ [] }
    ensures len { vec_len replies.new ≡ vec_len replies.old + 1 }
    ensures capacity { vec_capacity replies.old ≤ vec_capacity replies.new }
{
    let _ = replies.push(reply);
}

/// Adds a shot, where there is one, and room for it.
pub fn add_shot(shots: &mut Vec<Shot>, shot: Option<Shot>)
    requires room { vec_len shots.old + length (option_to_list shot) ≤ vec_capacity shots.old }
    ensures added { shots.new.items ≡ shots.old.items ++ option_to_list shot }
    ensures len { vec_len shots.new ≡ vec_len shots.old + length (option_to_list shot) }
    ensures capacity { vec_capacity shots.old ≤ vec_capacity shots.new }
{
    if let Some(shot) = shot {
        let _ = shots.push(shot);
    }
}
