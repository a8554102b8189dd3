// What gets and sets answer.
ghost use Rattle.std.specs.Prelude.{◌≡◌};
ghost use Rattle.team_actors.specs.Answers.{get_answer, set_answer};

use cell_file::CellErr;
use run_report::Answer;
use team_run::refusal_of;

/// The answer that tells what a get came to.
pub(crate) fn answer_of_get(got: Result<u64, CellErr>) -> Answer
    ensures { result ≡ get_answer got }
{
    match got {
        Ok(value) => Answer::Value(value),
        Err(err) => Answer::Refused(refusal_of(err)),
    }
}

/// The answer that tells what a set came to.
pub(crate) fn answer_of_set(put: Result<(), CellErr>) -> Answer
    ensures { result ≡ set_answer put }
{
    match put {
        Ok(()) => Answer::Done,
        Err(err) => Answer::Refused(refusal_of(err)),
    }
}
