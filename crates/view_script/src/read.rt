// A script, read line by line.
ghost use Rattle.std.specs.Prelude.{◌≡◌, ◌^◌, ◌≤◌, IfOk, OnOk, None, length};
ghost use Rattle.view_script.specs.Meaning.{Answers, TakesLine, is_remark, script_from, script_in};
ghost use Rattle.view_script.specs.Lines.{lines_of};
ghost use Rattle.view_script.specs.Script.{IsScript};
ghost use Rattle.view_script.specs.Views.{KeepsViews, phases_of};

use crate::draft::{add, read_line};
use crate::lines::Lines;
use crate::script::Script;
use crate::script_error::{ScriptErr, ScriptKind};
use crate::views::Views;
use crate::words::Words;
use std::alloc::{AllocError, Global};

const MAX_BYTES: usize = 1 << 20;

/// Why a line is not taken.
#[derive(Clone, Copy)]
pub enum LineErr {
    Rule(ScriptKind),
    Memory,
}

impl From<ScriptKind> for LineErr {
    ghost use Rattle.view_script.specs.declared.read.LineErr.TheVariants.{Rule};

    ghost from_gives = { λ kind e. e ≡ Rule kind };

    fn from(kind: ScriptKind) -> LineErr {
        LineErr::Rule(kind)
    }
}

impl From<AllocError> for LineErr {
    ghost use Rattle.view_script.specs.declared.read.LineErr.TheVariants.{Memory};

    ghost from_gives = { λ _ e. e ≡ Memory };

    fn from(_e: AllocError) -> LineErr {
        LineErr::Memory
    }
}

/// What a script says. An error is the first rule that a line breaks.
#[tactic(auto, using(crate::proofs::LimitsLemmas::limits_of_answer), unfolding(crate::specs::Meaning::script_in))]
pub fn read_script(alloc: Global, bytes: &[u8]) -> Result<Script, ScriptErr>
    ensures meaning { Answers result (script_in bytes.now) }
    ensures limits { IfOk result IsScript }
{
    if bytes.len() > MAX_BYTES {
        return Err(ScriptErr::At {
            line: 0,
            kind: ScriptKind::Limit,
        });
    }
    read_lines(alloc, bytes)
}

#[tactic(auto, using(crate::proofs::LinesLemmas::lines_fit))]
fn read_lines(alloc: Global, bytes: &[u8]) -> Result<Script, ScriptErr>
    requires { length bytes.now ≤ 2 ^ 20 }
    ensures { Answers result (script_from 1 None (lines_of bytes.now)) }
{
    let mut so_far = None;
    let mut views = Views::new(alloc);
    let mut number = 1;
    for line in Lines::new(bytes) {
        match take_line(alloc, &mut so_far, &mut views, line) {
            Ok(()) => number += 1,
            Err(LineErr::Rule(kind)) => return Err(ScriptErr::At { line: number, kind }),
            Err(LineErr::Memory) => return Err(ScriptErr::Memory),
        }
    }
    match so_far {
        Some(script) => Ok(script),
        None => Err(ScriptErr::At {
            line: number,
            kind: ScriptKind::Order,
        }),
    }
}

/// Takes the next line of a script.
#[tactic(auto, unfolding(crate::specs::Meaning::after_line))]
fn take_line(
    alloc: Global,
    so_far: &mut Option<Script>,
    views: &mut Views,
    line: &[u8],
) -> Result<(), LineErr>
    requires kept { KeepsViews views.old (phases_of so_far.old) }
    ensures taken { TakesLine so_far.old line.now so_far.new result }
    ensures kept { OnOk result (KeepsViews views.new (phases_of so_far.new)) }
{
    let mut words = Words::new(line);
    let Some(first) = words.next() else {
        return Ok(());
    };
    if begins_remark(first) {
        return Ok(());
    }
    let said = read_line(so_far, views, line, first, &mut words)?;
    add(alloc, so_far, views, said)?;
    Ok(())
}

fn begins_remark(first: &[u8]) -> bool
    ensures { result ≡ is_remark first.now }
{
    matches!(first, [b'#', ..])
}
