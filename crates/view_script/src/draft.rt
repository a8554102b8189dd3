// The script that the lines so far say.
ghost use Rattle.std.specs.Prelude.{◌≡◌, ◌++◌, [], ◌∷◌, Some, true, IfOk, OnOk};
ghost use Rattle.std.specs.Str.{is_utf8};
ghost use Rattle.view_script.specs.Meaning.{actors_in_last, may_stand, has_room, is_within_limits, is_new, said, with_read_line, at_last, in_range, shown_in, opened, with_line};
ghost use Rattle.view_script.specs.Script.{pixel_count};
ghost use Rattle.view_script.specs.Views.{KeepsViews, phases_of};

use crate::command::Command;
use crate::line::{Keyword, Line};
use crate::reading::line_behind;
use crate::script::{Head, Script};
use crate::script_error::ScriptKind;
use crate::views::Views;
use crate::words::Words;
use plain_data::{Items, Text};
use scale_pick::View;
use std::alloc::{AllocError, Global};
use std::str;

const MAX_PHASES: usize = 1024;

const MAX_ACTORS: usize = 16;

/// What a line says, or the first rule that it breaks.
#[tactic(auto, unfolding(crate::specs::Meaning::said))]
pub fn read_line<'a>(
    so_far: &Option<Script>,
    views: &Views,
    line: &[u8],
    first: &[u8],
    words: &mut Words<'a>,
) -> Result<Line<'a>, ScriptKind>
    requires kept { KeepsViews views.now (phases_of so_far.now) }
    ensures said { result ≡ said so_far.now line.now first.now words.old }
    ensures within { IfOk result (λ line. is_within_limits so_far.now line ≡ true) }
{
    if !is_text(line) {
        return Err(ScriptKind::NotText);
    }
    let keyword = Keyword::of(first).ok_or(ScriptKind::UnknownWord)?;
    if !stands_right(so_far, keyword) {
        return Err(ScriptKind::Order);
    }
    let line = line_behind(keyword, words)?;
    if !is_within(so_far, views, &line) {
        return Err(ScriptKind::Limit);
    }
    if !is_new_name(so_far, views, &line) {
        return Err(ScriptKind::Order);
    }
    Ok(line)
}

#[tactic(auto, using(crate::proofs::DraftLemmas::text_passes, crate::proofs::DraftLemmas::no_text_fails))]
fn is_text(line: &[u8]) -> bool
    ensures { result ≡ is_utf8 line.now }
{
    match str::from_utf8(line) {
        Ok(_) => true,
        Err(_) => false,
    }
}

fn stands_right(so_far: &Option<Script>, keyword: Keyword) -> bool
    ensures { result ≡ may_stand so_far.now keyword }
{
    let Some(script) = so_far else {
        return matches!(keyword, Keyword::Raw | Keyword::Open);
    };
    match keyword {
        Keyword::Raw | Keyword::Open => false,
        Keyword::Range => script.range.is_none() && script.phases.is_empty(),
        Keyword::Phase => true,
        Keyword::Actor => !script.phases.is_empty(),
        Keyword::Get | Keyword::Set | Keyword::View | Keyword::Fetch => {
            actors_of_last(&script.phases) > 0
        }
    }
}

fn is_within(so_far: &Option<Script>, views: &Views, line: &Line) -> bool
    requires { KeepsViews views.now (phases_of so_far.now) }
    ensures { result ≡ is_within_limits so_far.now line.now }
{
    match (so_far, line) {
        (Some(script), Line::Phase) => script.phases.len() < MAX_PHASES,
        (Some(script), Line::Actor) => actors_of_last(&script.phases) < MAX_ACTORS,
        (Some(_), Line::Command(command)) => views.has_room(command),
        _ => true,
    }
}

/// Whether no earlier view has the line's name.
fn is_new_name(so_far: &Option<Script>, views: &Views, line: &Line) -> bool
    requires { KeepsViews views.now (phases_of so_far.now) }
    ensures { result ≡ is_new so_far.now line.now }
{
    match (so_far, line) {
        (Some(_), Line::Command(Command::View { name, .. })) => !views.has_name(name),
        _ => true,
    }
}

fn actors_of_last(phases: &Items<Items<Items<Command>>>) -> usize
    ensures { result ≡ actors_in_last phases.now }
{
    match phases.last() {
        Some(actors) => actors.len(),
        None => 0,
    }
}

/// Adds what a line says, within the limits of scripts.
pub fn add(
    alloc: Global,
    so_far: &mut Option<Script>,
    views: &mut Views,
    line: Line,
) -> Result<(), AllocError>
    requires kept { KeepsViews views.old (phases_of so_far.old) }
    requires within { is_within_limits so_far.old line ≡ true }
    ensures added { OnOk result (so_far.new ≡ with_read_line so_far.old line.entry) }
    ensures kept { OnOk result (KeepsViews views.new (phases_of so_far.new)) }
{
    match line {
        Line::Raw {
            root,
            kind,
            dims,
            cell,
        } => {
            let root = Text::from_str(alloc, root.name())?;
            let head = Head::Raw {
                root,
                kind,
                dims,
                cell,
            };
            start(alloc, so_far, views, head);
        }
        Line::Open { root } => {
            let root = Text::from_str(alloc, root.name())?;
            start(alloc, so_far, views, Head::Pyramid { root });
        }
        Line::Range(range) => set_range(so_far, range),
        Line::Phase => add_phase(alloc, so_far)?,
        Line::Actor => add_actor(alloc, so_far)?,
        Line::Command(command) => {
            if let Some(script) = so_far {
                say(script, views, command)?;
            }
        }
    }
    Ok(())
}

/// Adds a command, which shows the script's range.
fn say(script: &mut Script, views: &mut Views, command: Command) -> Result<(), AllocError>
    requires kept { KeepsViews views.old script.old.phases }
    requires room { has_room (pixel_count script.old.phases) command ≡ true }
    ensures said { OnOk result (script.new ≡ with_line script.old (Line.Command command)) }
    ensures kept { OnOk result (KeepsViews views.new script.new.phases) }
{
    let command = in_range(script.range, command);
    keep(views, &script.phases, &command)?;
    add_command(&mut script.phases, command)
}

/// A view shows the script's range, where there is one.
fn in_range(range: Option<[u64; 2]>, command: Command) -> Command
    ensures { result ≡ in_range range command }
{
    match command {
        Command::View { name, view } => Command::View {
            name,
            view: shown_in(range, &view),
        },
        other => other,
    }
}

fn shown_in(range: Option<[u64; 2]>, view: &View) -> View
    ensures { result ≡ shown_in range view.now }
{
    let [low, high] = range.unwrap_or([view.low, view.high]);
    View {
        affine: view.affine,
        width: view.width,
        height: view.height,
        level: view.level,
        strategy: view.strategy,
        low,
        high,
    }
}

/// Keeps what the views are with a command more.
fn keep(
    views: &mut Views,
    phases: &Items<Items<Items<Command>>>,
    command: &Command,
) -> Result<(), AllocError>
    requires kept { KeepsViews views.old phases.now }
    requires room { has_room (pixel_count phases.now) command.now ≡ true }
    ensures { OnOk result (KeepsViews views.new (at_last (at_last (λ commands. commands ++ command.now ∷ [])) phases.now)) }
{
    if actors_of_last(phases) == 0 {
        return Ok(());
    }
    views.keep(command)?;
    Ok(())
}

/// A script begins with its head alone.
fn start(alloc: Global, so_far: &mut Option<Script>, views: &mut Views, head: Head)
    ensures started { so_far.new ≡ Some (opened head) }
    ensures kept { KeepsViews views.new [] }
{
    *views = Views::new(alloc);
    *so_far = Some(Script {
        head,
        range: None,
        phases: Items::new(alloc),
    });
}

/// Sets the range that a script's views show.
fn set_range(so_far: &mut Option<Script>, range: [u64; 2])
    ensures { so_far.new ≡ with_read_line so_far.old (Line.Range range) }
{
    if let Some(script) = so_far {
        script.range = Some(range);
    }
}

/// Adds a phase without actors.
fn add_phase(alloc: Global, so_far: &mut Option<Script>) -> Result<(), AllocError>
    ensures { OnOk result (so_far.new ≡ with_read_line so_far.old Line.Phase) }
{
    if let Some(script) = so_far {
        script.phases.push(Items::new(alloc))?;
    }
    Ok(())
}

/// Adds an actor without commands to the last phase.
#[tactic(auto, using(crate::proofs::DraftLemmas::set_last, crate::proofs::DraftLemmas::change_none))]
fn add_actor(alloc: Global, so_far: &mut Option<Script>) -> Result<(), AllocError>
    ensures { OnOk result (so_far.new ≡ with_read_line so_far.old Line.Actor) }
{
    if let Some(script) = so_far {
        if let Some(actors) = script.phases.last_mut() {
            actors.push(Items::new(alloc))?;
        }
    }
    Ok(())
}

/// Adds a command to the last actor of the last phase.
#[tactic(auto, using(crate::proofs::DraftLemmas::set_last, crate::proofs::DraftLemmas::change_none))]
fn add_command(
    phases: &mut Items<Items<Items<Command>>>,
    command: Command,
) -> Result<(), AllocError>
    ensures { OnOk result (phases.new ≡ at_last (at_last (λ commands. commands ++ command ∷ [])) phases.old) }
{
    if let Some(actors) = phases.last_mut() {
        if let Some(commands) = actors.last_mut() {
            commands.push(command)?;
        }
    }
    Ok(())
}
