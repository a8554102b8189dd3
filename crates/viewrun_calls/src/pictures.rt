// The pictures of a run, put into a store under their names.
ghost use Rattle.std.specs.Prelude.{◌≡◌, ◌+◌, ◌*◌, ◌^◌, ◌<◌, ◌≤◌, ◌∷◌, ◌++◌, [], IfOk, count_by, length, string_bytes, sum_by, vec_capacity, vec_len};
ghost use Rattle.cell_store.specs.Store.{Puts};
ghost use Rattle.viewrun_calls.specs.Pictures.{AddsShot, NamesBehind, PutsShots, TellsBehind, file_of, header_of, is_view_command, picture_key, view_count};

use arrayvec::ArrayString;
use cell_store::{Put, Store};
use plain_data::Items;
use run_report::{Shot, Unwritten};
use scale_pick::Picture;
use std::alloc::{AllocError, Global};
use view_script::{Command, Name};

/// How many views all phases have.
pub fn view_count(phases: &[Items<Items<Command>>]) -> usize
    requires { view_count phases.now ≤ 2 ^ 20 }
    ensures { result ≡ view_count phases.now }
{
    let mut count = 0;
    for actors in phases {
        count += views_in(actors.as_slice());
    }
    count
}

/// How many views the actors of a phase have.
fn views_in(actors: &[Items<Command>]) -> usize
    requires { sum_by (count_by is_view_command) actors.now ≤ 2 ^ 20 }
    ensures { result ≡ sum_by (count_by is_view_command) actors.now }
{
    actors
        .iter()
        .map(|commands| views_of(commands.as_slice()))
        .sum()
}

/// How many of an actor's commands are views.
fn views_of(commands: &[Command]) -> usize
    ensures { result ≡ count_by is_view_command commands.now }
{
    commands.iter().filter(|command| is_view(command)).count()
}

fn is_view(command: &Command) -> bool
    ensures { result ≡ is_view_command command.now }
{
    matches!(command, Command::View { .. })
}

/// Puts the pictures that are shown into a store, with one put each and in their order, and names those whose puts were not done.
/// There is room for all names.
pub fn put_shots<S: Store>(
    alloc: Global,
    store: &mut S,
    shots: &[Shot],
    unwritten: &mut Vec<Unwritten>,
)
    requires none { unwritten.old.items ≡ [] }
    requires room { length shots.now ≤ vec_capacity unwritten.old }
    ensures { PutsShots shots.now (S.contents store.old) (S.contents store.new) unwritten.new.items }
{
    for shot in shots {
        put_shot(alloc, store, shot, unwritten);
    }
}

/// Puts a picture where it is shown, and names it where its put was not done.
fn put_shot<S: Store>(alloc: Global, store: &mut S, shot: &Shot, unwritten: &mut Vec<Unwritten>)
    requires room { vec_len unwritten.old < vec_capacity unwritten.old }
    ensures adds { AddsShot shot.now (S.contents store.old) (S.contents store.new) unwritten.old.items unwritten.new.items }
    ensures capacity { vec_capacity unwritten.old ≤ vec_capacity unwritten.new }
{
    if shot.shown {
        let put = put_picture(alloc, store, shot);
        tell_put(put, shot, unwritten);
    }
}

/// Names a picture where its put was not done.
fn tell_put(put: Put, shot: &Shot, unwritten: &mut Vec<Unwritten>)
    requires room { vec_len unwritten.old < vec_capacity unwritten.old }
    ensures told { TellsBehind put shot.now unwritten.old.items unwritten.new.items }
    ensures capacity { vec_capacity unwritten.old ≤ vec_capacity unwritten.new }
{
    match put {
        Put::Done => {}
        Put::Failed => add_unwritten(unwritten, shot, false),
        Put::NoMemory => add_unwritten(unwritten, shot, true),
    }
}

/// Names a picture whose put was not done.
fn add_unwritten(unwritten: &mut Vec<Unwritten>, shot: &Shot, memory: bool)
    requires room { vec_len unwritten.old < vec_capacity unwritten.old }
    ensures added { NamesBehind shot.now memory unwritten.old.items unwritten.new.items }
    ensures capacity { vec_capacity unwritten.old ≤ vec_capacity unwritten.new }
{
    let name = shot.name.text();
    let _ = unwritten.push(Unwritten { name, memory });
}

/// Puts a picture under its key. Where its bytes find no memory the store isn't asked.
fn put_picture<S: Store>(alloc: Global, store: &mut S, shot: &Shot) -> Put
    ensures { Puts (S.contents store.old) (S.contents store.new) (picture_key shot.now.name) (file_of shot.now.picture) result }
{
    let Ok(bytes) = file_of(alloc, &shot.picture) else {
        return Put::NoMemory;
    };
    let key = key_of(&shot.name);
    store.put(key.as_str(), bytes.as_slice())
}

/// The key of a picture. It takes no memory.
fn key_of(name: &Name) -> ArrayString<64>
    ensures { result.bytes ≡ picture_key name.now }
{
    let name = name.text();
    let mut key = ArrayString::new();
    key.push_str("views/");
    key.push_str(name.as_str());
    key.push_str(".pgm");
    key
}

/// The bytes of a picture's file, a PGM P5: a header, and a byte for each pixel, row by row from the top.
fn file_of(alloc: Global, picture: &Picture) -> Result<Vec<u8>, AllocError>
    ensures { IfOk result (λ bytes. bytes.items ≡ file_of picture.now) }
{
    let header = header_of(alloc, picture)?;
    let values = picture.values();
    let mut bytes = Vec::with_capacity(alloc, header.len() + values.len())?;
    bytes.extend_from_slice(header.as_bytes())?;
    bytes.extend_from_slice(values)?;
    Ok(bytes)
}

/// The sides of a picture and the greatest value of a pixel.
fn header_of(alloc: Global, picture: &Picture) -> Result<String, AllocError>
    ensures { IfOk result (λ text. string_bytes text ≡ header_of picture.now) }
{
    let width = picture.width();
    let height = picture.height();
    format!(in alloc; "P5\n{width} {height}\n255\n")
}
