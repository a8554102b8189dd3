//! Walks along the rows of pictures, and sums the nearest voxels' coordinates, so that `bench/walk.py` can time it.
#![tactic(auto)]

ghost use Rattle.std.specs.Prelude.{◌<◌, IfSome};

use std::process::ExitCode;
use std::rt::Runtime;
use std::{env, io};
use whole_affine::{Affine, AffineErr, NearestWalk, nearest};

/// The sides of a picture, in pixels.
const SIDE: u32 = 512;

/// The denominator of the maps.
const DENOMINATOR: u64 = 1024;

/// How the nearest voxels of a row are found.
#[derive(Clone, Copy)]
enum Way {
    /// By additions, with the remainders carried along.
    Walk,
    /// By the formula at each pixel.
    Formula,
}

/// What is asked for: a way, whether the view is turned, the factor of the level, and how many pictures.
#[derive(Clone, Copy)]
struct Request {
    way: Way,
    turned: bool,
    factor: u32,
    pictures: u32,
}

fn main(rt: HostRuntime) -> io::Result<ExitCode> {
    let words: Vec<String> = env::args(&rt)?.skip(1).collect(rt.alloc())?;
    let Some(request) = request_of(words.as_slice()) else {
        println!(rt; "usage: walk_time walk|formula straight|turned FACTOR PICTURES")?;
        return Ok(ExitCode::from(2));
    };
    let sum = pictures_sum(request).unwrap_or(0);
    println!(rt; "{sum}")?;
    Ok(ExitCode::SUCCESS)
}

fn request_of(words: &[String]) -> Option<Request>
    ensures { IfSome result (λ request. 0 < request.factor) }
{
    let mut words = words.iter();
    let way = way_of(words.next()?.as_str())?;
    let turned = is_turned(words.next()?.as_str())?;
    let factor = words.next()?.parse::<u32>().ok()?;
    let pictures = words.next()?.parse::<u32>().ok()?;
    if factor == 0 {
        return None;
    }
    Some(Request {
        way,
        turned,
        factor,
        pictures,
    })
}

fn way_of(word: &str) -> Option<Way> {
    match word {
        "walk" => Some(Way::Walk),
        "formula" => Some(Way::Formula),
        _ => None,
    }
}

fn is_turned(word: &str) -> Option<bool> {
    match word {
        "straight" => Some(false),
        "turned" => Some(true),
        _ => None,
    }
}

/// The sum over pictures that lie behind one another, in 64 bits.
fn pictures_sum(request: Request) -> Result<i64, AffineErr>
    requires { 0 < request.factor }
{
    let mut sum: i64 = 0;
    for picture in 0..request.pictures {
        let map = map_of(request.turned, i64::from(picture))?;
        sum = sum.wrapping_add(picture_sum(request, &map));
    }
    Ok(sum)
}

/// A view of the volume, as it stands or turned, at this depth.
fn map_of(turned: bool, depth: i64) -> Result<Affine, AffineErr> {
    if turned {
        Affine::new(
            DENOMINATOR,
            [[887, -512, 0], [492, 853, -77], [142, -119, depth]],
        )
    } else {
        Affine::new(DENOMINATOR, [[1024, 0, 0], [0, 1024, 0], [0, 0, depth]])
    }
}

fn picture_sum(request: Request, map: &Affine) -> i64
    requires { 0 < request.factor }
{
    let mut sum: i64 = 0;
    for y in 0..SIDE {
        let row = match request.way {
            Way::Walk => walked(map, request.factor, y),
            Way::Formula => calculated(map, request.factor, y),
        };
        sum = sum.wrapping_add(row);
    }
    sum
}

/// A row's sum by additions.
fn walked(map: &Affine, factor: u32, y: u32) -> i64
    requires factor { 0 < factor }
    requires y { y < 512 }
{
    let factors = [factor, factor, 1];
    let mut walk = NearestWalk::new(map, factors, y, SIDE);
    let mut sum: i64 = 0;
    for _column in 0..SIDE {
        sum = added(sum, walk.voxel());
        walk = walk.next();
    }
    sum
}

/// The same by the formula.
fn calculated(map: &Affine, factor: u32, y: u32) -> i64
    requires factor { 0 < factor }
    requires y { y < 512 }
{
    let q = map.q();
    let mut sum: i64 = 0;
    for x in 0..SIDE {
        let [across, down, deep] = map.at(x, y);
        let voxel = [
            nearest(across, q, factor),
            nearest(down, q, factor),
            nearest(deep, q, 1),
        ];
        sum = added(sum, voxel);
    }
    sum
}

fn added(sum: i64, voxel: [i64; 3]) -> i64 {
    let [x, y, z] = voxel;
    sum.wrapping_add(x).wrapping_add(y).wrapping_add(z)
}
