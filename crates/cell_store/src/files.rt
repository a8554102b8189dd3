// Calls on files. Each goes on after an interruption, and no write goes past the system's limit on the length of a file,
// since the system ends a process that does.
ghost use Rattle.std.specs.Prelude.{◌≡◌, ◌+◌, ◌-◌, ◌^◌, ◌<◌, ◌≤◌, IfSome, length, min};

use std::fs::{self, OpenOptions};
use std::io::{self, ErrorKind, Read, Seek, SeekFrom, Write};
use std::rt::Files;
use std::str;

/// The length of the file under a path, or none where there is nothing. Anything else than a file is an error, and so
/// a pipe or a device is never opened.
pub(crate) fn len_at<R: Files>(rt: &R, path: &str) -> io::Result<Option<u64>> {
    for _ in 0..u64::MAX {
        match fs::metadata(rt, path) {
            Ok(metadata) if metadata.is_file() => return Ok(Some(metadata.len())),
            Ok(_) => return Err(io::Error::from(ErrorKind::InvalidInput)),
            Err(error) if error.kind() == ErrorKind::NotFound => return Ok(None),
            Err(error) if error.kind() == ErrorKind::Interrupted => {}
            Err(error) => return Err(error),
        }
    }
    Err(io::Error::from(ErrorKind::Interrupted))
}

/// Removes a file, where there is one.
pub(crate) fn remove<R: Files>(rt: &R, path: &str) -> io::Result<()> {
    for _ in 0..u64::MAX {
        match fs::remove_file(rt, path) {
            Ok(()) => return Ok(()),
            Err(error) if error.kind() == ErrorKind::NotFound => return Ok(()),
            Err(error) if error.kind() == ErrorKind::Interrupted => {}
            Err(error) => return Err(error),
        }
    }
    Err(io::Error::from(ErrorKind::Interrupted))
}

/// Opens a file that is to be made, and makes the folders above it where they are missing.
pub(crate) fn open_new<R: Files>(rt: &R, how: &OpenOptions, path: &str) -> io::Result<R::File> {
    match how.open(rt, path) {
        Err(error) if error.kind() == ErrorKind::NotFound => {
            if let Some((folder, _)) = path.rsplit_once('/') {
                make_folders(rt, folder)?;
            }
            how.open(rt, path)
        }
        opened => opened,
    }
}

/// Makes a folder, and those above it. `AlreadyExists` is what std makes of an interrupted question whether a folder
/// that stands is one, so it is asked again, and not for ever.
fn make_folders<R: Files>(rt: &R, folder: &str) -> io::Result<()> {
    for _ in 0..16 {
        match fs::create_dir_all(rt, folder) {
            Err(error) if error.kind() == ErrorKind::Interrupted => {}
            Err(error) if error.kind() == ErrorKind::AlreadyExists => {}
            made => return made,
        }
    }
    Err(io::Error::from(ErrorKind::AlreadyExists))
}

/// Writes all of these bytes at a place, unless the file would be longer than the system lets it grow.
pub(crate) fn write_at<F: Write + Seek>(
    file: &mut F,
    place: u64,
    bytes: &[u8],
    longest: u64,
) -> io::Result<()> {
    if bytes.is_empty() {
        return Ok(());
    }
    if place.saturating_add(bytes.len() as u64) > longest {
        return Err(io::Error::from(ErrorKind::FileTooLarge));
    }
    seek(file, place)?;
    file.write_all(bytes)
}

/// Goes to a place in a file.
fn seek<F: Seek>(file: &mut F, place: u64) -> io::Result<()> {
    for _ in 0..u64::MAX {
        match file.seek(SeekFrom::Start(place)) {
            Ok(_) => return Ok(()),
            Err(error) if error.kind() == ErrorKind::Interrupted => {}
            Err(error) => return Err(error),
        }
    }
    Err(io::Error::from(ErrorKind::Interrupted))
}

/// How long the system lets a file of this process grow, by what Linux tells of it; any length where it tells nothing.
pub(crate) fn longest_file<R: Files>(rt: &R) -> u64 {
    let mut text = [0u8; 4096];
    let Ok(mut file) = fs::open(rt, "/proc/self/limits") else {
        return u64::MAX;
    };
    match read_front(&mut file, &mut text) {
        Some(count) => limit_in(&text[..count]),
        None => u64::MAX,
    }
}

/// The limit on the length of a file in the text of the limits of a process: the first word behind its name.
fn limit_in(text: &[u8]) -> u64 {
    let Ok(text) = str::from_utf8(text) else {
        return u64::MAX;
    };
    for line in text.lines() {
        if let Some(rest) = line.strip_prefix("Max file size") {
            let word = rest.split_whitespace().next().unwrap_or("");
            return word.parse::<u64>().unwrap_or(u64::MAX);
        }
    }
    u64::MAX
}

/// Reads into a buffer until it is full or nothing is left, and tells how many bytes came. None where a read
/// failed.
pub(crate) fn read_front<F: Read>(file: &mut F, into: &mut [u8]) -> Option<usize>
    ensures len { length into.new ≡ length into.old }
    ensures within { IfSome result (λ count. count ≤ length into.new) }
{
    let mut count = 0;
    for _ in 0..u64::MAX {
        if count == into.len() {
            return Some(count);
        }
        match file.read(&mut into[count..]) {
            Ok(0) => return Some(count),
            Ok(n) => count += n,
            Err(error) if error.kind() == ErrorKind::Interrupted => {}
            Err(_) => return None,
        }
    }
    None
}

#[cfg(test)]
mod tests {
    use super::*;
    use crate::halting::Halting;

    #[test]
    fn the_limit_on_the_length_of_a_file_is_read(rt: HostRuntime) {
        let head = b"Limit   Soft Limit   Hard Limit   Units\nMax cpu time  7  7  seconds\n";
        assert_eq!(rt; limit_in(head), u64::MAX);
        assert_eq!(rt;
            limit_in(b"Max cpu time  7  7  s\nMax file size    4096    8192   bytes\n"),
            4096
        );
        assert_eq!(rt;
            limit_in(b"Max file size    unlimited    unlimited    bytes\n"),
            u64::MAX
        );
    }

    #[test]
    fn a_read_goes_on_after_an_interruption_and_ends_at_a_fault(rt: HostRuntime) {
        let mut into = [9u8; 4];
        for (left, breaks, count) in [(3, false, Some(3)), (3, true, None), (5, true, Some(4))] {
            let mut file = Halting {
                left,
                breaks,
                goes_on: false,
            };
            assert_eq!(rt; read_front(&mut file, &mut into), count, "{left} {breaks}");
        }
        assert_eq!(rt; into.as_slice(), [4, 3, 2, 1].as_slice());
    }
}
