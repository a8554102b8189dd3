// The journal of a store over a folder: what the key of the last put held before, until that put has ended.
ghost use Rattle.std.specs.Prelude.{◌≡◌, ◌+◌, ◌-◌, ◌^◌, ◌<◌, ◌≤◌, length, min};

use crate::files::{len_at, longest_file, open_new, read_front, remove, write_at};
use put_journal::{DONE, HEAD, TOLD, entry_in};
use std::alloc::{AllocError, Global};
use std::fs::{self, OpenFile, OpenOptions};
use std::io::{self, ErrorKind, Seek, Write};
use std::rt::Files;
use std::str;

/// How long a journal may be that is read. A longer one is none of ours.
const LONGEST: u64 = 1 << 32;

/// What stores over a folder begin with.
#[derive(Clone, Copy, Debug, PartialEq, Eq)]
pub struct Folder {
    /// Whether each put that was cut off has been taken back. Else its journal stays, and nothing is read or written.
    pub settled: bool,
    /// How long the system lets a file grow.
    pub longest: u64,
}

/// Takes back each put of an earlier run that was cut off in a folder, and removes the journals. No run may be at
/// work in the folder. Asks for 256 names.
pub fn settle<R: Files>(rt: &R, alloc: Global, folder: &str) -> Result<Folder, AllocError> {
    let longest = longest_file(rt);
    let mut settled = true;
    let mut path = String::new(alloc);
    let mut bytes = Vec::new(alloc);
    for number in 0..=u8::MAX {
        set_journal_path(&mut path, folder, number)?;
        match len_at(rt, path.as_str()) {
            Ok(None) => {}
            Ok(Some(len)) if len <= LONGEST => {
                bytes.resize(len as usize, 0)?;
                let told = bytes.as_mut_slice();
                settled &= take_back_told(rt, alloc, folder, path.as_str(), told, longest)?.is_ok();
            }
            _ => settled = false,
        }
    }
    Ok(Folder { settled, longest })
}

/// Writes the path of the journal of a number. No key has its name.
pub(crate) fn set_journal_path(
    path: &mut String,
    folder: &str,
    number: u8,
) -> Result<(), AllocError> {
    path.clear();
    path.push_str(folder)?;
    path.push_str("/.viewrun~")?;
    path.push((b'a' + number / 16) as char)?;
    path.push((b'a' + number % 16) as char)
}

/// Takes back what a journal tells, if it tells anything, and removes it. The buffer is as long as the journal.
fn take_back_told<R: Files>(
    rt: &R,
    alloc: Global,
    folder: &str,
    path: &str,
    bytes: &mut [u8],
    longest: u64,
) -> Result<io::Result<()>, AllocError> {
    if let Err(error) = read_whole(rt, path, bytes) {
        return Ok(Err(error));
    }
    if let Some(entry) = entry_in(bytes) {
        let mut held = String::from_str(alloc, folder)?;
        held.push('/')?;
        let Ok(key) = str::from_utf8(entry.key) else {
            return Ok(Err(io::Error::from(ErrorKind::InvalidData)));
        };
        held.push_str(key)?;
        if let Err(error) = end_told(rt, path, held.as_str(), entry.len, entry.front, longest) {
            return Ok(Err(error));
        }
    }
    // A journal that tells nothing may stay.
    let _ = remove(rt, path);
    Ok(Ok(()))
}

/// Reads a file of a buffer's length.
fn read_whole<R: Files>(rt: &R, path: &str, into: &mut [u8]) -> io::Result<()> {
    let mut file = fs::open(rt, path)?;
    if read_front(&mut file, into) == Some(into.len()) {
        Ok(())
    } else {
        Err(io::Error::from(ErrorKind::UnexpectedEof))
    }
}

/// Takes back a put that a journal tells of, and tells in the journal that it has ended.
fn end_told<R: Files>(
    rt: &R,
    journal: &str,
    path: &str,
    len: Option<u64>,
    front: &[u8],
    longest: u64,
) -> io::Result<()> {
    take_back(rt, path, len, front, longest)?;
    let mut file = open_over(rt, journal)?;
    tell_done(&mut file, longest)
}

/// Opens a file that is there, to be read and written over.
pub(crate) fn open_over<R: Files>(rt: &R, path: &str) -> io::Result<R::File> {
    OpenOptions::new().read(true).write(true).open(rt, path)
}

/// Makes a file that isn't there.
pub(crate) fn create<R: Files>(rt: &R, path: &str) -> io::Result<R::File> {
    let mut how = OpenOptions::new();
    how.write(true).create_new(true);
    open_new(rt, &how, path)
}

/// Opens a store's journal, which is made where it is missing.
pub(crate) fn open_journal<R: Files>(rt: &R, path: &str) -> io::Result<R::File> {
    let mut how = OpenOptions::new();
    how.write(true).create(true);
    open_new(rt, &how, path)
}

/// Writes a journal. Its head goes last, and the last byte of the head makes it count.
pub(crate) fn tell<F: Write + Seek>(file: &mut F, entry: &[u8], longest: u64) -> io::Result<()> {
    let (head, body) = entry.split_at(entry.len().min(HEAD));
    write_at(file, HEAD as u64, body, longest)?;
    write_at(file, 0, head, longest)
}

/// Tells that the put has ended: the journal counts no more. Where the byte can't be written the journal is cut.
pub(crate) fn tell_done<F: Write + Seek + OpenFile>(file: &mut F, longest: u64) -> io::Result<()> {
    match write_at(file, TOLD as u64, &[DONE], longest) {
        Ok(()) => Ok(()),
        Err(_) => file.set_len(0),
    }
}

/// Brings back what a key's file held before a put: none, or a file of this length with these first bytes. Where the
/// put was to cut the file, and has, all its bytes were written before, and they stay.
pub(crate) fn take_back<R: Files>(
    rt: &R,
    path: &str,
    len: Option<u64>,
    front: &[u8],
    longest: u64,
) -> io::Result<()> {
    let Some(len) = len else {
        return remove(rt, path);
    };
    let Some(now) = len_at(rt, path)? else {
        return Ok(());
    };
    if front.len() as u64 == now && now < len {
        return Ok(());
    }
    let mut file = open_over(rt, path)?;
    write_at(&mut file, 0, front, longest)?;
    if len < now {
        file.set_len(len)?;
    }
    Ok(())
}

#[cfg(test)]
mod tests {
    use super::*;
    use crate::{FolderStore, Got, Put, Store};
    use put_journal::write_entry;
    use std::test::Fail;
    use std::{env, process};

    #[test]
    fn puts_that_were_cut_off_are_taken_back(rt: HostRuntime) -> Result<(), Fail> {
        let alloc = rt.alloc();
        let name = format!(in alloc; "cell-store-undo-{}", process::id(rt.process()))?;
        let folder = env::temp_dir(&rt)?.join(alloc, name.as_str())?;
        let folder = folder.as_str();
        let began = settle(&rt, alloc, folder)?;
        assert!(rt; began.settled);
        let mut store = FolderStore::at(rt, alloc, folder, 0, began)?;
        for key in ["torn", "first", "cut"] {
            assert_eq!(rt; store.put(key, &[1, 9, 9]), Put::Done, "{key}");
        }
        let mut path = String::new(alloc);
        let mut entry = Vec::new(alloc);
        let told = [
            (8, "torn", Some(2), [1, 2].as_slice()),
            (9, "first", None, [].as_slice()),
            (10, "cut", Some(5), [3, 4, 5].as_slice()),
        ];
        for (number, key, len, front) in told {
            set_journal_path(&mut path, folder, number)?;
            write_entry(&mut entry, key.as_bytes(), len, front)?;
            fs::write(&rt, path.as_str(), entry.as_slice())?;
        }
        assert!(rt; settle(&rt, alloc, folder)?.settled);
        assert_eq!(rt; store.get("torn", 9, &mut entry), Got::Found);
        assert_eq!(rt; entry.as_slice(), [1, 2].as_slice());
        assert_eq!(rt; store.get("first", 9, &mut entry), Got::Missing);
        assert_eq!(rt; store.get("cut", 9, &mut entry), Got::Found);
        assert_eq!(rt; entry.as_slice(), [1, 9, 9].as_slice());
        assert!(rt; !fs::exists(&rt, path.as_str())?);
        fs::remove_dir_all(&rt, folder)?;
        Ok(())
    }
}
