// A folder as a store: a key is the path of a file under it.
ghost use Rattle.std.specs.Prelude.{◌≡◌, ◌≢◌, ◌+◌, ◌-◌, ◌^◌, ◌<◌, ◌≤◌, [], IfOk, length, min};
ghost use Rattle.cell_store.specs.Store.{KeepsTo, untold};

use crate::files::{len_at, read_front, remove, write_at};
use crate::undo::{create, open_journal, open_over, set_journal_path, take_back, tell, tell_done};
use crate::{Folder, Got, Put, Store};
use put_journal::write_entry;
use std::alloc::{AllocError, Global};
use std::fs::{self, OpenFile};
use std::io::{self, ErrorKind, Seek, Write};
use std::rt::Files;

/// A folder whose files are the keys. It tells nothing of what they hold, and counts the calls that failed.
/// A key is used as it is: one with `..` in it leaves the folder. While it is at work the store has a journal in the
/// folder, under a name that is no key.
pub struct FolderStore<R: Files + Drop> {
    rt: R,
    folder: String,
    path: String,
    journal_path: String,
    /// The journal, once it is open.
    journal: Option<R::File>,
    /// What the last put wrote over, and the bytes of its journal.
    front: Vec<u8>,
    entry: Vec<u8>,
    /// Whether no put is to be taken back. Else nothing is read or written.
    settled: bool,
    /// How long the system lets a file grow.
    longest: u64,
    faults: u64,
}

impl<R: Files + Drop> FolderStore<R> {
    /// The store of a number over this folder, which need not be there yet. The stores at work over a folder have
    /// numbers of their own, and the folder was settled before the first of them.
    pub fn at(
        rt: R,
        alloc: Global,
        folder: &str,
        number: u8,
        state: Folder,
    ) -> Result<FolderStore<R>, AllocError>
        ensures { IfOk result (λ store. ⟦<FolderStore<R> as Store>⟧.contents store ≡ untold 0) }
    {
        let mut journal_path = String::new(alloc);
        set_journal_path(&mut journal_path, folder, number)?;
        let folder = String::from_str(alloc, folder)?;
        Ok(FolderStore {
            rt,
            folder,
            path: String::new(alloc),
            journal_path,
            journal: None,
            front: Vec::new(alloc),
            entry: Vec::new(alloc),
            settled: state.settled,
            longest: state.longest,
            faults: 0,
        })
    }
}

/// Its journal goes, unless it tells of a put that could not be taken back.
impl<R: Files + Drop> Drop for FolderStore<R> {
    fn drop(self) {
        if self.settled && self.journal.is_some() {
            let _ = remove(&self.rt, self.journal_path.as_str());
        }
        let FolderStore {
            rt: _rt,
            folder: _,
            path: _,
            journal_path: _,
            journal: _journal,
            front: _,
            entry: _,
            settled: _,
            longest: _,
            faults: _,
        } = self;
    }
}

impl<R: Files + Drop> FolderStore<R> {
    /// Puts bytes into the file of the path, and takes them back where that fails.
    fn put_bytes(&mut self, key: &str, bytes: &[u8]) -> Put
        ensures { self.new.faults ≡ self.old.faults }
    {
        match len_at(&self.rt, self.path.as_str()) {
            Ok(Some(len)) => self.put_over(key, len, bytes),
            Ok(None) => self.put_first(key, bytes),
            Err(_) => Put::Failed,
        }
    }

    /// Writes bytes over a file of this length, whose first bytes go into the journal before.
    fn put_over(&mut self, key: &str, len: u64, bytes: &[u8]) -> Put
        ensures { self.new.faults ≡ self.old.faults }
    {
        let count = (bytes.len() as u64).min(len) as usize;
        if self.front.resize(count, 0).is_err() {
            return Put::NoMemory;
        }
        let Ok(mut file) = open_over(&self.rt, self.path.as_str()) else {
            return Put::Failed;
        };
        if read_front(&mut file, self.front.as_mut_slice()) != Some(count) {
            return Put::Failed;
        }
        if write_entry(
            &mut self.entry,
            key.as_bytes(),
            Some(len),
            self.front.as_slice(),
        )
        .is_err()
        {
            return Put::NoMemory;
        }
        if self.tell_before().is_err() {
            return Put::Failed;
        }
        let written = write_over(file, len, bytes, self.longest);
        self.end_put(written, Some(len))
    }

    /// Writes bytes to a file that isn't there yet.
    fn put_first(&mut self, key: &str, bytes: &[u8]) -> Put
        ensures { self.new.faults ≡ self.old.faults }
    {
        self.front.clear();
        if write_entry(&mut self.entry, key.as_bytes(), None, &[]).is_err() {
            return Put::NoMemory;
        }
        if self.tell_before().is_err() {
            return Put::Failed;
        }
        let Ok(file) = create(&self.rt, self.path.as_str()) else {
            self.settled = self.tell_ended().is_ok();
            return Put::Failed;
        };
        let written = write_over(file, 0, bytes, self.longest);
        self.end_put(written, None)
    }

    /// Ends a put whose bytes were written or not. Where they weren't, or where that can't be told, the key gets back
    /// what it held.
    fn end_put(&mut self, written: io::Result<()>, len: Option<u64>) -> Put
        ensures { self.new.faults ≡ self.old.faults }
    {
        if written.is_ok() && self.tell_ended().is_ok() {
            return Put::Done;
        }
        let path = self.path.as_str();
        let back = take_back(&self.rt, path, len, self.front.as_slice(), self.longest);
        self.settled = back.is_ok() && self.tell_ended().is_ok();
        Put::Failed
    }

    /// Writes the journal of a put that is to begin.
    fn tell_before(&mut self) -> io::Result<()>
        ensures { self.new.faults ≡ self.old.faults }
    {
        if self.journal.is_none() {
            self.journal = Some(open_journal(&self.rt, self.journal_path.as_str())?);
        }
        match self.journal.as_mut() {
            Some(file) => tell(file, self.entry.as_slice(), self.longest),
            None => Err(io::Error::from(ErrorKind::NotFound)),
        }
    }

    /// Tells in the journal that the put has ended.
    fn tell_ended(&mut self) -> io::Result<()>
        ensures { self.new.faults ≡ self.old.faults }
    {
        match self.journal.as_mut() {
            Some(file) => tell_done(file, self.longest),
            None => Ok(()),
        }
    }
}

impl<R: Files + Drop> Store for FolderStore<R> {
    ghost contents = { λ s. untold s.faults };

    /// Only a file that isn't there is `Missing`. Anything else under the key than a file, a file where a folder
    /// should be and a refused permission are `Failed`.
    fn get(&mut self, key: &str, limit: u64, into: &mut Vec<u8>) -> Got {
        let got = match set_path(&mut self.path, self.folder.as_str(), key) {
            Ok(()) if self.settled => read_file(&self.rt, self.path.as_str(), limit, into),
            Ok(()) => Got::Failed,
            Err(_) => Got::NoMemory,
        };
        if got != Got::Found {
            into.clear();
        }
        if got == Got::Failed {
            self.faults = self.faults.saturating_add(1);
        }
        got
    }

    /// Folders that are missing are made. A file that is there is written over and then cut to its length. After any
    /// other answer than `Done` the key holds what it held, unless that could not be brought back: then this store
    /// fails from now on, and the next run tries again.
    fn put(&mut self, key: &str, bytes: &[u8]) -> Put {
        let put = match set_path(&mut self.path, self.folder.as_str(), key) {
            Ok(()) if self.settled => self.put_bytes(key, bytes),
            Ok(()) => Put::Failed,
            Err(_) => Put::NoMemory,
        };
        if put == Put::Failed {
            self.faults = self.faults.saturating_add(1);
        }
        put
    }
}

/// Writes the path of a key's file. The memory of the path is used again.
fn set_path(path: &mut String, folder: &str, key: &str) -> Result<(), AllocError> {
    path.clear();
    path.push_str(folder)?;
    path.push('/')?;
    path.push_str(key)
}

/// Reads a file of at most `limit` bytes, in place of what the buffer held.
fn read_file<R: Files>(rt: &R, path: &str, limit: u64, into: &mut Vec<u8>) -> Got
    ensures { KeepsTo limit result into.new.items }
{
    let len = match len_at(rt, path) {
        Ok(Some(len)) => len,
        Ok(None) => return Got::Missing,
        Err(_) => return Got::Failed,
    };
    if len > limit {
        return Got::TooLong { len };
    }
    if into.resize(len as usize, 0).is_err() {
        return Got::NoMemory;
    }
    let Ok(mut file) = fs::open(rt, path) else {
        return Got::Failed;
    };
    match read_front(&mut file, into.as_mut_slice()) {
        Some(count) => {
            into.truncate(count);
            Got::Found
        }
        None => Got::Failed,
    }
}

/// Writes bytes over a file of this length, and cuts it. It isn't truncated first, since some file systems then wait
/// for the disk.
fn write_over<F: OpenFile + Write + Seek + Drop>(
    mut file: F,
    len: u64,
    bytes: &[u8],
    longest: u64,
) -> io::Result<()> {
    write_at(&mut file, 0, bytes, longest)?;
    let end = bytes.len() as u64;
    if end < len {
        file.set_len(end)?;
    }
    Ok(())
}

#[cfg(test)]
mod tests {
    use super::*;
    use crate::settle;
    use std::test::Fail;
    use std::{env, process};

    #[test]
    fn a_folder_holds_what_was_put(rt: HostRuntime) -> Result<(), Fail> {
        let alloc = rt.alloc();
        let name = format!(in alloc; "cell-store-{}", process::id(rt.process()))?;
        let folder = env::temp_dir(&rt)?.join(alloc, name.as_str())?;
        let mut store = FolderStore::at(
            rt,
            alloc,
            folder.as_str(),
            0,
            settle(&rt, alloc, folder.as_str())?,
        )?;
        let mut into = [9u8].to_vec(alloc)?;
        assert_eq!(rt; store.get("a/b", 3, &mut into), Got::Missing);
        assert_eq!(rt; store.put("a/b", &[1, 2, 3]), Put::Done);
        assert_eq!(rt; store.get("a/b", 2, &mut into), Got::TooLong { len: 3 });
        assert!(rt; into.is_empty());
        assert_eq!(rt; store.put("a/b", &[4, 5]), Put::Done);
        assert_eq!(rt; store.get("a/b", 2, &mut into), Got::Found);
        assert_eq!(rt; into.as_slice(), [4, 5].as_slice());
        for key in ["a", "a/b/c"] {
            assert_eq!(rt; store.get(key, 3, &mut into), Got::Failed, "get {key}");
            assert_eq!(rt; store.put(key, &[1]), Put::Failed, "put {key}");
        }
        fs::remove_dir_all(&rt, folder.as_str())?;
        Ok(())
    }
}
