// A file as a source.
ghost use Rattle.std.specs.Prelude.{◌≡◌, ◌+◌, ◌-◌, ◌^◌, ◌<◌, ◌≤◌, IfOk, IfSome, length, min};
ghost use Rattle.cell_store.specs.Stream.{untold_stream};

use crate::{Source, Took};
use std::alloc::{AllocError, Global};
use std::fs;
use std::io::{ErrorKind, Read};
use std::rt::Files;

/// A file that is opened at its first read. It doesn't tell what is left, and counts the reads that failed. A
/// read that can't open the file fails, and the next one tries again.
#[derive(Drop)]
pub struct FileSource<R: Files + Drop> {
    rt: R,
    path: String,
    file: Option<R::File>,
    faults: u64,
}

impl<R: Files + Drop> FileSource<R> {
    /// The source of this file, which isn't opened yet.
    pub fn at(rt: R, alloc: Global, path: &str) -> Result<FileSource<R>, AllocError>
        ensures { IfOk result (λ source. ⟦<FileSource<R> as Source>⟧.stream source ≡ untold_stream 0) }
    {
        let path = String::from_str(alloc, path)?;
        Ok(FileSource {
            rt,
            path,
            file: None,
            faults: 0,
        })
    }
}

impl<R: Files + Drop> Source for FileSource<R> {
    ghost stream = { λ s. untold_stream s.faults };

    fn read(&mut self, into: &mut [u8]) -> Took {
        if self.file.is_none() {
            self.file = fs::open(&self.rt, self.path.as_str()).ok();
        }
        match read_some(&mut self.file, into) {
            Some(0) => Took::End,
            Some(n) => Took::Read { n },
            None => {
                self.faults = self.faults.saturating_add(1);
                Took::Failed
            }
        }
    }
}

/// Reads what one read gives, and tells how many bytes came. None where the file isn't open or the read failed.
fn read_some<F: Read>(file: &mut Option<F>, into: &mut [u8]) -> Option<usize>
    ensures { IfSome result (λ n. n ≤ length into.new) }
{
    let file = file.as_mut()?;
    for _ in 0..u64::MAX {
        match file.read(into) {
            Ok(n) => return Some(n),
            Err(error) if error.kind() == ErrorKind::Interrupted => {}
            Err(_) => return None,
        }
    }
    None
}

#[cfg(test)]
mod tests {
    use super::*;
    use crate::halting::Halting;
    use std::test::Fail;
    use std::{env, process};

    #[test]
    fn a_file_is_read_to_its_end(rt: HostRuntime) -> Result<(), Fail> {
        let alloc = rt.alloc();
        let name = format!(in alloc; "file-source-{}", process::id(rt.process()))?;
        let path = env::temp_dir(&rt)?.join(alloc, name.as_str())?;
        let mut source = FileSource::at(rt, alloc, path.as_str())?;
        let mut into = [0u8; 2];
        assert_eq!(rt; source.read(&mut into), Took::Failed);
        fs::write(&rt, path.as_str(), "abc")?;
        assert_eq!(rt; source.read(&mut into), Took::Read { n: 2 });
        assert_eq!(rt; into.as_slice(), b"ab".as_slice());
        assert_eq!(rt; source.read(&mut into), Took::Read { n: 1 });
        assert_eq!(rt; into.as_slice(), b"cb".as_slice());
        assert_eq!(rt; source.read(&mut into), Took::End);
        fs::remove_file(&rt, path.as_str())?;
        Ok(())
    }

    #[test]
    fn a_read_goes_on_after_an_interruption(rt: HostRuntime) {
        let mut file = Some(Halting {
            left: 1,
            breaks: true,
            goes_on: false,
        });
        let mut into = [9u8; 2];
        assert_eq!(rt; read_some(&mut file, &mut into), Some(1));
        assert_eq!(rt; into.as_slice(), [0, 9].as_slice());
        assert_eq!(rt; read_some(&mut file, &mut into), None);
    }
}
