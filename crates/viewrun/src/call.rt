// What the program hands to its calls.
ghost use Rattle.std.specs.Prelude.{◌≡◌, IfOk, vec_len};

use cell_store::{FileSource, FolderStore, StdSink, settle};
use std::alloc::{AllocError, AllocGlobal};
use std::env;
use std::io::{self, ErrorKind};
use std::rt::Runtime;
use viewrun_calls::script_name;

/// How many stores the program makes, each over the working folder.
const STORES: u8 = 4;

/// The words after the program's name, the script that they name, the stores over the working folder, and standard output.
#[derive(Drop)]
pub(crate) struct Call<R: Runtime> {
    pub(crate) words: Vec<String>,
    pub(crate) script: FileSource<R>,
    pub(crate) stores: Vec<FolderStore<R>>,
    pub(crate) out: StdSink<R>,
}

impl<R: Runtime + AllocGlobal> Call<R> {
    /// Gets the words, the script's file and the folder ready.
    pub(crate) fn prepare(rt: &R) -> io::Result<Self>
        ensures { IfOk result (λ call. vec_len call.stores ≡ 4) }
    {
        let words = command_words(rt)?;
        let path = script_name(rt.alloc(), words.as_slice())?.unwrap_or("");
        let script = FileSource::at(rt.clone()?, rt.alloc(), path)?;
        let stores = folder_stores(rt)?;
        let out = StdSink::new(rt.clone()?);
        Ok(Self {
            words,
            script,
            stores,
            out,
        })
    }
}

/// The words after the program's name.
fn command_words<R: Runtime + AllocGlobal>(rt: &R) -> io::Result<Vec<String>> {
    match env::args(rt) {
        Ok(words) => Ok(words.skip(1).collect(rt.alloc())?),
        // A word that isn't UTF-8 asks for nothing that is known.
        Err(err) if err.kind() == ErrorKind::InvalidData => Ok(Vec::new(rt.alloc())),
        Err(err) => Err(err),
    }
}

/// The stores of the program, over the working folder, in which the puts that a killed run left are taken back first.
fn folder_stores<R: Runtime + AllocGlobal>(rt: &R) -> Result<Vec<FolderStore<R>>, AllocError>
    ensures { IfOk result (λ stores. vec_len stores ≡ 4) }
{
    let alloc = rt.alloc();
    let folder = settle(rt, alloc, ".")?;
    let mut stores = Vec::new(alloc);
    for number in 0..STORES {
        stores.push(FolderStore::at(rt.clone()?, alloc, ".", number, folder)?)?;
    }
    Ok(stores)
}
