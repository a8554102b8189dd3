// A script that is read of a source.
ghost use Rattle.std.specs.Prelude.{IfOk};
ghost use Rattle.view_script.specs.Script.{IsScript};
ghost use Rattle.viewrun_calls.specs.Script.{ReadsBytes, ReadsScript, TakesFew};

use cell_store::{Source, Took};
use run_report::Stop;
use std::alloc::Global;
use view_script::{Script, read_script};

/// One byte more than a script may have, so that one that is too long shows.
const LIMIT: usize = (1 << 20) + 1;

/// How many bytes are asked for at once.
const PIECE: usize = 4096;

/// The script of a source, of which at most 2^20 + 1 bytes are read.
pub fn script_of<R: Source>(alloc: Global, source: &mut R) -> Result<Script, Stop>
    ensures reads { ReadsScript (R.stream source.old) (R.stream source.new) result }
    ensures few { TakesFew (R.stream source.old) (R.stream source.new) }
    ensures limits { IfOk result IsScript }
{
    let bytes = read_bytes(alloc, source)?;
    let script = read_script(alloc, bytes.as_slice())?;
    Ok(script)
}

/// The bytes of a source, in pieces, up to one more than a script may have.
fn read_bytes<R: Source>(alloc: Global, source: &mut R) -> Result<Vec<u8>, Stop>
    ensures reads { ReadsBytes (R.stream source.old) (R.stream source.new) result }
    ensures few { TakesFew (R.stream source.old) (R.stream source.new) }
{
    let mut bytes = Vec::new(alloc);
    let mut piece = [0; PIECE];
    while bytes.len() < LIMIT {
        let room = PIECE.min(LIMIT - bytes.len());
        match source.read(&mut piece[..room]) {
            Took::Read { n } => bytes.extend_from_slice(&piece[..n])?,
            Took::End => return Ok(bytes),
            Took::Failed => return Err(Stop::ReadFault),
        }
    }
    Ok(bytes)
}
