// Standard output as a sink.
ghost use Rattle.std.specs.Prelude.{◌≡◌, ◌+◌, ◌-◌, ◌^◌, ◌<◌, ◌≤◌, IfSome, length, min};
ghost use Rattle.cell_store.specs.Stream.{untold_stream};

use crate::{Gave, Sink};
use std::io::{self, ErrorKind, Write};

/// Standard output. It doesn't tell what is written, and counts the writes that failed or took nothing.
#[derive(Drop)]
pub struct StdSink<P: Print + Drop> {
    rt: P,
    faults: u64,
}

impl<P: Print + Drop> StdSink<P> {
    /// The sink of this runtime's output. It takes no memory.
    pub fn new(rt: P) -> StdSink<P>
        ensures { ⟦<StdSink<P> as Sink>⟧.stream result ≡ untold_stream 0 }
    {
        StdSink { rt, faults: 0 }
    }
}

impl<P: Print + Drop> Sink for StdSink<P> {
    ghost stream = { λ s. untold_stream s.faults };

    fn write(&mut self, bytes: &[u8]) -> Gave {
        match write_some(&mut io::writer(&self.rt), bytes) {
            Some(n) if n > 0 => Gave::Wrote { n },
            _ => {
                self.faults = self.faults.saturating_add(1);
                Gave::Failed
            }
        }
    }
}

/// Writes what one write takes, and tells how many bytes went. None where the write failed.
fn write_some<W: Write>(out: &mut W, bytes: &[u8]) -> Option<usize>
    ensures { IfSome result (λ n. n ≤ length bytes.now) }
{
    for _ in 0..u64::MAX {
        match out.write(bytes) {
            Ok(n) => return Some(n),
            Err(error) if error.kind() == ErrorKind::Interrupted => {}
            Err(_) => return None,
        }
    }
    None
}

#[cfg(test)]
mod tests {
    use super::*;
    use crate::halting::Halting;

    #[test]
    fn standard_output_takes_a_line(rt: HostRuntime) {
        let mut sink = StdSink::new(rt);
        assert_eq!(rt; sink.write(b"a line\n"), Gave::Wrote { n: 7 });
    }

    #[test]
    fn a_write_goes_on_after_an_interruption(rt: HostRuntime) {
        let mut out = Halting {
            left: 1,
            breaks: true,
            goes_on: false,
        };
        assert_eq!(rt; write_some(&mut out, b"ab"), Some(1));
        assert_eq!(rt; write_some(&mut out, b"ab"), None);
    }
}
