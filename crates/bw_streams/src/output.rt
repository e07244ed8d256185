//! A buffered output that is ended by a call.
ghost use Rattle.std.specs.Prelude.{◌≡◌, [], IfOk, OnOk};
ghost use Rattle.std.specs.Io.Buffered.{writer_inner, writer_buffer, writer_contents};

use std::alloc::{AllocError, Global};
use std::io;
use std::io::{BufWriter, Write};

/// A writer behind a buffer of 8 KiB. Unlike a `BufWriter`, it is no `Drop`: it cannot be let go,
/// which would write the buffer once more after a write that failed. It has to be ended.
pub struct Output<W: Write + Drop> {
    buffered: BufWriter<W>,
}

impl<W: Write + Drop> Output<W> {
    ghost use Rattle.std.specs.Prelude.{◌≡◌, [], IfOk};
    ghost use Rattle.bw_streams.specs.Output.{writer_behind, waiting};

    /// Allocates the buffer. Nothing waits in it.
    ///
    /// # Errors
    ///
    /// `AllocError` if an allocation failed; the writer is dropped.
    pub fn new(alloc: Global, writer: W) -> Result<Output<W>, AllocError>
        ensures writer { IfOk result (λ o. writer_behind o ≡ writer) }
        ensures empty { IfOk result (λ o. waiting o ≡ []) }
    {
        match BufWriter::new(alloc, writer) {
            Ok(buffered) => Ok(Output { buffered }),
            Err(_) => Err(AllocError),
        }
    }

    /// Ends the output without a write. Bytes that wait in the buffer are lost.
    pub fn end(self) -> W
        ensures { result ≡ writer_behind self }
    {
        let Output { buffered } = self;
        buffered.into_parts().0
    }
}

impl<W: Write + Drop> Write for Output<W> {
    ghost use Rattle.std.specs.Prelude.{[], OnOk};
    ghost use Rattle.std.specs.Io.KnownBytes.{Keeps};
    ghost use Rattle.bw_streams.specs.Output.{waiting, output_contents};

    ghost contents = { output_contents W.contents };

    fn write(&mut self, buf: &[u8]) -> io::Result<usize> {
        self.buffered.write(buf)
    }

    fn flush(&mut self) -> io::Result<()>
        ensures bytes { Keeps (output_contents W.contents self.old)
            (output_contents W.contents self.new) }
        ensures empty { OnOk result (waiting self.new ≡ []) }
    {
        self.buffered.flush()
    }
}
