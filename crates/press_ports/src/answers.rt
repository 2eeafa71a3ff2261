//! A writer that remembers how it last answered, so that a contract can say whose answer a failure is.
ghost use Rattle.std.specs.Prelude.{◌≡◌, ◌≢◌, ◌≤◌, length, take, IfOk, IfErr, OnOk, OnErr};
ghost use Rattle.std.specs.IoError.{error_kind};
ghost use Rattle.std.specs.Io.KnownBytes.{Appends, Keeps};
ghost use Rattle.press_ports.specs.Causes.{counted};

use std::io;
use std::io::{ErrorKind, Write};

/// How a writer last answered.
#[derive(Clone, Copy, Debug, PartialEq, Eq)]
pub(crate) enum Last {
    /// It wasn't called yet.
    Nothing,
    /// It took so many bytes.
    Took(usize),
    /// It failed.
    Failed(ErrorKind),
}

/// A writer with its last answer, and how often it was interrupted.
#[derive(Drop)]
pub(crate) struct Watched<W: Drop> {
    pub(crate) writer: W,
    last: Last,
    interruptions: u64,
}

impl<W: Write + Drop> Watched<W> {
    /// A writer that wasn't called yet.
    pub(crate) fn new(writer: W) -> Watched<W>
        ensures writer { result.writer ≡ writer }
        ensures last { result.last ≡ Last.Nothing }
        ensures interruptions { result.interruptions ≡ 0 }
    {
        Watched {
            writer,
            last: Last::Nothing,
            interruptions: 0,
        }
    }

    /// The writer's own write, once. Its answer is remembered.
    pub(crate) fn write(&mut self, piece: &[u8]) -> io::Result<usize>
        ensures within { IfOk result (λ n. n ≤ length piece.now) }
        ensures ok { IfOk result (λ n. Appends (W.contents self.old.writer) (W.contents self.new.writer)
            (take n piece.now)) }
        ensures err { OnErr result (Keeps (W.contents self.old.writer) (W.contents self.new.writer)) }

        ensures took { IfOk result (λ n. self.new.last ≡ Last.Took n) }
        ensures failed { IfErr result (λ error. self.new.last ≡ Last.Failed (error_kind error)) }
        ensures interrupted { IfErr result (λ error.
            error_kind error ≡ ErrorKind.Interrupted → self.new.interruptions ≡ counted self.old.interruptions 1) }
        ensures not_interrupted { IfErr result (λ error.
            error_kind error ≢ ErrorKind.Interrupted → self.new.interruptions ≡ self.old.interruptions) }
        ensures no_failure { OnOk result (self.new.interruptions ≡ self.old.interruptions) }
    {
        let answer = self.writer.write(piece);
        match &answer {
            Ok(n) => self.last = Last::Took(*n),
            Err(error) => {
                let kind = error.kind();
                self.last = Last::Failed(kind);
                if kind == ErrorKind::Interrupted {
                    self.interruptions = self.interruptions.saturating_add(1);
                }
            }
        }
        answer
    }
}
