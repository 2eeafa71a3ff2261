//! What is read from any reader, and written to any writer: their bytes are named where they tell of them.
ghost use Rattle.std.specs.Prelude.{◌≡◌, ◌≢◌, ◌≤◌, ◌<◌, ◌+◌, length, take, vec_len, IfOk, IfErr, OnErr, IfSome, ◌⊎◌};
ghost use Rattle.std.specs.Prelude.{OnOk, Ok, Err};
ghost use Rattle.std.specs.IoError.{error_kind};
ghost use Rattle.std.specs.Io.KnownBytes.{Appends, Keeps};
ghost use Rattle.press_ports.specs.Answers.{IsWornOut};

use crate::answers::{Last, Watched};
use crate::fetching::Fetch;
use std::alloc::Global;
use std::io;
use std::io::{ErrorKind, Read, Write};

/// Why a device gave nothing: out of memory where it says so, else it failed.
pub(crate) fn fault_of(error: &io::Error) -> Fetch
    ensures no_memory { error_kind error.now ≡ ErrorKind.OutOfMemory → result ≡ Fetch.NoMemory }
    ensures failed { error_kind error.now ≢ ErrorKind.OutOfMemory → result ≡ Fetch.Failed }
{
    if error.kind() == ErrorKind::OutOfMemory {
        Fetch::NoMemory
    } else {
        Fetch::Failed
    }
}

/// The whole rest of a reader, of at most `limit` bytes, never cut. It is too long just where the
/// reader has more bytes than that; exactly so many aren't too long. It fails, or finds no memory,
/// only where the read itself did: `fetched` has the clause.
pub(crate) fn read_whole<T: Read + Drop>(
    alloc: Global,
    source: T,
    limit: u64,
) -> Result<Vec<u8>, Fetch>
    ensures short { IfOk result (λ bytes. vec_len bytes ≤ limit) }
    ensures whole { IfOk result (λ bytes. IfSome (T.remaining source) (λ rest. bytes.items ≡ rest)) }
    ensures too_long { result ≡ Err Fetch.TooLong → IfSome (T.remaining source) (λ rest. limit < length rest) }
    ensures not_long { OnOk result (IfSome (T.remaining source) (λ rest. length rest ≤ limit)) }
{
    fetched(read_front(alloc, source, limit.saturating_add(1)), limit)
}

/// What a read is as an input of at most `limit` bytes.
fn fetched(read: io::Result<Vec<u8>>, limit: u64) -> Result<Vec<u8>, Fetch>
    ensures ok { IfOk read (λ bytes. vec_len bytes ≤ limit → result ≡ Ok bytes) }
    ensures too_long { IfOk read (λ bytes. limit < vec_len bytes → result ≡ Err Fetch.TooLong) }
    ensures no_memory { IfErr read (λ error. error_kind error ≡ ErrorKind.OutOfMemory → result ≡ Err Fetch.NoMemory) }
    ensures failed { IfErr read (λ error. error_kind error ≢ ErrorKind.OutOfMemory → result ≡ Err Fetch.Failed) }
{
    match read {
        Err(error) => Err(fault_of(&error)),
        Ok(bytes) if bytes.len() as u64 > limit => Err(Fetch::TooLong),
        Ok(bytes) => Ok(bytes),
    }
}

/// The first bytes of a reader, `most` of them where it has so many, else all. A read that was
/// interrupted is tried again. After an error none of its bytes is handed out.
pub(crate) fn read_front<T: Read + Drop>(alloc: Global, source: T, most: u64) -> io::Result<Vec<u8>>
    ensures front { IfOk result (λ bytes. IfSome (T.remaining source) (λ rest. bytes.items ≡ take most rest)) }
    ensures retried { IfErr result (λ error. error_kind error ≢ ErrorKind.Interrupted) }
{
    let mut bytes = Vec::new(alloc);
    source.take(most).read_to_end(&mut bytes)?;
    Ok(bytes)
}

/// Writes a front of the piece, once, and answers how many bytes: the writer's own answer, also
/// where that is none or an error. A write that was interrupted is tried again, 2^64 - 1 times at
/// most. After an error nothing of the piece was written.
pub(crate) fn write_front<W: Write + Drop>(
    writer: &mut Watched<W>,
    piece: &[u8],
) -> io::Result<usize>
    ensures within { IfOk result (λ n. n ≤ length piece.now) }
    ensures ok { IfOk result (λ n. Appends (W.contents writer.old.writer) (W.contents writer.new.writer)
        (take n piece.now)) }
    ensures err { OnErr result (Keeps (W.contents writer.old.writer) (W.contents writer.new.writer)) }
    ensures took { IfOk result (λ n. writer.new.last ≡ Last.Took n) }
    ensures own { IfErr result (λ error. writer.new.last ≡ Last.Failed (error_kind error) ⊎
        IsWornOut writer.new.interruptions) }
    ensures retried { IfErr result (λ error. error_kind error ≢ ErrorKind.Interrupted) }
{
    for turn in 0..u64::MAX {
        match writer.write(piece) {
            Ok(n) => return Ok(n),
            Err(error) if error.kind() == ErrorKind::Interrupted => {}
            Err(error) => return Err(error),
        }
    }
    Err(io::Error::from(ErrorKind::TimedOut))
}

#[cfg(test)]
mod tests {
    use super::*;

    /// A reader that fails once, and then is at its end.
    #[derive(Drop)]
    struct Failing {
        kind: Option<ErrorKind>,
    }

    impl Read for Failing {
        fn read(&mut self, _buf: &mut [u8]) -> io::Result<usize> {
            match self.kind.take() {
                Some(kind) => Err(io::Error::from(kind)),
                None => Ok(0),
            }
        }
    }

    /// Two bytes, perhaps a failure, and two more.
    fn fetched(alloc: Global, kind: Option<ErrorKind>, limit: u64) -> Result<Vec<u8>, Fetch> {
        let front = b"ab".as_slice();
        let source = front.chain(Failing { kind }).chain(b"cd".as_slice());
        read_whole(alloc, source, limit)
    }

    fn is_read_so(
        alloc: Global,
        kind: Option<ErrorKind>,
        limit: u64,
        expected: Result<&[u8], Fetch>,
    ) -> bool {
        match fetched(alloc, kind, limit) {
            Ok(bytes) => Ok(bytes.as_slice()) == expected,
            Err(fault) => Err(fault) == expected,
        }
    }

    #[test]
    fn a_reader_is_read_to_its_end_or_to_its_failure(rt: HostRuntime) {
        let whole = Ok(b"abcd".as_slice());
        let failed = Some(ErrorKind::BrokenPipe);
        let interrupted = Some(ErrorKind::Interrupted);
        let cases = [
            ("short reads", None, 9, whole),
            ("just the limit", None, 4, whole),
            ("over the limit", None, 3, Err(Fetch::TooLong)),
            ("an interrupted read", interrupted, 4, whole),
            ("a failure in mid-stream", failed, 4, Err(Fetch::Failed)),
            ("too long before it", failed, 1, Err(Fetch::TooLong)),
            (
                "no memory",
                Some(ErrorKind::OutOfMemory),
                4,
                Err(Fetch::NoMemory),
            ),
        ];
        for (case, kind, limit, expected) in cases {
            assert!(rt; is_read_so(rt.alloc(), kind, limit, expected), "{case}");
        }
    }
}
