//! Readers and writers that fail: how many reads and writes are made.
use passkey_rewrite::{RunFault, read_all, read_within, write_all};
use std::io;
use std::io::{ErrorKind, Read, Write};
use std::process::Abort;

// The number of no read and no write.
const NEVER: usize = 0;

// Returns its bytes one at a time, and counts its reads. The one with the number `fails_at` fails, and
// the next one would succeed.
#[derive(Drop)]
struct SlowReader {
    left: u32,
    reads: usize,
    fails_at: usize,
}

impl Read for SlowReader {
    fn read(&mut self, buffer: &mut [u8]) -> io::Result<usize> {
        self.reads = self.reads.saturating_add(1);
        if self.reads == self.fails_at {
            return Err(io::Error::from(ErrorKind::Interrupted));
        }
        match (self.left.checked_sub(1), buffer.first_mut()) {
            (Some(left), Some(place)) => {
                *place = b'7';
                self.left = left;
                Ok(1)
            }
            _ => Ok(0),
        }
    }
}

// Takes bytes one at a time, without an allocation, and counts its writes. The one with the number
// `fails_at` takes none, and the next one would take one again.
#[derive(Drop)]
struct SlowWriter {
    taken: [u8; 4],
    writes: usize,
    fails_at: usize,
    is_error: bool,
}

impl Write for SlowWriter {
    fn write(&mut self, bytes: &[u8]) -> io::Result<usize> {
        self.writes = self.writes.saturating_add(1);
        if self.writes == self.fails_at {
            return if self.is_error {
                Err(io::Error::from(ErrorKind::Interrupted))
            } else {
                Ok(0)
            };
        }
        match (bytes.first(), self.taken.get_mut(self.writes - 1)) {
            (Some(first), Some(place)) => {
                *place = *first;
                Ok(1)
            }
            _ => Ok(0),
        }
    }

    fn flush(&mut self) -> io::Result<()> {
        Ok(())
    }
}

// How many bytes are read within so many reads, or the fault; and how many reads were made.
fn read(
    rt: &(impl Abort + AllocGlobal),
    left: u32,
    fails_at: usize,
    reads: u32,
) -> (Result<usize, RunFault>, usize) {
    let mut reader = SlowReader {
        left,
        reads: 0,
        fails_at,
    };
    let input = read_within(rt.alloc(), &mut reader, reads);
    (input.map(|it| it.len()), reader.reads)
}

// Two reads return the bytes, and the third returns the end. No read comes after one that fails, or
// after the last one that is allowed.
#[test]
fn reads_are_counted(rt: HostRuntime) {
    for (fails_at, most, read_at_most) in [
        (1, 9, 1),
        (2, 9, 2),
        (3, 9, 3),
        (NEVER, 0, 0),
        (NEVER, 2, 2),
    ] {
        let told = read(&rt, 2, fails_at, most);
        assert_eq!(rt; told, (Err(RunFault::InputFailed), read_at_most));
    }
    assert_eq!(rt; read(&rt, 2, NEVER, 3), (Ok(2), 3));
    let mut reader = SlowReader {
        left: 70_000,
        reads: 0,
        fails_at: NEVER,
    };
    let input = read_all(rt.alloc(), &mut reader);
    assert_eq!(rt; input.map(|it| it.len()), Ok(70_000));
}

// No write comes after one that takes no byte.
#[test]
fn writes_are_counted(rt: HostRuntime) {
    for is_error in [false, true] {
        for (fails_at, taken) in [
            (1, [0, 0, 0, 0]),
            (2, [1, 0, 0, 0]),
            (3, [1, 2, 0, 0]),
            (4, [1, 2, 3, 0]),
        ] {
            let mut writer = SlowWriter {
                taken: [0; 4],
                writes: 0,
                fails_at,
                is_error,
            };
            let told = write_all(&mut writer, &[1, 2, 3]);
            let wanted = if fails_at < 4 {
                Err(RunFault::OutputFailed)
            } else {
                Ok(())
            };
            assert_eq!(rt; told, wanted);
            assert_eq!(rt; writer.writes, fails_at.min(3));
            assert_eq!(rt; writer.taken, taken);
        }
    }
}
