//! Whether an input is accepted, and otherwise why it isn't.
ghost use Rattle.std.specs.Prelude.{◌≡◌, ◌++◌, drop, length, take};
ghost use Rattle.passkey_c.specs.Explaining.{TellsResult, refused_from};

use passkey_malformed::Malformed;
use passkey_memory::OutOfMemory;

/// Which bytes of an input are refused.
#[repr(C)]
#[derive(Clone, Copy, Debug, PartialEq, Eq)]
pub struct Refusal {
    /// The offset of the first byte: of a data item, a map key or a part that is refused, or of where
    /// the bytes aren't well-formed; 0 of a JSON text.
    pub offset: usize,
    /// Their number: the length of the data item, the map key or the part, or all bytes from there on.
    pub len: usize,
}

/// Why an input is refused.
#[derive(Debug, Drop)]
pub(crate) struct Reason {
    /// The status of its fault.
    pub status: u32,
    pub refusal: Refusal,
    /// A text about it.
    pub text: String,
}

/// Whether an input is accepted.
#[derive(Debug, Drop)]
pub(crate) enum Verdict {
    /// It is: so many of its bytes.
    Accepted(usize),
    /// It is refused.
    Refused(Reason),
}

/// Returns which of so many bytes are refused: those from where they aren't well-formed.
pub(crate) fn refused_from(stop: Malformed, len: usize) -> Refusal
    ensures { result ≡ refused_from len stop }
{
    Refusal {
        offset: stop.offset,
        len: len.saturating_sub(stop.offset),
    }
}

/// Copies as much of the text as there is room for to the beginning of the output.
pub(crate) fn put_front(out: &mut [u8], text: &[u8])
    ensures { out.new ≡ take (length out.old) text.now ++ drop (length text.now) out.old }
{
    let len = text.len().min(out.len());
    out[..len].copy_from_slice(&text[..len]);
}

/// Writes how many bytes are accepted, or why the input is refused and where; nothing if memory ran
/// out. Returns the call's status.
pub(crate) fn tell(
    verdict: Result<Verdict, OutOfMemory>,
    read: &mut usize,
    refusal: &mut Refusal,
    out: &mut [u8],
    len: &mut usize,
) -> u32
    ensures { TellsResult verdict
        (record { read = read.old; refusal = refusal.old; text = out.old; len = len.old })
        (record { read = read.new; refusal = refusal.new; text = out.new; len = len.new }) result }
{
    let reason = match verdict {
        Ok(Verdict::Accepted(taken)) => {
            *read = taken;
            return 0;
        }
        Ok(Verdict::Refused(reason)) => reason,
        Err(_) => return 2,
    };
    *refusal = reason.refusal;
    put_front(out, reason.text.as_bytes());
    *len = reason.text.len();
    reason.status
}
