//! Heads.
ghost use Rattle.std.specs.Prelude.{◌≡◌, ◌<◌, ◌^◌, ℕ, List, ◌∷◌, Some as There, length, option_map, IfSome};
ghost use Rattle.passkey_cbor.specs.Heads.{one, two, four, eight};
ghost use Rattle.passkey_cbor.specs.HeadReading.{number_at, argument_at, with_argument, without_argument, simple_at, head_after, head_at};
ghost use Rattle.passkey_cbor.specs.Reading.{is_break, chunk_len, string_len};
ghost use Rattle.passkey_cbor.specs.CanonicalReading.{DecodesShortest, head_written};
ghost use Rattle.passkey_cbor.specs.Written.{shortest_head, float_head};

use crate::float::Float;

/// A head: the initial byte of a data item and its argument (RFC 8949, section 3). `None` as a
/// length means indefinite length.
#[derive(Clone, Copy, Debug, PartialEq, Eq)]
pub enum Head {
    /// An unsigned integer n (major type 0).
    Unsigned(u64),
    /// The negative integer -1 - n (major type 1).
    Negative(u64),
    /// A byte string of this many bytes, or in chunks up to a break (major type 2).
    Bytes(Option<u64>),
    /// A text string of this many bytes, or in chunks up to a break (major type 3).
    Text(Option<u64>),
    /// An array of this many elements, or of elements up to a break (major type 4).
    Array(Option<u64>),
    /// A map of this many pairs, or of pairs up to a break (major type 5).
    Map(Option<u64>),
    /// A tag number, followed by the tag content (major type 6).
    Tag(u64),
    /// A simple value, 0 to 23 or 32 to 255 (major type 7).
    Simple(u8),
    /// A floating-point number (major type 7).
    Float(Float),
    /// The "break" stop code, which ends an item of indefinite length (section 3.2.1).
    Break,
}

impl Head {
    /// The head at the beginning of the bytes, and the bytes after it; `None` if the bytes don't
    /// begin with a complete, well-formed head.
    #[tactic(auto, unfolding(crate::specs::HeadReading::head_at))]
    pub(crate) fn decode(bytes: &[u8]) -> Option<(Head, &[u8])>
        ensures { option_map (λ r. (r.0, r.1.now)) result ≡ head_at bytes.now }
    {
        let (initial, rest) = bytes.split_first()?;
        Head::following(*initial / 32, *initial % 32, rest)
    }

    /// The head of this one byte, if its argument is in its additional information, below 24
    /// (RFC 8949, section 3).
    #[inline(always)]
    pub(crate) fn short(initial: u8) -> Option<Head>
        ensures { IfSome result (λ h. (rest : List ℕ) → head_at (initial ∷ rest) ≡ There (h, rest)) }
    {
        let info = initial % 32;
        if info >= 24 {
            return None;
        }
        if initial / 32 == 7 {
            return Some(Head::Simple(info));
        }
        Head::with_argument(initial / 32, u64::from(info))
    }

    /// The head of these two bytes, if its argument is the second and it isn't a simple value
    /// (additional information 24).
    #[inline(always)]
    pub(crate) fn with_byte(initial: u8, argument: u8) -> Option<Head>
        ensures { IfSome result (λ h. (rest : List ℕ) → head_at (initial ∷ (argument ∷ rest)) ≡ There (h, rest)) }
    {
        if initial % 32 != 24 {
            return None;
        }
        Head::with_argument(initial / 32, u64::from(argument))
    }

    /// The head at the beginning of the bytes, and the bytes after it, if the head has its shortest
    /// encoding.
    pub(crate) fn decode_shortest(bytes: &[u8]) -> Option<(Head, &[u8])>
        ensures { DecodesShortest bytes.now (option_map (λ r. (r.0, r.1.now)) result) }
    {
        match Head::decode(bytes) {
            None => None,
            Some((head, rest)) => {
                if bytes.len() - rest.len() != head.shortest_len() {
                    return None;
                }
                Some((head, rest))
            }
        }
    }

    // The length in bytes of the head's shortest encoding.
    fn shortest_len(&self) -> usize
        ensures { result ≡ length (head_written self.now) }
    {
        match self {
            Head::Unsigned(n) | Head::Negative(n) | Head::Tag(n) => argument_len(*n),
            Head::Bytes(len) | Head::Text(len) | Head::Array(len) | Head::Map(len) => match len {
                None => 1,
                Some(n) => argument_len(*n),
            },
            Head::Simple(n) => { if *n < 24 { 1 } else { 2 } }
            Head::Float(f) => float_len(*f),
            Head::Break => 1,
        }
    }

    // The head whose initial byte has this major type and additional information, and is followed
    // by these bytes; and the bytes after it.
    #[tactic(auto, unfolding(crate::specs::HeadReading::head_after))]
    fn following(major: u8, info: u8, bytes: &[u8]) -> Option<(Head, &[u8])>
        ensures { option_map (λ r. (r.0, r.1.now)) result ≡ head_after major info bytes.now }
    {
        if info == 31 {
            let head = Head::without_argument(major)?;
            return Some((head, bytes));
        }
        if major == 7 {
            return Head::simple_or_float(info, bytes);
        }
        let (argument, rest) = argument(info, bytes)?;
        let head = Head::with_argument(major, argument)?;
        Some((head, rest))
    }

    #[inline(always)]
    fn with_argument(major: u8, argument: u64) -> Option<Head>
        ensures { result ≡ with_argument major argument }
    {
        match major {
            0 => Some(Head::Unsigned(argument)),
            1 => Some(Head::Negative(argument)),
            2 => Some(Head::Bytes(Some(argument))),
            3 => Some(Head::Text(Some(argument))),
            4 => Some(Head::Array(Some(argument))),
            5 => Some(Head::Map(Some(argument))),
            6 => Some(Head::Tag(argument)),
            _ => None,
        }
    }

    fn without_argument(major: u8) -> Option<Head>
        ensures { result ≡ without_argument major }
    {
        match major {
            2 => Some(Head::Bytes(None)),
            3 => Some(Head::Text(None)),
            4 => Some(Head::Array(None)),
            5 => Some(Head::Map(None)),
            7 => Some(Head::Break),
            _ => None,
        }
    }

    // A head of major type 7. Simple values below 32 aren't well-formed in two bytes.
    #[tactic(auto, unfolding(crate::specs::HeadReading::simple_at))]
    fn simple_or_float(info: u8, bytes: &[u8]) -> Option<(Head, &[u8])>
        ensures { option_map (λ r. (r.0, r.1.now)) result ≡ simple_at info bytes.now }
    {
        match info {
            0..=23 => Some((Head::Simple(info), bytes)),
            24 => {
                let (value, rest) = one_byte(bytes)?;
                if value < 32 {
                    None
                } else {
                    Some((Head::Simple(value as u8), rest))
                }
            }
            25 => {
                let (bits, rest) = two_bytes(bytes)?;
                Some((Head::Float(Float::of(2, bits)), rest))
            }
            26 => {
                let (bits, rest) = four_bytes(bytes)?;
                Some((Head::Float(Float::of(4, bits)), rest))
            }
            27 => {
                let (bits, rest) = eight_bytes(bytes)?;
                Some((Head::Float(Float::of(8, bits)), rest))
            }
            _ => None,
        }
    }

    /// Returns the length in bytes of a chunk of a string, a text string or a byte string, that
    /// begins with this head; `None` if none does (RFC 8949, section 3.2.3).
    pub fn chunk_len(&self, is_text: bool) -> Option<u64>
        ensures { result ≡ chunk_len is_text self.now }
    {
        match self {
            Head::Bytes(len) => { if is_text { None } else { *len } }
            Head::Text(len) => { if is_text { *len } else { None } }
            _ => None,
        }
    }

    /// The length of the string; `None` if the head isn't that of this kind of string.
    pub(crate) fn string_len(&self, is_text: bool) -> Option<Option<u64>>
        ensures { result ≡ string_len is_text self.now }
    {
        match self {
            Head::Bytes(len) => { if is_text { None } else { Some(*len) } }
            Head::Text(len) => { if is_text { Some(*len) } else { None } }
            _ => None,
        }
    }

    pub(crate) fn is_break(&self) -> bool
        ensures { result ≡ is_break self.now }
    {
        matches!(self, Head::Break)
    }
}

// The argument for this additional information, and the bytes after it.
#[tactic(auto, unfolding(crate::specs::HeadReading::argument_at))]
fn argument(info: u8, bytes: &[u8]) -> Option<(u64, &[u8])>
    ensures { option_map (λ r. (r.0, r.1.now)) result ≡ argument_at info bytes.now }
{
    match info {
        0..=23 => Some((u64::from(info), bytes)),
        24 => one_byte(bytes),
        25 => two_bytes(bytes),
        26 => four_bytes(bytes),
        27 => eight_bytes(bytes),
        _ => None,
    }
}

#[tactic(auto, unfolding(crate::specs::HeadReading::number_at))]
fn one_byte(bytes: &[u8]) -> Option<(u64, &[u8])>
    ensures value { option_map (λ r. (r.0, r.1.now)) result ≡ number_at one bytes.now }
    ensures below { IfSome result (λ r. r.0 < 2 ^ 8) }
{
    let (front, rest) = bytes.split_first_chunk::<1>()?;
    Some((u64::from(u8::from_be_bytes(*front)), rest))
}

#[tactic(auto, unfolding(crate::specs::HeadReading::number_at))]
fn two_bytes(bytes: &[u8]) -> Option<(u64, &[u8])>
    ensures value { option_map (λ r. (r.0, r.1.now)) result ≡ number_at two bytes.now }
    ensures below { IfSome result (λ r. r.0 < 2 ^ 16) }
{
    let (front, rest) = bytes.split_first_chunk::<2>()?;
    Some((u64::from(u16::from_be_bytes(*front)), rest))
}

#[tactic(auto, unfolding(crate::specs::HeadReading::number_at))]
fn four_bytes(bytes: &[u8]) -> Option<(u64, &[u8])>
    ensures value { option_map (λ r. (r.0, r.1.now)) result ≡ number_at four bytes.now }
    ensures below { IfSome result (λ r. r.0 < 2 ^ 32) }
{
    let (front, rest) = bytes.split_first_chunk::<4>()?;
    Some((u64::from(u32::from_be_bytes(*front)), rest))
}

#[tactic(auto, unfolding(crate::specs::HeadReading::number_at))]
fn eight_bytes(bytes: &[u8]) -> Option<(u64, &[u8])>
    ensures { option_map (λ r. (r.0, r.1.now)) result ≡ number_at eight bytes.now }
{
    let (front, rest) = bytes.split_first_chunk::<8>()?;
    Some((u64::from_be_bytes(*front), rest))
}

// The length in bytes of the shortest head with this argument.
#[tactic(auto, unfolding(crate::specs::Written::shortest_head))]
fn argument_len(argument: u64) -> usize
    ensures { (major : ℕ) → result ≡ length (shortest_head major argument) }
{
    if argument < 24 {
        1
    } else if argument < 0x100 {
        2
    } else if argument < 0x1_0000 {
        3
    } else if argument < 0x1_0000_0000 {
        5
    } else {
        9
    }
}

// The length in bytes of the head of a float.
#[tactic(auto, unfolding(crate::specs::Written::float_head))]
fn float_len(f: Float) -> usize
    ensures { result ≡ length (float_head f) }
{
    match f.width() {
        2 => 3,
        4 => 5,
        _ => 9,
    }
}
