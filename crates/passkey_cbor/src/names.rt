//! Which of several names a string is.
ghost use Rattle.std.specs.Prelude.{◌≡◌, ◌≤◌, ◌++◌, ℕ, List, map, is_some, IfSome, MatchOption};
ghost use Rattle.std.specs.List.{position};
ghost use Rattle.std.specs.Str.{bytes_eq};
ghost use Rattle.passkey_cbor.specs.Names.{begins, begins_one, IsNameOf, LooksFor};
ghost use Rattle.passkey_cbor.specs.Steps.{AreSought, CountsSought};
ghost use Rattle.passkey_cbor.specs.CursorState.{IsInside};

use crate::cursor::{Cursor, Next};

// The bytes after `front`, if they begin with it.
fn following<'b>(bytes: &'b [u8], front: &[u8]) -> Option<&'b [u8]>
    ensures { MatchOption result ((rest : List ℕ) → bytes.now ≡ front.now ++ rest → ⊥)
        (λ rest. bytes.now ≡ front.now ++ rest.now) }
{
    if bytes.len() < front.len() {
        return None;
    }
    let (begin, rest) = bytes.split_at(front.len());
    if begin != front {
        return None;
    }
    Some(rest)
}

// `front` followed by `more`, as a prefix of the name; `None` if the name doesn't begin so.
fn begin_of<'n>(name: &'n [u8], front: &[u8], more: &[u8]) -> Option<&'n [u8]>
    ensures begins { is_some result ≡ begins (front.now ++ more.now) name.now }
    ensures same { IfSome result (λ s. s.now ≡ front.now ++ more.now) }
{
    match following(name, front) {
        None => None,
        Some(others) => match following(others, more) {
            None => None,
            Some(_) => Some(&name[..front.len() + more.len()]),
        },
    }
}

// `joined` followed by `piece`, as a prefix of one of the names; `None` if no name begins so.
fn longer<'n>(names: &[&'n str], joined: &[u8], piece: &[u8]) -> Option<&'n [u8]>
    ensures begins { is_some result ≡ begins_one (joined.now ++ piece.now) (map (λ n. n.now) names.now) }
    ensures same { IfSome result (λ s. s.now ≡ joined.now ++ piece.now) }
{
    for name in names {
        let begin = begin_of(name.as_bytes(), joined, piece);
        if begin.is_some() {
            return begin;
        }
    }
    None
}

// The index of the first of the names that equals these bytes.
fn place_of(names: &[&str], bytes: &[u8]) -> Option<usize>
    ensures { result ≡ position (λ n. bytes_eq n.now bytes.now) names.now }
{
    names.iter().position(|name| name.as_bytes() == bytes)
}

// The index of the first of the names that the chunks ahead, up to their break, join to. The chunks
// joined so far are borrowed as a prefix of a name, so nothing is allocated.
fn place_of_joined(chunks: &mut Cursor<'_>, is_text: bool, names: &[&str]) -> Option<usize>
    requires { IsInside chunks.old }
    ensures place { AreSought is_text (map (λ n. n.now) names.now) chunks.old result }
    ensures counted { CountsSought is_text (map (λ n. n.now) names.now) chunks.old chunks.new }
{
    let mut left = None;
    let mut joined: &[u8] = &[];
    loop {
        match chunks.step(&mut left) {
            Next::Malformed => return None,
            Next::End => return place_of(names, joined),
            Next::Element(head) => match chunks.chunk(is_text, head) {
                None => return None,
                Some(piece) => match longer(names, joined, piece) {
                    None => return None,
                    Some(more) => joined = more,
                },
            },
        }
    }
}

/// The index of the first of the names that a string equals, given its region. The heads of chunks
/// are counted at the cursor.
pub(crate) fn name_of(
    is_text: bool,
    len: Option<u64>,
    region: &[u8],
    names: &[&str],
    cursor: &mut Cursor<'_>,
) -> Option<usize>
    ensures name { IsNameOf is_text (record { len = len; bytes = region.now }) (map (λ n. n.now) names.now) result }
    ensures looks { LooksFor is_text (map (λ n. n.now) names.now) (record { len = len; bytes = region.now })
        cursor.old cursor.new }
    ensures rises { cursor.old.heads ≤ cursor.new.heads }
{
    match len {
        Some(_) => place_of(names, region),
        None => {
            let mut chunks = Cursor::new(region);
            let place = place_of_joined(&mut chunks, is_text, names);
            cursor.add_heads(chunks.count().heads);
            place
        }
    }
}
