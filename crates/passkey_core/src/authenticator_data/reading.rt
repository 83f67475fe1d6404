//! Decoding authenticator data.
ghost use Rattle.std.specs.Prelude.{◌≡◌, ◌+◌, ◌*◌, ◌<◌, ◌≤◌, ◌^◌, true, Ok, length, min, option_map, IfOk, IfErr};
ghost use Rattle.std.specs.Result.{result_map_both};
ghost use Rattle.passkey_cbor.specs.Reads.{HasGrowingLeadingItem};
ghost use Rattle.passkey_cbor.specs.View.{item_of};
ghost use Rattle.passkey_cbor.specs.CursorState.{raised};
ghost use Rattle.passkey_cose.specs.Key.{key_parts};
ghost use Rattle.passkey_cose.specs.KeyReading.{read_key};
ghost use Rattle.passkey_core.specs.DataAnswers.{Returns};
ghost use Rattle.passkey_core.specs.DataCounts.{Counts, CountsData, CountsEach, UnlessOutOfMemory};
ghost use Rattle.passkey_core.specs.DataFlags.{attested_flag, extensions_flag, has_flag};
ghost use Rattle.passkey_core.specs.DataNodes.{count_data, count_key, count_where, data_nodes, data_places};
ghost use Rattle.passkey_core.specs.DataReading.{bytes_at, fixed_at, ids_at, read_map, ReadsItem, ReadsAttested, ReadsWhere};
ghost use Rattle.passkey_core.specs.DataReading.{ReadsData, ReadsDataFront, ReadsDataExactly, AttestedGrows, DataGrows};
ghost use Rattle.passkey_core.specs.DataViews.{attested_parts, data_parts};
ghost use Rattle.passkey_core.specs.DataFixed.{fixed_parts};

use crate::aaguid::Aaguid;
use crate::attested::AttestedCredentialData;
use crate::authenticator_data::AuthenticatorData;
use crate::flags::Flags;
use passkey_cbor::{Count, Cursor, Value};
use passkey_cose::{CoseError, CoseKey};
use std::alloc::Global;

/// A part at the beginning of the bytes, and the bytes after it.
type Begun<'a, T> = Result<(T, &'a [u8]), CoseError>;

fn chunk_at<const N: usize>(bytes: &[u8]) -> Begun<'_, [u8; N]>
    ensures { result_map_both (λ r. (r.0, r.1.now)) (λ e. e) result ≡ bytes_at N bytes.now }
{
    match bytes.split_first_chunk::<N>() {
        Some((chunk, rest)) => Ok((*chunk, rest)),
        None => Err(CoseError::DecodeFailed),
    }
}

fn slice_at(bytes: &[u8], n: usize) -> Begun<'_, &[u8]>
    ensures { result_map_both (λ r. (r.0.now, r.1.now)) (λ e. e) result ≡ bytes_at n bytes.now }
{
    match bytes.split_at_checked(n) {
        Some(parts) => Ok(parts),
        None => Err(CoseError::DecodeFailed),
    }
}

/// What all authenticator data begin with.
#[derive(Clone, Copy)]
struct Fixed {
    rp_id_hash: [u8; 32],
    flags: Flags,
    counter: u32,
}

#[tactic(auto, unfolding(crate::specs::DataReading::fixed_at))]
fn read_fixed(bytes: &[u8]) -> Begun<'_, Fixed>
    ensures { result_map_both (λ r. (fixed_parts r.0, r.1.now)) (λ e. e) result ≡ fixed_at bytes.now }
{
    let (rp_id_hash, rest) = chunk_at::<32>(bytes)?;
    let (flags, rest) = chunk_at::<1>(rest)?;
    let (counter, rest) = chunk_at::<4>(rest)?;
    let Ok(flags) = Flags::try_from(flags[0]) else {
        return Err(CoseError::OutOfRangeIntegerValue);
    };
    let fixed = Fixed {
        rp_id_hash,
        flags,
        counter: u32::from_be_bytes(counter),
    };
    Ok((fixed, rest))
}

/// The AAGUID and the credential id.
#[tactic(auto, unfolding(crate::specs::DataReading::ids_at))]
fn read_ids(bytes: &[u8]) -> Begun<'_, (Aaguid, &[u8])>
    ensures value { result_map_both (λ r. ((r.0.0.0, r.0.1.now), r.1.now)) (λ e. e) result ≡ ids_at bytes.now }
    ensures fits { IfOk result (λ r. length r.0.1.now < 2 ^ 16) }
{
    let (aaguid, rest) = chunk_at::<16>(bytes)?;
    let (len, rest) = chunk_at::<2>(rest)?;
    let (id, rest) = slice_at(rest, usize::from(u16::from_be_bytes(len)))?;
    Ok(((Aaguid(aaguid), id), rest))
}

// Adds to the counts, each of which saturates at `u128::MAX`.
fn add(count: &mut Count, more: Count)
    ensures heads { count.new.heads ≡ min (count.old.heads + more.heads) u128.MAX }
    ensures nodes { count.new.nodes ≡ min (count.old.nodes + more.nodes) u128.MAX }
    ensures heads_rise { count.old.heads ≤ count.new.heads }
    ensures nodes_rise { count.old.nodes ≤ count.new.nodes }
{
    count.heads = count.heads.saturating_add(more.heads);
    count.nodes = count.nodes.saturating_add(more.nodes);
}

fn read_item<'a>(alloc: Global, bytes: &'a [u8], count: &mut Count) -> Begun<'a, Value>
    ensures value { Returns (HasGrowingLeadingItem bytes.now) (λ r. (item_of r.0, r.1.now))
        (ReadsItem Ok bytes.now) result }
    ensures counts { Counts (λ each. each bytes.now) bytes.now count.old count.new result }
{
    let mut cursor = Cursor::new(bytes);
    let value = cursor.value(alloc);
    add(count, cursor.count());
    let value = value?;
    Ok((value, &bytes[cursor.place()..]))
}

fn read_key<'a>(alloc: Global, bytes: &'a [u8], count: &mut Count) -> Begun<'a, CoseKey>
    ensures value { Returns (HasGrowingLeadingItem bytes.now) (λ r. (key_parts r.0, r.1.now))
        (ReadsItem read_key bytes.now) result }
    ensures counts { Counts (λ each. each bytes.now) bytes.now count.old count.new result }
{
    let (value, rest) = read_item(alloc, bytes, count)?;
    Ok((CoseKey::from_owned_value(alloc, value)?, rest))
}

fn read_extensions<'a>(alloc: Global, bytes: &'a [u8], count: &mut Count) -> Begun<'a, Value>
    ensures value { Returns (HasGrowingLeadingItem bytes.now) (λ r. (item_of r.0, r.1.now))
        (ReadsItem read_map bytes.now) result }
    ensures counts { Counts (λ each. each bytes.now) bytes.now count.old count.new result }
{
    let (value, rest) = read_item(alloc, bytes, count)?;
    if !matches!(value, Value::Map(_)) {
        drop(value);
        return Err(CoseError::UnexpectedItem);
    }
    Ok((value, rest))
}

fn read_attested<'a>(
    alloc: Global,
    bytes: &'a [u8],
    count: &mut Count,
) -> Begun<'a, AttestedCredentialData>
    ensures value { Returns (AttestedGrows bytes.now) (λ r. (attested_parts r.0, r.1.now))
        (ReadsAttested bytes.now) result }
    ensures counts { Counts (λ each. count_key each bytes.now) bytes.now count.old count.new result }
{
    let ((aaguid, id), rest) = read_ids(bytes)?;
    let (key, rest) = read_key(alloc, rest, count)?;
    let attested = AttestedCredentialData {
        aaguid,
        credential_id: Vec::from_slice(alloc, id)?,
        key,
    };
    Ok((attested, rest))
}

fn read_attested_where<'a>(
    alloc: Global,
    flags: Flags,
    bytes: &'a [u8],
    count: &mut Count,
) -> Begun<'a, Option<AttestedCredentialData>>
    ensures value { Returns ((has_flag attested_flag flags.0 ≡ true) × AttestedGrows bytes.now)
        (λ r. (option_map attested_parts r.0, r.1.now))
        (ReadsWhere (has_flag attested_flag flags.0) ReadsAttested bytes.now) result }
    ensures there { IfErr result (λ e. has_flag attested_flag flags.0 ≡ true) }
    ensures counts { Counts (λ each. count_where (has_flag attested_flag flags.0) (count_key each) bytes.now)
        bytes.now count.old count.new result }
{
    if !bitflags::Flags::contains(&flags, Flags::AT) {
        return Ok((None, bytes));
    }
    let (attested, rest) = read_attested(alloc, bytes, count)?;
    Ok((Some(attested), rest))
}

fn read_extensions_where<'a>(
    alloc: Global,
    flags: Flags,
    bytes: &'a [u8],
    count: &mut Count,
) -> Begun<'a, Option<Value>>
    ensures value { Returns ((has_flag extensions_flag flags.0 ≡ true) × HasGrowingLeadingItem bytes.now)
        (λ r. (option_map item_of r.0, r.1.now))
        (ReadsWhere (has_flag extensions_flag flags.0) (ReadsItem read_map) bytes.now) result }
    ensures counts { Counts (λ each. count_where (has_flag extensions_flag flags.0) each bytes.now) bytes.now
        count.old count.new result }
{
    if !bitflags::Flags::contains(&flags, Flags::ED) {
        return Ok((None, bytes));
    }
    let (extensions, rest) = read_extensions(alloc, bytes, count)?;
    Ok((Some(extensions), rest))
}

/// The data, and the bytes after the last part.
fn read_front<'a>(alloc: Global, bytes: &'a [u8], count: &mut Count) -> Begun<'a, AuthenticatorData>
    ensures value { Returns (DataGrows bytes.now) (λ r. (data_parts r.0, r.1.now)) (ReadsDataFront bytes.now) result }
    ensures counts { CountsData bytes.now count.old count.new result }
{
    let (fixed, rest) = read_fixed(bytes)?;
    let (attested, rest) = read_attested_where(alloc, fixed.flags, rest, count)?;
    let (extensions, last) = match read_extensions_where(alloc, fixed.flags, rest, count) {
        Ok(parts) => parts,
        Err(e) => {
            drop(attested);
            return Err(e);
        }
    };
    let rp_id_hash = fixed.rp_id_hash;
    let data = AuthenticatorData {
        rp_id_hash,
        flags: fixed.flags,
        counter: Some(fixed.counter),
        attested_credential_data: attested,
        extensions,
    };
    Ok((data, last))
}

impl AuthenticatorData {
    /// Decodes authenticator data at the beginning of the bytes (WebAuthn Level 3, section 6.1):
    /// the relying party id's hash of 32 bytes, the flags byte, and the signature counter of 4
    /// bytes, big-endian; if AT is set, attested credential data: an AAGUID of 16 bytes, a length
    /// of 2 bytes, big-endian, a credential id of that length, and a key; and if ED is set, a map.
    /// Bytes after the last part are ignored; `from_slice_exact` rejects them.
    ///
    /// `DecodeFailed` if there are fewer than 37 bytes, the attested credential data is truncated,
    /// or no well-formed data item of at most 256 levels is where the key or the extensions should
    /// be; `OutOfRangeIntegerValue` if bit 1 or 5 of the flags is set; the error of
    /// `CoseKey::from_value` if the data item is no key; `UnexpectedItem` if the extensions are no
    /// map. The first error is returned: that of the length, that of the flags, and then from the
    /// first byte to the last.
    ///
    /// `OutOfMemory` if an allocation fails for a well-formed data item that is present as the key
    /// or the extensions, with AT or ED set and no error before it. The data item is decoded before
    /// it is checked, so `OutOfMemory` may hide that it is no key or no map. Never if neither AT
    /// nor ED is set.
    pub fn from_slice(alloc: Global, bytes: &[u8]) -> Result<AuthenticatorData, CoseError>
        ensures { Returns (DataGrows bytes.now) data_parts (ReadsData bytes.now) result }
    {
        let mut count = Count { heads: 0, nodes: 0 };
        AuthenticatorData::from_slice_counted(alloc, bytes, &mut count)
    }

    /// Decodes authenticator data that is all of the bytes: returns what `from_slice` returns, but
    /// `DecodeFailed` instead of data if bytes follow the last part. This error is the last one: it
    /// is returned only if there is no other. `OutOfMemory` comes as in `from_slice`, and may hide
    /// that bytes follow.
    ///
    /// A server uses this call, since such bytes are signed but have no meaning; some authenticators
    /// send them.
    pub fn from_slice_exact(alloc: Global, bytes: &[u8]) -> Result<AuthenticatorData, CoseError>
        ensures { Returns (DataGrows bytes.now) data_parts (ReadsDataExactly bytes.now) result }
    {
        let mut count = Count { heads: 0, nodes: 0 };
        let (data, last) = read_front(alloc, bytes, &mut count)?;
        if !last.is_empty() {
            drop(data);
            return Err(CoseError::DecodeFailed);
        }
        Ok(data)
    }

    /// Returns what `from_slice` returns, and adds its cost to `count`, even if it returns an
    /// error. Neither count decreases, and each saturates at `u128::MAX`.
    ///
    /// `heads`: at most four for each byte, and four more (RFC 8949, section 3). At least those of the
    /// key and of the extensions, as far as decoding gets, and one where no well-formed data item is;
    /// after `OutOfMemory` at least one if a data item is decoded.
    ///
    /// `nodes`: one for each data item that is built for the key or the extensions, nested ones
    /// included, as far as decoding gets: exactly as many, and after `OutOfMemory` at most as many. A
    /// data item that is no key or no map is built as well, and counted.
    pub fn from_slice_counted(
        alloc: Global,
        bytes: &[u8],
        count: &mut Count,
    ) -> Result<AuthenticatorData, CoseError>
        ensures value { Returns (DataGrows bytes.now) data_parts (ReadsData bytes.now) result }
        ensures heads { count.new.heads ≤ count.old.heads + (4 * length bytes.now + 4) }
        ensures nodes { count.new.nodes ≤ count.old.nodes + data_nodes bytes.now }
        ensures least { 0 < data_places bytes.now → raised count.old.heads 1 ≤ count.new.heads }

        // Unless memory ran out, each head and each data item that was decoded is counted.
        ensures all { UnlessOutOfMemory result (CountsEach (λ each. count_data each bytes.now) count.old count.new) }
        ensures heads_rise { count.old.heads ≤ count.new.heads }
        ensures nodes_rise { count.old.nodes ≤ count.new.nodes }
    {
        let (data, _) = read_front(alloc, bytes, count)?;
        Ok(data)
    }
}
