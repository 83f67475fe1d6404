//! `certInfo` of a tpm attestation statement.
ghost use Rattle.std.specs.Prelude.{◌≡◌, ◌≢◌, ◌≤◌, ◌^◌, ◌++◌, ◌⊎◌, length, nat_lt, not, is_some, Err, option_map, IfOk, OnOk};
ghost use Rattle.passkey_tpm.specs.CertInfo.{cert_info_parts, header_at, clock_info_at, cert_info_at, cert_info_read};
ghost use Rattle.passkey_tpm.specs.CertInfo.{cert_info_in, cert_info_refusal, clock_info_written, cert_info_written, IsClockInfo};
ghost use Rattle.passkey_tpm.specs.CertInfo.{IsCertInfo};
ghost use Rattle.passkey_tpm.specs.Parts.{begun};
ghost use Rattle.passkey_tpm.specs.declared.encode_error.EncodeError.TheVariants.{TooLong};

use crate::part::{
    Begun, bytes_follow, push_sized, read_sized, read_u8, read_u32, read_u64, skip_u16, skip_u32,
};
use crate::refusal::{Stop, TpmField, refusal_of};
use crate::{EncodeError, TpmRefusal};
use std::alloc::Global;

/// TPM_GENERATED_VALUE, which begins each structure that a TPM made.
const MAGIC: u32 = 0xFF54_4347;

/// TPM_ST_ATTEST_CERTIFY, the type of a structure that certifies a key.
const CERTIFY: u16 = 0x8017;

/// TPMS_CLOCK_INFO: the TPM's clock and counters when it signed (TPM 2.0 Library, Part 2).
#[derive(Clone, Copy, Debug, PartialEq, Eq)]
pub struct ClockInfo {
    /// The time in milliseconds during which the TPM was powered.
    pub clock: u64,
    /// The number of TPM resets since the last TPM2_Clear.
    pub reset_count: u32,
    /// The number of restarts and resumes since the last reset.
    pub restart_count: u32,
    /// `safe`, a TPMI_YES_NO, whose values are 0 and 1. Any byte is kept, since the attestations in
    /// WebAuthn Level 3's test vectors have other bytes here. `is_safe` tells what it says.
    pub safe: u8,
}

impl ClockInfo {
    /// Returns whether no greater value of the clock was reported before: `safe` isn't 0.
    pub fn is_safe(&self) -> bool
        ensures { result ≡ nat_lt 0 self.now.safe }
    {
        self.safe != 0
    }
}

/// `certInfo`: a TPMS_ATTEST of the type TPM_ST_ATTEST_CERTIFY, whose `attested` is a
/// TPMS_CERTIFY_INFO (WebAuthn Level 3, section 8.3; TPM 2.0 Library, Part 2).
/// Byte strings are lent, each of at most 65535 bytes.
#[derive(Clone, Copy, Debug)]
pub struct CertInfo<'a> {
    /// `qualifiedSigner`: the qualified name of the attestation key.
    pub qualified_signer: &'a [u8],
    /// `extraData`: for WebAuthn the hash of the authenticator data and the client data's hash.
    pub extra_data: &'a [u8],
    /// `clockInfo`.
    pub clock_info: ClockInfo,
    /// `firmwareVersion`.
    pub firmware_version: u64,
    /// `name`: the name of the certified key, which is its `nameAlg` and the hash of `pubArea`.
    pub name: &'a [u8],
    /// `qualifiedName`: its qualified name.
    pub qualified_name: &'a [u8],
}

#[tactic(auto, unfolding(crate::specs::CertInfo::header_at))]
fn read_header(bytes: &[u8]) -> Result<&[u8], Stop>
    ensures { begun (λ r. r.now) result ≡ header_at bytes.now }
{
    let rest = skip_u32(TpmField::Magic, MAGIC, bytes)?;
    skip_u16(TpmField::AttestType, CERTIFY, rest)
}

#[tactic(auto, unfolding(crate::specs::CertInfo::clock_info_at))]
fn read_clock_info(bytes: &[u8]) -> Begun<'_, ClockInfo>
    ensures { begun (λ r. (r.0, r.1.now)) result ≡ clock_info_at bytes.now }
{
    let (clock, rest) = read_u64(TpmField::Clock, bytes)?;
    let (reset_count, rest) = read_u32(TpmField::ResetCount, rest)?;
    let (restart_count, rest) = read_u32(TpmField::RestartCount, rest)?;
    let (safe, rest) = read_u8(TpmField::Safe, rest)?;
    let info = ClockInfo {
        clock,
        reset_count,
        restart_count,
        safe,
    };
    Ok((info, rest))
}

#[tactic(auto, unfolding(crate::specs::CertInfo::cert_info_at))]
fn read_cert_info(bytes: &[u8]) -> Begun<'_, CertInfo<'_>>
    ensures { begun (λ r. (cert_info_parts r.0, r.1.now)) result ≡ cert_info_at bytes.now }
{
    let rest = read_header(bytes)?;
    let (qualified_signer, rest) = read_sized(TpmField::QualifiedSigner, rest)?;
    let (extra_data, rest) = read_sized(TpmField::ExtraData, rest)?;
    let (clock_info, rest) = read_clock_info(rest)?;
    let (firmware_version, rest) = read_u64(TpmField::FirmwareVersion, rest)?;
    let (name, rest) = read_sized(TpmField::Name, rest)?;
    let (qualified_name, rest) = read_sized(TpmField::QualifiedName, rest)?;
    let info = CertInfo {
        qualified_signer,
        extra_data,
        clock_info,
        firmware_version,
        name,
        qualified_name,
    };
    Ok((info, rest))
}

fn read_all(bytes: &[u8]) -> Result<CertInfo<'_>, Stop>
    ensures { begun cert_info_parts result ≡ cert_info_read bytes.now }
{
    let (info, rest) = read_cert_info(bytes)?;
    if rest.is_empty() {
        Ok(info)
    } else {
        Err(bytes_follow(rest))
    }
}

/// Explains why the bytes aren't `certInfo`. Returns `None` exactly if they are, as by
/// `CertInfo::from_slice`. Allocates nothing. (WebAuthn Level 3, section 8.3; TPM 2.0 Library, Part
/// 2, TPMS_ATTEST.)
pub fn explain_cert_info(bytes: &[u8]) -> Option<TpmRefusal>
    ensures refusal { result ≡ cert_info_refusal bytes.now }
    ensures exact { is_some result ≡ not (is_some (cert_info_in bytes.now)) }
{
    match read_all(bytes) {
        Ok(_) => None,
        Err(stop) => Some(refusal_of(bytes.len(), stop)),
    }
}

fn push_clock_info(out: &mut Vec<u8>, info: &ClockInfo) -> Result<(), EncodeError>
    ensures written { OnOk result (out.new.items ≡ out.old.items ++ clock_info_written info.now) }
    ensures valid { OnOk result (IsClockInfo info.now) }
    ensures long { result ≢ Err TooLong }
{
    out.extend_from_slice(&info.clock.to_be_bytes())?;
    out.extend_from_slice(&info.reset_count.to_be_bytes())?;
    out.extend_from_slice(&info.restart_count.to_be_bytes())?;
    out.push(info.safe)?;
    Ok(())
}

impl<'a> CertInfo<'a> {
    /// Decodes `certInfo`, which is all of the bytes: the magic number FF544347, the type 8017,
    /// and the members in their order, all big-endian, a byte string with its length in 2 bytes
    /// before it. Returns `None` exactly if the bytes aren't that: they end within a member, go on
    /// after the last, or have another magic number or another type: `explain_cert_info` says which.
    /// Allocates nothing. Nothing is checked of what the members mean.
    pub fn from_slice(bytes: &'a [u8]) -> Option<CertInfo<'a>>
        ensures { option_map cert_info_parts result ≡ cert_info_in bytes.now }
    {
        match read_all(bytes) {
            Ok(info) => Some(info),
            Err(_) => None,
        }
    }

    /// Encodes `certInfo`. Returns `TooLong` if a byte string has more than 65535 bytes, and
    /// `OutOfMemory` if an allocation fails.
    pub fn to_vec(&self, alloc: Global) -> Result<Vec<u8>, EncodeError>
        ensures written { IfOk result (λ bytes. bytes.items ≡ cert_info_written (cert_info_parts self.now)) }
        ensures valid { OnOk result (IsCertInfo (cert_info_parts self.now)) }
        ensures long { result ≡ Err TooLong → (2 ^ 16 ≤ length self.now.qualified_signer.now)
            ⊎ (2 ^ 16 ≤ length self.now.extra_data.now) ⊎ (2 ^ 16 ≤ length self.now.name.now)
            ⊎ (2 ^ 16 ≤ length self.now.qualified_name.now) }
    {
        let mut out = Vec::from_slice(alloc, &MAGIC.to_be_bytes())?;
        out.extend_from_slice(&CERTIFY.to_be_bytes())?;
        push_sized(&mut out, self.qualified_signer)?;
        push_sized(&mut out, self.extra_data)?;
        push_clock_info(&mut out, &self.clock_info)?;
        out.extend_from_slice(&self.firmware_version.to_be_bytes())?;
        push_sized(&mut out, self.name)?;
        push_sized(&mut out, self.qualified_name)?;
        Ok(out)
    }
}
