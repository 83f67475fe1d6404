//! The structures of a TPM, decoded and encoded again.
ghost use Rattle.std.specs.Prelude.{◌≡◌, IfOk, IfErr, length};
ghost use Rattle.passkey_catalogue.specs.Rewriting.{IsStructureRefusal, RewritesStructure};
ghost use Rattle.passkey_tpm.specs.CertInfo.{cert_info_in, cert_info_written};
ghost use Rattle.passkey_tpm.specs.PubArea.{pub_area_in, pub_area_written};

use passkey_cose::CoseError;
use passkey_rewrite::RunFault;
use passkey_tpm::laws::{read_cert_info_is_written_back, read_pub_area_is_written_back};
use passkey_tpm::{CertInfo, PubArea};
use std::alloc::Global;

/// Decodes the bytes as `certInfo` and encodes it. Since it has one encoding, that is the bytes again.
/// Returns their number too. Returns `Refused` if they aren't `certInfo`, and `OutOfMemory` if an allocation fails.
pub(crate) fn rewrite_cert_info(alloc: Global, bytes: &[u8]) -> Result<(Vec<u8>, usize), RunFault>
    ensures ok { IfOk result (λ made. RewritesStructure cert_info_in cert_info_written bytes.now made.0.items
        × (made.1 ≡ length bytes.now)) }
    ensures err { IfErr result (IsStructureRefusal cert_info_in bytes.now) }
{
    let Some(_info) = CertInfo::from_slice(bytes) else {
        return Err(RunFault::Refused(CoseError::DecodeFailed));
    };
    read_cert_info_is_written_back();
    Ok((Vec::from_slice(alloc, bytes)?, bytes.len()))
}

/// Decodes the bytes as `pubArea` and encodes it, as `rewrite_cert_info` does.
pub(crate) fn rewrite_pub_area(alloc: Global, bytes: &[u8]) -> Result<(Vec<u8>, usize), RunFault>
    ensures ok { IfOk result (λ made. RewritesStructure pub_area_in pub_area_written bytes.now made.0.items
        × (made.1 ≡ length bytes.now)) }
    ensures err { IfErr result (IsStructureRefusal pub_area_in bytes.now) }
{
    let Some(_area) = PubArea::from_slice(bytes) else {
        return Err(RunFault::Refused(CoseError::DecodeFailed));
    };
    read_pub_area_is_written_back();
    Ok((Vec::from_slice(alloc, bytes)?, bytes.len()))
}
