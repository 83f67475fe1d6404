//! Attestation statements of the format tpm.
ghost use Rattle.std.specs.Prelude.{◌≡◌, option_map};
ghost use Rattle.passkey_attestation.specs.Statements.{tpm};
ghost use Rattle.passkey_tpm.specs.CertInfo.{cert_info_in, cert_info_parts};
ghost use Rattle.passkey_tpm.specs.PubArea.{pub_area_in, pub_area_parts};

use crate::AlgorithmIdentifier;
use passkey_bytes::{Bytes, List, Text};
use passkey_kinds::{OutOfMemory, PlainRecord, Refusal, Row, Sink, Source, set};
use passkey_tpm::{CertInfo, PubArea};
use std::alloc::Global;

/// An attestation statement of the format tpm (WebAuthn Level 3, section 8.3).
#[derive(Debug, Drop, PartialEq, Eq)]
pub struct TpmStatement {
    /// `alg`: the algorithm of the signature.
    pub alg: AlgorithmIdentifier,
    /// `sig`: the signature over `certInfo`, a TPMT_SIGNATURE.
    pub sig: Bytes,
    /// `ver`: the version of the TPM specification, "2.0". It isn't checked.
    pub ver: Text,
    /// `x5c`: the certificate of the attestation key and its chain, each in DER. The number of
    /// certificates isn't checked.
    pub x5c: List<Bytes>,
    /// `pubArea`: a TPMT_PUBLIC, which `pub_area` decodes.
    pub pub_area: Bytes,
    /// `certInfo`: a TPMS_ATTEST, which `cert_info` decodes.
    pub cert_info: Bytes,
}

impl PlainRecord for TpmStatement {
    ghost table = { tpm };

    fn rows() -> &'static [Row] {
        &[
            Row::Required(1, "alg"),
            Row::Required(2, "sig"),
            Row::Required(3, "ver"),
            Row::Required(4, "x5c"),
            Row::Required(5, "pubArea"),
            Row::Required(6, "certInfo"),
        ]
    }

    fn blank(alloc: Global) -> TpmStatement {
        TpmStatement {
            alg: AlgorithmIdentifier(0),
            sig: Bytes::empty(alloc),
            ver: Text::empty(alloc),
            x5c: List::empty(alloc),
            pub_area: Bytes::empty(alloc),
            cert_info: Bytes::empty(alloc),
        }
    }

    fn put<S: Source>(&mut self, alloc: Global, number: u8, source: &mut S) -> Result<(), Refusal> {
        match number {
            1 => set(&mut self.alg, alloc, source),
            2 => set(&mut self.sig, alloc, source),
            3 => set(&mut self.ver, alloc, source),
            4 => set(&mut self.x5c, alloc, source),
            5 => set(&mut self.pub_area, alloc, source),
            6 => set(&mut self.cert_info, alloc, source),
            _ => Err(Refusal::Refused),
        }
    }

    fn put_members<S: Sink>(&self, alloc: Global, sink: &mut S) -> Result<(), OutOfMemory> {
        sink.put(alloc, "alg", &self.alg)?;
        sink.put(alloc, "sig", &self.sig)?;
        sink.put(alloc, "ver", &self.ver)?;
        sink.put(alloc, "x5c", &self.x5c)?;
        sink.put(alloc, "pubArea", &self.pub_area)?;
        sink.put(alloc, "certInfo", &self.cert_info)?;
        Ok(())
    }

    #[tactic(auto, using(crate::proofs::Statements::tpm_law))]
    fn lawful() {}
}

impl TpmStatement {
    /// Decodes `certInfo`, whose bytes are lent. Returns `None` exactly if `CertInfo::from_slice`
    /// does. Allocates nothing.
    pub fn cert_info(&self) -> Option<CertInfo<'_>>
        ensures { option_map cert_info_parts result ≡ cert_info_in self.now.cert_info }
    {
        CertInfo::from_slice(self.cert_info.as_slice())
    }

    /// Decodes `pubArea`, whose bytes are lent. Returns `None` exactly if `PubArea::from_slice`
    /// does. Allocates nothing.
    pub fn pub_area(&self) -> Option<PubArea<'_>>
        ensures { option_map pub_area_parts result ≡ pub_area_in self.now.pub_area }
    {
        PubArea::from_slice(self.pub_area.as_slice())
    }
}
