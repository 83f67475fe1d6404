//! Laws about the two TPM structures, each the contract of a function that does nothing.
ghost use Rattle.passkey_tpm.specs.Laws.{CertInfoIsReadBack, CertInfoIsWrittenBack, PubAreaIsReadBack, PubAreaIsWrittenBack};

/// What `CertInfo::to_vec` returns decodes to the same `certInfo`.
#[tactic(auto, using(crate::proofs::Back::cert_info_back))]
pub fn written_cert_info_is_read_back()
    ensures { CertInfoIsReadBack }
{}

/// What `PubArea::to_vec` returns decodes to the same `pubArea`.
#[tactic(auto, using(crate::proofs::Back::pub_area_back))]
pub fn written_pub_area_is_read_back()
    ensures { PubAreaIsReadBack }
{}

/// What `CertInfo::from_slice` returns is encoded as the same bytes: there is no other encoding.
#[tactic(auto, using(crate::proofs::Taken::cert_info_same))]
pub fn read_cert_info_is_written_back()
    ensures { CertInfoIsWrittenBack }
{}

/// What `PubArea::from_slice` returns is encoded as the same bytes: there is no other encoding.
#[tactic(auto, using(crate::proofs::Taken::pub_area_same))]
pub fn read_pub_area_is_written_back()
    ensures { PubAreaIsWrittenBack }
{}
