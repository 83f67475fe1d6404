//! authenticatorBioEnrollment responses.
ghost use Rattle.std.specs.Prelude.{None};
ghost use Rattle.passkey_commands.specs.bio_enrollment.BioResponse.{bio_response, normal_bio_response};

use crate::bio_enrollment::{FingerprintKind, Modality, SampleStatus, TemplateInfo};
use passkey_bytes::{Bytes, List};
use passkey_kinds::{
    Kept, OutOfMemory, Refusal, Row, Sink, Source, TableMessage, TableRecord, put_some_code, set,
    set_some_code,
};
use std::alloc::Global;

/// An authenticatorBioEnrollment response (CTAP 2.1, section 6.7). `None` means that the member is
/// absent; null also decodes to `None`.
#[derive(Debug, Default, Drop)]
pub struct Response {
    /// 0x01: the modality.
    pub modality: Option<Modality>,
    /// 0x02: the kind of fingerprint sensor.
    pub fingerprint_kind: Option<FingerprintKind>,
    /// 0x03: the most good samples that an enrollment takes.
    pub max_capture_samples_required_for_enroll: Option<u32>,
    /// 0x04: the identifier of the template that is being enrolled.
    pub template_id: Option<Bytes>,
    /// 0x05: the status of the last sample.
    pub last_enroll_sample_status: Option<SampleStatus>,
    /// 0x06: the number of good samples that the enrollment still takes.
    pub remaining_samples: Option<u32>,
    /// 0x07: the enrolled templates.
    pub template_infos: Option<List<TemplateInfo>>,
    /// 0x08: the greatest length of a template's name, in bytes.
    pub max_template_friendly_name: Option<u32>,
}

impl TableRecord for Response {
    ghost table = { bio_response };

    ghost normal = { normal_bio_response };

    fn is_numbered() -> bool {
        true
    }

    fn rows() -> &'static [Row] {
        &[
            Row::Optional(1, "modality"),
            Row::Optional(2, "fingerprintKind"),
            Row::Optional(3, "maxCaptureSamplesRequiredForEnroll"),
            Row::Optional(4, "templateId"),
            Row::Optional(5, "lastEnrollSampleStatus"),
            Row::Optional(6, "remainingSamples"),
            Row::Optional(7, "templateInfos"),
            Row::Optional(8, "maxTemplateFriendlyName"),
        ]
    }

    fn blank(_alloc: Global) -> Response {
        Response::default()
    }

    fn put<S: Source>(&mut self, alloc: Global, number: u8, source: &mut S) -> Result<(), Refusal> {
        match number {
            1 => set_some_code(&mut self.modality, alloc, source),
            2 => set_some_code(&mut self.fingerprint_kind, alloc, source),
            3 => set(
                &mut self.max_capture_samples_required_for_enroll,
                alloc,
                source,
            ),
            4 => set(&mut self.template_id, alloc, source),
            5 => set_some_code(&mut self.last_enroll_sample_status, alloc, source),
            6 => set(&mut self.remaining_samples, alloc, source),
            7 => set(&mut self.template_infos, alloc, source),
            8 => set(&mut self.max_template_friendly_name, alloc, source),
            _ => Err(Refusal::Refused),
        }
    }

    fn put_members<S: Sink>(&self, alloc: Global, sink: &mut S) -> Result<(), OutOfMemory> {
        put_some_code(sink, alloc, 1, &self.modality)?;
        put_some_code(sink, alloc, 2, &self.fingerprint_kind)?;
        sink.put_some(alloc, 3_u8, &self.max_capture_samples_required_for_enroll)?;
        sink.put_some(alloc, 4_u8, &self.template_id)?;
        put_some_code(sink, alloc, 5, &self.last_enroll_sample_status)?;
        sink.put_some(alloc, 6_u8, &self.remaining_samples)?;
        sink.put_some(alloc, 7_u8, &self.template_infos)?;
        sink.put_some(alloc, 8_u8, &self.max_template_friendly_name)?;
        Ok(())
    }

    #[tactic(auto, using(crate::proofs::BioEnrollment::bio_response_law))]
    fn lawful() {}
}

impl TableMessage for Response {
    ghost cost = { 7 };

    fn kept(&self) -> Option<&Kept> {
        None
    }

    #[tactic(auto, using(crate::proofs::BioEnrollment::bio_response_law))]
    fn is_message() {}
}
