//! Credential descriptors, credential parameters and users, decoded from data items and encoded
//! (WebAuthn Level 3, section 5).
ghost use Rattle.passkey_kinds.specs.Words.{descriptor, parameters, webauthn_user};

use crate::{
    OutOfMemory, PlainRecord, Refusal, Row, Sink, Source, set, set_accepted_or_none, set_or,
};
use passkey_bytes::{Bytes, Text};
use passkey_iana::Algorithm;
use passkey_webauthn::{
    PublicKeyCredentialDescriptor, PublicKeyCredentialParameters,
    PublicKeyCredentialType as CredentialType, PublicKeyCredentialUserEntity,
};
use std::alloc::Global;

impl PlainRecord for PublicKeyCredentialDescriptor {
    ghost table = { descriptor };

    fn rows() -> &'static [Row] {
        &[
            Row::Required(2, "id"),
            Row::Required(1, "type"),
            Row::Optional(3, "transports"),
        ]
    }

    fn blank(alloc: Global) -> PublicKeyCredentialDescriptor {
        PublicKeyCredentialDescriptor {
            ty: CredentialType::Unknown,
            id: Bytes::empty(alloc),
            transports: None,
        }
    }

    fn put<S: Source>(&mut self, alloc: Global, number: u8, source: &mut S) -> Result<(), Refusal> {
        match number {
            1 => set_or(&mut self.ty, CredentialType::Unknown, alloc, source),
            2 => set(&mut self.id, alloc, source),
            3 => set_accepted_or_none(&mut self.transports, alloc, source),
            _ => Err(Refusal::Refused),
        }
    }

    fn put_members<S: Sink>(&self, alloc: Global, sink: &mut S) -> Result<(), OutOfMemory> {
        sink.put(alloc, "id", &self.id)?;
        sink.put(alloc, "type", &self.ty)?;
        sink.put_some(alloc, "transports", &self.transports)
    }

    #[tactic(auto, using(crate::proofs::Lawful::descriptor_law))]
    fn lawful() {}
}

impl PlainRecord for PublicKeyCredentialParameters {
    ghost table = { parameters };

    fn rows() -> &'static [Row] {
        &[Row::Required(2, "alg"), Row::Required(1, "type")]
    }

    fn blank(_alloc: Global) -> PublicKeyCredentialParameters {
        PublicKeyCredentialParameters {
            ty: CredentialType::Unknown,
            alg: Algorithm::ES256,
        }
    }

    fn put<S: Source>(&mut self, alloc: Global, number: u8, source: &mut S) -> Result<(), Refusal> {
        match number {
            1 => set_or(&mut self.ty, CredentialType::Unknown, alloc, source),
            2 => set(&mut self.alg, alloc, source),
            _ => Err(Refusal::Refused),
        }
    }

    fn put_members<S: Sink>(&self, alloc: Global, sink: &mut S) -> Result<(), OutOfMemory> {
        sink.put(alloc, "alg", &self.alg)?;
        sink.put(alloc, "type", &self.ty)
    }

    #[tactic(auto, using(crate::proofs::Lawful::parameters_law))]
    fn lawful() {}
}

impl PlainRecord for PublicKeyCredentialUserEntity {
    ghost table = { webauthn_user };

    fn rows() -> &'static [Row] {
        &[
            Row::Required(1, "id"),
            Row::Required(3, "name"),
            Row::Required(2, "displayName"),
        ]
    }

    fn blank(alloc: Global) -> PublicKeyCredentialUserEntity {
        PublicKeyCredentialUserEntity {
            id: Bytes::empty(alloc),
            display_name: Text::empty(alloc),
            name: Text::empty(alloc),
        }
    }

    fn put<S: Source>(&mut self, alloc: Global, number: u8, source: &mut S) -> Result<(), Refusal> {
        match number {
            1 => set(&mut self.id, alloc, source),
            2 => set(&mut self.display_name, alloc, source),
            3 => set(&mut self.name, alloc, source),
            _ => Err(Refusal::Refused),
        }
    }

    fn put_members<S: Sink>(&self, alloc: Global, sink: &mut S) -> Result<(), OutOfMemory> {
        sink.put(alloc, "id", &self.id)?;
        sink.put(alloc, "name", &self.name)?;
        sink.put(alloc, "displayName", &self.display_name)?;
        Ok(())
    }

    #[tactic(auto, using(crate::proofs::Lawful::user_law))]
    fn lawful() {}
}
