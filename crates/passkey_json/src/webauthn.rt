//! Records of WebAuthn, decoded from JSON objects and encoded (WebAuthn Level 3, section 5).
ghost use Rattle.passkey_json.specs.WebAuthn.{descriptor, parameters, prf_outputs, prf_values, rp, user};

use crate::json_encoder::{EncodeResult, JsonEncoder};
use crate::json_fault::JsonFault;
use crate::member::{Member, place};
use crate::plain_json_record::PlainJsonRecord;
use crate::row::Row;
use passkey_bytes::{Bytes, Text};
use passkey_iana::Algorithm;
use passkey_webauthn::{
    AuthenticationExtensionsPrfOutputs, AuthenticationExtensionsPrfValues,
    PublicKeyCredentialDescriptor, PublicKeyCredentialParameters, PublicKeyCredentialRpEntity,
    PublicKeyCredentialType, PublicKeyCredentialUserEntity,
};
use std::alloc::Global;

impl PlainJsonRecord for PublicKeyCredentialDescriptor {
    ghost table = { descriptor };

    fn rows() -> &'static [Row] {
        &[
            Row::Named(1, "type"),
            Row::Named(2, "id"),
            Row::Named(3, "transports"),
        ]
    }

    fn blank(alloc: Global) -> PublicKeyCredentialDescriptor {
        PublicKeyCredentialDescriptor {
            ty: PublicKeyCredentialType::Unknown,
            id: Bytes::empty(alloc),
            transports: None,
        }
    }

    fn put(&mut self, number: u8, member: &mut Member<'_>) -> Result<(), JsonFault> {
        match number {
            1 => place(
                &mut self.ty,
                member.required_tolerated(PublicKeyCredentialType::Unknown),
            ),
            2 => place(&mut self.id, member.required()),
            3 => place(&mut self.transports, member.accepted_list()),
            _ => Ok(()),
        }
    }

    fn encode(&self, number: u8, encoder: JsonEncoder) -> EncodeResult {
        match number {
            1 => encoder.value(&self.ty),
            2 => encoder.value(&self.id),
            3 => encoder.optional(&self.transports),
            _ => Ok(None),
        }
    }
}

impl PlainJsonRecord for PublicKeyCredentialParameters {
    ghost table = { parameters };

    fn rows() -> &'static [Row] {
        &[Row::Named(1, "type"), Row::Named(2, "alg")]
    }

    fn blank(_alloc: Global) -> PublicKeyCredentialParameters {
        PublicKeyCredentialParameters {
            ty: PublicKeyCredentialType::Unknown,
            alg: Algorithm::ES256,
        }
    }

    fn put(&mut self, number: u8, member: &mut Member<'_>) -> Result<(), JsonFault> {
        match number {
            1 => place(
                &mut self.ty,
                member.required_tolerated(PublicKeyCredentialType::Unknown),
            ),
            2 => place(&mut self.alg, member.required()),
            _ => Ok(()),
        }
    }

    fn encode(&self, number: u8, encoder: JsonEncoder) -> EncodeResult {
        match number {
            1 => encoder.value(&self.ty),
            2 => encoder.value(&self.alg),
            _ => Ok(None),
        }
    }
}

impl PlainJsonRecord for PublicKeyCredentialRpEntity {
    ghost table = { rp };

    fn rows() -> &'static [Row] {
        &[Row::Named(1, "id"), Row::Named(2, "name")]
    }

    fn blank(alloc: Global) -> PublicKeyCredentialRpEntity {
        PublicKeyCredentialRpEntity {
            id: None,
            name: Text::empty(alloc),
        }
    }

    fn put(&mut self, number: u8, member: &mut Member<'_>) -> Result<(), JsonFault> {
        match number {
            1 => place(&mut self.id, member.or_default(None)),
            2 => place(&mut self.name, member.required()),
            _ => Ok(()),
        }
    }

    fn encode(&self, number: u8, encoder: JsonEncoder) -> EncodeResult {
        match number {
            1 => encoder.optional(&self.id),
            2 => encoder.value(&self.name),
            _ => Ok(None),
        }
    }
}

impl PlainJsonRecord for PublicKeyCredentialUserEntity {
    ghost table = { user };

    fn rows() -> &'static [Row] {
        &[
            Row::Named(1, "id"),
            Row::Named(2, "displayName"),
            Row::Named(3, "name"),
        ]
    }

    fn blank(alloc: Global) -> PublicKeyCredentialUserEntity {
        PublicKeyCredentialUserEntity {
            id: Bytes::empty(alloc),
            display_name: Text::empty(alloc),
            name: Text::empty(alloc),
        }
    }

    fn put(&mut self, number: u8, member: &mut Member<'_>) -> Result<(), JsonFault> {
        match number {
            1 => place(&mut self.id, member.required()),
            2 => place(&mut self.display_name, member.required()),
            3 => place(&mut self.name, member.required()),
            _ => Ok(()),
        }
    }

    fn encode(&self, number: u8, encoder: JsonEncoder) -> EncodeResult {
        match number {
            1 => encoder.value(&self.id),
            2 => encoder.value(&self.display_name),
            3 => encoder.value(&self.name),
            _ => Ok(None),
        }
    }
}

impl PlainJsonRecord for AuthenticationExtensionsPrfValues {
    ghost table = { prf_values };

    fn rows() -> &'static [Row] {
        &[Row::Named(1, "first"), Row::Named(2, "second")]
    }

    fn blank(alloc: Global) -> AuthenticationExtensionsPrfValues {
        AuthenticationExtensionsPrfValues {
            first: Bytes::empty(alloc),
            second: None,
        }
    }

    fn put(&mut self, number: u8, member: &mut Member<'_>) -> Result<(), JsonFault> {
        match number {
            1 => place(&mut self.first, member.required()),
            2 => place(&mut self.second, member.or_default(None)),
            _ => Ok(()),
        }
    }

    fn encode(&self, number: u8, encoder: JsonEncoder) -> EncodeResult {
        match number {
            1 => encoder.value(&self.first),
            2 => encoder.optional(&self.second),
            _ => Ok(None),
        }
    }
}

impl PlainJsonRecord for AuthenticationExtensionsPrfOutputs {
    ghost table = { prf_outputs };

    fn rows() -> &'static [Row] {
        &[Row::Named(1, "enabled"), Row::Named(2, "results")]
    }

    fn blank(_alloc: Global) -> AuthenticationExtensionsPrfOutputs {
        AuthenticationExtensionsPrfOutputs {
            enabled: None,
            results: None,
        }
    }

    fn put(&mut self, number: u8, member: &mut Member<'_>) -> Result<(), JsonFault> {
        match number {
            1 => place(&mut self.enabled, member.or_default(None)),
            2 => place(&mut self.results, member.or_default(None)),
            _ => Ok(()),
        }
    }

    fn encode(&self, number: u8, encoder: JsonEncoder) -> EncodeResult {
        match number {
            1 => encoder.optional(&self.enabled),
            2 => encoder.optional(&self.results),
            _ => Ok(None),
        }
    }
}
