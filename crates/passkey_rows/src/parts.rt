//! Parts that can be copied, each with its type's own call, which encoding a message doesn't make.
use crate::tries::Part;
use passkey_types::cbor::Value;
use passkey_types::cose::CoseKey;
use passkey_types::ctap2::extensions::{AuthenticatorPrfInputs, HmacGetSecretInput};
use passkey_types::ctap2::{AttestedCredentialData, make_credential};
use passkey_types::webauthn::{
    AuthenticationExtensionsPrfInputs, AuthenticationExtensionsPrfOutputs,
    AuthenticatorAttestationResponse, ClientDataExtra, CollectedClientData,
    PublicKeyCredentialDescriptor, PublicKeyCredentialRpEntity, PublicKeyCredentialUserEntity,
};
use passkey_types::{Bytes, List, Map, OutOfMemory, Passkey, Text};
use std::alloc::Global;

impl Part for Value {
    fn copy(&self, alloc: Global) -> Result<Value, OutOfMemory> {
        self.try_clone(alloc)
    }
}

impl Part for CoseKey {
    fn copy(&self, alloc: Global) -> Result<CoseKey, OutOfMemory> {
        self.try_clone(alloc)
    }
}

impl Part for AttestedCredentialData {
    fn copy(&self, alloc: Global) -> Result<AttestedCredentialData, OutOfMemory> {
        self.try_clone(alloc)
    }
}

impl Part for HmacGetSecretInput {
    fn copy(&self, alloc: Global) -> Result<HmacGetSecretInput, OutOfMemory> {
        self.try_clone(alloc)
    }
}

impl Part for AuthenticatorPrfInputs {
    fn copy(&self, alloc: Global) -> Result<AuthenticatorPrfInputs, OutOfMemory> {
        self.try_clone(alloc)
    }
}

impl Part for make_credential::PublicKeyCredentialRpEntity {
    fn copy(
        &self,
        alloc: Global,
    ) -> Result<make_credential::PublicKeyCredentialRpEntity, OutOfMemory> {
        self.try_clone(alloc)
    }
}

impl Part for make_credential::PublicKeyCredentialUserEntity {
    fn copy(
        &self,
        alloc: Global,
    ) -> Result<make_credential::PublicKeyCredentialUserEntity, OutOfMemory> {
        self.try_clone(alloc)
    }
}

impl Part for PublicKeyCredentialDescriptor {
    fn copy(&self, alloc: Global) -> Result<PublicKeyCredentialDescriptor, OutOfMemory> {
        self.try_clone(alloc)
    }
}

impl Part for PublicKeyCredentialRpEntity {
    fn copy(&self, alloc: Global) -> Result<PublicKeyCredentialRpEntity, OutOfMemory> {
        self.try_clone(alloc)
    }
}

impl Part for PublicKeyCredentialUserEntity {
    fn copy(&self, alloc: Global) -> Result<PublicKeyCredentialUserEntity, OutOfMemory> {
        self.try_clone(alloc)
    }
}

impl Part for AuthenticationExtensionsPrfInputs {
    fn copy(&self, alloc: Global) -> Result<AuthenticationExtensionsPrfInputs, OutOfMemory> {
        self.try_clone(alloc)
    }
}

impl Part for AuthenticationExtensionsPrfOutputs {
    fn copy(&self, alloc: Global) -> Result<AuthenticationExtensionsPrfOutputs, OutOfMemory> {
        self.try_clone(alloc)
    }
}

impl Part for AuthenticatorAttestationResponse {
    fn copy(&self, alloc: Global) -> Result<AuthenticatorAttestationResponse, OutOfMemory> {
        self.try_clone(alloc)
    }
}

impl<E: ClientDataExtra> Part for CollectedClientData<E> {
    fn copy(&self, alloc: Global) -> Result<CollectedClientData<E>, OutOfMemory> {
        self.try_clone(alloc)
    }
}

impl Part for Passkey {
    fn copy(&self, alloc: Global) -> Result<Passkey, OutOfMemory> {
        self.try_clone(alloc)
    }
}

impl Part for Bytes {
    fn copy(&self, alloc: Global) -> Result<Bytes, OutOfMemory> {
        self.try_clone(alloc)
    }
}

/// Texts are copied by the trait `Clone`.
impl Part for Text {
    fn copy(&self, alloc: Global) -> Result<Text, OutOfMemory> {
        let _ = alloc;
        Ok(self.clone()?)
    }
}

impl Part for List<Text> {
    fn copy(&self, alloc: Global) -> Result<List<Text>, OutOfMemory> {
        self.try_clone(alloc)
    }
}

impl Part for Map<Bytes, Text> {
    fn copy(&self, alloc: Global) -> Result<Map<Bytes, Text>, OutOfMemory> {
        self.try_clone(alloc)
    }
}
