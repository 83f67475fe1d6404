//! What a relying party and a browser exchange (WebAuthn Level 3), decoded from JSON values and
//! encoded.
pub use indexmap::IndexMap;
pub use passkey_client as client;
pub use passkey_json::{
    AuthenticationExtensionsClientInputs, AuthenticationExtensionsClientOutputs,
    AuthenticationExtensionsPrfInputs, AuthenticatorAttachment, AuthenticatorSelectionCriteria,
    BytesForm, CredentialPropertiesOutput, FromJson, JsonFault, JsonRecord, RecordToJson,
    ResidentKeyRequirement, ToJson, UserVerificationRequirement, read_back,
};
pub use passkey_repair::json as repair;
pub use passkey_webauthn::{
    AuthenticationExtensionsPrfOutputs, AuthenticationExtensionsPrfValues, AuthenticatorTransport,
    EnumNames, PublicKeyCredentialDescriptor, PublicKeyCredentialParameters,
    PublicKeyCredentialRpEntity, PublicKeyCredentialType, PublicKeyCredentialUserEntity,
};
pub use passkey_webauthn_json::client_data::{
    ClientDataExtra, ClientDataFault, ClientDataType, CollectedClientData,
};
pub use passkey_webauthn_json::credentials::{
    AuthenticatedPublicKeyCredential, AuthenticatorAssertionResponse,
    AuthenticatorAttestationResponse, AuthenticatorResponse, CreatedPublicKeyCredential,
    PublicKeyCredential,
};
pub use passkey_webauthn_json::options::{
    AttestationConveyancePreference, AttestationStatementFormatIdentifiers,
    CredentialCreationOptions, CredentialOptions, CredentialRequestOptions,
    PublicKeyCredentialCreationOptions, PublicKeyCredentialHints,
    PublicKeyCredentialRequestOptions,
};
pub use passkey_well_known::WellKnown;
pub use url::Url;
