//! What a page, a browser and a relying party say of credentials over JSON beside the ceremonies'
//! options and responses (WebAuthn Level 3): signals, client extensions, mediation, client
//! capabilities, the origin of the top-level page, and payments (W3C Secure Payment Confirmation).
#![tactic(auto)]

mod client_extensions;
mod hmac_secret;
mod large_blob;
mod mediated;
mod names;
mod payment;
mod payment_data;
mod signals;
mod top_origin;

pub use client_extensions::{ClientExtensionInputs, ClientExtensionOutputs};
pub use hmac_secret::{HmacGetSecretInputs, HmacGetSecretOutputs};
pub use large_blob::{LargeBlobInputs, LargeBlobOutputs};
pub use mediated::MediatedOptions;
pub use names::{CredentialMediationRequirement, CredentialProtectionPolicy};
use passkey_bytes::{Map, Text};
pub use payment::{
    BrowserBoundSignature, PaymentCredentialInstrument, PaymentCurrencyAmount, PaymentEntityLogo,
    PaymentInputs, PaymentOutputs,
};
pub use payment_data::{AdditionalPaymentData, PaymentData, RegistrationPaymentData};
pub use signals::{
    AllAcceptedCredentialsOptions, CurrentUserDetailsOptions, UnknownCredentialOptions,
};
pub use top_origin::TopOrigin;

/// The result of `PublicKeyCredential.getClientCapabilities()` (WebAuthn Level 3, section 5.1.7): whether
/// the client has each capability, by its name, such as `conditionalGet` or `extension:prf`.
pub type ClientCapabilities = Map<Text, bool>;
