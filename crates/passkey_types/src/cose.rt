//! COSE keys (RFC 9052, section 7) and the numbers that IANA registers for them.
pub use passkey_cose::{
    CoseError, CoseKey, CoseKeyConversionError, Label, RefusedKey, Registered, iana,
};
pub use passkey_explain_data::{KeyBlame, KeyRefusal, explain_key, locate_key};
