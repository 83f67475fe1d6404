//! Tests of `passkey_cbor`, `passkey_bytes`, `passkey_cose`, `passkey_core` and `passkey_tpm`.
mod authenticator_data;
mod base64;
mod checks;
mod containers;
mod ctap2;
mod items;
mod printed;
mod tpm;
