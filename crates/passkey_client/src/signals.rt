//! The arguments of the signals, decoded from JSON objects and encoded.
ghost use Rattle.passkey_client.specs.Signals.{all_accepted_credentials, current_user_details, unknown_credential};

use passkey_bytes::{Bytes, List, Text};
use passkey_json::{EncodeResult, JsonEncoder, JsonFault, Member, PlainJsonRecord, Row, place};
use std::alloc::Global;

/// The argument of `PublicKeyCredential.signalUnknownCredential()`: a credential that the relying
/// party doesn't know (WebAuthn Level 3, section 5.1.10.2).
#[derive(Debug, Drop)]
pub struct UnknownCredentialOptions {
    /// rpId: the relying party id.
    pub rp_id: Text,
    /// credentialId: the credential id.
    pub credential_id: Bytes,
}

impl PlainJsonRecord for UnknownCredentialOptions {
    ghost table = { unknown_credential };

    fn rows() -> &'static [Row] {
        &[Row::Named(1, "rpId"), Row::Named(2, "credentialId")]
    }

    fn blank(alloc: Global) -> UnknownCredentialOptions {
        UnknownCredentialOptions {
            rp_id: Text::empty(alloc),
            credential_id: Bytes::empty(alloc),
        }
    }

    fn put(&mut self, number: u8, member: &mut Member<'_>) -> Result<(), JsonFault> {
        match number {
            1 => place(&mut self.rp_id, member.required()),
            2 => place(&mut self.credential_id, member.required()),
            _ => Ok(()),
        }
    }

    fn encode(&self, number: u8, encoder: JsonEncoder) -> EncodeResult {
        match number {
            1 => encoder.value(&self.rp_id),
            2 => encoder.value(&self.credential_id),
            _ => Ok(None),
        }
    }
}

/// The argument of `PublicKeyCredential.signalAllAcceptedCredentials()`: all credentials of a user
/// that the relying party accepts (WebAuthn Level 3, section 5.1.10.3).
#[derive(Debug, Drop)]
pub struct AllAcceptedCredentialsOptions {
    /// rpId: the relying party id.
    pub rp_id: Text,
    /// userId: the user handle.
    pub user_id: Bytes,
    /// allAcceptedCredentialIds: their credential ids. The list may be empty.
    pub all_accepted_credential_ids: List<Bytes>,
}

impl PlainJsonRecord for AllAcceptedCredentialsOptions {
    ghost table = { all_accepted_credentials };

    fn rows() -> &'static [Row] {
        &[
            Row::Named(1, "rpId"),
            Row::Named(2, "userId"),
            Row::Named(3, "allAcceptedCredentialIds"),
        ]
    }

    fn blank(alloc: Global) -> AllAcceptedCredentialsOptions {
        AllAcceptedCredentialsOptions {
            rp_id: Text::empty(alloc),
            user_id: Bytes::empty(alloc),
            all_accepted_credential_ids: List::empty(alloc),
        }
    }

    fn put(&mut self, number: u8, member: &mut Member<'_>) -> Result<(), JsonFault> {
        match number {
            1 => place(&mut self.rp_id, member.required()),
            2 => place(&mut self.user_id, member.required()),
            3 => place(&mut self.all_accepted_credential_ids, member.required()),
            _ => Ok(()),
        }
    }

    fn encode(&self, number: u8, encoder: JsonEncoder) -> EncodeResult {
        match number {
            1 => encoder.value(&self.rp_id),
            2 => encoder.value(&self.user_id),
            3 => encoder.value(&self.all_accepted_credential_ids),
            _ => Ok(None),
        }
    }
}

/// The argument of `PublicKeyCredential.signalCurrentUserDetails()`: the names of a user, as they
/// are now (WebAuthn Level 3, section 5.1.10.4).
#[derive(Debug, Drop)]
pub struct CurrentUserDetailsOptions {
    /// rpId: the relying party id.
    pub rp_id: Text,
    /// userId: the user handle.
    pub user_id: Bytes,
    /// name: the name of the account.
    pub name: Text,
    /// displayName: the name of the user, for display.
    pub display_name: Text,
}

impl PlainJsonRecord for CurrentUserDetailsOptions {
    ghost table = { current_user_details };

    fn rows() -> &'static [Row] {
        &[
            Row::Named(1, "rpId"),
            Row::Named(2, "userId"),
            Row::Named(3, "name"),
            Row::Named(4, "displayName"),
        ]
    }

    fn blank(alloc: Global) -> CurrentUserDetailsOptions {
        CurrentUserDetailsOptions {
            rp_id: Text::empty(alloc),
            user_id: Bytes::empty(alloc),
            name: Text::empty(alloc),
            display_name: Text::empty(alloc),
        }
    }

    fn put(&mut self, number: u8, member: &mut Member<'_>) -> Result<(), JsonFault> {
        match number {
            1 => place(&mut self.rp_id, member.required()),
            2 => place(&mut self.user_id, member.required()),
            3 => place(&mut self.name, member.required()),
            4 => place(&mut self.display_name, member.required()),
            _ => Ok(()),
        }
    }

    fn encode(&self, number: u8, encoder: JsonEncoder) -> EncodeResult {
        match number {
            1 => encoder.value(&self.rp_id),
            2 => encoder.value(&self.user_id),
            3 => encoder.value(&self.name),
            4 => encoder.value(&self.display_name),
            _ => Ok(None),
        }
    }
}
