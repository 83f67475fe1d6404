//! Passkeys.
ghost use Rattle.std.specs.Prelude.{◌≡◌, ◌<◌, Some, length, IfOk, OnErr};
ghost use Rattle.std.specs.Option.{IsSomeAnd};
ghost use Rattle.passkey_stored.specs.Passkey.{PasskeyGrows, fresh, key_type_name, named, passkey_parts, printed};
ghost use Rattle.rand_core.specs.Stream.{fill_bytes};

use crate::builder::PasskeyBuilder;
use crate::extensions::CredentialExtensions;
use passkey_bytes::{Bytes, Text};
use passkey_cose::{CoseKey, Registered};
use passkey_iana::KeyType;
use passkey_memory::OutOfMemory;
use passkey_webauthn::{PublicKeyCredentialDescriptor, PublicKeyCredentialType};
use rand_core::Rng;
use std::alloc::Global;
use std::fmt;

/// A passkey that an authenticator stores: a public key credential source (WebAuthn Level 3,
/// section 4). `Debug` prints only the key's type and the counter.
#[derive(Drop, PartialEq)]
pub struct Passkey {
    /// The private key.
    pub key: CoseKey,
    /// The credential id: 16 to 1023 bytes (WebAuthn Level 3, section 4). The length isn't checked.
    pub credential_id: Bytes,
    /// The relying party id.
    pub rp_id: Text,
    /// The user handle, 1 to 64 bytes; `None` means none is stored. The length isn't checked.
    pub user_handle: Option<Bytes>,
    /// The user's name; `None` means none is stored.
    pub username: Option<Text>,
    /// The user's display name; `None` means none is stored.
    pub user_display_name: Option<Text>,
    /// The signature counter; `None` means the authenticator keeps none for this passkey.
    pub counter: Option<u32>,
    /// The extension data that is stored with the passkey.
    pub extensions: CredentialExtensions,
}

/// What is stored of the user.
#[derive(Drop)]
struct User {
    handle: Option<Bytes>,
    name: Option<Text>,
    display_name: Option<Text>,
}

fn copied_bytes(alloc: Global, bytes: &Option<Bytes>) -> Result<Option<Bytes>, OutOfMemory>
    ensures same { IfOk result (λ copy. copy ≡ bytes.now) }
    ensures grows { OnErr result (IsSomeAnd bytes.now (λ b. 0 < length b)) }
{
    match bytes {
        Some(bytes) => Ok(Some(bytes.try_clone(alloc)?)),
        None => Ok(None),
    }
}

fn copied_text(alloc: Global, text: &Option<Text>) -> Result<Option<Text>, OutOfMemory>
    ensures same { IfOk result (λ copy. copy ≡ text.now) }
    ensures grows { OnErr result (IsSomeAnd text.now (λ t. 0 < length t)) }
{
    match text {
        Some(text) => Ok(Some(text.try_clone(alloc)?)),
        None => Ok(None),
    }
}

impl Passkey {
    /// Returns a builder of a passkey for this relying party, with this key. The credential id is
    /// the next 16 bytes of the generator; nothing else is set. Returns `OutOfMemory` if the
    /// allocation of the id fails.
    pub fn mock<R: Rng + Drop>(
        alloc: Global,
        rp_id: Text,
        key: CoseKey,
        rng: R,
    ) -> Result<PasskeyBuilder<R>, OutOfMemory>
        ensures built { IfOk result (λ b. b.passkey ≡ fresh key rp_id (fill_bytes 16 (R.stream rng)).0) }
        ensures drawn { IfOk result (λ b. R.stream b.rng ≡ (fill_bytes 16 (R.stream rng)).1) }
    {
        PasskeyBuilder::new(alloc, rp_id, key, rng)
    }

    /// Returns the descriptor of the passkey's credential (WebAuthn Level 3, section 5.8.3),
    /// without transports. Returns `OutOfMemory` if the allocation fails, which can't happen if the
    /// credential id is empty.
    pub fn descriptor(&self, alloc: Global) -> Result<PublicKeyCredentialDescriptor, OutOfMemory>
        ensures named { IfOk result (λ descriptor. descriptor ≡ named self.now) }
        ensures grows { OnErr result (0 < length self.now.credential_id) }
    {
        Ok(PublicKeyCredentialDescriptor {
            ty: PublicKeyCredentialType::PublicKey,
            id: self.credential_id.try_clone(alloc)?,
            transports: None,
        })
    }

    /// Returns the same descriptor, made from the passkey's own id without an allocation.
    pub fn into_descriptor(self) -> PublicKeyCredentialDescriptor
        ensures { result ≡ named self }
    {
        PublicKeyCredentialDescriptor {
            ty: PublicKeyCredentialType::PublicKey,
            id: self.credential_id,
            transports: None,
        }
    }

    /// Returns an equal passkey. Returns `OutOfMemory` if an allocation fails, which can't happen
    /// if no part of the passkey takes memory.
    pub fn try_clone(&self, alloc: Global) -> Result<Passkey, OutOfMemory>
        ensures same { IfOk result (λ copy. passkey_parts copy ≡ passkey_parts self.now) }
        ensures grows { OnErr result (PasskeyGrows (passkey_parts self.now)) }
    {
        let user = self.user(alloc)?;
        let extensions = self.extensions.try_clone(alloc)?;
        let rp_id = self.rp_id.try_clone(alloc)?;
        let credential_id = self.credential_id.try_clone(alloc)?;
        Ok(Passkey {
            key: self.key.try_clone(alloc)?,
            credential_id,
            rp_id,
            user_handle: user.handle,
            username: user.name,
            user_display_name: user.display_name,
            counter: self.counter,
            extensions,
        })
    }

    /// Returns a copy of what is stored of the user.
    fn user(&self, alloc: Global) -> Result<User, OutOfMemory>
        ensures handle { IfOk result (λ user. user.handle ≡ self.now.user_handle) }
        ensures name { IfOk result (λ user. user.name ≡ self.now.username) }
        ensures display_name { IfOk result (λ user. user.display_name ≡ self.now.user_display_name) }
        ensures grows { OnErr result (PasskeyGrows (passkey_parts self.now)) }
    {
        Ok(User {
            handle: copied_bytes(alloc, &self.user_handle)?,
            name: copied_text(alloc, &self.username)?,
            display_name: copied_text(alloc, &self.user_display_name)?,
        })
    }
}

fn key_type_name(kty: KeyType) -> &'static str
    ensures { result.now ≡ key_type_name kty }
{
    match kty {
        KeyType::Reserved => "Reserved",
        KeyType::OKP => "OKP",
        KeyType::EC2 => "EC2",
        KeyType::RSA => "RSA",
        KeyType::Symmetric => "Symmetric",
    }
}

impl fmt::Debug for Passkey {
    ghost debug_output = { λ passkey. Some (printed (passkey_parts passkey)) };

    fn fmt<W: fmt::Write>(&self, f: &mut fmt::Formatter<W>) -> fmt::Result {
        f.write_str("Passkey { key_type: ")?;
        match self.key.kty() {
            Registered::Assigned(kty) => write!(f, "Assigned({})", key_type_name(*kty))?,
            Registered::Other(number) => write!(f, "Other({number})")?,
            Registered::Text(_) => f.write_str("Text")?,
        }
        match self.counter {
            Some(counter) => write!(f, ", counter: Some({counter}) }}"),
            None => f.write_str(", counter: None }"),
        }
    }
}
