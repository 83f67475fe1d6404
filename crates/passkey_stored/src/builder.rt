//! A builder of passkeys.
ghost use Rattle.std.specs.Prelude.{◌≡◌, ◌<◌, Some, length, unwrap_or, IfErr, IfOk, OnErr};
ghost use Rattle.passkey_stored.specs.Passkey.{fresh};
ghost use Rattle.rand_core.specs.Stream.{fill_bytes};

use crate::extensions::CredentialExtensions;
use crate::hmac_secret::StoredHmacSecret;
use crate::passkey::Passkey;
use passkey_bytes::{Bytes, Text};
use passkey_core::GivenBack;
use passkey_cose::CoseKey;
use passkey_memory::OutOfMemory;
use rand_core::Rng;
use std::alloc::{AllocError, Global};

/// The length of an id, in bytes, if no other length is asked for.
const DEFAULT_LEN: usize = 16;

/// Builds a passkey with random ids.
#[derive(Drop)]
pub struct PasskeyBuilder<R> {
    passkey: Passkey,
    rng: R,
}

/// Draws bytes from the generator. If the allocation fails, nothing is drawn.
fn drawn<R: Rng>(alloc: Global, rng: &mut R, len: usize) -> Result<Bytes, OutOfMemory>
    ensures bytes { IfOk result (λ bytes. bytes ≡ (fill_bytes len (R.stream rng.old)).0) }
    ensures rest { IfOk result (λ _. R.stream rng.new ≡ (fill_bytes len (R.stream rng.old)).1) }
    ensures back { IfErr result (λ _. rng.new ≡ rng.old) }
    ensures grows { OnErr result (0 < len) }
{
    let mut bytes = Vec::new(alloc);
    bytes.resize(len, 0)?;
    rng.fill_bytes(&mut bytes);
    Ok(Bytes::from(bytes))
}

impl<R: Rng + Drop> PasskeyBuilder<R> {
    pub(crate) fn new(
        alloc: Global,
        rp_id: Text,
        key: CoseKey,
        mut rng: R,
    ) -> Result<PasskeyBuilder<R>, OutOfMemory>
        ensures built { IfOk result (λ b. b.passkey ≡ fresh key rp_id (fill_bytes 16 (R.stream rng)).0) }
        ensures drawn { IfOk result (λ b. R.stream b.rng ≡ (fill_bytes 16 (R.stream rng)).1) }
    {
        let credential_id = drawn(alloc, &mut rng, DEFAULT_LEN)?;
        let passkey = Passkey {
            key,
            credential_id,
            rp_id,
            user_handle: None,
            username: None,
            user_display_name: None,
            counter: None,
            extensions: CredentialExtensions::empty(),
        };
        Ok(PasskeyBuilder { passkey, rng })
    }

    /// Draws another credential id, of this length in bytes. If the allocation fails, the builder
    /// is returned unchanged and nothing is drawn. (WebAuthn Level 3, section 4, allows 16 to 1023
    /// bytes; the length isn't checked.)
    pub fn credential_id(
        mut self,
        alloc: Global,
        len: usize,
    ) -> Result<PasskeyBuilder<R>, GivenBack<PasskeyBuilder<R>>>
        ensures built { IfOk result
            (λ b. b.passkey ≡ record self.passkey { credential_id = (fill_bytes len (R.stream self.rng)).0 }) }
        ensures drawn { IfOk result (λ b. R.stream b.rng ≡ (fill_bytes len (R.stream self.rng)).1) }
        ensures back { IfErr result (λ e. e.value ≡ self) }
        ensures grows { OnErr result (0 < len) }
    {
        match drawn(alloc, &mut self.rng, len) {
            Ok(bytes) => {
                self.passkey.credential_id = bytes;
                Ok(self)
            }
            Err(OutOfMemory) => Err(GivenBack { value: self }),
        }
    }

    /// Draws a user handle of this length in bytes, or of 16 bytes if none is given. If the
    /// allocation fails, the builder is returned unchanged and nothing is drawn. (WebAuthn Level 3,
    /// section 5.4.3, allows 1 to 64 bytes; the length isn't checked.)
    pub fn user_handle(
        mut self,
        alloc: Global,
        len: Option<usize>,
    ) -> Result<PasskeyBuilder<R>, GivenBack<PasskeyBuilder<R>>>
        ensures built { IfOk result (λ b. b.passkey
            ≡ record self.passkey { user_handle = Some (fill_bytes (unwrap_or len 16) (R.stream self.rng)).0 }) }
        ensures drawn { IfOk result (λ b. R.stream b.rng ≡ (fill_bytes (unwrap_or len 16) (R.stream self.rng)).1) }
        ensures back { IfErr result (λ e. e.value ≡ self) }
        ensures grows { OnErr result (0 < unwrap_or len 16) }
    {
        match drawn(alloc, &mut self.rng, len.unwrap_or(DEFAULT_LEN)) {
            Ok(bytes) => {
                self.passkey.user_handle = Some(bytes);
                Ok(self)
            }
            Err(OutOfMemory) => Err(GivenBack { value: self }),
        }
    }

    /// Sets the user's name.
    pub fn username(mut self, username: Text) -> PasskeyBuilder<R>
        ensures { result ≡ record self { passkey = record self.passkey { username = Some username } } }
    {
        self.passkey.username = Some(username);
        self
    }

    /// Sets the user's display name.
    pub fn user_display_name(mut self, name: Text) -> PasskeyBuilder<R>
        ensures { result ≡ record self { passkey = record self.passkey { user_display_name = Some name } } }
    {
        self.passkey.user_display_name = Some(name);
        self
    }

    /// Sets the signature counter.
    pub fn counter(mut self, counter: u32) -> PasskeyBuilder<R>
        ensures { result ≡ record self { passkey = record self.passkey { counter = Some counter } } }
    {
        self.passkey.counter = Some(counter);
        self
    }

    /// Sets the secrets of the extension hmac-secret.
    pub fn hmac_secret(mut self, secret: StoredHmacSecret) -> PasskeyBuilder<R>
        ensures { result
            ≡ record self { passkey = record self.passkey { extensions = record { hmac_secret = Some secret } } } }
    {
        self.passkey.extensions.hmac_secret = Some(secret);
        self
    }

    /// Returns the passkey.
    pub fn build(self) -> Passkey
        ensures { result ≡ self.passkey }
    {
        let PasskeyBuilder { passkey, .. } = self;
        passkey
    }
}
