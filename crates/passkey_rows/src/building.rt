//! Passkeys from the builder.
use crate::hexadecimal::{decode, encode};
use crate::tries::Tries;
use passkey_rewrite::RunFault;
use passkey_types::cose::iana::KeyType;
use passkey_types::cose::{CoseKey, Registered};
use passkey_types::{
    Bytes, CredentialExtensions, OutOfMemory, Passkey, PasskeyBuilder, StoredHmacSecret, Text,
};
use rand_chacha::ChaCha20Rng;
use rand_core::SeedableRng;
use std::alloc::Global;

/// Returns a builder with a generator whose seed is 32 zero bytes.
fn builder(alloc: Global, rp_id: &str) -> Result<PasskeyBuilder<ChaCha20Rng>, OutOfMemory> {
    let rp_id = Text::from_str(alloc, rp_id)?;
    let key = CoseKey::new(Registered::Assigned(KeyType::EC2));
    let rng = ChaCha20Rng::from_seed([0; 32]);
    Passkey::mock(alloc, rp_id, key, rng)
}

fn with_id(
    alloc: Global,
    tries: &mut Tries,
    builder: PasskeyBuilder<ChaCha20Rng>,
) -> Result<PasskeyBuilder<ChaCha20Rng>, OutOfMemory> {
    match builder.credential_id(alloc, 4) {
        Ok(builder) => Ok(builder),
        Err(back) => {
            tries.refuse();
            match back.value.credential_id(alloc, 4) {
                Ok(builder) => Ok(builder),
                Err(_) => Err(OutOfMemory),
            }
        }
    }
}

fn with_handle(
    alloc: Global,
    tries: &mut Tries,
    builder: PasskeyBuilder<ChaCha20Rng>,
) -> Result<PasskeyBuilder<ChaCha20Rng>, OutOfMemory> {
    match builder.user_handle(alloc, Some(8)) {
        Ok(builder) => Ok(builder),
        Err(back) => {
            tries.refuse();
            match back.value.user_handle(alloc, Some(8)) {
                Ok(builder) => Ok(builder),
                Err(_) => Err(OutOfMemory),
            }
        }
    }
}

fn secrets(alloc: Global) -> Result<StoredHmacSecret, OutOfMemory> {
    let cred_without_uv = Some(Bytes::from_slice(alloc, &[3])?);
    Ok(StoredHmacSecret {
        cred_with_uv: Bytes::from_slice(alloc, &[1, 2])?,
        cred_without_uv,
    })
}

fn built(alloc: Global, tries: &mut Tries, rp_id: &str) -> Result<Passkey, OutOfMemory> {
    let secrets = secrets(alloc)?;
    let name = Text::from_str(alloc, "user")?;
    let builder = builder(alloc, rp_id)?.username(name).hmac_secret(secrets);
    let builder = with_id(alloc, tries, builder)?;
    let builder = with_handle(alloc, tries, builder)?;
    Ok(builder.build())
}

fn printed(
    alloc: Global,
    rp_id: &Text,
    id: &Bytes,
    handle: &Option<Bytes>,
) -> Result<String, RunFault> {
    let id = encode(alloc, id.as_slice())?;
    match handle {
        Some(handle) => {
            let handle = encode(alloc, handle.as_slice())?;
            Ok(format!(in alloc; "{rp_id} {id} {handle}")?)
        }
        None => Ok(format!(in alloc; "{rp_id} {id}")?),
    }
}

/// Replaces the passkey by a copy, and returns its text.
fn described(alloc: Global, tries: &mut Tries, passkey: &mut Passkey) -> Result<String, RunFault> {
    tries.replace_equal(alloc, passkey)?;
    let descriptor = passkey.descriptor(alloc)?;
    let text = printed(alloc, &passkey.rp_id, &descriptor.id, &passkey.user_handle);
    drop(descriptor);
    text
}

/// `RPID`: the relying party id, the credential id and the user handle of a copy of a passkey whose
/// credential id was drawn with 16 bytes, then with 4, and whose user handle was drawn with 8.
pub fn build(alloc: Global, tries: &mut Tries, input: &str) -> Result<String, RunFault> {
    let mut passkey = built(alloc, tries, input)?;
    let text = described(alloc, tries, &mut passkey);
    drop(passkey);
    text
}

/// `BYTES`: a passkey's extension data with these secrets, once they are erased. No memory that is
/// freed holds them then, which `tools/count-growths` looks at.
pub fn erase(alloc: Global, input: &str) -> Result<String, RunFault> {
    let cred_without_uv = Some(Bytes::from(decode(alloc, input)?));
    let hmac_secret = Some(StoredHmacSecret {
        cred_with_uv: Bytes::from(decode(alloc, input)?),
        cred_without_uv,
    });
    let mut extensions = CredentialExtensions { hmac_secret };
    extensions.zeroize();
    Ok(format!(in alloc; "{extensions:?}")?)
}
