//! Secrets of the extension hmac-secret.
ghost use Rattle.std.specs.Prelude.{◌≡◌, Some, IfOk, OnErr};
ghost use Rattle.passkey_stored.specs.HmacSecret.{AreZeros, HoldsSecrets, IsZeroed, erased, lengths, redacted};

use passkey_bytes::Bytes;
use passkey_memory::OutOfMemory;
use std::alloc::Global;
use std::fmt;

/// The secrets (CredRandom) of the extension hmac-secret for a passkey (CTAP 2.1, section 12.5).
/// CTAP generates each of them as 32 random bytes; the length isn't checked. `Debug` doesn't print
/// them.
#[derive(Drop, PartialEq)]
pub struct StoredHmacSecret {
    /// The secret for requests with user verification (CredRandomWithUV).
    pub cred_with_uv: Bytes,
    /// The secret for requests without user verification (CredRandomWithoutUV); `None` means there
    /// is none.
    pub cred_without_uv: Option<Bytes>,
}

impl StoredHmacSecret {
    /// Returns an equal value. Returns `OutOfMemory` if an allocation fails, which can't happen if
    /// the secrets are empty.
    pub fn try_clone(&self, alloc: Global) -> Result<StoredHmacSecret, OutOfMemory>
        ensures same { IfOk result (λ copy. copy ≡ self.now) }
        ensures grows { OnErr result (HoldsSecrets self.now) }
    {
        let cred_without_uv = match &self.cred_without_uv {
            Some(secret) => Some(secret.try_clone(alloc)?),
            None => None,
        };
        Ok(StoredHmacSecret {
            cred_with_uv: self.cred_with_uv.try_clone(alloc)?,
            cred_without_uv,
        })
    }

    /// Overwrites the secrets with zeros and removes them: `cred_with_uv` is then empty, and
    /// `cred_without_uv` is `None`. What removes them requires that each byte is zero by then. The
    /// compiler may leave out writes that nothing reads, and may have left copies of the secrets
    /// elsewhere in memory: no contract says that memory is erased.
    pub fn zeroize(&mut self)
        ensures { self.new ≡ erased }
    {
        self.overwrite();
        self.remove();
    }

    /// Overwrites each byte of the secrets with zero.
    fn overwrite(&mut self)
        ensures zeroed { IsZeroed self.new }
        ensures as_long { lengths self.new ≡ lengths self.old }
    {
        write_zeros(self.cred_with_uv.as_mut_vec().as_mut_slice());
        if let Some(secret) = &mut self.cred_without_uv {
            write_zeros(secret.as_mut_vec().as_mut_slice());
        }
    }

    /// Removes the secrets once they are overwritten.
    fn remove(&mut self)
        requires { IsZeroed self.old }
        ensures { self.new ≡ erased }
    {
        self.cred_with_uv.as_mut_vec().clear();
        self.cred_without_uv = None;
    }
}

/// Overwrites each byte with zero.
fn write_zeros(bytes: &mut [u8])
    ensures { AreZeros bytes.new }
{
    for byte in bytes.iter_mut() {
        *byte = 0;
    }
}

impl fmt::Debug for StoredHmacSecret {
    ghost debug_output = { λ secret. Some (redacted secret) };

    fn fmt<W: fmt::Write>(&self, f: &mut fmt::Formatter<W>) -> fmt::Result {
        if self.cred_without_uv.is_some() {
            f.write_str(
                "StoredHmacSecret { cred_with_uv: \"<Redacted>\", cred_without_uv: \"<Redacted>\" }",
            )
        } else {
            f.write_str(
                "StoredHmacSecret { cred_with_uv: \"<Redacted>\", cred_without_uv: \"None\" }",
            )
        }
    }
}
