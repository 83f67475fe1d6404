//! Encoding authenticator data.
ghost use Rattle.std.specs.Prelude.{◌≡◌, ◌++◌, [], unwrap_or, option_map, IfOk, OnOk};
ghost use Rattle.passkey_cbor.specs.View.{item_of};
ghost use Rattle.passkey_cbor.specs.Writable.{IsWritable};
ghost use Rattle.passkey_cbor.specs.Written.{written};
ghost use Rattle.passkey_core.specs.DataNormal.{IfPresent, IsAttested, IsData};
ghost use Rattle.passkey_core.specs.DataViews.{attested_parts, data_parts};
ghost use Rattle.passkey_core.specs.DataWritten.{attested_written, flags_written, data_written};

use crate::attested::AttestedCredentialData;
use crate::authenticator_data::AuthenticatorData;
use crate::flags::Flags;
use passkey_cbor::{Encoder, Value};
use passkey_memory::OutOfMemory;
use std::alloc::Global;

fn with_attested(
    alloc: Global,
    bytes: Vec<u8>,
    attested: &Option<AttestedCredentialData>,
) -> Result<Vec<u8>, OutOfMemory>
    ensures written { IfOk result (λ all. all.items
        ≡ bytes.items ++ unwrap_or (option_map attested_written (option_map attested_parts attested.now)) []) }
    ensures valid { OnOk result (IfPresent IsAttested (option_map attested_parts attested.now)) }
{
    match attested {
        Some(attested) => attested.append_to(alloc, bytes),
        None => Ok(bytes),
    }
}

fn with_extensions(bytes: Vec<u8>, extensions: &Option<Value>) -> Result<Vec<u8>, OutOfMemory>
    ensures written { IfOk result
        (λ all. all.items ≡ bytes.items ++ unwrap_or (option_map written (option_map item_of extensions.now)) []) }
    ensures writable { OnOk result (IfPresent IsWritable (option_map item_of extensions.now)) }
{
    match extensions {
        Some(extensions) => {
            let mut encoder = Encoder::from_vec(bytes);
            encoder.item(extensions)?;
            Ok(encoder.into_vec())
        }
        None => Ok(bytes),
    }
}

impl AuthenticatorData {
    /// The room that the encoding is given at once: 37 bytes are fixed, and a new credential with an id of 64 bytes and an
    /// EC2 key takes 159 more.
    fn usual_len(&self) -> usize {
        match self.attested_credential_data {
            Some(_) => 224,
            None => 37,
        }
    }

    /// The flags as they are encoded: with AT set if attested credential data is present.
    fn written_flags(&self) -> Flags
        ensures { result.0 ≡ flags_written (data_parts self.now).flags (data_parts self.now).attested }
    {
        match self.attested_credential_data {
            Some(_) => self.flags | Flags::AT,
            None => self.flags,
        }
    }

    /// Encodes the data (WebAuthn Level 3, section 6.1): the relying party id's hash; the flags,
    /// with AT set if attested credential data is present; the counter in 4 bytes, big-endian, 0 if
    /// it is absent; then the attested credential data and the extensions, each if present.
    /// `OutOfMemory` if an allocation fails. Decoding rejects no member of the key.
    ///
    /// Data that isn't coherent is encoded all the same, but the bytes may not decode to it.
    pub fn to_vec(&self, alloc: Global) -> Result<Vec<u8>, OutOfMemory>
        ensures written { IfOk result (λ bytes. bytes.items ≡ data_written (data_parts self.now)) }
        ensures valid { OnOk result (IsData (data_parts self.now)) }
    {
        let mut out = Vec::with_capacity(alloc, self.usual_len())?;
        out.extend_from_slice(&self.rp_id_hash)?;
        out.push(u8::from(self.written_flags()))?;
        out.extend_from_slice(&self.counter.unwrap_or(0).to_be_bytes())?;
        let out = with_attested(alloc, out, &self.attested_credential_data)?;
        with_extensions(out, &self.extensions)
    }
}
