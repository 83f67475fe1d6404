//! The parts of the messages that `passkey_show` doesn't have, which are replaced by copies.
use crate::again_bytes::Copied;
use crate::tries::{Part, Tries};
use passkey_types::OutOfMemory;
use passkey_types::ctap2::registered::KeptMap;
use passkey_types::ctap2::registered::extensions::{
    PrfValue, get_assertion as used, make_credential as made,
};
use passkey_types::ctap2::{
    Kept, bio_enrollment, client_pin, config, credential_management, large_blobs, registered,
};
use std::alloc::Global;

impl Part for Kept {
    fn copy(&self, alloc: Global) -> Result<Kept, OutOfMemory> {
        Kept::new(self.try_clone(alloc)?.into_value()).ok_or(OutOfMemory)
    }
}

impl Part for KeptMap {
    fn copy(&self, alloc: Global) -> Result<KeptMap, OutOfMemory> {
        KeptMap::new(self.item().copy(alloc)?).ok_or(OutOfMemory)
    }
}

impl Copied for client_pin::Request {
    fn replace_parts(&mut self, alloc: Global, tries: &mut Tries) -> Result<(), OutOfMemory> {
        if let Some(permissions) = self.permissions {
            let copy = client_pin::Permissions::from_bits(permissions.bits());
            tries.compare(permissions.contains(copy));
            self.permissions = Some(copy | permissions);
        }
        tries.replace_some(alloc, &mut self.key_agreement)
    }
}

impl Copied for client_pin::Response {
    fn replace_parts(&mut self, alloc: Global, tries: &mut Tries) -> Result<(), OutOfMemory> {
        tries.replace_some(alloc, &mut self.key_agreement)
    }
}

impl Copied for bio_enrollment::Request {
    fn replace_parts(&mut self, alloc: Global, tries: &mut Tries) -> Result<(), OutOfMemory> {
        tries.replace_some(alloc, &mut self.pin_uv_auth_param)
    }
}

impl Copied for bio_enrollment::Response {
    fn replace_parts(&mut self, alloc: Global, tries: &mut Tries) -> Result<(), OutOfMemory> {
        tries.replace_some(alloc, &mut self.template_id)
    }
}

impl Copied for credential_management::Request {
    fn replace_parts(&mut self, alloc: Global, tries: &mut Tries) -> Result<(), OutOfMemory> {
        tries.replace_some(alloc, &mut self.pin_uv_auth_param)
    }
}

impl Copied for credential_management::Response {
    fn replace_parts(&mut self, alloc: Global, tries: &mut Tries) -> Result<(), OutOfMemory> {
        tries.replace_some(alloc, &mut self.credential_id)?;
        tries.replace_some(alloc, &mut self.public_key)
    }
}

impl Copied for large_blobs::Request {
    fn replace_parts(&mut self, alloc: Global, tries: &mut Tries) -> Result<(), OutOfMemory> {
        tries.replace_some(alloc, &mut self.set)
    }
}

impl Copied for large_blobs::Response {
    fn replace_parts(&mut self, alloc: Global, tries: &mut Tries) -> Result<(), OutOfMemory> {
        tries.replace_some(alloc, &mut self.config)
    }
}

impl Copied for large_blobs::LargeBlob {
    fn replace_parts(&mut self, alloc: Global, tries: &mut Tries) -> Result<(), OutOfMemory> {
        tries.replace(alloc, &mut self.ciphertext)
    }
}

impl Copied for config::Request {
    fn replace_parts(&mut self, alloc: Global, tries: &mut Tries) -> Result<(), OutOfMemory> {
        tries.replace_some(alloc, &mut self.sub_command_params)
    }
}

impl Copied for config::MinPinLengthParameters {}

impl Copied for config::VendorParameters {}

impl Copied for registered::get_info::Response {
    fn replace_parts(&mut self, alloc: Global, tries: &mut Tries) -> Result<(), OutOfMemory> {
        tries.replace_some(alloc, &mut self.certifications)
    }
}

impl Copied for registered::make_credential::Request {
    fn replace_parts(&mut self, alloc: Global, tries: &mut Tries) -> Result<(), OutOfMemory> {
        tries.replace_some(alloc, &mut self.extensions)
    }
}

impl Copied for registered::get_assertion::Request {
    fn replace_parts(&mut self, alloc: Global, tries: &mut Tries) -> Result<(), OutOfMemory> {
        tries.replace_some(alloc, &mut self.extensions)
    }
}

impl Copied for registered::make_credential::Response {
    fn replace_parts(&mut self, alloc: Global, tries: &mut Tries) -> Result<(), OutOfMemory> {
        tries.replace_some(alloc, &mut self.att_stmt)?;
        tries.replace_some(alloc, &mut self.unsigned_extension_outputs)
    }
}

impl Copied for registered::make_credential::AttestationObject {
    fn replace_parts(&mut self, alloc: Global, tries: &mut Tries) -> Result<(), OutOfMemory> {
        tries.replace(alloc, &mut self.att_stmt)
    }
}

impl Copied for registered::get_assertion::Response {
    fn replace_parts(&mut self, alloc: Global, tries: &mut Tries) -> Result<(), OutOfMemory> {
        tries.replace_some(alloc, &mut self.unsigned_extension_outputs)?;
        tries.replace_some(alloc, &mut self.att_stmt)
    }
}

impl Copied for made::ExtensionInputs {
    fn replace_parts(&mut self, alloc: Global, tries: &mut Tries) -> Result<(), OutOfMemory> {
        tries.replace_some(alloc, &mut self.hmac_secret_mc)
    }
}

impl Copied for made::SignedExtensionOutputs {
    fn replace_parts(&mut self, alloc: Global, tries: &mut Tries) -> Result<(), OutOfMemory> {
        tries.replace_some(alloc, &mut self.hmac_secret_mc)
    }
}

impl Copied for made::UnsignedExtensionOutputs {
    fn replace_parts(&mut self, _alloc: Global, tries: &mut Tries) -> Result<(), OutOfMemory> {
        if let Some(outputs) = &mut self.prf
            && let Some(values) = &mut outputs.results
        {
            let copy = PrfValue::new(values.first.bytes());
            tries.compare(values.first == copy);
            values.first = copy;
        }
        Ok(())
    }
}

impl Copied for used::ExtensionInputs {
    fn replace_parts(&mut self, alloc: Global, tries: &mut Tries) -> Result<(), OutOfMemory> {
        tries.replace_some(alloc, &mut self.hmac_secret)
    }
}

impl Copied for used::SignedExtensionOutputs {
    fn replace_parts(&mut self, alloc: Global, tries: &mut Tries) -> Result<(), OutOfMemory> {
        tries.replace_some(alloc, &mut self.cred_blob)
    }
}

impl Copied for used::UnsignedExtensionOutputs {}
