//! Setting the extension outputs of authenticator data.
ghost use Rattle.std.specs.Prelude.{◌≡◌, IfOk, IfErr, OnErr, IsSome};
ghost use Rattle.passkey_core.specs.DataViews.{data_parts};
ghost use Rattle.passkey_core.specs.SignedOutputs.{make_credential_extensions, get_assertion_extensions, with_extensions};
ghost use Rattle.passkey_core.specs.SignedPut.{PutsExtensions};

use crate::authenticator_data::AuthenticatorData;
use crate::flags::Flags;
use crate::given_back::GivenBack;
use crate::{get_assertion, make_credential};
use passkey_cbor::Value;
use passkey_memory::OutOfMemory;
use std::alloc::Global;

impl AuthenticatorData {
    /// The data with these extensions, or unchanged if there are none. If an allocation failed, the
    /// data is returned unchanged.
    fn put_extensions(
        mut self,
        extensions: Result<Option<Value>, OutOfMemory>,
    ) -> Result<AuthenticatorData, GivenBack<AuthenticatorData>>
        ensures { PutsExtensions self extensions result }
    {
        match extensions {
            Ok(Some(extensions)) => {
                self.extensions = Some(extensions);
                Ok(self.set_flags(Flags::ED))
            }
            Ok(None) => Ok(self),
            Err(OutOfMemory) => Err(GivenBack { value: self }),
        }
    }

    /// Returns the data with these extension outputs of a registration, which replace its own, and
    /// with ED set; unchanged if no output is present. If an allocation fails, the error returns
    /// the data unchanged.
    pub fn set_make_credential_extensions(
        self,
        alloc: Global,
        outputs: Option<make_credential::SignedExtensionOutputs>,
    ) -> Result<AuthenticatorData, GivenBack<AuthenticatorData>>
        ensures put { IfOk result
            (λ d. data_parts d ≡ with_extensions (data_parts self) (make_credential_extensions outputs)) }
        ensures back { IfErr result (λ e. e.value ≡ self) }
        ensures grows { OnErr result (IsSome (make_credential_extensions outputs)) }
    {
        self.put_extensions(make_credential::to_extensions(alloc, outputs))
    }

    /// Returns the data with these extension outputs of an assertion, which replace its own, and
    /// with ED set; unchanged if no output is present. If an allocation fails, the error returns
    /// the data unchanged.
    pub fn set_assertion_extensions(
        self,
        alloc: Global,
        outputs: Option<get_assertion::SignedExtensionOutputs>,
    ) -> Result<AuthenticatorData, GivenBack<AuthenticatorData>>
        ensures put { IfOk result
            (λ d. data_parts d ≡ with_extensions (data_parts self) (get_assertion_extensions outputs)) }
        ensures back { IfErr result (λ e. e.value ≡ self) }
        ensures grows { OnErr result (IsSome (get_assertion_extensions outputs)) }
    {
        self.put_extensions(get_assertion::to_extensions(alloc, outputs))
    }
}
