//! Another member of client data, decoded by the relying party's own type.
ghost use Rattle.passkey_examples.specs.relying_party.PackageName.{is_package_name, name_members, name_members_are_extra};

use passkey_types::json::{Object, Value};
use passkey_types::webauthn::{ClientDataExtra, JsonFault};
use passkey_types::{OutOfMemory, Text};
use std::alloc::Global;
use std::marker::Model;

/// The app that asked for the credential, which Android clients name in `androidPackageName`;
/// `None` means the member is absent.
#[derive(Debug, Drop)]
pub struct PackageName(pub Option<Text>);

impl Model for PackageName {
    ghost use Rattle.std.specs.Prelude.{ℕ, List, Option};

    ghost Value = { Option (List ℕ) };

    ghost view = { λ name. name.0 };
}

impl ClientDataExtra for PackageName {
    ghost use Rattle.std.specs.Prelude.{codes};
    ghost use Rattle.passkey_json.specs.Kind.{text, is_text};
    ghost use Rattle.passkey_json.specs.Members.{if_present, member, takes_at};

    ghost has = { is_package_name };

    ghost reads = { λ object. if_present text (member (codes "androidPackageName") object) };

    ghost takes = { λ object. takes_at is_text (object (codes "androidPackageName")) };

    ghost written = { name_members };

    fn is_member(name: &str) -> bool {
        name == "androidPackageName"
    }

    #[tactic(auto, unfolding(passkey_json::specs::Members::if_present))]
    fn from_object(object: &Object<'_>) -> Result<PackageName, JsonFault> {
        Ok(PackageName(object.member("androidPackageName").if_present()?))
    }

    fn members(&self, alloc: Global) -> Result<Vec<(String, Value)>, OutOfMemory> {
        let mut members = Vec::new(alloc);
        if let Some(name) = &self.0 {
            let value = Value::try_from_str(alloc, name.as_str())?;
            members.push((String::from_str(alloc, "androidPackageName")?, value))?;
        }
        Ok(members)
    }

    ghost members_are_extra = { name_members_are_extra };

    fn try_clone(&self, alloc: Global) -> Result<PackageName, OutOfMemory> {
        match &self.0 {
            Some(name) => Ok(PackageName(Some(name.try_clone(alloc)?))),
            None => Ok(PackageName(None)),
        }
    }
}
