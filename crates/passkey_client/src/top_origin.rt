//! The origin of the top-level page, another member of client data.
ghost use Rattle.passkey_client.specs.TopOrigin.{is_top_origin, origin_members, origin_members_are_extra};

use passkey_bytes::Text;
use passkey_json::{JsonFault, Object};
use passkey_memory::OutOfMemory;
use passkey_webauthn_json::client_data::ClientDataExtra;
use serde_json::Value;
use std::alloc::Global;
use std::marker::Model;

/// `topOrigin` of client data: the origin of the top-level page, where the call came from a frame of
/// another origin (WebAuthn Level 3, section 5.8.1). `None` means that the member is absent.
#[derive(Debug, Drop)]
pub struct TopOrigin(pub Option<Text>);

impl Model for TopOrigin {
    ghost use Rattle.std.specs.Prelude.{ℕ, List, Option};

    ghost Value = { Option (List ℕ) };

    ghost view = { λ origin. origin.0 };
}

impl ClientDataExtra for TopOrigin {
    ghost use Rattle.std.specs.Prelude.{codes};
    ghost use Rattle.passkey_json.specs.Kind.{text, is_text};
    ghost use Rattle.passkey_json.specs.Members.{if_present, member, takes_at};

    ghost has = { is_top_origin };

    ghost reads = { λ object. if_present text (member (codes "topOrigin") object) };

    ghost takes = { λ object. takes_at is_text (object (codes "topOrigin")) };

    ghost written = { origin_members };

    fn is_member(name: &str) -> bool {
        name == "topOrigin"
    }

    #[tactic(auto, unfolding(passkey_json::specs::Members::if_present))]
    fn from_object(object: &Object<'_>) -> Result<TopOrigin, JsonFault> {
        Ok(TopOrigin(object.member("topOrigin").if_present()?))
    }

    fn absent(_alloc: Global) -> Option<TopOrigin> {
        Some(TopOrigin(None))
    }

    fn members(&self, alloc: Global) -> Result<Vec<(String, Value)>, OutOfMemory> {
        let mut members = Vec::new(alloc);
        if let Some(origin) = &self.0 {
            let value = Value::try_from_str(alloc, origin.as_str())?;
            members.push((String::from_str(alloc, "topOrigin")?, value))?;
        }
        Ok(members)
    }

    ghost members_are_extra = { origin_members_are_extra };

    fn try_clone(&self, alloc: Global) -> Result<TopOrigin, OutOfMemory> {
        match &self.0 {
            Some(origin) => Ok(TopOrigin(Some(origin.try_clone(alloc)?))),
            None => Ok(TopOrigin(None)),
        }
    }
}
