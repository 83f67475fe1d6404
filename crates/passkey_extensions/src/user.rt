//! Users in CTAP2's messages.
ghost use Rattle.std.specs.Prelude.{◌≡◌, ◌<◌, ◌⊎◌, length, IfOk, OnErr, None, IfErr, codes};
ghost use Rattle.std.specs.Result.{result_ok};
ghost use Rattle.std.specs.Option.{IsSomeAnd};
ghost use Rattle.passkey_extensions.specs.Entities.{user, user_of_webauthn, webauthn_of_user};

use passkey_bytes::{Bytes, Text};
use passkey_kinds::{PlainRecord, Refusal, Row, Sink, Source, set};
use passkey_memory::OutOfMemory;
use passkey_webauthn as webauthn;
use std::alloc::Global;

/// The user account that a credential is for (CTAP 2.1, section 6.1). `None` means that the member
/// is absent; null also decodes to `None`.
#[derive(Debug, Drop, PartialEq, Eq)]
pub struct PublicKeyCredentialUserEntity {
    /// The user handle, which identifies the account: at most 64 bytes. The length isn't checked.
    pub id: Bytes,
    /// A name for display that distinguishes the account from others, such as an email address.
    pub name: Option<Text>,
    /// `displayName`: a name for the user that is only for display.
    pub display_name: Option<Text>,
    /// `icon`: the URL of an image of the user.
    pub icon_url: Option<Text>,
}

fn copied(alloc: Global, text: &Option<Text>) -> Result<Option<Text>, OutOfMemory>
    ensures same { IfOk result (λ copy. copy ≡ text.now) }
    ensures grows { OnErr result (IsSomeAnd text.now (λ t. 0 < length t)) }
{
    match text {
        Some(text) => Ok(Some(text.try_clone(alloc)?)),
        None => Ok(None),
    }
}

impl PublicKeyCredentialUserEntity {
    /// Returns an equal value. Returns `OutOfMemory` if an allocation fails, which can't happen if
    /// the id and the texts are empty or absent.
    pub fn try_clone(&self, alloc: Global) -> Result<PublicKeyCredentialUserEntity, OutOfMemory>
        ensures same { IfOk result (λ copy. copy ≡ self.now) }
        ensures grows { OnErr result ((0 < length self.now.id) ⊎ IsSomeAnd self.now.name (λ t. 0 < length t)
            ⊎ IsSomeAnd self.now.display_name (λ t. 0 < length t)
            ⊎ IsSomeAnd self.now.icon_url (λ t. 0 < length t)) }
    {
        Ok(PublicKeyCredentialUserEntity {
            id: self.id.try_clone(alloc)?,
            name: copied(alloc, &self.name)?,
            display_name: copied(alloc, &self.display_name)?,
            icon_url: copied(alloc, &self.icon_url)?,
        })
    }
}

impl From<webauthn::PublicKeyCredentialUserEntity> for PublicKeyCredentialUserEntity {
    ghost from_gives = { λ theirs user. user ≡ user_of_webauthn theirs };

    /// Returns the user with both names and no icon.
    fn from(theirs: webauthn::PublicKeyCredentialUserEntity) -> PublicKeyCredentialUserEntity {
        PublicKeyCredentialUserEntity {
            id: theirs.id,
            name: Some(theirs.name),
            display_name: Some(theirs.display_name),
            icon_url: None,
        }
    }
}

impl TryFrom<PublicKeyCredentialUserEntity> for webauthn::PublicKeyCredentialUserEntity {
    type Error = &'static str;

    ghost try_from_gives = { λ user result. (result_ok result ≡ webauthn_of_user user) × IfErr result (λ text. text.now
        ≡ codes "PublicKeyCredentialUserEntity is missing one or more required fields: name, display_name") };

    /// Returns the user with both names and without the icon. Returns an error text exactly if one
    /// of the names is absent.
    fn try_from(
        user: PublicKeyCredentialUserEntity,
    ) -> Result<webauthn::PublicKeyCredentialUserEntity, &'static str> {
        let PublicKeyCredentialUserEntity {
            id,
            name,
            display_name,
            ..
        } = user;
        match (name, display_name) {
            (Some(name), Some(display_name)) => Ok(webauthn::PublicKeyCredentialUserEntity {
                id,
                display_name,
                name,
            }),
            _ => Err(
                "PublicKeyCredentialUserEntity is missing one or more required fields: name, display_name",
            ),
        }
    }
}

impl PlainRecord for PublicKeyCredentialUserEntity {
    ghost table = { user };

    fn rows() -> &'static [Row] {
        &[
            Row::Required(1, "id"),
            Row::Optional(4, "icon"),
            Row::Optional(2, "name"),
            Row::Optional(3, "displayName"),
        ]
    }

    fn blank(alloc: Global) -> PublicKeyCredentialUserEntity {
        PublicKeyCredentialUserEntity {
            id: Bytes::empty(alloc),
            name: None,
            display_name: None,
            icon_url: None,
        }
    }

    fn put<S: Source>(&mut self, alloc: Global, number: u8, source: &mut S) -> Result<(), Refusal> {
        match number {
            1 => set(&mut self.id, alloc, source),
            2 => set(&mut self.name, alloc, source),
            3 => set(&mut self.display_name, alloc, source),
            4 => set(&mut self.icon_url, alloc, source),
            _ => Err(Refusal::Refused),
        }
    }

    fn put_members<S: Sink>(&self, alloc: Global, sink: &mut S) -> Result<(), OutOfMemory> {
        sink.put(alloc, "id", &self.id)?;
        sink.put_some(alloc, "icon", &self.icon_url)?;
        sink.put_some(alloc, "name", &self.name)?;
        sink.put_some(alloc, "displayName", &self.display_name)?;
        Ok(())
    }

    #[tactic(auto, using(crate::proofs::Entities::user_law))]
    fn lawful() {}
}
