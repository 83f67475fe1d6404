//! The document of related origins, which lists the origins that may use a relying party id.
ghost use Rattle.std.specs.Prelude.{◌≡◌, IfOk, Some, codes};
ghost use Rattle.passkey_json.specs.Kind.{list};
ghost use Rattle.passkey_json.specs.Members.{in_object, decoded_or_fault};
ghost use Rattle.passkey_well_known.specs.UrlKind.{url};
ghost use Rattle.passkey_well_known.specs.WellKnown.{GivesUrls, Standard, origins_in, urls_json, well_known_in, well_known_json};
ghost use Rattle.serde_json.specs.View.{view};

use crate::url_list::{StandardParser, UrlFault, UrlParser, read_urls};
use passkey_json::{JsonFault, holds_float};
use passkey_memory::OutOfMemory;
use serde_json::{Map, Value};
use std::alloc::Global;
use url::Url;

/// The origins that may use a relying party id: the document at `/.well-known/webauthn` (WebAuthn
/// Level 3, section 5.11).
#[derive(Debug, Drop)]
pub struct WellKnown {
    /// The origins, in the document's order.
    pub origins: Vec<Url>,
}

/// Decodes the URLs of the member `origins`.
fn origins_of<P: UrlParser>(alloc: Global, value: &Value) -> Result<Vec<Url>, JsonFault>
    ensures { GivesUrls P.Returns (Some (view value.now)) (λ urls. urls.items)
        (decoded_or_fault (list url) (codes "origins") (view value.now)) result }
{
    match read_urls::<P>(alloc, value) {
        Ok(urls) => Ok(urls),
        Err(UrlFault::OutOfMemory) => Err(JsonFault::OutOfMemory),
        Err(UrlFault::Refused) => {
            if holds_float(value) {
                Err(JsonFault::Float("origins"))
            } else {
                Err(JsonFault::Refused("origins"))
            }
        }
    }
}

/// Decodes the document from a JSON value, as `WellKnown::from_json` does.
#[tactic(auto, unfolding(crate::specs::WellKnown::well_known_in, passkey_json::specs::Members::required))]
fn read_document<P: UrlParser>(alloc: Global, value: &Value) -> Result<WellKnown, JsonFault>
    ensures { GivesUrls P.Returns (origins_in (view value.now)) (λ document. document.origins.items)
        (in_object well_known_in (view value.now)) result }
{
    if !value.is_object() {
        return Err(JsonFault::NotAnObject);
    }
    let Some(origins) = value.get("origins") else {
        return Err(JsonFault::Missing("origins"));
    };
    match origins_of::<P>(alloc, origins) {
        Ok(origins) => Ok(WellKnown { origins }),
        Err(fault) => Err(fault),
    }
}

impl WellKnown {
    /// Decodes the document from a JSON value: an object whose member `origins` is a list of texts
    /// that the URL Standard parses as URLs. Skips other members. Returns `NotAnObject` if the
    /// value isn't an object, and `Missing` if the member is absent. If the member isn't such a
    /// list, returns `Float` if it contains a float, and else `Refused`. Also returns `Refused` if
    /// one of its texts has 2^24 bytes or more and the crate `url` says that its URL is too long,
    /// which URLs of 4 GB or more are. Returns `OutOfMemory` if an allocation fails, which can only
    /// happen for a list that begins with a text.
    pub fn from_json(alloc: Global, value: &Value) -> Result<WellKnown, JsonFault>
        ensures { GivesUrls Standard (origins_in (view value.now)) (λ document. document.origins.items)
            (in_object well_known_in (view value.now)) result }
    {
        read_document::<StandardParser>(alloc, value)
    }

    /// Encodes the document: an object whose member `origins` is the list of the URLs. Returns
    /// `OutOfMemory` if an allocation fails.
    pub fn to_json(&self, alloc: Global) -> Result<Value, OutOfMemory>
        ensures { IfOk result (λ v. view v ≡ well_known_json self.now.origins.items) }
    {
        let mut document = Map::new(alloc);
        document.insert(
            String::from_str(alloc, "origins")?,
            texts_of(alloc, self.origins.as_slice())?,
        )?;
        Ok(Value::Object(document))
    }
}

/// Returns the list of the URLs as texts.
fn texts_of(alloc: Global, urls: &[Url]) -> Result<Value, OutOfMemory>
    ensures { IfOk result (λ v. view v ≡ urls_json urls.now) }
{
    let mut texts = Vec::new(alloc);
    for url in urls {
        texts.push(Value::try_from_str(alloc, url.as_str())?)?;
    }
    Ok(Value::Array(texts))
}
