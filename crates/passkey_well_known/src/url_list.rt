//! Lists of URLs, decoded from JSON values.
ghost use Rattle.std.specs.Prelude.{◌≡◌, ℕ, List, None};
ghost use Rattle.passkey_well_known.specs.UrlKind.{AnswersUrl, AnswersUrls};
ghost use Rattle.passkey_well_known.specs.declared.url_list.UrlFault.TheVariants.{OutOfMemory as NoMemory};
ghost use Rattle.serde_json.specs.View.{view};
ghost use Rattle.url.specs.Parser.{Gives, Parsed, parse_url};
ghost use Rattle.url.specs.Parts.{Parts};

use serde_json::Value;
use std::alloc::{AllocFailed, Global};
use url::{ParseError, ParseResult, Url};

/// Parses texts as URLs. What decodes documents is generic over it, so that contracts can say which
/// of the parser's errors become which fault, and that no other text is refused.
pub(crate) trait UrlParser {
    /// What parsing a text may return.
    ghost Returns: { List ℕ → Parsed Parts → Type 0 };

    fn parse(alloc: Global, text: &str) -> ParseResult<Url>
        ensures returned { Returns text.now result }
        ensures standard { Gives result (parse_url None text.now) };
}

/// The parser of the crate `url`.
pub(crate) struct StandardParser;

impl UrlParser for StandardParser {
    ghost Returns = { λ text parsed. Gives parsed (parse_url None text) };

    fn parse(alloc: Global, text: &str) -> ParseResult<Url> {
        Url::parse(alloc, text)
    }
}

/// The least length, in bytes, of a text whose URL may be too long for the parser. The crate `url`
/// supports no URL of 4 GB or more. Escapes make a byte three, and Punycode makes a character of a
/// host several for each one that it is mapped to, but never 256 for each byte.
pub(crate) const LONG_TEXT: usize = 1 << 24;

/// Why no URLs were decoded from a JSON value.
pub(crate) enum UrlFault {
    /// The value isn't a list of texts that are URLs, or the URL of one of them is too long for the
    /// parser.
    Refused,
    /// An allocation failed; or the parser says that the URL of a text shorter than `LONG_TEXT` is
    /// too long, which its contract allows, and its code never does.
    OutOfMemory,
}

impl<T: Drop> From<AllocFailed<T>> for UrlFault {
    ghost from_gives = { λ _ e. e ≡ NoMemory };

    fn from(_error: AllocFailed<T>) -> UrlFault {
        UrlFault::OutOfMemory
    }
}

/// Decodes a URL from a text.
fn read_url<P: UrlParser>(alloc: Global, value: &Value) -> Result<Url, UrlFault>
    ensures { AnswersUrl P.Returns (view value.now) result }
{
    let Value::String(text) = value else {
        return Err(UrlFault::Refused);
    };
    match P::parse(alloc, text.as_str()) {
        Ok(url) => Ok(url),
        Err(ParseError::OutOfMemory) => Err(UrlFault::OutOfMemory),
        Err(ParseError::Overflow) if text.len() < LONG_TEXT => Err(UrlFault::OutOfMemory),
        Err(_) => Err(UrlFault::Refused),
    }
}

/// Decodes a list of URLs.
pub(crate) fn read_urls<P: UrlParser>(alloc: Global, value: &Value) -> Result<Vec<Url>, UrlFault>
    ensures { AnswersUrls P.Returns (view value.now) result }
{
    let Value::Array(texts) = value else {
        return Err(UrlFault::Refused);
    };
    let mut urls = Vec::new(alloc);
    for text in texts {
        urls.push(read_url::<P>(alloc, text)?)?;
    }
    Ok(urls)
}
