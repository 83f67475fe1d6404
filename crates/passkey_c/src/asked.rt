//! What is asked of an input beside that its kind accepts it.
ghost use Rattle.std.specs.Prelude.{◌≡◌, ◌≤◌, IfSome, MatchOption, length};
ghost use Rattle.passkey_c.specs.Asked.{Admits, IsUnmetIn, MeetsAsked, demands_in, is_item, is_item_form, kind_in};
ghost use Rattle.passkey_catalogue.specs.Catalogue.{definition};

use crate::status::Denial;
use passkey_catalogue::{Form, Kind, visit};
use passkey_kinds::Message;
use passkey_malformed::{CTAP2_DEPTH, Demands, NotCanonical, Rule, unmet};
use passkey_rewrite::{RunFault, Visitor};

/// Returns the kind with the number in the first byte, if the flags above it are known.
pub(crate) fn kind_in(number: u32) -> Option<Kind>
    ensures { result ≡ kind_in number }
{
    if number < 2048 {
        Kind::from_number((number % 256) as usize)
    } else {
        None
    }
}

/// Returns what the flags above the first byte ask for.
pub(crate) fn demands_in(number: u32) -> Option<Demands>
    ensures { result ≡ demands_in number }
{
    if number < 256 {
        return None;
    }
    let levels = if number / 512 % 2 == 1 {
        CTAP2_DEPTH
    } else {
        256
    };
    Some(Demands {
        canonical: number / 256 % 2 == 1,
        levels,
        whole: number / 1024 % 2 == 1,
    })
}

fn is_item_form(form: Form) -> bool
    ensures { result ≡ is_item_form form }
{
    match form {
        Form::Key | Form::Statement(_) => true,
        Form::CertInfo | Form::PubArea | Form::Json(_) => false,
    }
}

/// Whether an input begins with one data item.
#[derive(Drop)]
struct Looking;

impl Visitor for Looking {
    type Output = bool;

    type Other = Form;

    ghost Gives = { λ v d result. result ≡ is_item d };

    fn visit_item(self) -> bool {
        true
    }

    fn visit_data(self) -> bool {
        false
    }

    fn visit_message<M: Message>(self) -> bool {
        true
    }

    fn visit_other(self, what: Form) -> bool {
        is_item_form(what)
    }
}

/// Returns whether an input that this kind accepts begins with one data item.
pub(crate) fn is_item(kind: Kind) -> bool
    ensures { result ≡ is_item (definition kind) }
{
    visit(kind, Looking)
}

/// Returns where an input that is accepted, and of which so many bytes were decoded, isn't as is asked.
pub(crate) fn unmet_in(
    demands: Option<Demands>,
    is_one: bool,
    input: &[u8],
    read: usize,
) -> Option<NotCanonical>
    ensures met { MatchOption result (MeetsAsked demands is_one input.now read)
        (IsUnmetIn demands is_one input.now read) }
    ensures within { IfSome result (λ found. found.offset ≤ length input.now) }
{
    let Some(demands) = demands else {
        return None;
    };
    if is_one {
        unmet(input, demands)
    } else if demands.whole && read < input.len() {
        Some(NotCanonical {
            offset: read,
            rule: Rule::NothingAfter,
        })
    } else {
        None
    }
}

/// Returns what was made of an input, and of how many of its bytes, unless it isn't as is asked.
pub(crate) fn admitted(
    demands: Option<Demands>,
    is_one: bool,
    input: &[u8],
    made: Result<(Vec<u8>, usize), RunFault>,
) -> Result<(Vec<u8>, usize), Denial>
    ensures { Admits (λ v. (v.0.items, v.1)) demands is_one input.now made result }
{
    let (bytes, read) = match made {
        Ok(made) => made,
        Err(fault) => return Err(Denial::Fault(fault)),
    };
    match unmet_in(demands, is_one, input, read) {
        None => Ok((bytes, read)),
        Some(found) => Err(Denial::NotCanonical(found.rule)),
    }
}
