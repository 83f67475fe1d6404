//! What is done with bytes, whatever they are decoded as.
ghost use Rattle.passkey_rewrite.specs.Definition.{Definition, authenticator, item, message, other};

use passkey_kinds::Message;

/// What is done with bytes: a call for each form that they may have. A dispatch over kinds makes
/// the one of a kind, so that nothing else has to name each kind.
pub trait Visitor {
    /// What is returned.
    type Output;

    /// What bytes may be besides a data item, authenticator data and a message; `()` for nothing.
    type Other;

    /// What holds of the output, by what the bytes are.
    ghost Gives: { Self → Definition Self.Other → Self.Output → Type 0 };

    /// Does it with a data item.
    fn visit_item(self) -> Self::Output
        ensures { Gives self item result };

    /// Does it with authenticator data.
    fn visit_data(self) -> Self::Output
        ensures { Gives self authenticator result };

    /// Does it with a message of this type.
    fn visit_message<M: Message>(self) -> Self::Output
        ensures { Gives self (message M.fields M.tree) result };

    /// Does it with what is none of these.
    fn visit_other(self, what: Self::Other) -> Self::Output
        ensures { Gives self (other what) result };
}
