//! Why a message, or authenticator data, are refused, and where in their bytes; what is in a message, by
//! the names of its members; what it leaves out; where it isn't in CTAP2's canonical form.
pub use passkey_explain::{
    Blame, Description, DroppedItem, Explanation, Extent, FieldName, Reason, RefusedItem, Step,
    describe, dropped, explain, locate,
};
pub use passkey_explain_data::{DataPart, DataReason, DataRefusal, explain_data};
pub use passkey_malformed::{
    CTAP2_DEPTH, Demands, Malformed, NotCanonical, Rule, Why, malformed, not_canonical, unmet,
};
