//! Why a CTAP2 message is refused, and where in its bytes (CTAP 2.1, sections 6 and 8); and what is in
//! messages, COSE keys, authenticator data and other data items.
#![tactic(auto)]

mod along;
mod blame;
mod data_items;
mod descent;
mod description;
mod display;
mod dropping;
mod explanation;

pub use along::{Extent, locate};
pub use blame::{Blame, Reason, Step};
pub use data_items::{describe_data, describe_item, describe_key, parameter_name};
pub use descent::explain_at;
pub use description::{Description, FieldName, describe};
pub use dropping::{DroppedItem, dropped};
pub use explanation::{Explanation, RefusedItem, explain};
