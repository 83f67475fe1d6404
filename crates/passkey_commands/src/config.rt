//! The request of authenticatorConfig (CTAP 2.1, section 6.11).
mod authenticated;
mod min_pin_length_parameters;
mod request;
mod sub_command;
mod vendor_parameters;

pub use min_pin_length_parameters::MinPinLengthParameters;
pub use request::Request;
pub use sub_command::SubCommand;
pub use vendor_parameters::VendorParameters;
