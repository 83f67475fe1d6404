//! Laws about messages. Each is the contract of a function that does nothing.
pub use passkey_ctap2::get_assertion::laws::{
    get_response_auth_data_are_lent, written_get_request_is_canonical,
    written_get_request_is_read_back, written_get_response_is_canonical,
    written_get_response_is_read_back,
};
pub use passkey_ctap2::get_info::laws::{
    written_get_info_is_canonical, written_get_info_is_read_back,
};
pub use passkey_ctap2::make_credential::laws::{
    make_response_auth_data_are_lent, written_attestation_is_read_back,
    written_make_request_is_canonical, written_make_request_is_read_back,
    written_make_response_is_canonical, written_make_response_is_read_back,
};
pub use passkey_extensions::laws::{
    written_hmac_input_is_canonical, written_hmac_input_is_read_back,
};
pub use passkey_kinds::laws::{
    alike_items_differ_in_length, reading_knows_items, reading_knows_maps,
    refused_element_is_passed_over, same_answers_read_alike,
    unknown_member_changes_the_length_alone, unknown_member_is_passed_over, written_keys_ascend,
    written_message_is_canonical, written_message_is_read_back,
};
