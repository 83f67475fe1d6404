//! Laws about attestation statements, each the contract of a function that does nothing.
ghost use Rattle.passkey_attestation.specs.Statement.{DecodedIsCoherent, StatementsAreReadBack};

/// What `AttestationStatement::to_value` returns for a coherent statement decodes, by the
/// statement's format, to the same statement.
#[tactic(auto, using(crate::proofs::Back::statement_back))]
pub fn written_statement_is_read_back()
    ensures { StatementsAreReadBack }
{}

/// A decoded statement is coherent, and `format` returns the identifier that it was decoded by.
pub fn decoded_statement_is_coherent()
    ensures { DecodedIsCoherent }
{}
