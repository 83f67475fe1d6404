//! White space at the ends of a text.
ghost use Rattle.std.specs.Prelude.{◌≡◌};
ghost use Rattle.passkey_rewrite.specs.Trimmed.{is_space, trimmed_start, trimmed_end, trimmed, IsCore};

/// Returns the text without the tabs, line feeds, carriage returns and spaces at its ends.
pub fn trim(text: &[u8]) -> &[u8]
    ensures value { result.now ≡ trimmed text.now }
    ensures core { IsCore text.now result.now }
{
    trim_end(trim_start(text))
}

fn is_space(byte: u8) -> bool
    ensures { result ≡ is_space byte }
{
    matches!(byte, b'\t' | b'\n' | b'\r' | b' ')
}

fn trim_start(text: &[u8]) -> &[u8]
    ensures { result.now ≡ trimmed_start text.now }
{
    let mut rest = text;
    while let Some((first, others)) = rest.split_first() {
        if !is_space(*first) {
            break;
        }
        rest = others;
    }
    rest
}

fn trim_end(text: &[u8]) -> &[u8]
    ensures { result.now ≡ trimmed_end text.now }
{
    let mut rest = text;
    while let Some((last, others)) = rest.split_last() {
        if !is_space(*last) {
            break;
        }
        rest = others;
    }
    rest
}
