//! What is made of the rows of a table of kinds: each has a name, a value and a text.

/// The table of the values' names.
macro_rules! names {
    ($(($name:literal, $value:path, $text:literal),)*) => {
        &[$(($name, $value)),*]
    };
}

/// The text of a value.
macro_rules! source {
    ($kind:expr, $(($name:literal, $value:path, $text:literal),)*) => {
        match $kind {
            $($value => $text,)*
        }
    };
}

pub(crate) use names;
pub(crate) use source;
