//! Lists, decoded from arrays.
ghost use Rattle.std.specs.Prelude.{map, List as Items};
ghost use Rattle.passkey_kinds.specs.Words.{list, accepted, pushing, pushing_if};

use crate::collect::{Gather, read_elements, read_whole};
use crate::{Form, FromCbor, Look, OutOfMemory, Refusal, Source, Tolerated, looked};
use passkey_bytes::List;
use passkey_cbor::{Cursor, Value};
use std::alloc::Global;

/// Consecutive elements.
impl<T: FromCbor> Gather for List<T> {
    ghost Value = { Items T.Meaning };

    ghost value = { λ xs. map T.view xs };

    ghost gathering = { pushing T.typed };

    fn add<S: Source>(&mut self, alloc: Global, source: &mut S) -> Result<(), Refusal> {
        let element: T = source.read(alloc)?;
        self.as_mut_vec().push(element)?;
        Ok(())
    }
}

impl<T: FromCbor> FromCbor for List<T> {
    ghost Meaning = { Items T.Meaning };

    ghost view = { λ xs. map T.view xs };

    ghost typed = { list T.typed };

    #[tactic(auto, using(crate::proofs::Lists::arrays))]
    fn from_value(alloc: Global, value: &Value) -> Result<List<T>, Refusal> {
        match value {
            Value::Array(elements) => read_elements(alloc, List::empty(alloc), elements),
            _ => Err(Refusal::Refused),
        }
    }

    fn read(alloc: Global, cursor: &mut Cursor<'_>) -> Result<List<T>, Refusal> {
        read_whole(alloc, List::empty(alloc), cursor)
    }

    fn look(alloc: Global, way: &[u8], value: &Value) -> Result<Look, OutOfMemory> {
        match way.split_first() {
            None => looked(<List<T>>::from_value(alloc, value), Form::List),
            Some((_, rest)) => T::look(alloc, rest, value),
        }
    }
}

/// A list in which elements that can't be decoded are left out; the others keep their order.
/// Running out of memory is still an error.
#[derive(Debug, Drop)]
pub struct TolerantList<T>(pub List<T>);

/// Consecutive elements, without those that aren't accepted.
impl<T: FromCbor> Gather for TolerantList<T> {
    ghost Value = { Items T.Meaning };

    ghost value = { λ l. map T.view l.0 };

    ghost gathering = { pushing_if T.typed };

    fn add<S: Source>(&mut self, alloc: Global, source: &mut S) -> Result<(), Refusal> {
        let element: Tolerated<T> = source.read(alloc)?;
        match element.0 {
            Some(accepted) => self.0.as_mut_vec().push(accepted)?,
            None => {}
        }
        Ok(())
    }
}

impl<T: FromCbor> FromCbor for TolerantList<T> {
    ghost Meaning = { Items T.Meaning };

    ghost view = { λ l. map T.view l.0 };

    ghost typed = { accepted T.typed };

    #[tactic(auto, using(crate::proofs::Lists::arrays))]
    fn from_value(alloc: Global, value: &Value) -> Result<TolerantList<T>, Refusal> {
        match value {
            Value::Array(elements) => {
                read_elements(alloc, TolerantList(List::empty(alloc)), elements)
            }
            _ => Err(Refusal::Refused),
        }
    }

    fn read(alloc: Global, cursor: &mut Cursor<'_>) -> Result<TolerantList<T>, Refusal> {
        read_whole(alloc, TolerantList(List::empty(alloc)), cursor)
    }

    fn look(alloc: Global, way: &[u8], value: &Value) -> Result<Look, OutOfMemory> {
        match way.split_first() {
            None => looked(<TolerantList<T>>::from_value(alloc, value), Form::List),
            Some((_, rest)) => <Tolerated<T>>::look(alloc, rest, value),
        }
    }
}
