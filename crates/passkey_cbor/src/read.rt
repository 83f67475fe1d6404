//! Decoding data items to values.
ghost use Rattle.std.specs.Prelude.{◌≡◌, ◌<◌, ◌≤◌, ◌⊎◌, ℕ, [], ◌∷◌, ◌++◌, length, true, unwrap_or, Err, IfOk, OnErr, OnOk};
ghost use Rattle.std.specs.Option.{IsSomeAnd};
ghost use Rattle.passkey_cbor.specs.Item as item;
ghost use Rattle.passkey_cbor.specs.CursorState.{ahead, IsInside, MovesForward};
ghost use Rattle.passkey_cbor.specs.Reading.{start, is_allowed, piece_at, string_at, pair_by, simple_item, item_within, list_at};
ghost use Rattle.passkey_cbor.specs.Steps.{IsHead, CountsChunks};
ghost use Rattle.passkey_cbor.specs.Building.{Makes, an_item, a_counted_item, a_pair, each_of, some_bytes, a_text};
ghost use Rattle.passkey_cbor.specs.Building.{built, byte_string_at, text_string_at, array_within, map_within, tagged_within};
ghost use Rattle.passkey_cbor.specs.View.{item_of};
ghost use Rattle.passkey_cbor.specs.declared.value.Value.{Null};
ghost use Rattle.passkey_cbor.specs.Reads.{ReadsLeadingItem};
ghost use Rattle.passkey_cbor.specs.Valued.{ReadsValue};
ghost use Rattle.passkey_cbor.specs.EncodedAt.{IsEncodedAt, Values, ValuesAhead};
ghost use Rattle.passkey_cbor.specs.HeadCount.{content_len, CountsHeads};
ghost use Rattle.passkey_cbor.specs.Item.{Item};

use crate::count::Count;
use crate::cursor::{Cursor, Next};
use crate::depth::MAX_DEPTH;
use crate::error::CborError;
use crate::head::Head;
use crate::integer::Integer;
use crate::simple::Simple;
use crate::value::Value;
use passkey_memory::OutOfMemory;
use std::alloc::Global;
use std::mem::{forget, replace};

impl Value {
    /// Decodes the leading data item, and returns it with its length in bytes; bytes after it are
    /// ignored. `DecodeFailed` if the bytes don't begin with a well-formed data item of at most 256
    /// levels. `OutOfMemory` if an allocation fails, which can happen only if they do, and the data
    /// item is a tag, a text string, or a byte string, array or map that isn't empty. No memory is
    /// reserved for the length in a head before its content is present. (RFC 8949, section 3.)
    pub fn from_slice(alloc: Global, bytes: &[u8]) -> Result<(Value, usize), CborError>
        ensures { ReadsLeadingItem bytes.now result }
    {
        let mut cursor = Cursor::new(bytes);
        let value = cursor.value(alloc)?;
        Ok((value, cursor.place()))
    }
}

// An empty list with room for this many elements, if the number is known, but for no more than `most`.
fn room_for<T>(alloc: Global, len: Option<u64>, most: usize) -> Result<Vec<T>, OutOfMemory>
    ensures empty { IfOk result (λ list. list.items ≡ []) }
    ensures some { OnErr result (IsSomeAnd len (λ n. 0 < n)) }
{
    match len {
        Some(len) => Ok(Vec::with_capacity(alloc, most.min(len as usize))?),
        None => Ok(Vec::new(alloc)),
    }
}

// Appends a pair. It isn't inlined, since each level of nesting would need more of the stack.
#[inline(never)]
fn append_pair(pairs: &mut Vec<(Value, Value)>, key: Value, value: Value) -> Result<(), OutOfMemory>
    ensures { OnOk result (pairs.new.items ≡ pairs.old.items ++ (key, value) ∷ []) }
{
    Ok(pairs.push((key, value))?)
}

// Puts a value in a place that is null, which needs no drop.
#[inline(always)]
fn put(out: &mut Value, value: Value)
    requires { out.old ≡ Null }
    ensures { out.new ≡ value }
{
    forget(replace(out, value));
}

/// Returns a copy of the bytes, in a list without room for more.
pub(crate) fn copied(alloc: Global, bytes: &[u8]) -> Result<Vec<u8>, OutOfMemory>
    ensures copy { IfOk result (λ v. v.items ≡ bytes.now) }
    ensures some { OnErr result (0 < length bytes.now) }
{
    let mut copy = Vec::with_capacity(alloc, bytes.len())?;
    copy.extend_from_slice(bytes)?;
    Ok(copy)
}

impl<'a> Cursor<'a> {
    /// Decodes the data item at the cursor and moves past it. `DecodeFailed` if no well-formed data
    /// item of at most 256 levels follows. `OutOfMemory` if an allocation fails, which can happen
    /// only if one follows, and it is a tag, a text string, or a byte string, array or map that
    /// isn't empty. On either error the cursor doesn't move. Each data item that is built is
    /// counted in `Count::nodes`. (RFC 8949, section 3.)
    pub fn value(&mut self, alloc: Global) -> Result<Value, CborError>
        ensures front { ReadsValue self.old self.new result }

        // If a data item is encoded at the cursor, its value is returned.
        ensures values { (x : Item) (to : ℕ) → IsEncodedAt x self.old.bytes self.old.place to
            → Values x to self.old self.new result }

        // The counts never decrease.
        ensures moves { MovesForward self.old self.new }
    {
        let place = self.place;
        if !self.skip() {
            return Err(CborError::DecodeFailed);
        }
        self.go_back(place);
        self.value_ahead(alloc)
    }

    /// Decodes the data item at the cursor as `value` does, but in one walk, where it is known to be
    /// well-formed and of at most 256 levels: because it was skipped before, by itself or as part of
    /// another one. Each of its heads is counted once, and each data item that is built is counted
    /// in `Count::nodes`. `OutOfMemory` if an allocation fails, which can happen only if the data
    /// item is a tag, a text string, or a byte string, array or map that isn't empty; the cursor
    /// doesn't move then. If no such data item follows, the result is an error and the cursor
    /// doesn't move, or a value for whole heads that it moved past. No list reserves memory for more
    /// elements than bytes are left. (RFC 8949, section 3.)
    pub fn value_ahead(&mut self, alloc: Global) -> Result<Value, CborError>
        // If a data item is encoded at the cursor, its value is returned.
        ensures values { (x : Item) (to : ℕ) → IsEncodedAt x self.old.bytes self.old.place to
            → ValuesAhead x to self.old self.new result }

        // Whatever the bytes are: after a success the cursor moved on by whole heads, and counted
        // each of them; after an error it is where it was; and the counts never decrease.
        ensures moved { OnOk result (self.old.place < self.new.place) }
        ensures counts { OnOk result (CountsHeads self.old self.new) }
        ensures stays { OnErr result (self.new.place ≡ self.old.place) }
        ensures moves { MovesForward self.old self.new }
    {
        let place = self.place;
        let mut value = Value::Null;
        match self.build_item(alloc, MAX_DEPTH, &mut value) {
            Ok(()) => Ok(value),
            Err(error) => {
                self.go_back(place);
                Err(error)
            }
        }
    }

    // Builds the data item at the cursor, of at most `levels` levels, in `out`. An item is built in a place
    // that its caller lends, which is null: handing it on takes no copy, and little of the stack.
    #[cycle(build)]
    #[inline(always)]
    fn build_item(&mut self, alloc: Global, levels: usize, out: &mut Value) -> Result<(), CborError>
        requires inside { IsInside self.old }
        requires blank { out.old ≡ Null }
        ensures made { Makes an_item 0 (start (item_within levels) (ahead self.old)) self.old self.new
            (built out.new result) }
        ensures moved { OnOk result (self.old.place < self.new.place) }
    {
        match self.decode() {
            None => Err(CborError::DecodeFailed),
            Some(head) => self.build_after(alloc, head, levels, out),
        }
    }

    // Builds a data item whose head is decoded already, and counts it.
    #[cycle(build)]
    #[inline(always)]
    fn build_after(
        &mut self,
        alloc: Global,
        head: Head,
        levels: usize,
        out: &mut Value,
    ) -> Result<(), CborError>
        requires inside { IsInside self.old }
        requires head { IsHead head }
        requires blank { out.old ≡ Null }
        ensures { Makes an_item (content_len head) (item_within levels head (ahead self.old)) self.old self.new
            (built out.new result) }
    {
        self.add(Count { heads: 0, nodes: 1 });
        self.build_inside(alloc, head, levels, out)
    }

    // Builds a data item whose head is decoded and which is counted already.
    #[cycle(build)]
    #[inline(always)]
    fn build_inside(
        &mut self,
        alloc: Global,
        head: Head,
        levels: usize,
        out: &mut Value,
    ) -> Result<(), CborError>
        requires inside { IsInside self.old }
        requires head { IsHead head }
        requires blank { out.old ≡ Null }
        ensures { Makes a_counted_item (content_len head) (item_within levels head (ahead self.old)) self.old self.new
            (built out.new result) }
    {
        match head {
            Head::Unsigned(n) => {
                put(out, Value::Integer(Integer::unsigned(n)));
                Ok(())
            }
            Head::Negative(n) => {
                put(out, Value::Integer(Integer::negative(n)));
                Ok(())
            }
            Head::Bytes(len) => self.build_byte_string(alloc, len, out),
            Head::Text(len) => self.build_text_string(alloc, len, out),
            Head::Simple(n) => {
                put(out, simple_value(n));
                Ok(())
            }
            Head::Float(float) => {
                put(out, Value::Float(float));
                Ok(())
            }
            Head::Break => Err(CborError::DecodeFailed),
            Head::Array(len) => self.build_array(alloc, len, levels, out),
            Head::Map(len) => self.build_map(alloc, len, levels, out),
            Head::Tag(tag) => self.build_tagged(alloc, tag, levels, out),
        }
    }

    // Builds a byte string whose head is decoded and which is counted already.
    #[inline(never)]
    fn build_byte_string(
        &mut self,
        alloc: Global,
        len: Option<u64>,
        out: &mut Value,
    ) -> Result<(), CborError>
        requires inside { IsInside self.old }
        requires blank { out.old ≡ Null }
        ensures { Makes a_counted_item (unwrap_or len 0) (byte_string_at len (ahead self.old)) self.old self.new
            (built out.new result) }
    {
        put(out, Value::Bytes(self.build_bytes(alloc, false, len)?));
        Ok(())
    }

    // Builds a text string whose head is decoded and which is counted already.
    #[inline(never)]
    fn build_text_string(
        &mut self,
        alloc: Global,
        len: Option<u64>,
        out: &mut Value,
    ) -> Result<(), CborError>
        requires inside { IsInside self.old }
        requires blank { out.old ≡ Null }
        ensures { Makes a_counted_item (unwrap_or len 0) (text_string_at len (ahead self.old)) self.old self.new
            (built out.new result) }
    {
        put(out, Value::Text(self.build_text(alloc, len)?));
        Ok(())
    }

    // Builds an array whose head is decoded and which is counted already.
    #[cycle(build)]
    #[inline(never)]
    fn build_array(
        &mut self,
        alloc: Global,
        len: Option<u64>,
        levels: usize,
        out: &mut Value,
    ) -> Result<(), CborError>
        requires inside { IsInside self.old }
        requires blank { out.old ≡ Null }
        ensures { Makes a_counted_item 0 (array_within levels len (ahead self.old)) self.old self.new
            (built out.new result) }
    {
        if levels == 0 {
            return Err(CborError::DecodeFailed);
        }
        let mut items = room_for(alloc, len, self.bytes.len() - self.place)?;
        self.build_items(alloc, len, levels - 1, &mut items)?;
        put(out, Value::Array(items));
        Ok(())
    }

    // Builds a map whose head is decoded and which is counted already.
    #[cycle(build)]
    #[inline(never)]
    fn build_map(
        &mut self,
        alloc: Global,
        len: Option<u64>,
        levels: usize,
        out: &mut Value,
    ) -> Result<(), CborError>
        requires inside { IsInside self.old }
        requires blank { out.old ≡ Null }
        ensures { Makes a_counted_item 0 (map_within levels len (ahead self.old)) self.old self.new
            (built out.new result) }
    {
        if levels == 0 {
            return Err(CborError::DecodeFailed);
        }
        let mut pairs = room_for(alloc, len, self.bytes.len() - self.place)?;
        self.build_pairs(alloc, len, levels - 1, &mut pairs)?;
        put(out, Value::Map(pairs));
        Ok(())
    }

    // Builds a tag and its content, where the tag's head is decoded and it is counted already.
    #[cycle(build)]
    #[inline(never)]
    fn build_tagged(
        &mut self,
        alloc: Global,
        tag: u64,
        levels: usize,
        out: &mut Value,
    ) -> Result<(), CborError>
        requires inside { IsInside self.old }
        requires blank { out.old ≡ Null }
        ensures { Makes a_counted_item 0 (tagged_within levels tag (ahead self.old)) self.old self.new
            (built out.new result) }
    {
        if levels == 0 {
            return Err(CborError::DecodeFailed);
        }
        let mut inner = Value::Null;
        self.build_item(alloc, levels - 1, &mut inner)?;
        put(out, Value::Tag(tag, Box::new(alloc, inner)?));
        Ok(())
    }

    // Builds the items of an array whose head is decoded already.
    #[cycle(build)]
    fn build_items(
        &mut self,
        alloc: Global,
        len: Option<u64>,
        levels: usize,
        items: &mut Vec<Value>,
    ) -> Result<(), CborError>
        requires inside { IsInside self.old }
        requires empty { items.old.items ≡ [] }
        ensures { Makes (each_of an_item) 0 (list_at (item_within levels) len (ahead self.old)) self.old self.new
            (built items.new result) }
    {
        let mut left = len;
        loop {
            match self.step(&mut left) {
                Next::Malformed => return Err(CborError::DecodeFailed),
                Next::End => return Ok(()),
                Next::Element(head) => {
                    let mut item = Value::Null;
                    self.build_after(alloc, head, levels, &mut item)?;
                    items.push(item)?;
                }
            }
        }
    }

    // Builds the pairs of a map whose head is decoded already.
    #[cycle(build)]
    fn build_pairs(
        &mut self,
        alloc: Global,
        len: Option<u64>,
        levels: usize,
        pairs: &mut Vec<(Value, Value)>,
    ) -> Result<(), CborError>
        requires inside { IsInside self.old }
        requires empty { pairs.old.items ≡ [] }
        ensures { Makes (each_of a_pair) 0 (list_at (pair_by (item_within levels)) len (ahead self.old)) self.old
            self.new (built pairs.new result) }
    {
        let mut left = len;
        loop {
            match self.step(&mut left) {
                Next::Malformed => return Err(CborError::DecodeFailed),
                Next::End => return Ok(()),
                Next::Element(head) => {
                    let mut key = Value::Null;
                    let mut value = Value::Null;
                    self.build_pair(alloc, head, levels, &mut key, &mut value)?;
                    append_pair(pairs, key, value)?;
                }
            }
        }
    }

    // Builds a pair, where the key's head is decoded already.
    #[cycle(build)]
    fn build_pair(
        &mut self,
        alloc: Global,
        head: Head,
        levels: usize,
        key: &mut Value,
        value: &mut Value,
    ) -> Result<(), CborError>
        requires inside { IsInside self.old }
        requires head { IsHead head }
        requires blank_key { key.old ≡ Null }
        requires blank_value { value.old ≡ Null }
        ensures { Makes a_pair (content_len head) (pair_by (item_within levels) head (ahead self.old)) self.old
            self.new (built (key.new, value.new) result) }
    {
        self.build_after(alloc, head, levels, key)?;
        self.build_item(alloc, levels, value)?;
        Ok(())
    }

    // Builds a text whose head is decoded already. Its bytes are UTF-8, since each piece is.
    fn build_text(&mut self, alloc: Global, len: Option<u64>) -> Result<String, CborError>
        requires { IsInside self.old }
        ensures { Makes a_text (unwrap_or len 0) (string_at true len (ahead self.old)) self.old self.new result }
    {
        let bytes = self.build_bytes(alloc, true, len)?;
        // SAFETY: each piece was found to be UTF-8, and so are all of them together.
        Ok(unsafe { String::from_utf8_unchecked(bytes) })
    }

    // Builds the bytes of a string whose head is decoded already.
    fn build_bytes(
        &mut self,
        alloc: Global,
        is_text: bool,
        len: Option<u64>,
    ) -> Result<Vec<u8>, CborError>
        requires { IsInside self.old }
        ensures made { Makes some_bytes (unwrap_or len 0) (string_at is_text len (ahead self.old)) self.old self.new
            result }
        ensures allowed_text { IfOk result (λ v. is_allowed is_text v.items ≡ true) }
    {
        match len {
            Some(len) => self.build_piece(alloc, is_text, len),
            None => self.build_chunks(alloc, is_text),
        }
    }

    // Builds the bytes of a string of definite length.
    fn build_piece(&mut self, alloc: Global, is_text: bool, len: u64) -> Result<Vec<u8>, CborError>
        requires { IsInside self.old }
        ensures made { Makes some_bytes len (piece_at is_text len (ahead self.old)) self.old self.new result }
        ensures allowed_text { IfOk result (λ v. is_allowed is_text v.items ≡ true) }
    {
        match self.piece(is_text, len) {
            None => Err(CborError::DecodeFailed),
            Some(piece) => Ok(copied(alloc, piece)?),
        }
    }

    /// Builds the bytes of a string in chunks, which are rare.
    #[inline(never)]
    pub(crate) fn build_chunks(
        &mut self,
        alloc: Global,
        is_text: bool,
    ) -> Result<Vec<u8>, CborError>
        requires { IsInside self.old }
        ensures made { Makes some_bytes 0 (string_at is_text None (ahead self.old)) self.old self.new result }
        ensures allowed_text { IfOk result (λ v. is_allowed is_text v.items ≡ true) }
        ensures counted { CountsChunks is_text self.old self.new result }
    {
        let mut bytes = Vec::new(alloc);
        let mut left = None;
        loop {
            match self.step(&mut left) {
                Next::Malformed => return Err(CborError::DecodeFailed),
                Next::End => return Ok(bytes),
                Next::Element(head) => match self.chunk(is_text, head) {
                    None => return Err(CborError::DecodeFailed),
                    Some(piece) => bytes.extend_from_slice(piece)?,
                },
            }
        }
    }
}

// The value for the head of a simple value.
fn simple_value(n: u8) -> Value
    requires { (n < 24) ⊎ (32 ≤ n) }
    ensures { item_of result ≡ simple_item n }
{
    match n {
        20 => Value::Bool(false),
        21 => Value::Bool(true),
        22 | 23 => Value::Null,
        _ => Value::Simple(Simple::of(n)),
    }
}
