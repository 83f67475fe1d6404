//! Byte strings, texts, lists and maps.
ghost use Rattle.std.specs.Prelude.{◌≡◌, ◌∷◌, ◌++◌, [], IfOk, OnOk};
ghost use Rattle.std.specs.FinMap as fin;

use crate::base::checks::{bytes, text};
use passkey_bytes::{Bytes, List, Map, OutOfMemory, Text};
use std::alloc::Global;
use std::collections::{BTreeMap, HashMap};
use std::process::Abort;

// A caller's clause is about the bytes alone.
fn append_seven(bytes: &mut Bytes) -> Result<(), OutOfMemory>
    ensures { OnOk result (bytes.new ≡ bytes.old ++ 7 ∷ []) }
{
    bytes.as_mut_vec().push(7)?;
    Ok(())
}

#[test]
fn byte_strings_are_copied(rt: HostRuntime) {
    let mut made = bytes(&rt, &[0xfb, 0xff]);
    assert_eq!(rt;
        made.to_base64url(rt.alloc()).expect(&rt, "memory").as_str(),
        "-_8"
    );
    let long = [7u8; 2_000];
    let gathered = Bytes::from_items(rt.alloc(), long.iter().copied()).expect(&rt, "memory");
    assert!(rt; gathered.eq_slice(&long));
    assert!(rt; made.clone().expect(&rt, "memory") == made);
    append_seven(&mut made).expect(&rt, "memory");
    assert_eq!(rt; made.as_slice(), [0xfb, 0xff, 7].as_slice());
}

#[test]
fn texts_are_keys(rt: HostRuntime) {
    let zoe = text(&rt, "Zoë");
    let mut ages: HashMap<Text, u32> = HashMap::new(rt.alloc());
    let inserted: Result<_, _> = ages.insert(text(&rt, "Zoë"), 7);
    assert!(rt; inserted.is_ok());
    assert_eq!(rt; ages.get(&zoe).copied(), Some(7));
}

fn append_eight(list: &mut List<u16>) -> Result<(), OutOfMemory>
    ensures { OnOk result (list.new ≡ list.old ++ 8 ∷ []) }
{
    list.as_mut_vec().push(8)?;
    Ok(())
}

#[test]
fn a_list_of_numbers_is_changed_and_gone_over(rt: HostRuntime) {
    let mut list: List<u16> = List::empty(rt.alloc());
    assert!(rt; list.is_empty());
    append_eight(&mut list).expect(&rt, "memory");
    let mut sum = 0u64;
    for item in &list {
        sum = sum.saturating_add(u64::from(*item));
    }
    for item in list.iter() {
        sum = sum.saturating_add(u64::from(*item));
    }
    assert_eq!(rt; list.len(), 1);
    assert_eq!(rt; list.as_slice(), [8].as_slice());
    let vec: Vec<u16> = list.into();
    for item in List::from(vec) {
        sum = sum.saturating_add(u64::from(item));
    }
    assert_eq!(rt; sum, 3 * 8);
}

// A copy of a list is equal to it if the copies of its items are equal to them.
fn copied_list(list: &List<Bytes>, alloc: Global) -> Result<List<Bytes>, OutOfMemory>
    ensures { IfOk result (λ copy. copy ≡ list.now) }
{
    list.try_clone(alloc)
}

fn one_byte_string(rt: &(impl Abort + AllocGlobal)) -> List<Bytes> {
    let items = vec![in rt.alloc(); bytes(rt, &[1, 2])];
    List::from(items.expect(rt, "memory"))
}

#[test]
fn a_list_of_byte_strings_is_copied(rt: HostRuntime) {
    let list = one_byte_string(&rt);
    assert!(rt; copied_list(&list, rt.alloc()).expect(&rt, "memory") == list);
    assert!(rt; list.clone().expect(&rt, "memory") == list);
    assert!(rt; List::empty(rt.alloc()) != list);
    let mut ages: HashMap<List<Bytes>, u32> = HashMap::new(rt.alloc());
    let inserted: Result<_, _> = ages.insert(one_byte_string(&rt), 1);
    assert!(rt; inserted.is_ok());
    assert_eq!(rt; ages.get(&list).copied(), Some(1));
}

fn two_ages(rt: &(impl Abort + AllocGlobal)) -> Map<Text, u32> {
    let mut ages = Map::empty(rt.alloc());
    ages.insert(text(rt, "Zoë"), 7).expect(rt, "memory");
    ages.insert(text(rt, "Ada"), 36).expect(rt, "memory");
    ages
}

// A caller's clause is about the finite map alone.
fn put_seven(ages: &mut Map<Text, u32>, name: Text) -> Result<(), OutOfMemory>
    ensures { OnOk result (ages.new ≡ fin.insert ages.old name 7) }
{
    ages.insert(name, 7)?;
    Ok(())
}

#[test]
fn a_map_of_texts_is_changed(rt: HostRuntime) {
    let mut ages = two_ages(&rt);
    let ada = text(&rt, "Ada");
    put_seven(&mut ages, text(&rt, "Ada")).expect(&rt, "memory");
    assert_eq!(rt; ages.len(), 2);
    assert_eq!(rt; ages.get(&ada).copied(), Some(7));
    assert!(rt; ages.contains_key(&ada));
    assert_eq!(rt; ages.remove(&ada), Some(7));
    assert_eq!(rt; ages.remove(&ada), None);
    assert!(rt; !ages.is_empty());
    assert!(rt; ages != two_ages(&rt));
}

#[test]
fn a_map_of_texts_is_gone_over(rt: HostRuntime) {
    let ages = two_ages(&rt);
    let mut sum = 0u64;
    for (_name, age) in &ages {
        sum = sum.saturating_add(u64::from(*age));
    }
    for (_name, age) in ages.iter() {
        sum = sum.saturating_add(u64::from(*age));
    }
    let tree: BTreeMap<Text, u32> = ages.into();
    for (_name, age) in Map::from(tree) {
        sum = sum.saturating_add(u64::from(age));
    }
    assert_eq!(rt; sum, 3 * 43);
}
