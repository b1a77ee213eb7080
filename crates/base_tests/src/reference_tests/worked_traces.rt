//! Worked traces, line by line as calls of a store.
use model::Kind;
use reference::{Config, Refusal, Store};
use std::alloc::Global;
use std::process::Abort;
use std::test::Fail;

fn config_of(block_words: u64, mutators: u64, nursery_blocks: u64, generations: u64) -> Config {
    Config {
        block_words,
        blocks: 4096,
        mutators,
        nursery_blocks,
        generations,
        steps: 2,
    }
}

/// Makes an object of mutator 0, and lets go of what is printed.
fn add(
    alloc: Global,
    config: &Config,
    store: &mut Store,
    name: &[u8],
    pointers: u64,
    words: u64,
) -> Result<(), Refusal> {
    let _line = store.add(alloc, config, name, 0, pointers, words)?;
    Ok(())
}

/// Asserts the line of a collection.
fn assert_collected(
    rt: &impl Abort,
    alloc: Global,
    config: &Config,
    store: &mut Store,
    generation: u64,
    line: &str,
) -> Result<(), Refusal> {
    let printed = store.collect_to(alloc, config, generation)?;
    assert_eq!(rt; printed.as_str(), line);
    Ok(())
}

/// Asserts the lines of the census.
fn assert_census(
    rt: &impl Abort,
    alloc: Global,
    config: &Config,
    store: &Store,
    census: &str,
) -> Result<(), Fail> {
    assert_eq!(rt; store.census(alloc, config)?.as_str(), census);
    Ok(())
}

/// An object leads to another, which has no name then, and a third one is dropped.
fn add_three(alloc: Global, config: &Config, store: &mut Store) -> Result<(), Fail> {
    add(alloc, config, store, b"a", 1, 1)?;
    add(alloc, config, store, b"b", 0, 2)?;
    store.put(config, b"b", 1, 18446744073709551615)?;
    store.set(config, b"a", 0, Some(b"b"))?;
    store.forget(config, b"b")?;
    add(alloc, config, store, b"c", 0, 0)?;
    store.forget(config, b"c")?;
    Ok(())
}

/// The census after two of three objects are kept.
const TWO: &str =
    "gen 0 step 0: 2 objects 6 words\nlarge: 0 objects 0 words\nroots: 1\nremembered: 0\n";

/// Asserts that the first two of three objects are kept.
fn assert_two_kept(
    rt: &impl Abort,
    alloc: Global,
    config: &Config,
    store: &mut Store,
) -> Result<(), Fail> {
    add_three(alloc, config, store)?;
    assert_eq!(rt; store.live(alloc, 0)?.as_slice(), [0, 1].as_slice());
    assert_collected(
        rt,
        alloc,
        config,
        store,
        0,
        "collected 0: 2 kept, 1 freed\n",
    )?;
    assert_census(rt, alloc, config, store, TWO)
}

#[test]
fn two_kept_one_dropped(rt: HostRuntime) -> Result<(), Fail> {
    let config = config_of(64, 1, 4, 1);
    let mut store = Store::empty(rt.alloc(), &config)?;
    assert_two_kept(&rt, rt.alloc(), &config, &mut store)
}

/// Four objects fill the nursery, and the first one is dropped.
fn fill_nursery(alloc: Global, config: &Config, store: &mut Store) -> Result<(), Fail> {
    add(alloc, config, store, b"a", 0, 15)?;
    store.forget(config, b"a")?;
    for name in [b"b", b"c", b"d"] {
        add(alloc, config, store, name, 0, 15)?;
    }
    Ok(())
}

/// The census after a fifth object, for which the nursery was collected.
const AGED: &str =
    "gen 0 step 0: 1 objects 16 words\ngen 0 step 1: 3 objects 48 words\ngen 1 step 0: 0 objects 0 words\nlarge: 0 objects 0 words\nroots: 4\nremembered: 0\n";

/// Asserts that a full nursery is collected before the next object, and that what is kept ages.
fn assert_aged(
    rt: &impl Abort,
    alloc: Global,
    config: &Config,
    store: &mut Store,
) -> Result<(), Fail> {
    fill_nursery(alloc, config, store)?;
    let line = store.add(alloc, config, b"e", 0, 0, 15)?;
    assert_eq!(rt; line.as_str(), "auto 0: 3 kept, 1 freed\n");
    assert_census(rt, alloc, config, store, AGED)
}

#[test]
fn automatic_collection(rt: HostRuntime) -> Result<(), Fail> {
    let config = config_of(64, 1, 1, 2);
    let mut store = Store::empty(rt.alloc(), &config)?;
    assert_aged(&rt, rt.alloc(), &config, &mut store)
}

/// The census after an object of 17 words, beside four that fill the nursery.
const WITH_LARGE: &str =
    "gen 0 step 0: 4 objects 64 words\ngen 0 step 1: 0 objects 0 words\ngen 1 step 0: 0 objects 0 words\nlarge: 1 objects 17 words\nroots: 4\nremembered: 0\n";

/// Asserts that an object of more words than a quarter of a block is large, and that no full nursery is collected for it.
fn assert_large(
    rt: &impl Abort,
    alloc: Global,
    config: &Config,
    store: &mut Store,
) -> Result<(), Fail> {
    fill_nursery(alloc, config, store)?;
    let line = store.add(alloc, config, b"e", 0, 0, 16)?;
    assert_eq!(rt; line.as_str(), "");
    assert_census(rt, alloc, config, store, WITH_LARGE)
}

#[test]
fn large_object(rt: HostRuntime) -> Result<(), Fail> {
    let config = config_of(64, 1, 1, 2);
    let mut store = Store::empty(rt.alloc(), &config)?;
    assert_large(&rt, rt.alloc(), &config, &mut store)
}

/// An object of the older generation leads to a new one, and neither has a name then.
fn assert_parent_ages(
    rt: &impl Abort,
    alloc: Global,
    config: &Config,
    store: &mut Store,
) -> Result<(), Fail> {
    add(alloc, config, store, b"a", 1, 0)?;
    for _time in 0..2 {
        assert_collected(
            rt,
            alloc,
            config,
            store,
            0,
            "collected 0: 1 kept, 0 freed\n",
        )?;
    }
    add(alloc, config, store, b"b", 0, 0)?;
    store.set(config, b"a", 0, Some(b"b"))?;
    store.forget(config, b"b")?;
    store.forget(config, b"a")?;
    Ok(())
}

/// Asserts that the new object is kept, until the generation of the dead one is collected.
fn assert_child_is_kept(
    rt: &impl Abort,
    alloc: Global,
    config: &Config,
    store: &mut Store,
) -> Result<(), Fail> {
    assert_parent_ages(rt, alloc, config, store)?;
    for (generation, line) in [
        (0, "collected 0: 1 kept, 0 freed\n"),
        (1, "collected 1: 0 kept, 2 freed\n"),
    ] {
        assert_collected(rt, alloc, config, store, generation, line)?;
    }
    Ok(())
}

#[test]
fn dead_parent_keeps_child(rt: HostRuntime) -> Result<(), Fail> {
    let config = config_of(64, 1, 4, 2);
    let mut store = Store::empty(rt.alloc(), &config)?;
    assert_child_is_kept(&rt, rt.alloc(), &config, &mut store)
}

/// Asserts that a nil pointer gives no name, and one that isn't nil does.
fn assert_pointer_is_got(
    rt: &impl Abort,
    alloc: Global,
    config: &Config,
    store: &mut Store,
) -> Result<(), Fail> {
    add(alloc, config, store, b"a", 1, 0)?;
    let refusal = store.get(alloc, config, b"b", b"a", 0).err();
    assert_eq!(rt; refusal, Some(Refusal::Fault(Kind::NilPointer)));
    store.set(config, b"a", 0, Some(b"a"))?;
    store.get(alloc, config, b"b", b"a", 0)?;
    Ok(())
}

/// Asserts what is wrong with names and fields that are got, where `a` and `b` are the names of an object with one pointer.
fn assert_get_faults(rt: &impl Abort, alloc: Global, config: &Config, store: &mut Store) {
    let (used, free): (&[u8], &[u8]) = (b"b", b"c");
    for (new_name, name, field, kind) in [
        (used, used, 0, Kind::NameInUse),
        (free, free, 0, Kind::UnknownName),
        (free, used, 1, Kind::NoField),
        (free, used, 9, Kind::NoField),
    ] {
        let refusal = store.get(alloc, config, new_name, name, field).err();
        assert_eq!(rt; refusal, Some(Refusal::Fault(kind)));
    }
}

/// Asserts the faults of an object and of a collection.
fn assert_faults(rt: &impl Abort, alloc: Global, config: &Config, store: &mut Store) {
    let refusal = store.add(alloc, config, b"b", 0, 0, 0).err();
    assert_eq!(rt; refusal, Some(Refusal::Fault(Kind::NameInUse)));
    let refusal = store.add(alloc, config, b"c", 0, 100001, 0).err();
    assert_eq!(rt; refusal, Some(Refusal::Fault(Kind::TooBig)));
    let refusal = store.add(alloc, config, b"c", 1, 0, 0).err();
    assert_eq!(rt; refusal, Some(Refusal::Fault(Kind::NoMutator)));
    let refusal = store.collect_to(alloc, config, 2).err();
    assert_eq!(rt; refusal, Some(Refusal::Fault(Kind::NoGeneration)));
}

#[test]
fn get_and_new_faults(rt: HostRuntime) -> Result<(), Fail> {
    let config = config_of(512, 1, 4, 2);
    let mut store = Store::empty(rt.alloc(), &config)?;
    assert_pointer_is_got(&rt, rt.alloc(), &config, &mut store)?;
    assert_get_faults(&rt, rt.alloc(), &config, &mut store);
    assert_faults(&rt, rt.alloc(), &config, &mut store);
    Ok(())
}
