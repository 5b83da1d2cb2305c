//! Instances that one thread reads, and that several threads read while others add to them.
ghost use Rattle.std.specs.Prelude.{◌≡◌, ℕ, ◌+◌, ◌^◌, ◌<◌, ◌≤◌, ◌⊎◌, List, [], ◌∷◌, true, length, vec_len, Contains, IsTrue, IfOk, IfSome};
ghost use Rattle.inst_table.specs.Bucket.{key_words};
ghost use Rattle.inst_table.specs.Publications.{IfAddress};
ghost use Rattle.inst_table.specs.AddressLoads.{IsKnownAddress};
ghost use Rattle.thread_tests.specs.Sample.{HasKey, IsShortRecord, NotesSomeRow, AreReadersOf, AreWritersOf};
ghost use Rattle.inst_table.specs.Names.{id_of, fit_of, numbers_of, home_of, view_of, creator_home_of, publisher_home_of, ArePartsOf};

use inst_table::{
    Address, Created, Creator, Find, Fit, KEY_WORDS, Pass, Published, Publisher, Table, close,
};
use std::alloc::{AllocError, Global};
use std::test::Fail;
use std::thread::{Threads, join};

const LONGEST: usize = 2_000;

// Some keys, no library, and any record up to a length.
#[derive(Drop)]
struct Keys {
    keys: Vec<[u64; KEY_WORDS]>,
}

impl Fit for Keys {
    ghost asked = { λ fit. fit.keys.items };

    ghost fits = { λ fit unit words. length words ≤ 2000 };

    ghost longest = { λ fit unit. 2000 };

    ghost library_count = { λ fit. 0 };

    fn libraries(&self) -> u32 {
        0
    }

    ghost within = { λ fit unit words h. h };
}

// The key whose words are 0 but for one.
fn key(at: usize, word: u64) -> [u64; KEY_WORDS]
    requires { at < key_words }
{
    let mut key = [0; KEY_WORDS];
    key[at] = word;
    key
}

// Two keys of one bucket and one of another.
fn three_keys(alloc: Global) -> Result<Keys, AllocError>
    ensures { IfOk result (λ made. vec_len made.keys ≡ 3) }
{
    let mut keys = Vec::new(alloc);
    keys.push(key(0, 1))?;
    keys.push(key(1, 1))?;
    keys.push(key(0, 2))?;
    Ok(Keys { keys })
}

// So many keys, whose first words differ.
fn many_keys(alloc: Global, count: u32) -> Result<Keys, AllocError>
    ensures { IfOk result (λ made. vec_len made.keys ≡ count) }
{
    let mut keys = Vec::new(alloc);
    for word in 0..count {
        keys.push(key(0, word as u64))?;
    }
    Ok(Keys { keys })
}

// A record of one module with so many words.
fn record(alloc: Global, len: u32) -> Result<Vec<u32>, AllocError> {
    let mut words = Vec::new(alloc);
    words.push(len)?;
    words.push(0)?;
    for word in 0..len {
        words.push(word)?;
    }
    Ok(words)
}

fn is_record(words: &[u32]) -> bool
    ensures { result ≡ true → IsShortRecord words.now }
{
    words.len() >= 2
        && words.len() <= LONGEST
        && words.len() as u64 == 2 + words[0] as u64 + words[1] as u64
}

// The key of that number.
fn key_of(table: &Table<Keys>, at: usize) -> [u64; KEY_WORDS]
    requires { at < vec_len (fit_of table.now).keys }
    ensures among { Contains (fit_of table.now).keys.items result }
{
    table.fit().keys[at]
}

// The row of a key, with a pass that knows it.
fn add_row(
    table: &Table<Keys>,
    creator: &mut Creator,
    key: &[u64; KEY_WORDS],
) -> Result<(u32, Pass), u32>
    requires table { creator_home_of creator.old ≡ id_of table.now }
    requires asked { Contains (fit_of table.now).keys.items key.now }
    ensures table { creator_home_of creator.new ≡ creator_home_of creator.old }
    ensures note { IfOk result (NotesSomeRow table.now) }
{
    match creator.create(table, key) {
        Created::New { row, note } => Ok((row, note)),
        Created::Old { row, note } => Ok((row, note)),
        Created::Full(rows) => Err(rows),
    }
}

fn put(
    table: &Table<Keys>,
    publisher: &mut Publisher,
    row: u32,
    note: Pass,
    words: &[u32],
) -> Published
    requires table { publisher_home_of publisher.old ≡ id_of table.now }
    requires by { home_of note ≡ id_of table.now }
    requires row { HasKey (view_of note) row }
    requires words { IsShortRecord words.now }
    ensures table { publisher_home_of publisher.new ≡ publisher_home_of publisher.old }
    ensures note { IfAddress result (λ a note. home_of note ≡ id_of table.now) }
{
    publisher.publish(table, row, note, words)
}

// The row of a key and the address of its unit.
fn look_up(
    table: &Table<Keys>,
    pass: &mut Pass,
    key: &[u64; KEY_WORDS],
) -> Result<(u32, Option<Address>), u32>
    requires table { home_of pass.old ≡ id_of table.now }
    ensures table { home_of pass.new ≡ home_of pass.old }
    ensures row { IfOk result (λ r. HasKey (view_of pass.new) r.0) }
    ensures address { IfOk result (λ r. IfSome r.1 (IsKnownAddress (view_of pass.new))) }
{
    match pass.find(table, key) {
        Find::Hit(row) => Ok((row, pass.address(table, row))),
        Find::Miss(rows) => Err(rows),
    }
}

// Whether nothing that is read goes back, in so many rounds.
fn is_watched(table: &Table<Keys>, mut pass: Pass, rounds: u32) -> bool
    requires table { home_of pass ≡ id_of table.now }
    requires keys { vec_len (fit_of table.now).keys ≡ 3 }
{
    let mut rows = [None; 3];
    let mut addresses = [None; 3];
    for _ in 0..rounds {
        for at in 0..3 {
            let before: (Option<u32>, Option<Address>) = (rows[at], addresses[at]);
            match (before, look_up(table, &mut pass, &key_of(table, at))) {
                ((None, _), Err(_)) => {}
                ((Some(_), _), Err(_)) => return false,
                ((old_row, old_address), Ok((row, address))) => {
                    if old_row.is_some_and(|old| old != row)
                        || old_address.is_some() && old_address != address
                    {
                        return false;
                    }
                    rows[at] = Some(row);
                    addresses[at] = address;
                }
            }
        }
    }
    true
}

// A row for each key.
fn add_all(table: &Table<Keys>, mut creator: Creator) -> Creator
    requires { creator_home_of creator ≡ id_of table.now }
    ensures { creator_home_of result ≡ id_of table.now }
{
    for at in 0..table.fit().keys.len() {
        let _ = add_row(table, &mut creator, &key_of(table, at));
    }
    creator
}

// Publishes the record for each key, once its row is seen.
fn put_all(
    table: &Table<Keys>,
    mut publisher: Publisher,
    mut pass: Pass,
    words: &[u32],
    tries: u32,
) -> Publisher
    requires table { publisher_home_of publisher ≡ id_of table.now }
    requires pass { home_of pass ≡ id_of table.now }
    requires keys { vec_len (fit_of table.now).keys ≡ 3 }
    requires words { IsShortRecord words.now }
    ensures { publisher_home_of result ≡ id_of table.now }
{
    for at in 0..3 {
        for _ in 0..tries {
            if let Ok((row, _)) = look_up(table, &mut pass, &key_of(table, at)) {
                let note = pass.split(table);
                put(table, &mut publisher, row, note, words);
                break;
            }
        }
    }
    publisher
}

type Parts = (Table<Keys>, Pass, Creator, Publisher);

fn make_parts(alloc: Global, keys: Keys, rows: u32, heap: u64) -> Result<Parts, AllocError>
    requires { heap < 2 ^ 30 }
    ensures fit { IfOk result (λ p. fit_of p.0 ≡ keys) }
    ensures parts { IfOk result (λ p. ArePartsOf p.0 p.2 p.3 p.1) }
{
    Table::make(alloc, keys, rows, heap)
}

#[test]
fn rows_and_heap_are_full_exactly_at_their_ends(rt: HostRuntime) -> Result<(), Fail> {
    let words = record(rt.alloc(), 68)?;
    let fits = is_record(&words);
    assert!(rt; fits);
    let (table, _pass, mut creator, mut publisher) = make_parts(
        rt.alloc(),
        three_keys(rt.alloc())?,
        1,
        69,
    )?;
    let (first, second) = (key_of(&table, 0), key_of(&table, 1));
    let Ok((row, note)) = add_row(&table, &mut creator, &first) else {
        panic!(rt; "no room")
    };
    assert_eq!(rt; row, 0);
    assert!(rt; matches!(add_row(&table, &mut creator, &second), Err(1)));
    let answer = put(&table, &mut publisher, row, note, &words);
    assert!(rt; matches!(answer, Published::HeapFull(0)));
    Ok(())
}

#[test]
fn one_record_is_accepted(rt: HostRuntime) -> Result<(), Fail> {
    let words = record(rt.alloc(), 68)?;
    let fits = is_record(&words);
    assert!(rt; fits);
    let keys = three_keys(rt.alloc())?;
    let (table, mut pass, mut creator, mut publisher) = make_parts(rt.alloc(), keys, 1, 70)?;
    let key = key_of(&table, 0);
    let Ok((row, note)) = add_row(&table, &mut creator, &key) else {
        panic!(rt; "no room")
    };
    let Published::Accepted { address, note } = put(&table, &mut publisher, row, note, &words)
    else {
        panic!(rt; "not accepted")
    };
    assert_eq!(rt; address, Address { unit: 0, word: 1 });
    pass.join(&table, note);
    let Ok((row, note)) = add_row(&table, &mut creator, &key) else {
        panic!(rt; "no room")
    };
    let Published::Already { address, note: _ } = put(&table, &mut publisher, row, note, &words)
    else {
        panic!(rt; "accepted twice")
    };
    assert_eq!(rt; address, Address { unit: 0, word: 1 });
    let Ok((row, Some(address))) = look_up(&table, &mut pass, &key) else {
        panic!(rt; "not seen")
    };
    let fetched = pass.fetch(rt.alloc(), &table, address)?;
    assert!(rt; row == 0 && fetched.len() == 70);
    assert!(rt; fetched.get(0) == Some(&68) && fetched.get(1) == Some(&0));
    let Ok(closed) = close(rt.alloc(), table, creator, publisher, pass) else {
        panic!(rt; "no memory")
    };
    let rows = &closed.rows;
    assert!(rt; rows.len() == 1 && closed.units.len() == 1);
    assert!(rt; rows.get(0).is_some_and(|row| row[0] == 1 && row[1] == 0));
    Ok(())
}

#[test]
fn a_key_is_found_along_the_chain_of_its_bucket(rt: HostRuntime) -> Result<(), Fail> {
    let (table, mut pass, mut creator, _publisher) = make_parts(
        rt.alloc(),
        three_keys(rt.alloc())?,
        3,
        0,
    )?;
    let (first, second, third) = (key_of(&table, 0), key_of(&table, 1), key_of(&table, 2));
    let (one, two) = (
        add_row(&table, &mut creator, &first).is_ok(),
        add_row(&table, &mut creator, &second).is_ok(),
    );
    assert!(rt; one && two);
    let found = pass.find(&table, &second);
    assert_eq!(rt; found, Find::Hit(1));
    let found = pass.find(&table, &first);
    assert_eq!(rt; found, Find::Hit(0));
    let found = pass.find(&table, &third);
    assert_eq!(rt; found, Find::Miss(2));
    Ok(())
}

// Two readers, in two threads.
fn two_watch<R: Threads>(rt: &R, table: &Table<Keys>, one: Pass, other: Pass, rounds: u32) -> bool
    requires table { vec_len (fit_of table.now).keys ≡ 3 }
    requires passes { AreReadersOf table.now (one, other) }
{
    let (a, b) = join(
        rt,
        move || is_watched(table, one, rounds),
        move || is_watched(table, other, rounds),
    );
    a && b
}

// The creator and the publisher, in two threads.
fn two_write<R: Threads>(
    rt: &R,
    table: &Table<Keys>,
    creator: Creator,
    publisher: Publisher,
    pass: Pass,
    words: &[u32],
) -> (Creator, Publisher)
    requires table { vec_len (fit_of table.now).keys ≡ 3 }
    requires seats { ArePartsOf table.now creator publisher pass }
    requires words { IsShortRecord words.now }
    ensures { AreWritersOf table.now result }
{
    join(
        rt,
        move || add_all(table, creator),
        move || put_all(table, publisher, pass, words, TRIES),
    )
}

// Two readers beside the creator and the publisher.
fn four_work<R: Threads + Sync>(
    rt: &R,
    table: &Table<Keys>,
    one: Pass,
    other: Pass,
    creator: Creator,
    publisher: Publisher,
    pass: Pass,
    words: &[u32],
) -> (bool, (Creator, Publisher))
    requires table { vec_len (fit_of table.now).keys ≡ 3 }
    requires readers { AreReadersOf table.now (one, other) }
    requires seats { ArePartsOf table.now creator publisher pass }
    requires words { IsShortRecord words.now }
    ensures { AreWritersOf table.now result.1 }
{
    join(
        rt,
        move || two_watch(rt, table, one, other, ROUNDS),
        move || two_write(rt, table, creator, publisher, pass, words),
    )
}

// Four readers beside the creator and the publisher.
fn six_work<R: Threads + Sync>(
    rt: &R,
    table: &Table<Keys>,
    first: (Pass, Pass),
    three: Pass,
    four: Pass,
    creator: Creator,
    publisher: Publisher,
    pass: Pass,
    words: &[u32],
) -> (bool, (bool, (Creator, Publisher)))
    requires table { vec_len (fit_of table.now).keys ≡ 3 }
    requires first { AreReadersOf table.now first }
    requires second { AreReadersOf table.now (three, four) }
    requires seats { ArePartsOf table.now creator publisher pass }
    requires words { IsShortRecord words.now }
    ensures { AreWritersOf table.now result.1.1 }
{
    let (one, other) = first;
    join(
        rt,
        move || two_watch(rt, table, one, other, ROUNDS),
        move || -> (bool, (Creator, Publisher))
            requires table { vec_len (fit_of table.now).keys ≡ 3 }
            requires readers { AreReadersOf table.now (three, four) }
            requires seats { ArePartsOf table.now creator publisher pass }
            requires words { IsShortRecord words.now }
            ensures { AreWritersOf table.entry.now result.1 }
        { four_work(rt, table, three, four, creator, publisher, pass, words) },
    )
}

const ROUNDS: u32 = 20_000;

const TRIES: u32 = 1_000_000;

#[test]
fn nothing_that_is_read_goes_back(rt: HostRuntime) -> Result<(), Fail> {
    let words = record(rt.alloc(), 68)?;
    let fits = is_record(&words);
    assert!(rt; fits);
    let (table, mut pass, creator, publisher) = make_parts(
        rt.alloc(),
        three_keys(rt.alloc())?,
        3,
        210,
    )?;
    let first = (pass.split(&table), pass.split(&table));
    let three = pass.split(&table);
    let four = pass.split(&table);
    let own = pass.split(&table);
    let (one, (other, (creator, publisher))) = six_work(
        &rt, &table, first, three, four, creator, publisher, own, &words,
    );
    assert!(rt; one && other);
    let Ok(closed) = close(rt.alloc(), table, creator, publisher, pass) else {
        panic!(rt; "no memory")
    };
    assert!(rt; closed.rows.len() == 3 && closed.units.len() == 3);
    Ok(())
}

// One library and one key, and any record up to a length.
#[derive(Drop)]
struct OneLibrary {
    key: [u64; KEY_WORDS],
}

impl Fit for OneLibrary {
    ghost asked = { λ fit. fit.key ∷ [] };

    ghost fits = { λ fit unit words. length words ≤ 2000 };

    ghost longest = { λ fit unit. 2000 };

    ghost library_count = { λ fit. 1 };

    fn libraries(&self) -> u32 {
        1
    }

    ghost within = { λ fit unit words h. h };
}

fn create_row(table: &Table<OneLibrary>, creator: &mut Creator) -> Created
    requires { creator_home_of creator.old ≡ id_of table.now }
    ensures { creator_home_of creator.new ≡ creator_home_of creator.old }
{
    let key = table.fit().key;
    creator.create(table, &key)
}

fn build_library(
    table: &Table<OneLibrary>,
    publisher: &mut Publisher,
    by: Pass,
    words: &[u32],
) -> Published
    requires table { publisher_home_of publisher.old ≡ id_of table.now }
    requires by { home_of by ≡ id_of table.now }
    requires words { IsShortRecord words.now }
    ensures { publisher_home_of publisher.new ≡ publisher_home_of publisher.old }
{
    publisher.publish(table, 0, by, words)
}

#[test]
fn a_row_that_was_never_built_has_an_empty_unit(rt: HostRuntime) -> Result<(), Fail> {
    let words = record(rt.alloc(), 3)?;
    let fits = is_record(&words);
    assert!(rt; fits);
    let fit = OneLibrary { key: key(0, 7) };
    let (table, mut pass, mut creator, mut publisher) = Table::make(rt.alloc(), fit, 1, 70)?;
    let created = create_row(&table, &mut creator);
    assert!(rt; matches!(created, Created::New { row: 0, note: _ }));
    let by = pass.split(&table);
    let published = build_library(&table, &mut publisher, by, &words);
    assert!(rt;
        matches!(
            published,
            Published::Accepted {
                address: Address { unit: 0, word: 1 },
                note: _
            }
        )
    );
    let Ok(closed) = close(rt.alloc(), table, creator, publisher, pass) else {
        panic!(rt; "no memory")
    };
    assert!(rt; closed.rows.len() == 1 && closed.units.len() == 1);
    assert!(rt; closed.rows.get(0).is_some_and(|row| row[0] == 7));
    assert!(rt; closed.units.get(0).is_some_and(|unit| unit.is_none()));
    Ok(())
}

#[test]
fn a_thousand_rows_and_a_long_record_are_given(rt: HostRuntime) -> Result<(), Fail> {
    let words = record(rt.alloc(), 1_500)?;
    let fits = is_record(&words);
    assert!(rt; fits);
    let keys = many_keys(rt.alloc(), 1_000)?;
    let (table, mut pass, creator, mut publisher) = make_parts(rt.alloc(), keys, 1_000, 1_502)?;
    let mut creator = add_all(&table, creator);
    let key = key_of(&table, 999);
    let Ok((row, note)) = add_row(&table, &mut creator, &key) else {
        panic!(rt; "no room")
    };
    assert_eq!(rt; row, 999);
    let answer = put(&table, &mut publisher, row, note, &words);
    assert!(rt;
        matches!(
            answer,
            Published::Accepted {
                address: _,
                note: _
            }
        )
    );
    let Ok((_, Some(address))) = look_up(&table, &mut pass, &key) else {
        panic!(rt; "not seen")
    };
    let fetched = pass.fetch(rt.alloc(), &table, address)?;
    assert!(rt; fetched.len() == 1_502 && fetched.get(1_501) == Some(&1_499));
    let Ok(closed) = close(rt.alloc(), table, creator, publisher, pass) else {
        panic!(rt; "no memory")
    };
    assert!(rt; closed.rows.len() == 1_000 && closed.units.len() == 1_000);
    assert!(rt; closed.rows.get(999).is_some_and(|row| row[0] == 999));
    assert!(rt; closed.units.get(998).is_some_and(|unit| unit.is_none()));
    assert!(rt;
        closed.units.get(999).is_some_and(|unit| unit
            .as_ref()
            .is_some_and(|words| words.len() == 1_502))
    );
    Ok(())
}
