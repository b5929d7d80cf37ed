//! The names of examples, and which files are some.

use pt_choice::{NoMemory, Octets};
use pt_stored::{Entry, are_alike, digests_of, file_name};
use std::alloc::Global;
use std::test::Fail;

// By another program: the digests of `abc` and of `12`.
const ABC: &str = "ba7816bf8f01cfea414140de5dae2223b00361a396177a9cb410ff61f20015ad";

const TWELVE: &str = "6b51d431df5d7f141cbececcf79edf3dd861c3b4069f0b11661a3eefacbba918";

const NAME: &str =
    "ba7816bf8f01cfea414140de5dae2223b00361a396177a9cb410ff61f20015ad-6b51d431df5d7f141cbececcf79edf3dd861c3b4069f0b11661a3eefacbba918";

// Another byte between the digests, an upper-case digit in each of them, a digit too few, a digit too many, a `g`, and no digests.
const OTHER_NAMES: [&str; 8] = [
    "ba7816bf8f01cfea414140de5dae2223b00361a396177a9cb410ff61f20015ad_6b51d431df5d7f141cbececcf79edf3dd861c3b4069f0b11661a3eefacbba918",
    "Ba7816bf8f01cfea414140de5dae2223b00361a396177a9cb410ff61f20015ad-6b51d431df5d7f141cbececcf79edf3dd861c3b4069f0b11661a3eefacbba918",
    "ba7816bf8f01cfea414140de5dae2223b00361a396177a9cb410ff61f20015ad-6b51d431df5d7f141cbececcf79edf3dd861c3b4069f0b11661a3eefacbba91A",
    "ba7816bf8f01cfea414140de5dae2223b00361a396177a9cb410ff61f20015ad-6b51d431df5d7f141cbececcf79edf3dd861c3b4069f0b11661a3eefacbba91",
    "ba7816bf8f01cfea414140de5dae2223b00361a396177a9cb410ff61f20015ad-6b51d431df5d7f141cbececcf79edf3dd861c3b4069f0b11661a3eefacbba9188",
    "ga7816bf8f01cfea414140de5dae2223b00361a396177a9cb410ff61f20015ad-6b51d431df5d7f141cbececcf79edf3dd861c3b4069f0b11661a3eefacbba918",
    "pending",
    "",
];

#[test]
fn a_file_is_named_by_its_digests(rt: HostRuntime) -> Result<(), Fail> {
    let name = file_name(rt.alloc(), b"abc", b"12")?;
    assert_eq!(rt; name.as_slice(), NAME.as_bytes());
    assert_eq!(rt;
        digests_of(NAME.as_bytes()),
        Some((ABC.as_bytes(), TWELVE.as_bytes()))
    );
    Ok(())
}

#[test]
fn other_names_are_no_example_s(rt: HostRuntime) {
    for name in OTHER_NAMES {
        assert!(rt; digests_of(name.as_bytes()).is_none(), "{name}");
    }
}

// Whether a file of this name with these bytes is an example.
fn is_example(alloc: Global, name: &str, bytes: &str) -> Result<bool, NoMemory> {
    let file = Octets::of(alloc, name.as_bytes())?;
    let held = Octets::of(alloc, bytes.as_bytes())?;
    Ok(match Entry::of(alloc, file, held)? {
        Some(entry) => entry.key.as_slice() == ABC.as_bytes()
            && entry.bytes.as_slice() == bytes.as_bytes(),
        None => false,
    })
}

#[test]
fn an_example_holds_what_its_name_says(rt: HostRuntime) {
    assert_eq!(rt; is_example(rt.alloc(), NAME, "12"), Ok(true));
    assert_eq!(rt; is_example(rt.alloc(), NAME, "3"), Ok(false));
    assert!(rt; are_alike(b"12", b"12"));
    assert!(rt; !are_alike(b"12", b"3"));
}
