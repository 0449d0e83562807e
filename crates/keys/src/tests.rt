//! Loading, on examples.
use crate::{KeyBundle, SingleKey};
use refusals::Refusal;

#[test]
fn the_first_reason_is_answered(rt: HostRuntime) {
    assert_eq!(rt; SingleKey::load(&mut []).err(), Some(Refusal::KeyLength(0)));
    assert_eq!(rt;
        SingleKey::load(&mut [0; 9]).err(),
        Some(Refusal::KeyLength(9))
    );
    assert_eq!(rt;
        SingleKey::load(&mut [1, 1, 3, 0, 1, 1, 1, 1]).err(),
        Some(Refusal::KeyParity(2))
    );
    assert_eq!(rt; SingleKey::load(&mut [1; 8]).err(), None);
    assert_eq!(rt;
        KeyBundle::load(&mut [1; 16]).err(),
        Some(Refusal::KeyLength(16))
    );
    assert_eq!(rt;
        KeyBundle::load(&mut [0; 24]).err(),
        Some(Refusal::KeyParity(0))
    );
    assert_eq!(rt;
        KeyBundle::load(&mut [1; 24]).err(),
        Some(Refusal::SameKeys)
    );
}

#[test]
fn two_same_keys_are_taken_and_the_bytes_are_zero(rt: HostRuntime) {
    let mut keys = [1; 24];
    keys[20] = 2;
    assert_eq!(rt; KeyBundle::load(&mut keys).err(), None);
    assert_eq!(rt; keys, [0; 24]);
}
