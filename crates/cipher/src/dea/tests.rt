//! The rounds of a published worked example.
use super::Dea;
use super::permutations::enter;

/// Each round's key, and the halves (L, R) after it.
const ROUNDS: [(u64, u32, u32); 16] = [
    (0x1B02EFFC7072, 0xF0AAF0AA, 0xEF4A6544),
    (0x79AED9DBC9E5, 0xEF4A6544, 0xCC017709),
    (0x55FC8A42CF99, 0xCC017709, 0xA25C0BF4),
    (0x72ADD6DB351D, 0xA25C0BF4, 0x77220045),
    (0x7CEC07EB53A8, 0x77220045, 0x8A4FA637),
    (0x63A53E507B2F, 0x8A4FA637, 0xE967CD69),
    (0xEC84B7F618BC, 0xE967CD69, 0x064ABA10),
    (0xF78A3AC13BFB, 0x064ABA10, 0xD5694B90),
    (0xE0DBEBEDE781, 0xD5694B90, 0x247CC67A),
    (0xB1F347BA464F, 0x247CC67A, 0xB7D5D7B2),
    (0x215FD3DED386, 0xB7D5D7B2, 0xC5783C78),
    (0x7571F59467E9, 0xC5783C78, 0x75BD1858),
    (0x97C5D1FABA41, 0x75BD1858, 0x18C3155A),
    (0x5F43B7F2E73A, 0x18C3155A, 0xC28C960D),
    (0xBF918D3D3F0A, 0xC28C960D, 0x43423234),
    (0xCB3D8B0E17F5, 0x43423234, 0x0A4CD995),
];

#[test]
fn rounds_of_the_worked_example(rt: HostRuntime) {
    let dea = Dea::new(0x133457799BBCDFF1);
    let mut halves = enter(0x0123456789ABCDEF);
    assert_eq!(rt; halves, (0xCC00CCFF, 0xF0AAF0AA));
    for (round_key, (key, left, right)) in dea.round_keys.iter().zip(&ROUNDS) {
        assert_eq!(rt; *round_key, *key);
        halves = dea.round(*key, halves);
        assert_eq!(rt; halves, (*left, *right));
    }
}
