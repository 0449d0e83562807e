//! Runs published known answers for single DEA, both ways, and the published example of triple DEA stage by stage.
#![tactic(auto)]

mod tables;

use cipher::Cipher;
use cipher::dea::Dea;
use std::io;

/// The three keys of the triple example.
const TRIPLE_KEYS: [u64; 3] = [0x0123456789ABCDEF, 0x23456789ABCDEF01, 0x456789ABCDEF0123];

/// Each block of the triple example before, between and after its three stages.
const TRIPLE_STAGES: [[u64; 4]; 3] = [
    [
        0x5468652071756663,
        0xA28E91724C4BBA31,
        0x5A2EA7F983A2F53F,
        0xA826FD8CE53B855F,
    ],
    [
        0x6B2062726F776E20,
        0x167E47EC24F71D63,
        0xEA141A7DD69701F0,
        0xCCE21C8112256FE6,
    ],
    [
        0x666F78206A756D70,
        0x2C1A917234425365,
        0x8059EE8212E22A79,
        0x68D5C05DD9B6B900,
    ],
];

/// Whether the answer comes out right both ways.
fn is_right((key, plain, ciphered): &(u64, u64, u64)) -> bool {
    let dea = Dea::new(*key);
    dea.forward(*plain) == *ciphered && dea.inverse(*ciphered) == *plain
}

fn report(rt: &HostRuntime, name: &str, answers: &[(u64, u64, u64)]) -> io::Result<()> {
    let right = answers.iter().filter(|answer| is_right(answer)).count();
    let all = answers.len();
    println!(rt; "{name}: {right} of {all} right")
}

fn triple_example(rt: &HostRuntime) -> io::Result<()> {
    let [first, second, third] = TRIPLE_KEYS.map(Dea::new);
    for stages in &TRIPLE_STAGES {
        let [plain, _, _, ciphered] = *stages;
        let a = first.forward(plain);
        let b = second.inverse(a);
        let c = third.forward(b);
        let same = [plain, a, b, c] == *stages;
        let back = first.inverse(second.forward(third.inverse(ciphered))) == plain;
        println!(rt; "triple {plain:016X} {a:016X} {b:016X} {c:016X} right: {same}, back: {back}")?;
    }
    Ok(())
}

fn main(rt: HostRuntime) -> io::Result<()> {
    report(&rt, "variable plaintext", &tables::VARIABLE_PLAINTEXT)?;
    report(&rt, "variable key", &tables::VARIABLE_KEY)?;
    report(&rt, "permutation operation", &tables::PERMUTATION)?;
    report(&rt, "substitution table", &tables::SUBSTITUTION)?;
    triple_example(&rt)
}
