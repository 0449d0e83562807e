//! Loading keys: what is taken, what is refused, and what is left of the bytes.
use crate::shown::Hexadecimal;
use anyhow::Context;
use cipher::dea::Dea;
use cipher::triple::Triple;
use engines::line::Line;
use engines::plain::Plain;
use keys::{KeyBundle, SingleKey};
use refusals::Refusal;

/// The three keys of the example, eight bytes each.
#[rattlefmt::skip]
const BUNDLE: [u8; 24] = [
    0x01, 0x23, 0x45, 0x67, 0x89, 0xAB, 0xCD, 0xEF,
    0x23, 0x45, 0x67, 0x89, 0xAB, 0xCD, 0xEF, 0x01,
    0x45, 0x67, 0x89, 0xAB, 0xCD, 0xEF, 0x01, 0x23,
];

/// The bundle of the example. The bytes are shown before and after loading.
pub fn load_bundle(rt: &impl Print) -> anyhow::Result<KeyBundle> {
    let mut keys = BUNDLE;
    println!(rt; "key bytes handed in: {}", Hexadecimal(&keys))?;
    let loaded = KeyBundle::load(&mut keys);
    println!(rt; "and after loading:   {}", Hexadecimal(&keys))?;
    loaded.context("the bundle of the example is refused")
}

/// The line of the example's three keys.
pub fn load_line(rt: &impl Print) -> anyhow::Result<Line<Dea, Dea, Dea>> {
    let (first, second, third) = load_bundle(rt)?.into_ciphers();
    Ok(Line::new(first, second, third))
}

/// The plain engine over the triple of the same keys.
pub fn load_plain(rt: &impl Print) -> anyhow::Result<Plain<Triple<Dea, Dea, Dea>>> {
    Ok(Plain::new(load_bundle(rt)?.into_cipher()))
}

fn print_refusal<K: Drop>(
    rt: &impl Print,
    what: &str,
    loaded: Result<K, Refusal>,
) -> anyhow::Result<()> {
    if let Err(refusal) = loaded {
        println!(rt;
            "{what} refused, number {}, detail {}: {refusal}",
            refusal.number(),
            refusal.detail()
        )?;
    }
    Ok(())
}

/// Keys that are not taken, and why.
pub fn show_refused_keys(rt: &impl Print) -> anyhow::Result<()> {
    let mut flipped = BUNDLE;
    flipped[9] = 0x44;
    let loaded = KeyBundle::load(&mut flipped);
    print_refusal(rt, "a bundle with a flipped bit", loaded)?;
    println!(rt; "and after the refusal: {}", Hexadecimal(&flipped))?;
    print_refusal(rt, "a short key", SingleKey::load(&mut [0x01; 7]))?;
    print_refusal(rt, "one key three times", KeyBundle::load(&mut [0x01; 24]))
}
