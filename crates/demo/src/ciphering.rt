//! A record under triple DEA, block by block.
use crate::blocks::{Blocks, blocks_of, bytes_of};
use crate::loading::load_bundle;
use crate::shown::Text;
use anyhow::Context;
use cipher::Cipher;
use cipher::dea::known::{substitution_row, worked_values};

/// A settlement record: from branch 0417 to branch 0993, an amount in euro.
const RECORD: [u8; 48] = *b"SETTLE 0417>0993 2026-11-17 EUR 000000012500.00;";

/// What the tables are known to hold.
pub fn show_tables(rt: &impl Print) -> anyhow::Result<()> {
    println!(rt;
        "{} worked values of the cipher are proved",
        worked_values()
    )?;
    let row = substitution_row(0).context("no first row")?;
    println!(rt; "S box 1, row 0, holds 0 to 15 once each: {row:?}")?;
    Ok(())
}

/// The record enciphered and deciphered again.
pub fn show(rt: &(impl Print + AllocGlobal)) -> anyhow::Result<()> {
    let heap = rt.alloc();
    let triple = load_bundle(rt)?.into_cipher();
    println!(rt; "{}", Text(&RECORD))?;
    let mut received = Blocks::new();
    for (i, plain) in blocks_of(heap, &RECORD)?.iter().enumerate() {
        let sent = triple.forward(*plain);
        let back = triple.inverse(sent);
        println!(rt;
            "block {}: {plain:016X} enciphered {sent:016X} deciphered {back:016X}",
            i + 1
        )?;
        received.try_push(back)?;
    }
    let received = bytes_of(heap, &received)?;
    println!(rt; "{}", Text(&received))?;
    if received.as_slice() == RECORD.as_slice() {
        rt.println("the record came back unchanged")?;
    } else {
        rt.println("the record did not come back")?;
    }
    Ok(())
}
