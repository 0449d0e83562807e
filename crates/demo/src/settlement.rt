//! The story: a settlement file travels over a bad line.
use crate::blocks::blocks_of;
use crate::mode_table::VALUES;
use crate::records::RECORDS;
use crate::shown::Text;
use crate::transmission;
use crate::transmission::Damage;
use arrayvec::ArrayVec;
use modes::order::Order;

/// The interleaved chaining mode.
const CODE: u8 = 3;

/// What the line does to the eighth and the twentieth unit.
const DAMAGE: Damage = Damage {
    flipped: 7,
    lost: 19,
};

/// The sent unit, counted from 1, from which on the receiver has what was sent.
fn reads_right_from(file: &[u64], arrivals: &[Option<u64>]) -> usize {
    file.iter()
        .zip(arrivals)
        .rposition(|(sent, arrived)| *arrived != Some(*sent))
        .map_or(1, |last_wrong| last_wrong.saturating_add(2))
}

/// Each record beside what was received for it, with dots where a unit was lost.
fn print_records(rt: &(impl Print + AllocGlobal), arrivals: &[Option<u64>]) -> anyhow::Result<()> {
    for (sent, units) in RECORDS.iter().zip(arrivals.chunks(3)) {
        let received: ArrayVec<u8, 24> = units
            .iter()
            .flat_map(|unit| unit.unwrap_or(0).to_be_bytes())
            .collect(rt.alloc())?;
        let state = if received.as_slice() == sent.as_slice() {
            "right"
        } else {
            "WRONG"
        };
        println!(rt; "{}   {}   {state}", Text(sent), Text(&received))?;
    }
    Ok(())
}

pub fn show(rt: &(impl Print + AllocGlobal)) -> anyhow::Result<()> {
    let order = Order::check(CODE, &VALUES)?;
    let file = blocks_of(rt.alloc(), RECORDS.as_flattened())?;
    let transmission = transmission::run(rt, order, &file, DAMAGE)?;
    let arrivals = DAMAGE.arrivals(rt.alloc(), &transmission.received)?;
    println!(rt;
        "{} records sent in {}: {} units",
        RECORDS.len(),
        order.mode(),
        transmission.sent.len()
    )?;
    println!(rt;
        "the line flipped a bit of unit {} and lost unit {}: {} received, {} not",
        DAMAGE.flipped + 1,
        DAMAGE.lost + 1,
        transmission.received.len(),
        transmission.on_the_way
    )?;
    println!(rt; "sent                       received")?;
    print_records(rt, &arrivals)?;
    println!(rt;
        "the receiver reads right again from sent unit {} on",
        reads_right_from(&file, &arrivals)
    )?;
    println!(rt; "sender, {}", transmission.sender)?;
    println!(rt; "receiver, {}", transmission.receiver)?;
    Ok(())
}
