//! encode_costs BITS A B COST [FILE]
//!
//! Encodes the payload on standard input, lays out the cost file of its block without noise, reads
//! that file back and prints what it did. With FILE it also writes the file there.

#![tactic(auto)]

mod block;
mod request;

use block::{Block, clean};
use cost_file::{CostFile, Record, open};
use plans::PlanValues;
use request::{Request, asked};
use std::io::Read;
use std::{fs, io};

fn main(rt: HostRuntime) -> anyhow::Result<()> {
    run(&rt)
}

fn run(rt: &HostRuntime) -> anyhow::Result<()> {
    let Some(request) = asked(rt)? else {
        println!(rt; "usage: encode_costs BITS A B COST [FILE], payload on standard input")?;
        return Ok(());
    };
    let mut payload = Vec::new(rt.alloc());
    rt.stdin().take(1022).read_to_end(&mut payload)?;
    let Request {
        bits,
        a,
        b,
        cost,
        file,
    } = request;
    let values = PlanValues {
        bytes: payload.len().min(1022) as u32,
        bits,
        a,
        b,
    };
    println!(rt; "plan {values}")?;
    match clean(rt.alloc(), values, payload.as_slice(), cost) {
        Ok(block) => {
            show_block(rt, &block, payload.as_slice())?;
            store(rt, &block, file)?;
        }
        Err(trouble) => println!(rt; "{trouble}")?,
    }
    Ok(())
}

// As `show_entries` of three_ways: two programs share no crate of their own.
fn show_list(rt: &HostRuntime, name: &str, numbers: &[u8]) -> io::Result<()> {
    print!(rt; "{name}")?;
    for x in numbers {
        print!(rt; " {x}")?;
    }
    println!(rt; "")
}

fn show_block(rt: &HostRuntime, block: &Block, payload: &[u8]) -> io::Result<()> {
    println!(rt; "check {}", polynomial::check(payload))?;
    show_list(rt, "slots", block.sent.as_slice())?;
    println!(rt; "file {} bytes", block.file.len())?;
    match open(block.file.as_slice()) {
        Ok(file) => show_records(rt, file, block, payload),
        Err(fault) => println!(rt; "fault {fault}"),
    }
}

// The output says yes and no, where `Display` of a `bool` says true and false.
fn word(same: bool) -> &'static str {
    if same { "yes" } else { "no" }
}

fn show_records(rt: &HostRuntime, file: CostFile, block: &Block, payload: &[u8]) -> io::Result<()> {
    let mut records = 0u32;
    let mut rows = Vec::new(rt.alloc());
    for record in file {
        records = records.saturating_add(1);
        match record {
            Record::Plan { values, offset, .. } => {
                println!(rt; "read plan {values} at {offset}")?;
            }
            Record::Row { bytes, .. } => rows.extend_from_slice(bytes)?,
            Record::Payload { bytes, offset } => {
                println!(rt; "read payload at {offset} same {}", word(bytes == payload))?;
            }
        }
    }
    println!(rt;
        "read rows same {}",
        word(rows.as_slice() == block.rows.as_slice())
    )?;
    println!(rt; "read {records} records")
}

fn store(rt: &HostRuntime, block: &Block, file: Option<String>) -> io::Result<()> {
    let Some(name) = file else {
        return Ok(());
    };
    fs::write(rt, name.as_str(), block.file.as_slice())?;
    println!(rt; "stored {name}")
}
