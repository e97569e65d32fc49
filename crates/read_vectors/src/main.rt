//! Reads cost files that were made elsewhere, and prints of each that it is accepted or its fault.

#![tactic(auto)]

use cost_file::open_within;
use std::fs;

const NAMES: [&str; 20] = [
    "all_costs_equal_zero_payload_stored",
    "bits_do_not_divide",
    "clean_27_bytes_6_bits",
    "clean_29_bytes_8_bits",
    "converges_in_pass_31",
    "extrinsics_at_their_limit",
    "file_too_short",
    "interleaver_not_one_to_one",
    "many_ties",
    "never_converges",
    "noisy_27_bytes_6_bits",
    "noisy_29_bytes_4_bits",
    "one_byte_short",
    "payload_above_program_limit_and_truncated",
    "payload_as_long_as_a_row",
    "plan_without_payload",
    "row_check_wrong",
    "rows_exchanged",
    "sample",
    "strong_wrong_symbols",
];

fn main(rt: HostRuntime) -> anyhow::Result<()> {
    run(&rt)
}

fn run(rt: &HostRuntime) -> anyhow::Result<()> {
    for name in NAMES {
        judge(rt, name)?;
    }
    println!(rt; "{} files", NAMES.len())?;
    Ok(())
}

fn judge(rt: &HostRuntime, name: &str) -> anyhow::Result<()> {
    let path = format!(in rt.alloc(); "{name}.in")?;
    let file = fs::read(rt, path.as_str())?;
    match open_within(file.as_slice(), 29) {
        Ok(_) => println!(rt; "{name} accepted")?,
        Err(fault) => println!(rt; "{name} fault {fault}")?,
    }
    Ok(())
}
