// The hashes of published strings, and how many ways of splitting strings leave a hash as it is.
#![tactic(auto)]

mod splits;
mod strings;

use hashing::{Crc32c, End, Fnv1a, StringHash, hash, hash_joined};
use splits::agreeing_splits;
use std::io;
use strings::{STRINGS, sample};

fn main(rt: HostRuntime) -> io::Result<()> {
    println!(rt; "string, FNV-1a, CRC-32C, end hash, CRC-32C with its own number behind it")?;
    for (label, bytes) in STRINGS {
        print_numbers(&rt, label, bytes)?;
    }
    println!(rt; "splits of strings of 0 to 300 bytes that leave the number as it is")?;
    print_splits::<Fnv1a>(&rt, "FNV-1a")?;
    print_splits::<Crc32c>(&rt, "CRC-32C")?;
    print_splits::<End>(&rt, "end hash")
}

// One line with the three numbers of a string.
fn print_numbers(rt: &HostRuntime, label: &str, bytes: &[u8]) -> io::Result<()> {
    let fnv = hash::<Fnv1a>(bytes);
    let crc = hash::<Crc32c>(bytes);
    let end = hash::<End>(bytes);
    let check = hash_joined::<Crc32c>(bytes, &crc.to_le_bytes());
    println!(rt; "{label}: {fnv:08x} {crc:08x} {end:08x} {check:08x}")
}

// One line with the splits that were tried and those that agree.
fn print_splits<H: StringHash>(rt: &HostRuntime, label: &str) -> io::Result<()> {
    let bytes = sample();
    // One loop, and not two sums: of a sum over a range it would stay open that it fits.
    let mut tried = 0;
    let mut agree = 0;
    for len in 0..=bytes.len() {
        tried += len + 1;
        agree += agreeing_splits::<H>(&bytes[..len]);
    }
    println!(rt; "{label}: {agree} of {tried}")
}
