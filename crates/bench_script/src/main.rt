//! Reads a script of about one mebibyte: 30 devices, 240 endpoints, 4,000 fates, and as many replies as fit. The words on
//! standard input, none, change nothing; `bench/script.sh` times it.
#![tactic(auto)]

use script_text::parse;
use std::alloc::{AllocError, Global};
use std::io;

/// Puts a number's digits at the end.
fn push_number(text: &mut Vec<u8>, n: u32) -> Result<(), AllocError> {
    if n >= 1_000 {
        text.push(b'0' + (n / 1_000 % 10) as u8)?;
    }
    if n >= 100 {
        text.push(b'0' + (n / 100 % 10) as u8)?;
    }
    if n >= 10 {
        text.push(b'0' + (n / 10 % 10) as u8)?;
    }
    text.push(b'0' + (n % 10) as u8)?;
    Ok(())
}

/// Puts a line's first word and an IN endpoint at the end.
fn push_named(text: &mut Vec<u8>, word: &[u8], addr: u32, num: u32) -> Result<(), AllocError> {
    text.extend_from_slice(word)?;
    push_number(text, addr)?;
    text.push(b' ')?;
    push_number(text, num)?;
    text.extend_from_slice(b" in ")?;
    Ok(())
}

/// The text.
fn script(alloc: Global) -> Result<Vec<u8>, AllocError> {
    let mut text = Vec::from_slice(alloc, b"ehci 1\n")?;
    for addr in 1..31 {
        text.extend_from_slice(b"dev ")?;
        push_number(&mut text, addr)?;
        text.extend_from_slice(b" high\n")?;
        for num in 1..9 {
            push_named(&mut text, b"ep ", addr, num)?;
            text.extend_from_slice(b"bulk 512\n")?;
        }
    }
    for k in 0..4_000 {
        push_named(&mut text, b"fate ", 1 + k % 30, 1 + k % 8)?;
        text.extend_from_slice(b"high ")?;
        push_number(&mut text, k)?;
        text.extend_from_slice(b" lost\n")?;
    }
    for k in 0..39_300 {
        push_named(&mut text, b"reply ", 1 + k % 30, 1 + k % 8)?;
        text.extend_from_slice(b"fill 90 7\n")?;
    }
    Ok(text)
}

fn main(rt: HostRuntime) -> io::Result<()> {
    let Ok(text) = script(rt.alloc()) else {
        println!(rt; "no memory")?;
        return Ok(());
    };
    let bytes = text.len();
    match parse(rt.alloc(), text.as_slice()) {
        Ok(script) => {
            let devices = script.devices.as_slice().len();
            println!(rt; "{bytes} bytes, {devices} devices")?;
        }
        Err(_) => println!(rt; "{bytes} bytes, a fault")?,
    }
    Ok(())
}
