//! The program over hostile inputs and ends: scripts and an image cut at each byte, ends that move a byte a call, each read and each write
//! failing in turn in each form, the largest inputs and outputs there are, which nothing holds, and a script at all its limits.
//!
//! What the cuts of each script must give stands beside it in `data/`, worked out from the grammar by hand, and so does its report.
#![tactic(auto)]

mod cuts;
mod ends;
mod failures;
mod images;
mod largest;
mod limits;
mod running;

use limits::Section;
use std::rt::Files;
use std::{fs, io};

/// The scripts of `data/`.
const SCRIPTS: [&str; 3] = ["bulk-in", "control", "bulk-out"];

/// Of what a script at its limits has one more.
const FURTHER: [(&str, Section); 8] = [
    ("a hub", Section::Hubs),
    ("an endpoint", Section::Endpoints),
    ("a scripted byte", Section::Replies),
    ("a fate", Section::Fates),
    ("a hold", Section::Holds),
    ("a command", Section::Gets),
    ("a step", Section::Steps),
    ("a microframe", Section::Microframes),
];

/// Prints the rows of a script of `data/`.
fn print_script(rt: &(impl Print + Files + AllocGlobal), name: &str) -> io::Result<()> {
    let alloc = rt.alloc();
    let script = fs::read(rt, name)?;
    let table = fs::read_to_string(rt, format!(in alloc; "{name}.cuts")?)?;
    let report = fs::read(rt, format!(in alloc; "{name}.report")?)?;
    let cut = cuts::of_script(alloc, &script, table.as_str())?;
    println!(rt; "{name}, cut: {cut}")?;
    let run = failures::of(alloc, "run", &script, &report, 1)?;
    println!(rt; "{name}, run: {run}")?;
    let check = failures::of(alloc, "check", &script, b"script ok\n", 1)?;
    println!(rt; "{name}, check: {check}")
}

/// Prints the rows of an image.
fn print_image(rt: &(impl Print + AllocGlobal)) -> io::Result<()> {
    let alloc = rt.alloc();
    let image = images::opening(alloc)?;
    println!(rt; "image, cut: {}", cuts::of_image(alloc, &image)?)?;
    let check = failures::of(alloc, "check", &image, b"image ok\n", 64)?;
    println!(rt; "image, check: {check}")?;
    let dump = failures::of(alloc, "dump", &image, images::SHOWN, 64)?;
    println!(rt; "image, dump: {dump}")?;
    let written = failures::of(alloc, "image", images::SCRIPT, &image, 64)?;
    println!(rt; "image, image: {written}")
}

/// Prints the rows of inputs that are neither.
fn print_refusals(rt: &(impl Print + AllocGlobal)) -> io::Result<()> {
    let alloc = rt.alloc();
    let dump = failures::of(alloc, "dump", b"EHCI", b"offset 4: length\n", 1)?;
    println!(rt; "no image, dump: {dump}")?;
    let image_check = failures::of(alloc, "check", b"EHCI", b"offset 4: length\n", 1)?;
    println!(rt; "no image, check: {image_check}")?;
    let run = failures::of(alloc, "run", b"ehci 3\n", b"line 1: version\n", 1)?;
    println!(rt; "no script, run: {run}")?;
    let image = failures::of(alloc, "image", b"ehci 3\n", b"line 1: version\n", 1)?;
    println!(rt; "no script, image: {image}")?;
    let check = failures::of(alloc, "check", b"ehci 3\n", b"line 1: version\n", 1)?;
    println!(rt; "no script, check: {check}")
}

/// Prints the rows of the largest inputs and outputs, and of a script at its limits.
fn print_largest(rt: &(impl Print + AllocGlobal)) -> io::Result<()> {
    let alloc = rt.alloc();
    for row in largest::rows() {
        println!(rt; "{}: {}", row.name, largest::of(alloc, &row)?)?;
    }
    print!(rt; "a script at its limits: {}", limits::check(alloc, None)?)?;
    println!(rt; "a script at its limits, run: {}", limits::is_run(alloc)?)?;
    for (name, section) in FURTHER {
        print!(rt; "{name} more: {}", limits::check(alloc, Some(section))?)?;
    }
    Ok(())
}

fn main(rt: HostRuntime) -> io::Result<()> {
    for name in SCRIPTS {
        print_script(&rt, name)?;
    }
    print_image(&rt)?;
    print_refusals(&rt)?;
    print_largest(&rt)
}
