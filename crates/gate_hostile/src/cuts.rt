use crate::running::{moving, run};
use app_ends::Status;
use std::alloc::{AllocError, Global};

/// All bytes that there are in one call.
const ALL: usize = 1 << 20;

/// A row of a table of cuts: the prefixes of this many to that many bytes all have this line.
#[derive(Clone, Copy)]
struct Row<'t> {
    first: usize,
    last: usize,
    line: &'t str,
}

fn row_of<'t>(text: &'t str) -> Option<Row<'t>> {
    let (first, rest) = text.split_once(' ')?;
    let (last, line) = rest.split_once(' ')?;
    Some(Row {
        first: first.parse::<usize>().ok()?,
        last: last.parse::<usize>().ok()?,
        line,
    })
}

/// Whether the program's line is this one, without its end.
fn is_line(written: &[u8], line: &str) -> bool {
    written.split_last() == Some((&b'\n', line.as_bytes()))
}

/// Whether `check`, `run`, `image` and `dump` say of a cut script what its line in the table says.
fn is_cut_so(alloc: Global, script: &[u8], line: &str) -> Result<bool, AllocError> {
    let sound = line == "script ok";
    let status = if sound { Status::Ok } else { Status::Refused };
    let checked = run(alloc, "check", script, moving(ALL))?;
    let ran = run(alloc, "run", script, moving(ALL))?;
    let imaged = run(alloc, "image", script, moving(ALL))?;
    let dumped = run(alloc, "dump", script, moving(ALL))?;
    let refused = if script.len() < 24 {
        format!(in alloc; "offset {}: length", script.len())?
    } else {
        format!(in alloc; "offset 0: magic")?
    };
    Ok(
        checked.status == status
            && is_line(&checked.written, line)
            && ran.status == status
            && (sound || is_line(&ran.written, line))
            && imaged.status == status
            && (sound && imaged.written.starts_with(b"EHCI") || is_line(&imaged.written, line))
            && dumped.status == Status::Refused
            && is_line(&dumped.written, refused.as_str()),
    )
}

/// What the program says of each prefix of a script, held against the table.
pub fn of_script(alloc: Global, script: &[u8], table: &str) -> Result<String, AllocError> {
    let mut cuts = 0u32;
    let mut alike = 0u32;
    for row in table.lines().filter_map(row_of) {
        for count in row.first..row.last.saturating_add(1) {
            let Some(front) = script.get(..count) else {
                return format!(in alloc; "a cut past the end");
            };
            cuts = cuts.saturating_add(1);
            if is_cut_so(alloc, front, row.line)? {
                alike = alike.saturating_add(1);
            }
        }
    }
    format!(in alloc; "{cuts} prefixes, {alike} as they must be")
}

/// Whether `dump` and `check` refuse a cut image by its length; `check` takes fewer than four bytes for a script.
fn is_refused(alloc: Global, front: &[u8]) -> Result<bool, AllocError> {
    let count = front.len();
    let dumped = run(alloc, "dump", front, moving(ALL))?;
    let checked = run(alloc, "check", front, moving(ALL))?;
    let length = format!(in alloc; "offset {count}: length")?;
    let said = match count {
        0 => "script ok",
        1..=3 => "line 1: version",
        _ => length.as_str(),
    };
    Ok(
        dumped.status == Status::Refused
            && is_line(&dumped.written, length.as_str())
            && is_line(&checked.written, said),
    )
}

/// What the program says of each prefix of an image that isn't all of it.
pub fn of_image(alloc: Global, image: &[u8]) -> Result<String, AllocError> {
    let mut alike = 0u32;
    for count in 0..image.len() {
        if is_refused(alloc, &image[..count])? {
            alike = alike.saturating_add(1);
        }
    }
    format!(in alloc; "{} prefixes, {alike} as they must be", image.len())
}
