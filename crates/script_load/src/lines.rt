ghost use Rattle.std.specs.Prelude.{◌≡◌, ◌≤◌, ◌+◌, ◌*◌, ◌^◌, ◌%◌, ◌++◌, nat_lt, length, codes, if◌then◌else◌};
ghost use Rattle.script_load.specs.Load.{address, is_in, load_of, period, long, length_of, seed_of, end_words, ep_words, hub_words, device_line, kind_words, endpoint_line, fill_words, reply_line, open_lines, get_line, put_line, transfer_lines, piece};

use crate::draws::draw_at;
use crate::parts::{Load, LoadPart};
use report_text::Text;

/// The address of the device of endpoint i.
fn address(i: u32) -> u32
    requires { i ≤ 39 }
    ensures address { result ≡ address i }
    ensures small { result ≤ 20 }
{
    i / 2 + 1
}

/// Whether endpoint i is an IN.
fn is_in(i: u32) -> bool
    ensures { result ≡ is_in i }
{
    i % 2 == 0
}

fn load_of(i: u32) -> Load
    ensures { result ≡ load_of i }
{
    if i < 20 {
        Load::Bulk512
    } else if is_in(i) {
        Load::Interrupt
    } else {
        Load::Bulk64
    }
}

/// 8 times a power of two up to 8.
fn period_by(draw: u32) -> u32
    ensures period { result ≡ 8 * 2 ^ (draw % 4) }
    ensures small { result ≤ 64 }
{
    match draw % 4 {
        0 => 8,
        1 => 16,
        2 => 32,
        _ => 64,
    }
}

/// The period of an interrupt endpoint i, in microframes.
fn period(draws: &[u16], i: u32) -> u32
    requires { i ≤ 39 }
    ensures period { result ≡ period draws.now i }
    ensures small { result ≤ 64 }
{
    period_by(draw_at(draws, address(i).saturating_sub(11) as usize))
}

fn long(load: Load, draw: u32) -> u32
    requires { draw ≤ 65535 }
    ensures long { result ≡ long load draw }
    ensures small { result ≤ 9000 }
{
    match load {
        Load::Bulk512 => 512 + draw % 8_192,
        Load::Bulk64 => 64 * (1 + draw % 32),
        Load::Interrupt => 8 * (1 + draw % 16),
    }
}

/// How many bytes endpoint i moves.
fn length_of(draws: &[u16], i: u32) -> u32
    requires { i ≤ 39 }
    ensures { result ≡ length_of draws.now i }
{
    long(load_of(i), draw_at(draws, 10 + 2 * i as usize))
}

/// The first of these bytes.
fn seed_of(draws: &[u16], i: u32) -> u32
    requires { i ≤ 39 }
    ensures { result ≡ seed_of draws.now i }
{
    draw_at(draws, 11 + 2 * i as usize) % 256
}

/// Appends an endpoint's address, number and way.
fn put_endpoint(text: &mut Text, i: u32)
    requires place { i ≤ 39 }
    requires room { length text.old + 17 ≤ 64 }
    ensures text { text.new ≡ text.old ++ ep_words i }
    ensures size { length text.new ≤ length text.old + 17 }
{
    text.put_number(address(i));
    text.put(if is_in(i) { " 1 in" } else { " 2 out" });
}

/// Appends where a device behind a hub is plugged in.
fn put_hub(text: &mut Text, k: u32)
    requires place { k ≤ 20 }
    requires room { length text.old + 20 ≤ 64 }
    ensures text { text.new ≡ text.old ++ hub_words k }
    ensures size { length text.new ≤ length text.old + 20 }
{
    if k < 16 {
        text.put(" full 101 ");
        text.put_number(k.saturating_sub(10));
    } else {
        text.put(" full 102 ");
        text.put_number(k.saturating_sub(15));
    }
}

fn put_speed(text: &mut Text, k: u32)
    requires place { k ≤ 20 }
    requires room { length text.old + 20 ≤ 64 }
    ensures text { text.new ≡ text.old ++ (if nat_lt k 11 then codes " high" else hub_words k) }
    ensures size { length text.new ≤ length text.old + 20 }
{
    if k < 11 {
        text.put(" high");
    } else {
        put_hub(text, k);
    }
}

/// The line of device k.
fn device_line(k: u32) -> Text
    requires { k ≤ 20 }
    ensures { result ≡ device_line k }
{
    let mut text = Text::new();
    text.put("dev ");
    text.put_number(k);
    put_speed(&mut text, k);
    text.put("\n");
    text
}

fn put_kind(text: &mut Text, load: Load, period: u32)
    requires room { length text.old + 25 ≤ 64 }
    ensures text { text.new ≡ text.old ++ kind_words load period }
    ensures size { length text.new ≤ length text.old + 25 }
{
    match load {
        Load::Bulk512 => text.put(" bulk 512"),
        Load::Bulk64 => text.put(" bulk 64"),
        Load::Interrupt => {
            text.put(" interrupt 8 ");
            text.put_number(period);
            text.put(" 1");
        }
    }
}

/// The line of endpoint i.
fn endpoint_line(draws: &[u16], i: u32) -> Text
    requires { i ≤ 39 }
    ensures { result ≡ endpoint_line draws.now i }
{
    let mut text = Text::new();
    text.put("ep ");
    put_endpoint(&mut text, i);
    put_kind(&mut text, load_of(i), period(draws, i));
    text.put("\n");
    text
}

/// Appends the bytes of an endpoint, by their number and the first.
fn put_fill(text: &mut Text, draws: &[u16], i: u32)
    requires place { i ≤ 39 }
    requires room { length text.old + 27 ≤ 64 }
    ensures text { text.new ≡ text.old ++ fill_words draws.now i }
    ensures size { length text.new ≤ length text.old + 27 }
{
    text.put(" fill ");
    text.put_number(length_of(draws, i));
    text.put(" ");
    text.put_number(seed_of(draws, i));
}

/// What endpoint i sends, if it is an IN.
fn reply_line(draws: &[u16], i: u32) -> Text
    requires { i ≤ 39 }
    ensures { result ≡ reply_line draws.now i }
{
    let mut text = Text::new();
    if !is_in(i) {
        return text;
    }
    text.put("reply ");
    put_endpoint(&mut text, i);
    put_fill(&mut text, draws, i);
    text.put("\n");
    text
}

/// The lines that open endpoint i.
fn open_lines(i: u32) -> Text
    requires { i ≤ 39 }
    ensures { result ≡ open_lines i }
{
    let mut text = Text::new();
    text.put("open ");
    put_endpoint(&mut text, i);
    text.put("\norder d 2000\n");
    text
}

fn put_get(text: &mut Text, draws: &[u16], i: u32)
    requires place { i ≤ 39 }
    requires room { length text.old + 32 ≤ 64 }
    ensures text { text.new ≡ text.old ++ get_line draws.now i }
    ensures size { length text.new ≤ length text.old + 32 }
{
    text.put("get ");
    put_endpoint(text, i);
    text.put(" ");
    text.put_number(length_of(draws, i));
}

fn put_put(text: &mut Text, draws: &[u16], i: u32)
    requires place { i ≤ 39 }
    requires room { length text.old + 48 ≤ 64 }
    ensures text { text.new ≡ text.old ++ put_line draws.now i }
    ensures size { length text.new ≤ length text.old + 48 }
{
    text.put("put ");
    put_endpoint(text, i);
    put_fill(text, draws, i);
}

fn put_transfer(text: &mut Text, draws: &[u16], i: u32)
    requires place { i ≤ 39 }
    requires room { length text.old + 48 ≤ 64 }
    ensures text { text.new ≡ text.old ++ (if is_in i then get_line draws.now i else put_line draws.now i) }
    ensures size { length text.new ≤ length text.old + 48 }
{
    if is_in(i) {
        put_get(text, draws, i);
    } else {
        put_put(text, draws, i);
    }
}

/// The lines of the transfer of endpoint i.
fn transfer_lines(draws: &[u16], i: u32) -> Text
    requires { i ≤ 39 }
    ensures { result ≡ transfer_lines draws.now i }
{
    let mut text = Text::new();
    put_transfer(&mut text, draws, i);
    text.put("\norder d 100\n");
    text
}

/// What a part of the script says of endpoint i, or of device i + 1.
pub(crate) fn piece(part: LoadPart, draws: &[u16], i: u32) -> Text
    requires place { i ≤ 39 }
    requires devices { part ≡ LoadPart.Devices → i ≤ 19 }
    ensures { result ≡ piece part draws.now i }
{
    match part {
        LoadPart::Devices => device_line(i + 1),
        LoadPart::Endpoints => endpoint_line(draws, i),
        LoadPart::Replies => reply_line(draws, i),
        LoadPart::Opens => open_lines(i),
        LoadPart::Transfers => transfer_lines(draws, i),
    }
}
