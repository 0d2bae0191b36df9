//! The windows of a source: how one is filled, and how the first is parted from its header.

ghost use Rattle.std.specs.Prelude.{◌≡◌, ◌<◌, ◌≤◌, ◌+◌, ◌^◌, ◌++◌, ◌∷◌, ◌⊎◌, [], ℕ, List, Option, Err, IfErr, IfOk, OnErr, OnOk, length, map, string_bytes, true};
ghost use Rattle.std.specs.Io.KnownBytes.{IsAtEnd};
ghost use Rattle.csv_rows.specs.Cuts.{IsCut};
ghost use Rattle.csv_rows.specs.Readings.{exchanged, records_as, records_in};
ghost use Rattle.csv_rows.specs.Records.{record_at};
ghost use Rattle.csv_rows.specs.declared.records.RowsAnswer.TheVariants as parsing;
ghost use Rattle.par_io.specs.Faults.{Rose};
ghost use Rattle.row_blocks.specs.Blocks.{Table};
ghost use Rattle.row_windows.specs.Stretch.{IsLostWindow};
ghost use Rattle.row_windows.specs.declared.window.TheConstants.{MOST_RECORD_BYTES};
ghost use Rattle.row_windows.specs.declared.window.WindowAnswer.TheVariants as answer;
ghost use Rattle.split_run.specs.Pieces.{piece_records};
ghost use Rattle.text_lines.specs.Feeds.{count_feeds};
ghost use Rattle.stream_groups.specs.Before.{ReadBefore};
ghost use Rattle.stream_groups.specs.Begins.{IsLined};
ghost use Rattle.stream_groups.specs.Reading.{HasHeader, HasPart, IsFilled, IsFirst, IsLike, IsNotFilled, Reaches};
ghost use Rattle.stream_groups.specs.Stops.{IsStopOfLong, IsStopOfWindow, SaysOfLong, Tells};
ghost use Rattle.stream_groups.specs.Taken.{Takes};
ghost use Rattle.stream_groups.specs.Ways.{of_text};
ghost use Rattle.stream_groups.specs.declared.stop.Stop.TheVariants as stop;

use crate::batch::MOST_FEEDS;
use crate::place::place_of_long;
use crate::stop::Stop;
use crate::taken::Taken;
use csv_rows::{Reading, RowStore, RowsAnswer, exchange, rows_as};
use par_io::Source;
use plan_spec::Plan;
use row_windows::{Window, WindowAnswer, header_end};
use std::alloc::{AllocError, Global};
use std::sync::Wait;
use text_lines::line_feeds;

/// A window that begins with the header, whose record is beside it, whether it is the last, and how many line feeds come
/// before its lines.
#[derive(Drop)]
pub struct First {
    /// The window, which begins with the bytes of the header's line.
    pub window: Window,
    /// The header's record, alone.
    pub header: RowStore,
    /// Whether the source has ended.
    pub is_last: bool,
    /// Those of all bytes up to the end of the header's line.
    pub feeds: u64,
}

/// The line in which a record begins, and what is said of it.
#[derive(Drop)]
struct LongSaid {
    line: u64,
    said: String,
}

/// The first window that has a record, with its fields read so. It has `size` bytes, or more if its first record is longer.
pub fn first_window<R: Wait, S: Source>(
    rt: &R,
    alloc: Global,
    reading: &Reading,
    source: &mut S,
    size: usize,
    taken: &mut Taken,
) -> Result<First, Stop>
    ensures header { IfOk result (λ f. HasHeader f.header f.window f.is_last) }
    ensures reading { IfOk result (λ f. f.window.reading ≡ reading.now) }
    ensures reaches { IfOk result (λ f. Reaches reading.now (S.left source.old) (S.left source.new) (piece_records f.window) (f.feeds + count_feeds f.window.lines) f.window.rest f.is_last) }
    ensures part { IfOk result (λ f. 0 < length f.window.lines → HasPart reading.now (S.left source.old) (S.left source.new) (record_at f.header 0 ∷ []) f.feeds (f.window ∷ []) f.window.rest) }
    ensures lined { IfOk result (λ f. IsLined reading.now f.window) }
    ensures few { IfOk result (λ f. f.feeds ≤ 2 ^ 60) }
    ensures end { IfOk result (λ f. f.is_last ≡ true → IsAtEnd (S.left source.new)) }
    ensures taken { Takes (S.left source.old) (S.left source.new) (S.faults source.old) (S.faults source.new) taken.old taken.new }
    ensures why { IfErr result (λ why. (query : _) → Tells (of_text reading.now) query (S.left source.old) why) }
    ensures read_fault { IfErr result (λ why. why ≡ stop.ReadFault → Rose (S.faults source.old) (S.faults source.new)) }
    ensures read_before { IfErr result (λ why. why ≡ stop.ReadFault → (query : _) → ReadBefore (of_text reading.now) query (S.left source.old) (S.left source.new) (MOST_RECORD_BYTES + 1)) }
    ensures faults { S.faults source.old ≤ S.faults source.new }
    ensures no_write { IfErr result (λ why. (why ≡ stop.WriteFault) → ⊥) }
{
    let mut window = Window::new(alloc, reading);
    let mut feeds = 0;
    for _ in rt.forever() {
        let is_last = match fill(&mut window, source, size, taken) {
            Ok(is_last) => is_last,
            Err(why) => return Err(stop_of_window(alloc, why, 0, feeds, window.rest())),
        };
        match part_header(alloc, &mut window) {
            Ok(header) => return first_of(window, header, is_last, feeds),
            Err(RowsAnswer::NoHeader) if is_last => return Err(Stop::NoHeader),
            Err(RowsAnswer::NoHeader) => {}
            Err(_) => return Err(Stop::Memory),
        }
        feeds = more_feeds(feeds, window.lines())?;
        window = behind(alloc, &window)?;
    }
    unreachable!()
}

/// The first window that has a record, which is the header's. This many line feeds come before that one's line.
fn first_of(window: Window, header: RowStore, is_last: bool, feeds: u64) -> Result<First, Stop>
    requires { feeds ≤ 2 ^ 60 }
    ensures first { IfOk result (IsFirst window header is_last feeds) }
    ensures why { IfErr result (λ why. why ≡ stop.Memory) }
{
    let feeds = more_feeds(feeds, window.header())?;
    Ok(First {
        window,
        header,
        is_last,
        feeds,
    })
}

/// This many line feeds and those of some bytes, unless they are too many.
pub fn more_feeds(feeds: u64, bytes: &[u8]) -> Result<u64, AllocError>
    requires { feeds ≤ 2 ^ 60 }
    ensures more { IfOk result (λ more. more ≡ feeds + count_feeds bytes.now) }
    ensures few { IfOk result (λ more. more ≤ 2 ^ 60) }
{
    let count = line_feeds(bytes);
    let more = feeds + count;
    if more > MOST_FEEDS {
        return Err(AllocError);
    }
    Ok(more)
}

/// A window that begins as the one behind another.
fn behind(alloc: Global, before: &Window) -> Result<Window, Stop>
    ensures like { IfOk result (IsLike before.now) }
    ensures lines { IfOk result (λ next. next.lines ≡ []) }
    ensures rest { IfOk result (λ next. next.rest ≡ before.now.rest) }
    ensures why { IfErr result (λ why. why ≡ stop.Memory) }
{
    let mut next = Window::new(alloc, before.reading());
    next.follow(before)?;
    Ok(next)
}

/// Fills a window, and says whether it is the last. The bytes that the source gave are counted.
pub(crate) fn fill<S: Source>(
    window: &mut Window,
    source: &mut S,
    size: usize,
    taken: &mut Taken,
) -> Result<bool, WindowAnswer>
    requires { window.old.lines ≡ [] }
    ensures filled { IfOk result (IsFilled (S.left source.old) (S.left source.new) window.old window.new) }
    ensures why { IfErr result (IsNotFilled (S.left source.old) (S.left source.new) (S.faults source.old) (S.faults source.new) window.old window.new) }
    ensures lost { result ≡ Err answer.ReadFault → IsLostWindow (S.left source.old) (S.left source.new) window.old }
    ensures faults { S.faults source.old ≤ S.faults source.new }
    ensures taken { Takes (S.left source.old) (S.left source.new) (S.faults source.old) (S.faults source.new) taken.old taken.new }
{
    let had = window.rest().len();
    let filled = window.fill(source, size);
    *taken = taken.after_filling(&filled, had, window);
    filled
}

/// The reason for a window that was not filled, before which there are this many records and line feeds: what was read of it,
/// if a record is too long, is this text.
pub fn stop_of_window(alloc: Global, why: WindowAnswer, row: u64, feeds: u64, text: &[u8]) -> Stop
    requires { feeds ≤ 2 ^ 60 }
    ensures { IsStopOfWindow why row feeds text.now result }
{
    match why {
        WindowAnswer::ReadFault => Stop::ReadFault,
        WindowAnswer::LongRecord => stop_of_long(alloc, row, feeds, text),
        WindowAnswer::Memory => Stop::Memory,
    }
}

/// The reason that a record is too long, or out of memory.
fn stop_of_long(alloc: Global, row: u64, feeds: u64, text: &[u8]) -> Stop
    requires { feeds ≤ 2 ^ 60 }
    ensures { IsStopOfLong row feeds text.now result ⊎ (result ≡ stop.Memory) }
{
    match long_says(alloc, feeds, text) {
        Ok(place) => Stop::LongRecord(row, place.line, place.said),
        Err(AllocError) => Stop::Memory,
    }
}

/// The line in which a record begins that is too long, and what is said of it.
fn long_says(alloc: Global, feeds: u64, text: &[u8]) -> Result<LongSaid, AllocError>
    requires { feeds ≤ 2 ^ 60 }
    ensures { IfOk result (λ long. SaysOfLong feeds text.now long.line (string_bytes long.said)) }
{
    let place = place_of_long(alloc, text, feeds)?;
    let mut said = String::from_str(alloc, "longer than 67108864 bytes")?;
    said.push_str(place.quote.as_str())?;
    Ok(LongSaid {
        line: place.line,
        said,
    })
}

/// Makes the line of the header, which the window's lines begin with, that of the windows behind it, and gives its record.
fn part_header(alloc: Global, window: &mut Window) -> Result<RowStore, RowsAnswer>
    requires none { window.old.header ≡ [] }
    ensures reading { window.new.reading ≡ window.old.reading }
    ensures one { IfOk result (λ header. length header ≡ 1) }
    ensures record { IfOk result (λ header. header ≡ records_as window.old.reading window.new.header) }
    ensures first { OnOk result ((more : Table) × (records_as window.old.reading window.old.lines ≡ records_as window.old.reading window.new.header ++ more)) }
    ensures same { OnOk result (window.new.header ++ window.new.lines ≡ window.old.lines) }
    ensures cut { OnOk result (IsCut window.old.lines → IsCut window.new.header) }
    ensures front { OnOk result (0 < length window.new.lines → IsCut window.new.header) }
    ensures lined { OnOk result (IsLined window.old.reading window.new) }
    ensures rest { window.new.rest ≡ window.old.rest }
    ensures err { OnErr result (window.new ≡ window.old) }
    ensures no_header { result ≡ Err parsing.NoHeader → records_as window.old.reading window.old.lines ≡ [] }
{
    let lines = window.table();
    let at = header_end(lines).unwrap_or(lines.len());
    match rows_as(alloc, window.reading(), &lines[..at]) {
        Ok(header) => {
            window.set_header(at);
            Ok(header)
        }
        Err(why) => Err(why),
    }
}

/// The line of a window's header as it is in the input.
pub(crate) fn header_line(
    alloc: Global,
    plan: &Plan,
    window: &Window,
) -> Result<Vec<u8>, AllocError>
    ensures { IfOk result (λ line. records_in plan.now.reading line.items ≡ records_as plan.now.reading window.now.header) }
{
    let line = Vec::from_slice(alloc, window.header())?;
    Ok(exchanged_line(line, plan.reading().separator))
}

/// A line in which the comma and the separator are exchanged.
fn exchanged_line(mut line: Vec<u8>, separator: u8) -> Vec<u8>
    ensures { result.items ≡ map (exchanged separator) line.items }
{
    exchange(line.as_mut_slice(), separator);
    line
}
