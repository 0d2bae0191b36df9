//! Which command a line is: each family of commands is asked in turn. A line that no family knows is no command.

ghost use Rattle.std.specs.Prelude.{◌≡◌, IfSome, option_map};
ghost use Rattle.shell_lines.specs.Requests.{IsAllowed, request_in, request_of};

use crate::barriers::{BarrierCommand, barrier_command};
use crate::chunks::{ChunkCommand, chunk_command};
use crate::contents::{TocCommand, toc_command};
use crate::rings::{RingCommand, ring_command, send_command};
use crate::table::{TableCommand, table_command};
use crate::words::Words;

/// A command.
#[derive(Clone, Copy, Debug, PartialEq, Eq)]
pub enum Command<'a> {
    Chunk(ChunkCommand<'a>),
    Table(TableCommand<'a>),
    Ring(RingCommand<'a>),
    Toc(TocCommand<'a>),
    Barrier(BarrierCommand<'a>),
}

/// The command that a line is, if it is one.
pub fn read_line<'a>(line: &'a [u8]) -> Option<Command<'a>>
    ensures command { option_map request_of result ≡ request_in line.now }
    ensures allowed { IfSome result (λ c. IsAllowed (request_of c)) }
{
    if let Some(send) = send_command(line) {
        return Some(Command::Ring(send));
    }
    let words = Words::of(line)?;
    let words = words.as_slice();
    if let Some(chunk) = chunk_command(words) {
        return Some(Command::Chunk(chunk));
    }
    if let Some(table) = table_command(words) {
        return Some(Command::Table(table));
    }
    if let Some(ring) = ring_command(words) {
        return Some(Command::Ring(ring));
    }
    if let Some(toc) = toc_command(words) {
        return Some(Command::Toc(toc));
    }
    let barrier = barrier_command(words)?;
    Some(Command::Barrier(barrier))
}
