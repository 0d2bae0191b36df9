//! The shell: what its commands work on, and which family a line goes to.

ghost use Rattle.std.specs.Prelude.{◌≤◌, IfOk, OnOk};
ghost use Rattle.par_shell.specs.Lines.{IsAnswered, IsShell, Opens};

use dsa_area::area_words;
use region_words::Region;
use shell_lines::{Command, read_line};
use shell_memory::{Cells, Chunks, Contents, Heap, TOC_WORDS, plain};
use shell_sync::{Barriers, Rings};
use std::alloc::{AllocError, Global};
use std::sync::Wait;

/// The answer to a line that is no command.
const UNKNOWN: &str = "?";

/// A region with a table of contents and an area after it, and all that commands made in it.
#[derive(Drop)]
pub struct Shell {
    region: Region,
    heap: Heap,
    chunks: Chunks,
    cells: Cells,
    rings: Rings,
    contents: Contents,
    barriers: Barriers,
}

impl Shell {
    /// A shell with an area of this many pages, in which nothing has a name. It takes memory for the region, 4,160
    /// bytes a page, and for the locks of the area.
    #[tactic(auto, using(word_map::proofs::Maps::answers, std::proofs::lemmas::Bool::Decides::nat_tests))]
    pub fn new(alloc: Global, pages: u32) -> Result<Shell, AllocError>
        requires few { pages ≤ 4096 }
        ensures shell { IfOk result (λ s. IsShell s) }
        ensures opens { IfOk result (λ s. Opens pages s) }
    {
        let words = area_words(pages);
        let (region, mut part) = Region::new(alloc, (TOC_WORDS + words) as usize)?;
        let chunk = part.split_chunk(&region, TOC_WORDS, words);
        let heap = Heap::new(alloc, &region, chunk, pages)?;
        let contents = Contents::new(&region, part);
        Ok(Shell {
            region,
            heap,
            chunks: Chunks::new(alloc),
            cells: Cells::new(),
            rings: Rings::new(alloc),
            contents,
            barriers: Barriers::new(alloc),
        })
    }

    /// Answers one line, without its line feed. After an error the shell is only dropped. It costs what the one call
    /// that the command makes costs, the length of the line and of the answer, and a look-up of the name.
    pub fn line<R: Wait>(
        &mut self,
        rt: &R,
        alloc: Global,
        line: &[u8],
    ) -> Result<Vec<u8>, AllocError>
        requires shell { IsShell self.old }
        ensures shell { OnOk result (IsShell self.new) }
        ensures answer { IfOk result (λ answer. IsAnswered self.old self.new line.now answer.items) }
    {
        let r = &self.region;
        match read_line(line) {
            Some(Command::Chunk(asked)) => {
                let heap = &mut self.heap;
                self.chunks.answer(rt, alloc, r, heap, asked)
            }
            Some(Command::Table(asked)) => {
                let heap = &mut self.heap;
                self.cells.answer(rt, alloc, r, heap, asked)
            }
            Some(Command::Ring(asked)) => {
                let heap = &mut self.heap;
                self.rings.answer(rt, alloc, r, heap, asked)
            }
            Some(Command::Toc(asked)) => {
                let chunks = &mut self.chunks;
                self.contents.answer(alloc, r, chunks, asked)
            }
            Some(Command::Barrier(asked)) => self.barriers.answer(rt, alloc, asked),
            None => plain(alloc, UNKNOWN),
        }
    }
}
