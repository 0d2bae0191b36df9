//! The bytes of a source, window by window.

ghost use Rattle.std.specs.Prelude.{◌≡◌, ◌++◌, [], false, true, IfOk, OnOk};
ghost use Rattle.std.specs.Io.KnownBytes.{IsAtEnd};
ghost use Rattle.row_windows.specs.Seams.{IsSeam};
ghost use Rattle.row_windows.specs.Stretch.{Fills};

use csv_rows::Reading;
use par_io::{MemSource, Source};
use row_windows::{Window, WindowAnswer};
use std::alloc::Global;
use std::test::Fail;

/// Fills a window after another: the caller of CALLING.md. Says whether its lines are the source's last.
fn next_window<S: Source>(
    before: &Window,
    next: &mut Window,
    source: &mut S,
    size: usize,
) -> Result<bool, WindowAnswer>
    ensures header { OnOk result (next.new.header ≡ before.now.header) }
    ensures reads { OnOk result (Fills (S.left source.old) (S.left source.new) before.now.rest (next.new.lines ++ next.new.rest)) }
    ensures seam { IfOk result (λ last. last ≡ false → IsSeam next.new.lines next.new.rest) }
    ensures last { IfOk result (λ last. last ≡ true → (next.new.rest ≡ []) × IsAtEnd (S.left source.new)) }
{
    match next.follow(before) {
        Ok(()) => next.fill(source, size),
        Err(_) => Err(WindowAnswer::Memory),
    }
}

/// The lines of each window of a source, with a bar after them. Ten windows at most.
fn windows_of(alloc: Global, source: &mut MemSource, size: usize) -> Result<Vec<u8>, WindowAnswer> {
    let mut text = Vec::new(alloc);
    let mut before = Window::new(alloc, &Reading::plain());
    for _ in 0..10 {
        let mut next = Window::new(alloc, &Reading::plain());
        let last = next_window(&before, &mut next, source, size)?;
        if text.extend_from_slice(next.table()).is_err() || text.push(b'|').is_err() {
            return Err(WindowAnswer::Memory);
        }
        if last {
            return Ok(text);
        }
        before = next;
    }
    Ok(text)
}

#[test]
fn lines_of_windows(rt: HostRuntime) -> Result<(), Fail> {
    let bytes = Vec::from_slice(rt.alloc(), b"g,v\na,1\n\"b\n\",2\n")?;
    let mut source = MemSource::new(bytes, 3, Vec::new(rt.alloc()));
    let Ok(text) = windows_of(rt.alloc(), &mut source, 6) else {
        return Err(Fail::new("no windows"));
    };
    assert_eq!(rt; text.as_slice(), b"g,v|\na,1|\n\"b\n\",2\n|".as_slice());
    Ok(())
}
