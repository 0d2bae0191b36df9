//! A source of which some bytes were read already.

ghost use Rattle.std.specs.Prelude.{◌<◌, length};
ghost use Rattle.std.specs.Io.{ReadsAtMost};
ghost use Rattle.std.specs.Io.KnownBytes.{ReadConsumes, prepend_known};
ghost use Rattle.par_io.specs.Faults.{HasCause};

use crate::bytes::Bytes;
use par_io::{Failed, Source};

/// One read of a source, unless bytes of it are there: then these are given first.
pub(crate) fn read_ahead<S: Source>(
    ahead: &mut Bytes,
    source: &mut S,
    buf: &mut [u8],
) -> Result<usize, Failed>
    requires room { 0 < length buf.old }
    ensures bound { ReadsAtMost result buf.new }
    ensures bytes { ReadConsumes (prepend_known ahead.old (S.left source.old)) (prepend_known ahead.new (S.left source.new)) result buf.new }
    ensures cause { HasCause (S.faults source.old) (S.faults source.new) result }
{
    if ahead.is_empty() {
        return source.read(buf);
    }
    Ok(ahead.give(buf))
}
