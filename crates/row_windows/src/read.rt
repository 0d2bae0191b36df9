//! Reading into a growing buffer.

ghost use Rattle.std.specs.Prelude.{◌≡◌, ◌<◌, ◌≤◌, ◌+◌, ◌-◌, IfErr, IfOk, OnErr, drop, false, length, max, take, true, vec_len};
ghost use Rattle.std.specs.Io.KnownBytes.{Consumes, IsAtEnd, Keeps};
ghost use Rattle.par_io.specs.Faults.{HasCause, Rose};
ghost use Rattle.row_windows.specs.Stretch.{LosesRead};
ghost use Rattle.row_windows.specs.declared.window.WindowAnswer.TheVariants as answer;

use crate::window::WindowAnswer;
use par_io::Source;

/// What a reading came to.
#[derive(Drop)]
pub(crate) struct Filled {
    /// Up to where the buffer is filled.
    pub(crate) upto: usize,
    /// Whether the source is at its end.
    pub(crate) ended: bool,
}

/// Reads into a buffer, behind the bytes that are filled, up to a place or to the end of the source. Each read takes
/// at least a byte, so it returns.
pub(crate) fn read_to<S: Source>(
    source: &mut S,
    text: &mut Vec<u8>,
    filled: usize,
    upto: usize,
) -> Result<Filled, WindowAnswer>
    requires { filled ≤ vec_len text.old }
    ensures front { take filled text.new.items ≡ take filled text.old.items }
    ensures size { filled ≤ vec_len text.new }
    ensures low { IfOk result (λ r. filled ≤ r.upto) }
    ensures high { IfOk result (λ r. r.upto ≤ vec_len text.new) }
    ensures bound { IfOk result (λ r. r.upto ≤ max filled upto) }
    ensures read { IfOk result (λ r. Consumes (S.left source.old) (S.left source.new) (take (r.upto - filled) (drop filled text.new.items))) }
    ensures end { IfOk result (λ r. r.ended ≡ true → IsAtEnd (S.left source.new)) }
    ensures full { IfOk result (λ r. r.ended ≡ false → upto ≤ r.upto) }
    ensures lost { OnErr result (LosesRead (S.left source.old) (S.left source.new) filled upto) }
    ensures read_fault { result ≡ Err answer.ReadFault → Rose (S.faults source.old) (S.faults source.new) }
    ensures faults { S.faults source.old ≤ S.faults source.new }
    ensures why { IfErr result (λ why. (why ≡ answer.LongRecord) → ⊥) }
{
    if filled >= upto {
        return Ok(Filled {
            upto: filled,
            ended: false,
        });
    }
    if text.resize(upto, 0).is_err() {
        return Err(WindowAnswer::Memory);
    }
    fill_from(source, text.as_mut_slice(), filled)
}

/// Reads into a buffer from a place on, up to its end.
fn fill_from<S: Source>(source: &mut S, buf: &mut [u8], from: usize) -> Result<Filled, WindowAnswer>
    requires { from ≤ length buf.old }
    ensures front { take from buf.new ≡ take from buf.old }
    ensures length { length buf.new ≡ length buf.old }
    ensures low { IfOk result (λ r. from ≤ r.upto) }
    ensures high { IfOk result (λ r. r.upto ≤ length buf.new) }
    ensures read { IfOk result (λ r. Consumes (S.left source.old) (S.left source.new) (take (r.upto - from) (drop from buf.new))) }
    ensures end { IfOk result (λ r. r.ended ≡ true → IsAtEnd (S.left source.new)) }
    ensures full { IfOk result (λ r. r.ended ≡ false → length buf.new ≤ r.upto) }
    ensures lost { OnErr result (LosesRead (S.left source.old) (S.left source.new) from (length buf.old)) }
    ensures cause { OnErr result (Rose (S.faults source.old) (S.faults source.new)) }
    ensures faults { S.faults source.old ≤ S.faults source.new }
    ensures why { IfErr result (λ why. why ≡ answer.ReadFault) }
{
    let mut filled = from;
    'reads: while filled < buf.len() {
        match read_at(source, buf, filled) {
            Ok(0) => return Ok(Filled {
                upto: filled,
                ended: true,
            }),
            Ok(count) => filled += count,
            Err(why) => return Err(why),
        }
    }
    Ok(Filled {
        upto: filled,
        ended: false,
    })
}

/// One read into a buffer from this place on.
fn read_at<S: Source>(source: &mut S, buf: &mut [u8], at: usize) -> Result<usize, WindowAnswer>
    requires { at < length buf.old }
    ensures front { take at buf.new ≡ take at buf.old }
    ensures length { length buf.new ≡ length buf.old }
    ensures fits { IfOk result (λ n. at + n ≤ length buf.new) }
    ensures read { IfOk result (λ n. Consumes (S.left source.old) (S.left source.new) (take n (drop at buf.new))) }
    ensures end { IfOk result (λ n. n ≡ 0 → IsAtEnd (S.left source.new)) }
    ensures kept { OnErr result (Keeps (S.left source.old) (S.left source.new)) }
    ensures cause { HasCause (S.faults source.old) (S.faults source.new) result }
    ensures why { IfErr result (λ e. e ≡ answer.ReadFault) }
{
    source
        .read(&mut buf[at..])
        .map_err(|_| WindowAnswer::ReadFault)
}
