//! A whole script, from the words of a command line to an exit status.
//!
//! The words come first, then the reading, and then each line in turn. Answers are gathered and written by the piece;
//! so `out` has received a prefix of them at any moment, and all of them at the end.

ghost use Rattle.std.specs.Prelude.{◌≡◌, ◌≢◌, ◌⊎◌, ◌<◌, ◌≤◌, ◌++◌, ◌∷◌, [], ℕ, List, Contains, Err, IfErr, IfNone, IfOk, IfSome, IsNone, None, OnErr, OnOk, Some, length, take};
ghost use Rattle.std.specs.Io.KnownBytes.{Appends};
ghost use Rattle.par_io.specs.Faults.{Rose};
ghost use Rattle.par_shell.specs.Lines.{IsShell};
ghost use Rattle.par_shell.specs.Scripts.{Answers, AnswersPart, IsPart, IsRun, IsSaid, line_of, lines_of, pages_in, statuses, texts};
ghost use Rattle.par_io.specs.Reads.{ReadsCount};
ghost use Rattle.par_shell.specs.declared.shell.Shell.{Shell};
ghost use Rattle.par_shell.specs.declared.stop.Stop.TheVariants as stop;
ghost use Rattle.par_shell.specs.declared.status.TheConstants.{MISUSED, NO_MEMORY, READ_FAULT, TOO_LARGE, WRITE_FAULT};

use crate::script::read_script;
use crate::shell::Shell;
use crate::status::ANSWERED;
use crate::stop::Stop;
use par_io::{Sink, Source, write_whole};
use shell_lines::{number, place_of};
use std::alloc::{AllocError, Global};
use std::sync::Wait;

/// How many pages the area has if the words do not say.
const USUAL_PAGES: u32 = 64;

/// The most pages that the words may ask for.
const MOST_PAGES: u64 = 4096;

/// The most digits of a number of pages.
const MOST_DIGITS: usize = 4;

/// How many bytes of answers are gathered before they are written.
const PIECE: usize = 65_536;

/// Answers the lines of the script that `source` has left, in a new shell, one answer line for each on `out`; and
/// returns the exit status. `words` are those after the program's name: none, or `--pages` and a number. On 0 `left`
/// holds the shell as the last line left it, and on every other status it is None, and `err` receives a line.
///
/// Each line costs what `Shell::line` does. Memory is the script, the shell, and some 64 KiB of answers.
pub fn parsh<R: Wait, S: Source, O: Sink, E: Sink>(
    rt: &R,
    alloc: Global,
    words: &[String],
    source: &mut S,
    out: &mut O,
    err: &mut E,
    left: &mut Option<Shell>,
) -> u8
    // There is no other status, and 2 is answered only for words that the program does not take, unread.
    ensures statuses { Contains statuses result }
    ensures misused { result ≡ MISUSED → IsNone (pages_in (texts words.now)) }
    ensures no_pages { IsNone (pages_in (texts words.now)) → (result ≡ MISUSED) × (source.new ≡ source.old) }

    // On 0 each line was answered, once and in order, `out` received the answers, and `left` holds the last shell.
    ensures answered { result ≡ ANSWERED → IfSome (S.left source.old) (λ script. IfSome (pages_in (texts words.now)) (λ pages.
        (text : List ℕ) × (last : Shell) × (left.new ≡ Some last) × IsShell last × IsRun pages script text last × Appends (O.taken out.old) (O.taken out.new) text)) }
    ensures within { result ≡ ANSWERED → IfSome (S.left source.old) (λ script. length script ≤ 1048576) }
    ensures left { (result ≢ ANSWERED) → left.new ≡ None }

    // On 4 and 5 `out` received a prefix of the answers, and on 2, 3 and 6 nothing.
    ensures part { ((result ≡ WRITE_FAULT) ⊎ (result ≡ NO_MEMORY)) → (out.new ≡ out.old) ⊎ IfSome (S.left source.old) (λ script. IfSome (pages_in (texts words.now)) (λ pages.
        (text : List ℕ) × IsPart pages script text × Appends (O.taken out.old) (O.taken out.new) text)) }
    ensures nothing { ((result ≡ MISUSED) ⊎ ((result ≡ READ_FAULT) ⊎ (result ≡ TOO_LARGE))) → out.new ≡ out.old }

    // A fault is answered only if it came in this call, and 6 only if more than 1,048,576 bytes were read.
    ensures read_fault { result ≡ READ_FAULT → Rose (S.faults source.old) (S.faults source.new) }
    ensures write_fault { result ≡ WRITE_FAULT → Rose (O.faults out.old) (O.faults out.new) }
    ensures too_large { result ≡ TOO_LARGE → ReadsCount (S.left source.old) (S.left source.new) 1048577 }

    // Without a fault each script within the limit is answered, or memory ran out.
    ensures complete { ¬ Rose (S.faults source.old) (S.faults source.new) → ¬ Rose (O.faults out.old) (O.faults out.new) → (pages_in (texts words.now) ≢ None)
        → IfSome (S.left source.old) (λ script. length script ≤ 1048576 → (result ≡ NO_MEMORY) ⊎ (result ≡ ANSWERED)) }

    // `err` receives the line of the status, or a prefix of it if a write of it failed, and on 0 nothing.
    ensures line { (result ≢ ANSWERED) → IsSaid (E.taken err.old) (E.taken err.new) (E.faults err.old) (E.faults err.new) (line_of result) }
    ensures quiet { result ≡ ANSWERED → err.new ≡ err.old }
{
    match answer_script(rt, alloc, words, source, out) {
        Ok(shell) => {
            *left = Some(shell);
            ANSWERED
        }
        Err(stop) => {
            *left = None;
            stop.end(err)
        }
    }
}

/// Reads the script and answers it.
fn answer_script<R: Wait, S: Source, O: Sink>(
    rt: &R,
    alloc: Global,
    words: &[String],
    source: &mut S,
    out: &mut O,
) -> Result<Shell, Stop>
    ensures usage { result ≡ Err stop.Usage → IsNone (pages_in (texts words.now)) }
    ensures no_pages { IsNone (pages_in (texts words.now)) → (result ≡ Err stop.Usage) × (source.new ≡ source.old) }
    ensures answered { IfOk result (λ last. IfSome (S.left source.old) (λ script. IfSome (pages_in (texts words.now)) (λ pages.
        (text : List ℕ) × IsShell last × IsRun pages script text last × Appends (O.taken out.old) (O.taken out.new) text))) }
    ensures within { OnOk result (IfSome (S.left source.old) (λ script. length script ≤ 1048576)) }
    ensures part { ((result ≡ Err stop.WriteFault) ⊎ (result ≡ Err stop.Memory)) → (out.new ≡ out.old) ⊎ IfSome (S.left source.old) (λ script. IfSome (pages_in (texts words.now)) (λ pages.
        (text : List ℕ) × IsPart pages script text × Appends (O.taken out.old) (O.taken out.new) text)) }
    ensures nothing { ((result ≡ Err stop.Usage) ⊎ ((result ≡ Err stop.ReadFault) ⊎ (result ≡ Err stop.TooLong))) → out.new ≡ out.old }
    ensures read_fault { result ≡ Err stop.ReadFault → Rose (S.faults source.old) (S.faults source.new) }
    ensures write_fault { result ≡ Err stop.WriteFault → Rose (O.faults out.old) (O.faults out.new) }
    ensures too_long { result ≡ Err stop.TooLong → ReadsCount (S.left source.old) (S.left source.new) 1048577 }
{
    let Some(pages) = pages(words) else {
        return Err(Stop::Usage);
    };
    let script = read_script(alloc, source)?;
    let mut shell = Shell::new(alloc, pages)?;
    answer_lines(rt, alloc, &mut shell, script.as_slice(), out)?;
    Ok(shell)
}

/// How many pages the words ask for.
fn pages(words: &[String]) -> Option<u32>
    ensures pages { result ≡ pages_in (texts words.now) }
    ensures few { IfSome result (λ pages. pages ≤ 4096) }
{
    match words {
        [] => Some(USUAL_PAGES),
        [option, pages] => pages_by(option.as_str(), pages.as_str()),
        _ => None,
    }
}

/// How many pages the two words ask for.
fn pages_by(option: &str, pages: &str) -> Option<u32>
    ensures pages { result ≡ pages_in (option.now ∷ pages.now ∷ []) }
    ensures few { IfSome result (λ pages. pages ≤ 4096) }
{
    if option != "--pages" {
        return None;
    }
    if pages.len() > MOST_DIGITS {
        return None;
    }
    let pages = number(pages.as_bytes(), 0, MOST_PAGES)?;
    Some(pages as u32)
}

/// Answers each line, and writes all answers.
fn answer_lines<R: Wait, O: Sink>(
    rt: &R,
    alloc: Global,
    shell: &mut Shell,
    script: &[u8],
    out: &mut O,
) -> Result<(), Stop>
    requires shell { IsShell shell.old }
    ensures answered { OnOk result ((text : List ℕ) × Answers shell.old script.now text shell.new × Appends (O.taken out.old) (O.taken out.new) text) }
    ensures shell { OnOk result (IsShell shell.new) }
    ensures part { OnErr result ((text : List ℕ) × AnswersPart shell.old script.now text × Appends (O.taken out.old) (O.taken out.new) text) }
    ensures why { IfErr result (λ why. (why ≡ stop.WriteFault) ⊎ (why ≡ stop.Memory)) }
    ensures write_fault { result ≡ Err stop.WriteFault → Rose (O.faults out.old) (O.faults out.new) }
{
    let mut answers = Vec::new(alloc);
    let mut left = script;
    'lines: while let Some((line, rest)) = next_line(left) {
        let answer = shell.line(rt, alloc, line)?;
        push_line(&mut answers, answer.as_slice())?;
        write_full(out, &mut answers)?;
        left = rest;
    }
    let gathered = answers.as_slice();
    write(out, gathered)
}

/// The first line of a script, and what follows it.
fn next_line(script: &[u8]) -> Option<(&[u8], &[u8])>
    ensures none { IfNone result (script.now ≡ []) }
    ensures line { IfSome result (λ r. lines_of script.now ≡ r.0.now ∷ lines_of r.1.now) }
    ensures shorter { IfSome result (λ r. length r.1.now < length script.now) }
{
    if script.is_empty() {
        return None;
    }
    match place_of(script, b'\n') {
        Some(at) => Some((&script[..at], &script[at + 1..])),
        None => Some((script, &[])),
    }
}

/// Appends an answer and a line feed to the others.
fn push_line(answers: &mut Vec<u8>, answer: &[u8]) -> Result<(), AllocError>
    ensures { OnOk result (answers.new.items ≡ answers.old.items ++ (answer.now ++ 10 ∷ [])) }
{
    answers.extend_from_slice(answer)?;
    answers.push(b'\n')?;
    Ok(())
}

/// Writes the answers that are gathered, if they fill a piece.
fn write_full<O: Sink>(out: &mut O, answers: &mut Vec<u8>) -> Result<(), Stop>
    ensures whole { OnOk result (((answers.new.items ≡ answers.old.items) × (out.new ≡ out.old)) ⊎ ((answers.new.items ≡ []) × Appends (O.taken out.old) (O.taken out.new) answers.old.items)) }
    ensures prefix { OnErr result ((n : ℕ) × Appends (O.taken out.old) (O.taken out.new) (take n answers.old.items)) }
    ensures fault { IfErr result (λ why. (why ≡ stop.WriteFault) × Rose (O.faults out.old) (O.faults out.new)) }
    ensures faults { O.faults out.old ≤ O.faults out.new }
{
    if answers.len() < PIECE {
        return Ok(());
    }
    write(out, answers.as_slice())?;
    answers.clear();
    Ok(())
}

/// Writes answers.
fn write<O: Sink>(out: &mut O, answers: &[u8]) -> Result<(), Stop>
    ensures whole { OnOk result (Appends (O.taken out.old) (O.taken out.new) answers.now) }
    ensures prefix { OnErr result ((n : ℕ) × Appends (O.taken out.old) (O.taken out.new) (take n answers.now)) }
    ensures fault { IfErr result (λ why. (why ≡ stop.WriteFault) × Rose (O.faults out.old) (O.faults out.new)) }
    ensures faults { O.faults out.old ≤ O.faults out.new }
{
    match write_whole(out, answers) {
        Ok(()) => Ok(()),
        Err(_) => Err(Stop::WriteFault),
    }
}
