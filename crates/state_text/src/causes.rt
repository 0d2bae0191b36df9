//! Why a file is not taken, as the pieces of a text.

ghost use Rattle.std.specs.Prelude.{◌≡◌, ◌++◌, codes, decimal, map};
ghost use Rattle.std.specs.List.{concat};
ghost use Rattle.state_text.specs.Causes.{block_text, body_text, cause_text, file_text, foot_text, front_text, group_text, head_text, other_text, tuple_text};

use state_body::BodyFault;
use state_file::SectionRead;
use state_front::FrontFault;
use state_load::LoadCause;
use state_whole::{FileFault, GroupFault, OtherFile};

/// What is said of a file that is not taken.
pub fn cause_pieces<'a>(why: LoadCause, digits: &'a mut itoa::Buffer) -> [&'a str; 3]
    ensures { concat (map (λ piece. piece.now) result) ≡ cause_text why }
{
    match why {
        LoadCause::Front { why } => plain(front_text(why)),
        LoadCause::Other { why } => plain(other_text(why)),
        LoadCause::File { why } => file_pieces(why, digits),
    }
}

/// What is said of what comes after its head.
fn file_pieces<'a>(why: FileFault, digits: &'a mut itoa::Buffer) -> [&'a str; 3]
    ensures { concat (map (λ piece. piece.now) result) ≡ file_text why }
{
    match why {
        FileFault::Memory => plain("out of memory"),
        FileFault::Body { why } => body_pieces(why, digits),
        FileFault::Group { why } => group_pieces(why, digits),
        FileFault::Refused => plain("tuples and a refused row"),
        FileFault::Rows => plain("a group has too many rows"),
    }
}

fn body_pieces<'a>(why: BodyFault, digits: &'a mut itoa::Buffer) -> [&'a str; 3]
    ensures { concat (map (λ piece. piece.now) result) ≡ body_text why }
{
    match why {
        BodyFault::Memory => plain("out of memory"),
        BodyFault::Block { why } => plain(block_text(why)),
        BodyFault::Group { number } => of_tuple(digits.format(number), ": no group"),
        BodyFault::Foot { why } => plain(foot_text(why)),
        BodyFault::OtherFoot => plain("another foot"),
        BodyFault::Cut => plain("cut off in the end"),
        BodyFault::End => plain("another end"),
    }
}

fn group_pieces<'a>(why: GroupFault, digits: &'a mut itoa::Buffer) -> [&'a str; 3]
    ensures { concat (map (λ piece. piece.now) result) ≡ group_text why }
{
    match why {
        GroupFault::Memory => plain("out of memory"),
        GroupFault::NoGroup { number } => of_tuple(digits.format(number), ": no group"),
        GroupFault::Order { number } => of_tuple(digits.format(number), ": out of order"),
        GroupFault::Range { number } => of_tuple(digits.format(number), ": out of range"),
    }
}

/// The pieces of a text.
fn plain<'a>(text: &'a str) -> [&'a str; 3]
    ensures { concat (map (λ piece. piece.now) result) ≡ text.now }
{
    [text, "", ""]
}

/// The pieces of a text of a tuple.
fn of_tuple<'a>(number: &'a str, said: &'a str) -> [&'a str; 3]
    ensures { concat (map (λ piece. piece.now) result) ≡ codes "tuple " ++ (number.now ++ said.now) }
{
    ["tuple ", number, said]
}

fn front_text<'a>(why: FrontFault) -> &'a str
    ensures { result.now ≡ front_text why }
{
    match why {
        FrontFault::Memory => "out of memory",
        FrontFault::NoStates => "no states",
        FrontFault::OtherVersion => "another version",
        FrontFault::Section { why } => head_text(why),
        FrontFault::NoHead => "no right head",
    }
}

fn head_text<'a>(why: SectionRead) -> &'a str
    ensures { result.now ≡ head_text why }
{
    match why {
        SectionRead::Short => "cut off in the head",
        SectionRead::Long { .. } => "the head is too long",
        SectionRead::Sum => "wrong checksum of the head",
    }
}

fn block_text<'a>(why: SectionRead) -> &'a str
    ensures { result.now ≡ block_text why }
{
    match why {
        SectionRead::Short => "cut off in the blocks",
        SectionRead::Long { .. } => "a block is too long",
        SectionRead::Sum => "wrong checksum of a block",
    }
}

fn foot_text<'a>(why: SectionRead) -> &'a str
    ensures { result.now ≡ foot_text why }
{
    match why {
        SectionRead::Short => "cut off in the foot",
        SectionRead::Long { .. } => "the foot is too long",
        SectionRead::Sum => "wrong checksum of the foot",
    }
}

fn other_text<'a>(why: OtherFile) -> &'a str
    ensures { result.now ≡ other_text why }
{
    match why {
        OtherFile::Plan => "another plan than in the first file",
        OtherFile::Header => "another header than in the first file",
        OtherFile::Sources => "another number of sources than in the first file",
        OtherFile::Range => "another range than in the first file",
    }
}
