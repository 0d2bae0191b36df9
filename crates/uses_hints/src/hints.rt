//! What no clause says: that the calls succeed, and how their texts read.

use input_hints::{
    Asked, Expected, Kind, Name, Peeked, Wrong, asked_of, kind_of, refuse_input, refuse_words,
    tell, wrong_word,
};
use par_io::{MemSink, MemSource, read_whole};
use shown_text::shown;
use std::alloc::{AllocError, Global};
use std::test::Fail;

fn owned(alloc: Global, words: &str) -> Result<Vec<String>, AllocError> {
    let mut list = Vec::new(alloc);
    for word in words.split(' ') {
        let word = String::from_str(alloc, word)?;
        if list.push(word).is_err() {
            return Err(AllocError);
        }
    }
    Ok(list)
}

/// Words, and what they ask for.
const ASKED: [(&str, Option<Asked>); 8] = [
    ("--help", Some(Asked::Help)),
    ("-h", Some(Asked::Help)),
    ("--version", Some(Asked::Version)),
    ("--version --agg count -h", Some(Asked::Help)),
    ("--agg --version", Some(Asked::Version)),
    ("--agg count", None),
    ("--helpful --Version h", None),
    ("--group=-h --agg=--help", None),
];

#[test]
fn asks(rt: HostRuntime) -> Result<(), Fail> {
    for (words, wanted) in ASKED {
        let list = owned(rt.alloc(), words)?;
        assert!(rt; asked_of(list.as_slice()) == wanted, "{words}");
    }
    Ok(())
}

/// The version goes out whole; if the second write fails, a part does, and a line says so.
#[test]
fn tells(rt: HostRuntime) -> Result<(), Fail> {
    let table: [(u64, u8, &str, &str); 2] = [
        (0, 0, "parstream 0.2.0\n", ""),
        (2, 4, "parstrea", "parstream: write fault\n"),
    ];
    for (fail, status, written, said) in table {
        let fail = vec![in rt.alloc(); fail]?;
        let mut out = MemSink::new(rt.alloc(), 8, 80, fail)?;
        let mut err = MemSink::new(rt.alloc(), 8, 80, Vec::new(rt.alloc()))?;
        assert_eq!(rt; tell(Asked::Version, &mut out, &mut err), status);
        assert_eq!(rt; out.written(), written.as_bytes());
        assert_eq!(rt; err.written(), said.as_bytes());
    }
    Ok(())
}

/// The first bytes of files, and what these are.
const KINDS: [(&[u8], Option<Kind>); 36] = [
    (b"\x1f\x8b\x08\0", Some(Kind::Gzip)),
    (b"\xfd7zXZ\0\0\x04", Some(Kind::Xz)),
    (b"\x28\xb5\x2f\xfd\x04", Some(Kind::Zstd)),
    (b"PK\x03\x04\x14", Some(Kind::Zip)),
    (b"PK\x05\x06\0", Some(Kind::Zip)),
    (b"PAR1\x15\x04", Some(Kind::Parquet)),
    (b"BZh91AY&SY", Some(Kind::Bzip2)),
    (b"BZh91,v\n", None),
    (b"{\"g\":1}\n", Some(Kind::Json)),
    (b"[{\"g\":1}]\n", Some(Kind::Json)),
    (b"\xd0\xcf\x11\xe0\xa1\xb1", Some(Kind::Ole)),
    (b"%PDF-1.7\n", Some(Kind::Pdf)),
    (b"%PDF,v\n", None),
    (b"SQLite format 3\0\x10\0", Some(Kind::Sqlite)),
    (b"SQLite format 3,v\n", None),
    (b"<!DOCTYPE html>\n", Some(Kind::Html)),
    (b"\r\n <HTML lang=en>", Some(Kind::Html)),
    (b"            <html>", None),
    (b"<html", Some(Kind::Html)),
    (b"<h>,v\n", None),
    (b"{g},v\n", None),
    (b"[g],\"v\"\n", None),
    (b"\xff\xfe\0\0g\0\0\0", Some(Kind::Utf32)),
    (b"\0\0\xfe\xff\0\0\0g", Some(Kind::Utf32)),
    (b"\xff\xfeg\0", Some(Kind::Utf16)),
    (b"\xfe\xff\0g", Some(Kind::Utf16)),
    (b"g\0,\0v\0", Some(Kind::Utf16Low)),
    (b"\0g\0,\0v", Some(Kind::Utf16High)),
    (b"g,v\n", None),
    (b"PK,v\n", None),
    (b"PAR1,v\n", None),
    (b"\xef\xbb\xbfg,v\n", None),
    (b"\0\0\0\0", None),
    (b"g\0,", None),
    (b"\x1f\x8b", None),
    (b"", None),
];

#[test]
fn kinds(rt: HostRuntime) {
    for (bytes, wanted) in KINDS {
        assert!(rt; kind_of(bytes) == wanted, "{bytes:?}");
    }
}

/// Fields, and how they are shown.
const SHOWN: [(&[u8], &str); 14] = [
    (b"1.50", "\"1.50\""),
    (b"", "\"\""),
    (b"a\"b\\c", "\"a\\\"b\\\\c\""),
    (b"\x1b[31m\0\x7f\t", "\"\\x1b[31m\\x00\\x7f\\x09\""),
    (
        b"gr\xc3\xb6\xc3\x9fe \xe2\x82\xac \xf0\x9f\x98\x80",
        "\"gr\u{f6}\u{df}e \u{20ac} \u{1f600}\"",
    ),
    (b"gr\xf6\xdfe", "\"gr\\xf6\\xdfe\""),
    (b"\xc2\x9b1m", "\"\\xc2\\x9b1m\""),
    (
        b"a\xe2\x80\xaeb\xe2\x80\xa6",
        "\"a\\xe2\\x80\\xaeb\u{2026}\"",
    ),
    (b"\xef\xbb\xbfg", "\"\\xef\\xbb\\xbfg\""),
    (b"a\xc2\xa0b", "\"a\\xc2\\xa0b\""),
    (b"\xe2\x82", "\"\\xe2\\x82\""),
    (b"\xed\xa0\x80", "\"\\xed\\xa0\\x80\""),
    (
        b"0123456789012345678901234567890123456789",
        "\"0123456789012345678901234567890123456789\"",
    ),
    (
        b"01234567890123456789012345678901234567890",
        "\"0123456789012345678901234567890123456789\"..",
    ),
];

#[test]
fn shows(rt: HostRuntime) -> Result<(), Fail> {
    for (field, wanted) in SHOWN {
        let text = shown(rt.alloc(), field)?;
        assert_eq!(rt; text.as_str(), wanted);
    }
    Ok(())
}

/// Words, and which of them is not understood, by its place, and what may come there.
const WRONG: [(&str, Option<(usize, Expected)>); 49] = [
    ("--agg count", None),
    (
        "--group g --agg count --where v>1.5 --workers 1 --decimals 1 --",
        None,
    ),
    ("", Some((0, Expected::Name))),
    ("orders.csv", Some((0, Expected::Name))),
    ("--agg count orders.csv", Some((2, Expected::Name))),
    ("--group g", Some((2, Expected::Items))),
    ("--agg", Some((1, Expected::Value(Name::Agg)))),
    ("--agg mean:v", Some((1, Expected::Value(Name::Agg)))),
    ("--agg=mean:v", Some((0, Expected::Value(Name::Agg)))),
    (
        "--group g --agg sum(v) --workers 2",
        Some((3, Expected::Value(Name::Agg))),
    ),
    (
        "--agg count --where g<a",
        Some((3, Expected::Value(Name::Where))),
    ),
    (
        "--agg count --where v==1 --workers 128",
        Some((3, Expected::Value(Name::Where))),
    ),
    (
        "--agg count --workers auto",
        Some((3, Expected::Value(Name::Workers))),
    ),
    (
        "--workers 128 --agg count",
        Some((1, Expected::Value(Name::Workers))),
    ),
    (
        "--group g,,h --agg count",
        Some((1, Expected::Value(Name::Group))),
    ),
    ("--agg count --agg sum:v", Some((2, Expected::Other))),
    ("--agg count --plan gather", Some((2, Expected::Name))),
    ("--agg count --area-pages=9", Some((2, Expected::Name))),
    (
        "--agg count --decimals 19",
        Some((3, Expected::Value(Name::Decimals))),
    ),
    (
        "--decimals=v=2,w --agg sum:v",
        Some((0, Expected::Value(Name::Decimals))),
    ),
    (
        "--decimals 2 --agg sum:v --decimals 3",
        Some((4, Expected::Other)),
    ),
    // places that come after the filter count for it
    (
        "--agg count --where v>1.5",
        Some((3, Expected::Value(Name::Where))),
    ),
    ("--agg count --where v>1.5 --decimals v=1", None),
    // and for a later word that is not understood
    (
        "--agg count --where v>1.5 --workers auto --decimals v=1",
        Some((5, Expected::Value(Name::Workers))),
    ),
    (
        "--agg count --where v>1.55 --decimals v=1",
        Some((3, Expected::Value(Name::Where))),
    ),
    ("-g g --agg count", Some((0, Expected::Name))),
    // nothing comes after `--`, unless it is a value
    ("-- --agg count", Some((1, Expected::Nothing))),
    ("--agg count -- orders.csv", Some((3, Expected::Nothing))),
    ("--", Some((1, Expected::Items))),
    (
        "--agg count --workers --",
        Some((3, Expected::Value(Name::Workers))),
    ),
    ("--agg count, sum:v", Some((1, Expected::Value(Name::Agg)))),
    (
        "--where v>1 --group",
        Some((3, Expected::Value(Name::Group))),
    ),
    // how fields are read
    ("--separator ; --null NA,NULL,- --trim --agg count --", None),
    ("--separator=tab --agg count --null=", None),
    (
        "--agg count --separator \" --trim",
        Some((3, Expected::Value(Name::Separator))),
    ),
    (
        "--separator=;; --agg count",
        Some((0, Expected::Value(Name::Separator))),
    ),
    (
        "--separator \u{a7} --agg count",
        Some((1, Expected::Value(Name::Separator))),
    ),
    (
        "--separator \n --agg count",
        Some((1, Expected::Value(Name::Separator))),
    ),
    (
        "--agg count --separator",
        Some((3, Expected::Value(Name::Separator))),
    ),
    (
        "--separator ; --agg count --separator tab",
        Some((4, Expected::Other)),
    ),
    ("--agg count --null 1,2,3,4,5,6,7,8", None),
    (
        "--agg count --null 1,2,3,4,5,6,7,8,9",
        Some((3, Expected::Value(Name::Null))),
    ),
    ("--null NA --agg count --null=-", Some((4, Expected::Other))),
    // `--trim` has no value, so what comes after it is none
    (
        "--agg count --trim=yes",
        Some((2, Expected::Value(Name::Trim))),
    ),
    (
        "--trim=true --agg count",
        Some((0, Expected::Value(Name::Trim))),
    ),
    ("--agg count --trim yes", Some((3, Expected::Name))),
    ("--trim --agg count --trim", Some((3, Expected::Other))),
    ("--trim -- --agg count", Some((2, Expected::Nothing))),
    ("--agg --trim", Some((1, Expected::Value(Name::Agg)))),
];

/// The longest query, with every option, has thirty words; one more word is not understood.
#[test]
fn longest_query(rt: HostRuntime) -> Result<(), Fail> {
    let list = owned(rt.alloc(), LONGEST)?;
    assert_eq!(rt; list.len(), 30);
    assert!(rt; wrong_word(rt.alloc(), list.as_slice())?.is_none());
    let mut longer = list;
    longer.push(String::from_str(rt.alloc(), "more")?)?;
    let wanted = Wrong {
        at: 30,
        expected: Expected::Nothing,
    };
    assert!(rt; wrong_word(rt.alloc(), longer.as_slice())? == Some(wanted));
    Ok(())
}

/// All options of a query, each as often as it may be given.
const LONGEST: &str =
    "--group g --agg count --where v>1 --where v>1 --where v>1 --where v>1 --where v>1 --where v>1 --where v>1 --where v>1 --workers 1 --decimals 1 --separator ; --null NA --trim --";

#[test]
fn wrong_words(rt: HostRuntime) -> Result<(), Fail> {
    for (words, wanted) in WRONG {
        let list = owned(rt.alloc(), words)?;
        let found = wrong_word(rt.alloc(), list.as_slice())?;
        let wanted = wanted.map(|(at, expected)| Wrong { at, expected });
        assert!(rt; found == wanted, "{words}: {found:?}");
    }
    Ok(())
}

/// Words, and the line that they are answered with; none if they are a query.
const REFUSED: [(&str, &str); 11] = [
    ("--agg count", ""),
    (
        "--agg count orders.csv",
        "parstream: \"orders.csv\" is not understood: the options are --group, --agg, --where, --decimals, --separator, --null, --trim, --workers, --order, --limit, --output, --skip-bad and --no-header; the input is the standard input, as in < FILE; see parstream --help\n",
    ),
    (
        "--agg sum(v)",
        "parstream: \"sum(v)\" is not understood: --agg takes one to eight of count, count:C, sum:C, min:C, max:C and avg:C between commas, without spaces; see parstream --help\n",
    ),
    (
        "--where=gr\u{f6}\u{df}e>\u{1b}[31m01234567890123456789 --agg count",
        "parstream: \"--where=gr\u{f6}\u{df}e>\\x1b[31m0123456789012345678\".. is not understood: --where takes a column, one of = != < <= > >=, and an integer, or a decimal with --decimals, as in 'qty>=10'; after = and != also a text, as in region=north; see parstream --help\n",
    ),
    (
        "--agg count --agg sum:v",
        "parstream: \"--agg\" is not understood: this option may be given once; see parstream --help\n",
    ),
    (
        "--agg count --workers",
        "parstream: a word is missing at the end: --workers takes a number from 0 to 64; see parstream --help\n",
    ),
    (
        "--agg sum:v --decimals two",
        "parstream: \"two\" is not understood: --decimals takes a number from 0 to 18, or one for each column, as in 'price=2,weight=3'; see parstream --help\n",
    ),
    (
        "--group g",
        "parstream: a word is missing at the end: --agg ITEMS is missing; see parstream --help\n",
    ),
    (
        "--agg count --separator \"",
        "parstream: \"\\\"\" is not understood: --separator takes one character of ASCII that is no quote and ends no line, or tab; see parstream --help\n",
    ),
    (
        "--agg count --null",
        "parstream: a word is missing at the end: --null takes one to eight texts between commas, at most 248 bytes in all; see parstream --help\n",
    ),
    (
        "--agg count --trim=no",
        "parstream: \"--trim=no\" is not understood: --trim takes no value; see parstream --help\n",
    ),
];

#[test]
fn refuses_words(rt: HostRuntime) -> Result<(), Fail> {
    for (words, said) in REFUSED {
        let list = owned(rt.alloc(), words)?;
        let mut err = MemSink::new(rt.alloc(), 64, 400, Vec::new(rt.alloc()))?;
        let status = refuse_words(rt.alloc(), list.as_slice(), &mut err);
        let wanted = (!said.is_empty()).then_some(2);
        assert!(rt; status == wanted, "{words}");
        assert_eq!(rt; err.written(), said.as_bytes());
    }
    Ok(())
}

/// Inputs, the read that fails, the status that the input is refused with, and the line.
const INPUTS: [(&[u8], u64, Option<u8>, &str); 6] = [
    (b"g,v\na,1\n", 0, None, ""),
    (b"g\n", 0, None, ""),
    (b"", 0, None, ""),
    (
        b"\x1f\x8b\x08\0\0\0\0\0",
        0,
        Some(2),
        "parstream: the input is compressed by gzip: zcat FILE | parstream ..\n",
    ),
    (
        b"\xff\xfeg\0",
        0,
        Some(2),
        "parstream: the input is UTF-16: iconv -f UTF-16 -t UTF-8 FILE | parstream ..\n",
    ),
    (b"g,v\na,1\n", 2, Some(3), "parstream: read fault\n"),
];

/// After an input was looked at, all of it is left, whatever was said of it.
#[test]
fn refuses_inputs(rt: HostRuntime) -> Result<(), Fail> {
    for (bytes, fail, wanted, said) in INPUTS {
        let fail = vec![in rt.alloc(); fail]?;
        let bytes_there = Vec::from_slice(rt.alloc(), bytes)?;
        let mut source = Peeked::new(MemSource::new(bytes_there, 4, fail));
        let mut err = MemSink::new(rt.alloc(), 64, 200, Vec::new(rt.alloc()))?;
        let status = refuse_input(&mut source, &mut err);
        assert!(rt; status == wanted, "{bytes:?}");
        assert_eq!(rt; err.written(), said.as_bytes());
        let whole = match read_whole(rt.alloc(), &mut source, 100) {
            Ok(whole) => whole,
            Err(_) => return Err(Fail::new("no bytes")),
        };
        assert_eq!(rt; whole.as_slice(), bytes);
    }
    Ok(())
}
