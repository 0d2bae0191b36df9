//! Files that are no comma-separated text, by their first bytes.

ghost use Rattle.std.specs.Prelude.{◌≡◌, slice_index};
ghost use Rattle.input_hints.specs.Kinds.{begins_in_any_case, has_long_mark, has_mark, is_bzip2, is_gzip, is_high_first, is_html, is_json, is_low_first, is_ole, is_parquet, is_pdf, is_sqlite, is_xz, is_zip, is_zstd, kind_by, kind_in, kind_text};

/// What a file is.
#[derive(Clone, Copy, Debug, PartialEq, Eq)]
pub enum Kind {
    Gzip,
    Xz,
    Zstd,
    /// An archive, which an `.xlsx` file is too.
    Zip,
    Parquet,
    Bzip2,
    /// An object, which may be the first of several, or a list of objects.
    Json,
    /// A file of Excel before 2007, or of another program of its time.
    Ole,
    Pdf,
    Sqlite,
    Html,
    /// With a byte-order mark.
    Utf32,
    /// With a byte-order mark.
    Utf16,
    /// With no mark, the lower byte of each unit first.
    Utf16Low,
    /// With no mark, the higher byte of each unit first.
    Utf16High,
}

impl Kind {
    /// What is said of it, with a command that makes text of it.
    pub fn text(self) -> &'static str
        ensures { result.now ≡ kind_text self }
    {
        match self {
            Kind::Gzip => "the input is compressed by gzip: zcat FILE | parstream ..",
            Kind::Xz => "the input is compressed by xz: xzcat FILE | parstream ..",
            Kind::Zstd => "the input is compressed by zstd: zstdcat FILE | parstream ..",
            Kind::Zip => {
                "the input is a zip archive: unzip -p FILE | parstream .., or save a spreadsheet as CSV"
            }
            Kind::Parquet => {
                "the input is Parquet: duckdb -csv -c \"FROM 'FILE'\" | parstream .."
            }
            Kind::Bzip2 => "the input is compressed by bzip2: bzcat FILE | parstream ..",
            Kind::Json => {
                "the input is JSON: duckdb -csv -c \"FROM read_json('FILE')\" | parstream .."
            }
            Kind::Ole => "the input is a file of Excel before 2007 or the like: save it as CSV",
            Kind::Pdf => "the input is PDF: save its table as CSV",
            Kind::Sqlite => {
                "the input is an SQLite database: sqlite3 -csv -header FILE 'SELECT * FROM t' | parstream .."
            }
            Kind::Html => "the input is HTML: save its table as CSV",
            Kind::Utf32 => "the input is UTF-32: iconv -f UTF-32 -t UTF-8 FILE | parstream ..",
            Kind::Utf16 => "the input is UTF-16: iconv -f UTF-16 -t UTF-8 FILE | parstream ..",
            Kind::Utf16Low => {
                "the input is UTF-16: iconv -f UTF-16LE -t UTF-8 FILE | parstream .."
            }
            Kind::Utf16High => {
                "the input is UTF-16: iconv -f UTF-16BE -t UTF-8 FILE | parstream .."
            }
        }
    }
}

/// What a file is by the bytes that it begins with, of which sixteen are looked at; none if it may be text. In constant time.
pub fn kind_of(bytes: &[u8]) -> Option<Kind>
    ensures { result ≡ kind_in bytes.now }
{
    kind_by(&bytes[..bytes.len().min(16)])
}

/// What a file is by these bytes.
fn kind_by(bytes: &[u8]) -> Option<Kind>
    ensures { result ≡ kind_by bytes.now }
{
    if is_gzip(bytes) {
        Some(Kind::Gzip)
    } else if is_xz(bytes) {
        Some(Kind::Xz)
    } else if is_zstd(bytes) {
        Some(Kind::Zstd)
    } else if is_zip(bytes) {
        Some(Kind::Zip)
    } else if is_parquet(bytes) {
        Some(Kind::Parquet)
    } else if is_bzip2(bytes) {
        Some(Kind::Bzip2)
    } else if is_json(bytes) {
        Some(Kind::Json)
    } else if is_ole(bytes) {
        Some(Kind::Ole)
    } else if is_pdf(bytes) {
        Some(Kind::Pdf)
    } else if is_sqlite(bytes) {
        Some(Kind::Sqlite)
    } else if is_html(bytes) {
        Some(Kind::Html)
    } else if has_long_mark(bytes) {
        Some(Kind::Utf32)
    } else if has_mark(bytes) {
        Some(Kind::Utf16)
    } else if is_low_first(bytes) {
        Some(Kind::Utf16Low)
    } else if is_high_first(bytes) {
        Some(Kind::Utf16High)
    } else {
        None
    }
}

fn is_gzip(bytes: &[u8]) -> bool
    ensures { result ≡ is_gzip bytes.now }
{
    bytes.starts_with(&[0x1f, 0x8b, 0x08])
}

fn is_xz(bytes: &[u8]) -> bool
    ensures { result ≡ is_xz bytes.now }
{
    bytes.starts_with(&[0xfd, 0x37, 0x7a, 0x58, 0x5a, 0x00])
}

fn is_zstd(bytes: &[u8]) -> bool
    ensures { result ≡ is_zstd bytes.now }
{
    bytes.starts_with(&[0x28, 0xb5, 0x2f, 0xfd])
}

/// Whether it is an archive, which may have no files in it.
fn is_zip(bytes: &[u8]) -> bool
    ensures { result ≡ is_zip bytes.now }
{
    bytes.starts_with(&[0x50, 0x4b, 0x03, 0x04]) || bytes.starts_with(&[0x50, 0x4b, 0x05, 0x06])
}

/// Whether it is Parquet: a column may be named `PAR1`, but then the next byte is another.
fn is_parquet(bytes: &[u8]) -> bool
    ensures { result ≡ is_parquet bytes.now }
{
    bytes.starts_with(&[0x50, 0x41, 0x52, 0x31, 0x15])
}

/// Whether it is compressed by bzip2, and not empty.
fn is_bzip2(bytes: &[u8]) -> bool
    ensures { result ≡ is_bzip2 bytes.now }
{
    bytes.starts_with(&[0x42, 0x5a, 0x68])
        && (byte_at(bytes, 4) == 0x31 && byte_at(bytes, 5) == 0x41)
}

/// The byte at a place, or 0 past the end.
fn byte_at(bytes: &[u8], at: usize) -> u8
    ensures { result ≡ slice_index bytes.now at }
{
    match bytes.get(at) {
        Some(byte) => *byte,
        None => 0,
    }
}

/// Whether it is JSON: a quote comes right after the first braces, as it does in no record.
fn is_json(bytes: &[u8]) -> bool
    ensures { result ≡ is_json bytes.now }
{
    bytes.starts_with(b"{\"") || bytes.starts_with(b"[{\"")
}

/// Whether it is a compound file of OLE.
fn is_ole(bytes: &[u8]) -> bool
    ensures { result ≡ is_ole bytes.now }
{
    bytes.starts_with(&[0xd0, 0xcf, 0x11, 0xe0])
}

/// Whether it is PDF: a column may be named `%PDF`, but hardly `%PDF-1`.
fn is_pdf(bytes: &[u8]) -> bool
    ensures { result ≡ is_pdf bytes.now }
{
    bytes.starts_with(b"%PDF-1") || bytes.starts_with(b"%PDF-2")
}

/// Whether it is a database of SQLite.
fn is_sqlite(bytes: &[u8]) -> bool
    ensures { result ≡ is_sqlite bytes.now }
{
    bytes.starts_with(b"SQLite format 3\0")
}

/// Whether it is HTML, which may begin with white space.
fn is_html(bytes: &[u8]) -> bool
    ensures { result ≡ is_html bytes.now }
{
    let text = bytes.trim_ascii_start();
    begins_in_any_case(text, b"<!doctype html") || begins_in_any_case(text, b"<html")
}

/// Whether bytes begin with these, if capital letters are taken for small ones.
fn begins_in_any_case(bytes: &[u8], front: &[u8]) -> bool
    ensures { result ≡ begins_in_any_case bytes.now front.now }
{
    let count = front.len().min(bytes.len());
    bytes[..count].eq_ignore_ascii_case(front)
}

/// Whether it begins with a byte-order mark of UTF-32.
fn has_long_mark(bytes: &[u8]) -> bool
    ensures { result ≡ has_long_mark bytes.now }
{
    bytes.starts_with(&[0xff, 0xfe, 0x00, 0x00]) || bytes.starts_with(&[0x00, 0x00, 0xfe, 0xff])
}

/// Whether it begins with a byte-order mark of UTF-16.
fn has_mark(bytes: &[u8]) -> bool
    ensures { result ≡ has_mark bytes.now }
{
    bytes.starts_with(&[0xff, 0xfe]) || bytes.starts_with(&[0xfe, 0xff])
}

/// Whether it begins with two characters of UTF-16 below 256, the lower byte of each first.
fn is_low_first(bytes: &[u8]) -> bool
    ensures { result ≡ is_low_first bytes.now }
{
    bytes.len() >= 4 && (bytes[0] != 0 && bytes[1] == 0) && (bytes[2] != 0 && bytes[3] == 0)
}

/// Whether it begins with two characters of UTF-16 below 256, the higher byte of each first.
fn is_high_first(bytes: &[u8]) -> bool
    ensures { result ≡ is_high_first bytes.now }
{
    bytes.len() >= 4 && (bytes[0] == 0 && bytes[1] != 0) && (bytes[2] == 0 && bytes[3] != 0)
}
